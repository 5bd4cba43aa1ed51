//! What a check says.

/// What is said of a journal and a text.
#[derive(Clone, Copy)]
pub enum CheckVerdict {
    /// The journal is lawful, and the text is what is said of it.
    Accepted,
    /// This entry, counted from 1, is the first that may not come.
    Unlawful { entry: u64 },
    /// The journal is lawful. This place, counted from 0, is the first at which the text isn't what is said, or where one of them ends.
    Differs { place: usize },
}
