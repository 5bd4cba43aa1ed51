//! What a check finds.

use session_log::LogFault;

/// What a check finds of an input. Of several the first of these is told that isn't `Accepted`.
#[derive(Clone, Copy)]
pub enum Finding {
    /// It is the record of a lawful session, with a log of so many entries.
    Accepted { entries: u64 },
    /// It is too long to be read.
    Long,
    /// It is no text with a log.
    Fault(LogFault),
    /// This entry of its log, counted from 1, is the first that may not come.
    Unlawful { entry: u64 },
    /// The byte at this place, counted from 0, is the first that isn't what was said, or there one of the two ends.
    Differs { place: usize },
}
