//! The first byte of a notice and of a stream.

/// What a notice tells of.
#[derive(Clone, Copy)]
pub enum NoticeSign {
    /// `*`: the state of execution changed.
    Exec,
    /// `=`: something else changed.
    Notify,
}

/// Whose text a stream has.
#[derive(Clone, Copy, Debug)]
pub enum StreamSign {
    /// `@`: the program's output.
    Target,
    /// `&`: a message of the debugger.
    Log,
}
