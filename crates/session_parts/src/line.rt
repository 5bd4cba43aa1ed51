// What comes of a line of the input.

/// What one line did. Each number is the place behind the line.
#[derive(Clone, Copy)]
pub enum Done {
    Nothing,
    /// It waits until no hart runs.
    Waits,
    Done(usize),
    /// It was done, and a put of its reply failed.
    Unput(usize),
    /// It was done, and there was no memory for its reply.
    Unsaid(usize),
    NoMemory,
}
