// What is handed back of a session.
use crate::Status;
use engine_parts::ending::Closed;

/// How a run ended: the world is handed back.
pub struct Ended<W> {
    /// Why it ended.
    pub status: Status,
    pub world: W,
    /// What is left of the session; None where none was begun.
    pub closed: Option<Closed>,
}
