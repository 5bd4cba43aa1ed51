// The ends of a session.
use dbg_model::{Journal, Opening};
use hart_machine::Machine;

/// Why a session is over.
#[derive(Clone, Copy)]
pub enum End {
    /// The retired instructions number the budget.
    Budget,
    /// The journal has the most entries other than `Ran`.
    History,
    /// A line ended it.
    Exit,
}

/// What is left of an engine.
#[derive(Drop)]
pub struct Closed {
    /// What the session began with.
    pub opening: Opening,
    /// What was done.
    pub journal: Journal,
    /// The machine as it stands at the end.
    pub machine: Machine,
}
