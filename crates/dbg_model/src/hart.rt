// A hart, as the journal leaves it.
use crate::{Course, Mode};
use rv_exec::Regs;

/// A hart of a session, with what the debugger is to do with it.
#[derive(Clone, Copy)]
pub struct Hart {
    pub regs: Regs,
    pub mode: Mode,
    /// An interrupt is asked of it.
    pub asked: bool,
    pub course: Course,
}
