// A thread as commands see it.
use rv_exec::Regs;

/// What a command may see of a thread. Of one that runs no answer shows a register.
#[derive(Clone, Copy)]
pub enum ThreadView {
    /// It is stopped, with these registers.
    Stopped(Regs),
    Running,
    /// It has exited, or is about to.
    Exited,
}
