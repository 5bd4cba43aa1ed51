// What the machine's copies keep, as a law.
ghost use Rattle.hart_machine.specs.Copying.{CopyIsStepAtHome};

/// A law: each step of a hart at a slot that it entered is, once it is settled, the plain step of the slot's word at
/// home, with the same answer, memory and bytes. It is counted as an instruction and as a copy where it ran.
pub fn copy_is_step_at_home()
    ensures { CopyIsStepAtHome }
{}
