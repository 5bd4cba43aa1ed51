//! What is owed after an instruction was executed at another address than its own.
#![tactic(auto)]

ghost use Rattle.std.specs.Prelude.{◌≡◌, ℕ, ◌<◌, ◌^◌, ◌%◌};
ghost use Rattle.displaced_fix.specs.Fix.{fix, moved_register, CopiedStepIsHome};

use rv_decode::{Instr, Reg};
use rv_exec::Regs;

/// Makes of the registers that a copy of the instruction left at `slot` those that the instruction leaves at
/// `home`. Where the copy didn't run, pc alone goes back to `home`.
pub fn fix(i: Instr, slot: u32, home: u32, regs: &mut Regs, ran: bool)
    ensures { regs.new ≡ fix i slot home regs.old ran }
{
    if !ran {
        regs.set_pc(home);
        return;
    }
    let distance = home.wrapping_sub(slot);
    match i {
        Instr::Auipc { rd, .. } | Instr::Jal { rd, .. } => {
            move_register(regs, rd, distance);
            regs.set_pc(regs.pc().wrapping_add(distance));
        }
        Instr::Jalr { rd, .. } => move_register(regs, rd, distance),
        _ => regs.set_pc(regs.pc().wrapping_add(distance)),
    }
}

/// Adds the distance to the register, unless it is x0.
fn move_register(regs: &mut Regs, rd: Reg, distance: u32)
    ensures { regs.new ≡ moved_register regs.old rd distance }
{
    let n = rd.number();
    regs.set(n, regs.get(n).wrapping_add(distance));
}

/// A law: for every instruction, register file and memory, a step at `slot` and its fix are the step at `home`,
/// with the same memory and the same cause of a trap, where both addresses are multiples of 4.
pub fn copied_step_is_home()
    ensures { CopiedStepIsHome }
{}
