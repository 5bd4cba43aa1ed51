// Harts that come home from their scratch slots.
ghost use Rattle.std.specs.Prelude.{◌≡◌, ◌<◌, ◌≤◌, ◌+◌, ◌^◌, ℕ, length, slice_get, None, Some, true};
ghost use Rattle.rv_exec.specs.Registers.{Registers};
ghost use Rattle.hart_machine.specs.Copying.{settled_regs};
ghost use Rattle.engine_parts.specs.declared.mind.Mind.{Mind};
ghost use Rattle.engine_parts.specs.Moves.{HeldInText, Released};
ghost use Rattle.engine_parts.specs.Homecoming.{IsSlotted, GoesHome, AllGoHome};
ghost use Rattle.engine_parts.specs.Changing.{wants_by};
ghost use Rattle.engine_parts.specs.Homing.{HomedBy, leaving_view};

use crate::patching::release;
use crate::{Hold, Mind, Phase};
use break_table::BreakTable;
use hart_machine::Machine;
use rv_decode::{Instr, decode};
use rv_exec::Stepped;

/// The pc at home of a hart that has executed a copy of the word and is at this pc: only JALR leaves one that isn't
/// counted from the copy's. A word that is no instruction did nothing.
pub fn landed_pc(word: u32, slot: u32, home: u32, pc: u32) -> u32
    ensures { (r : Registers) → r.pc ≡ pc → (settled_regs word slot home r true).pc ≡ result }
{
    match decode(word) {
        None => home,
        Some(Instr::Jalr { .. }) => pc,
        Some(_) => pc.wrapping_add(home.wrapping_sub(slot)),
    }
}

/// Takes a hart home from the slot of its phase, if it has one.
pub fn go_home(machine: &mut Machine, h: u32, phase: Phase)
    requires hart { h < length machine.old.cores }
    requires slot { IsSlotted machine.old h phase }
    ensures { GoesHome machine.old machine.new h phase }
{
    match phase {
        Phase::Copied { slot, home } => {
            machine.finish_copy(h, slot, home, false);
        }
        Phase::Landed { slot, home } => {
            machine.finish_copy(h, slot, home, true);
        }
        Phase::Idle | Phase::Lifted { .. } | Phase::Ran { .. } => {}
    }
}

/// Takes each hart of the list home; the first of them has the number `h`.
pub fn go_home_each(machine: &mut Machine, minds: &[Mind], h: u32)
    requires few { length machine.old.cores ≤ 16 }
    requires harts { h + length minds.now ≤ length machine.old.cores }
    requires slots { (j : ℕ) (x : Mind) → slice_get minds.now j ≡ Some x → IsSlotted machine.old (h + j) x.phase }
    ensures { AllGoHome machine.old machine.new h minds.now }
{
    let [first, rest @ ..] = minds else {
        return;
    };
    go_home(machine, h, first.phase);
    go_home_each(machine, rest, h + 1);
}

// A lifted patch is planted again where one is called for, and is held no more.
fn let_go(machine: &mut Machine, hold: &mut Option<Hold>, table: &BreakTable)
    requires { HeldInText machine.old.text hold.old }
    ensures text { Released machine.old.text machine.new.text table.now.entries table.now.waits hold.old }
    ensures rest { machine.new ≡ record machine.old { text = machine.new.text } }
    ensures none { hold.new ≡ None }
{
    release(machine, *hold, table);
    *hold = None;
}

/// A hart after an instruction by which it may leave, and the others with it.
#[derive(Clone, Copy)]
pub struct Leaving<'a> {
    pub hart: u32,
    /// Where it is in a step over a breakpoint.
    pub phase: Phase,
    /// What is kept of each hart.
    pub minds: &'a [Mind],
}

/// After an exit the harts that leave come home, and no patch stays lifted.
pub fn go_home_at_exit(
    stepped: Stepped,
    machine: &mut Machine,
    hold: &mut Option<Hold>,
    table: &BreakTable,
    leaving: &Leaving<'_>,
)
    requires text { HeldInText machine.old.text hold.old }
    requires few { length machine.old.cores ≤ 16 }
    requires harts { length leaving.now.minds.now ≤ length machine.old.cores }
    requires hart { leaving.now.hart < length machine.old.cores }
    requires slot { IsSlotted machine.old leaving.now.hart leaving.now.phase }
    requires slots { (j : ℕ) (x : Mind) → slice_get leaving.now.minds.now j ≡ Some x → IsSlotted machine.old j x.phase }
    ensures { HomedBy stepped (wants_by table.now hold.old) hold.new (leaving_view leaving.now) machine.old machine.new }
{
    match stepped {
        Stepped::HartExit(_) => {
            go_home(machine, leaving.hart, leaving.phase);
            let_go(machine, hold, table);
        }
        Stepped::AllExit(_) => {
            go_home_each(machine, leaving.minds, 0);
            let_go(machine, hold, table);
        }
        Stepped::Ran | Stepped::Wrote { .. } | Stepped::Hit | Stepped::Trap(_) => {}
    }
}
