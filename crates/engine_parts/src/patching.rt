// The planted words of the machine.
ghost use Rattle.std.specs.Prelude.{◌≡◌, ◌<◌, ◌^◌, IsSome, true};
ghost use Rattle.text_words.specs.Words.{shown, is_planted};
ghost use Rattle.engine_parts.specs.Facts.{called, wanted};
ghost use Rattle.engine_parts.specs.Changing.{wants_by};
ghost use Rattle.engine_parts.specs.Moves.{Repatched, HeldInText, Released};

use crate::Hold;
use break_table::BreakTable;
use hart_machine::Machine;

/// The word of an address is patched, or is so no more, if there is one.
pub fn repatch(machine: &mut Machine, addr: u32, wants: bool)
    requires wants { wants ≡ true → IsSome (shown machine.old.text addr) }
    requires planted { is_planted machine.old.text addr ≡ true → IsSome (shown machine.old.text addr) }
    ensures text { Repatched machine.old.text machine.new.text addr wants }
    ensures rest { machine.new ≡ record machine.old { text = machine.new.text } }
{
    let planted = machine.planted(addr);
    if wants && !planted {
        machine.plant(addr);
    } else if !wants && planted {
        machine.lift(addr);
    }
}

// Whether a patch is called for at an address: a breakpoint stands there, or a hart waits there.
fn is_called(table: &BreakTable, addr: u32) -> bool
    ensures { result ≡ called table.now.entries table.now.waits addr }
{
    table.stands(addr) || table.waits(addr)
}

/// A lifted patch is planted again where one is called for.
pub fn release(machine: &mut Machine, hold: Option<Hold>, table: &BreakTable)
    requires { HeldInText machine.old.text hold }
    ensures text { Released machine.old.text machine.new.text table.now.entries table.now.waits hold }
    ensures rest { machine.new ≡ record machine.old { text = machine.new.text } }
{
    if let Some(hold) = hold {
        repatch(machine, hold.home, is_called(table, hold.home));
    }
}

/// Whether a patch is wanted at an address: it is called for there, and isn't lifted.
pub fn wants(table: &BreakTable, hold: Option<Hold>, addr: u32) -> bool
    ensures { result ≡ wanted (wants_by table.now hold) addr }
{
    match hold {
        None => is_called(table, addr),
        Some(hold) => is_called(table, addr) && hold.home != addr,
    }
}

/// The word of an address is patched where that is wanted now.
pub fn plant_as_wanted(machine: &mut Machine, table: &BreakTable, hold: Option<Hold>, addr: u32)
    requires { addr < 2 ^ 32 → IsSome (shown machine.old.text addr) }
    ensures text { Repatched machine.old.text machine.new.text addr (wanted (wants_by table.now hold) addr) }
    ensures there { IsSome (shown machine.old.text addr) }
    ensures rest { machine.new ≡ record machine.old { text = machine.new.text } }
{
    let wants = wants(table, hold, addr);
    repatch(machine, addr, wants);
}
