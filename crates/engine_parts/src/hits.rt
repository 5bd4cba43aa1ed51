// What the breakpoints do with a hart that arrives.
ghost use Rattle.std.specs.Prelude.{◌≡◌, ◌<◌, ◌-◌, ◌^◌, length, Some, slice_get};
ghost use Rattle.rv_exec.specs.Registers.{set_pc};
ghost use Rattle.hart_machine.specs.declared.hart.Core.{Core};
ghost use Rattle.break_table.specs.Arrival.{due_of, settled};
ghost use Rattle.dbg_model.specs.Views.{register, shown_byte};

use break_table::{BreakTable, Due};
use dbg_model::SeenHart;
use elf32_read::Image;
use hart_machine::Machine;

/// What the breakpoints do with a hart that has just arrived, and shows its pc there.
pub fn due_at(table: &BreakTable, image: &Image, machine: &Machine, h: u32, pc: u32) -> Due
    requires { h < length machine.now.cores }
    ensures { (c : Core) → slice_get machine.now.cores h ≡ Some c → result ≡ due_of h (register (set_pc c.regs pc)) (shown_byte image.now machine.now.memory) table.now.entries }
{
    let regs = &machine.cores()[h as usize].regs;
    table.due(
        h,
        &SeenHart {
            regs,
            pc: Some(pc),
            image,
            memory: machine.data(),
        },
    )
}

/// The changes in the table of the arrival of a hart that shows its pc there.
pub fn settle(table: &mut BreakTable, image: &Image, machine: &Machine, h: u32, pc: u32)
    requires { h < length machine.now.cores }
    ensures entries { (c : Core) → slice_get machine.now.cores h ≡ Some c → table.new.entries ≡ settled h (register (set_pc c.regs pc)) (shown_byte image.now machine.now.memory) table.old.entries }
    ensures rest { table.new ≡ record table.old { entries = table.new.entries } }
{
    let regs = &machine.cores()[h as usize].regs;
    table.settle_arrival(
        h,
        &SeenHart {
            regs,
            pc: Some(pc),
            image,
            memory: machine.data(),
        },
    );
}
