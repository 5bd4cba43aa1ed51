// The command that lists the values of registers.
ghost use Rattle.std.specs.Prelude.{◌≡◌, IfOk, map};
ghost use Rattle.dbg_model.specs.Sight.{thread_or};
ghost use Rattle.dbg_model.specs.Data.{asked_registers, register_values, valued};
ghost use Rattle.dbg_answers.specs.Debuggee.{seen};
ghost use Rattle.dbg_answers.specs.Answer.{Gives};

use crate::answer::{Answer, Failure, showing};
use crate::debuggee::Debuggee;
use dbg_model::{Content, Register, RegisterList, shown_register};
use dbg_traits::NumberList;
use mi_commands::Format;
use rv_exec::Regs;
use std::alloc::{AllocError, Global};

/// The numbers of all registers: x0 to x31, and pc.
const ALL: [u32; 33] = [
    0, 1, 2, 3, 4, 5, 6, 7, 8, 9, 10, 11, 12, 13, 14, 15, 16, 17, 18, 19, 20, 21, 22, 23, 24, 25,
    26, 27, 28, 29, 30, 31, 32,
];

// The registers of these numbers.
fn valued(alloc: Global, regs: &Regs, numbers: &[u32]) -> Result<Vec<Register>, AllocError>
    ensures { IfOk result (λ v. v.items ≡ map (valued regs.now) numbers.now) }
{
    let mut registers = Vec::new(alloc);
    for number in numbers {
        registers.push(Register {
            number: *number,
            value: shown_register(regs, *number),
        })?;
    }
    Ok(registers)
}

/// `-data-list-register-values [--thread N] FORMAT [N..]`.
pub fn register_values(
    alloc: Global,
    debuggee: &Debuggee<'_>,
    thread: Option<u32>,
    format: Format,
    numbers: &NumberList,
) -> Result<Answer, Failure>
    ensures { Gives result (register_values (seen debuggee.now) thread format numbers.now) }
{
    let regs = debuggee.stopped(thread.unwrap_or(debuggee.selected))?;
    let asked = if numbers.as_slice().is_empty() {
        &ALL
    } else {
        numbers.as_slice()
    };
    Ok(showing(Content::Registers {
        format,
        registers: RegisterList::of(valued(alloc, &regs, asked)?),
    }))
}
