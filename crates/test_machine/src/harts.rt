// The harts of a machine.
ghost use Rattle.std.specs.Prelude.{◌<◌, length};

use crate::words::told_words;
use dbg_traits::View;
use hart_machine::Machine;
use reg_slices::{Slice, run_slice};
use rv_exec::Regs;
use std::alloc::Global;
use test_rows::Piece::{Count, Hex, Number, Text};
use test_rows::{RowFault, number_at, said, shown, told};

fn slice(alloc: Global, machine: &mut Machine, hart: u32, limit: u32) -> Result<String, RowFault>
    requires { hart < length machine.old.cores }
{
    let slice = run_slice(machine.job(hart, limit));
    machine.take_slice(&slice);
    let Slice {
        hart,
        regs,
        at,
        words,
        count,
        after,
    } = slice;
    told_slice(alloc, hart, (&regs, &after), words.as_slice(), (at, count))
}

fn told_slice(
    alloc: Global,
    hart: u32,
    (regs, after): (&Regs, &Regs),
    words: &[u32],
    (at, count): (u32, u32),
) -> Result<String, RowFault> {
    let window = told_words(alloc, words)?;
    told(
        alloc,
        &[
            Text("hart "),
            Number(hart),
            Text(" at "),
            Hex(regs.pc()),
            Text(" in "),
            Text(window.as_str()),
            Text(" from "),
            Hex(at),
            Text(", "),
            Number(count),
            Text(" to "),
            Hex(after.pc()),
            Text(", x5 "),
            Hex(after.get(5)),
        ],
    )
}

fn show(alloc: Global, machine: &Machine, hart: u32) -> Result<String, RowFault>
    requires { hart < length machine.now.cores }
{
    let view = machine.view(hart);
    told(
        alloc,
        &[
            Hex(machine.pc(hart)),
            Text(" "),
            Hex(view.reg(1)),
            Text(" "),
            Hex(view.reg(10)),
            Text(", "),
            Count(machine.retired(hart)),
            Text(" executed, "),
            Count(machine.copied(hart)),
            Text(" in slots"),
        ],
    )
}

fn register(alloc: Global, machine: &Machine, hart: u32, number: u32) -> Result<String, RowFault>
    requires { hart < length machine.now.cores }
{
    if number > 32 {
        return said(alloc, "no such register");
    }
    told(alloc, &[Hex(machine.view(hart).reg(number))])
}

fn set(
    alloc: Global,
    machine: &mut Machine,
    hart: u32,
    number: u32,
    value: u32,
) -> Result<String, RowFault>
    requires { hart < length machine.old.cores }
{
    if number == 0 || number > 31 || machine.cores()[hart as usize].entered.is_some() {
        return said(alloc, "can't be set");
    }
    machine.poke_register(hart, number, value);
    said(alloc, "set")
}

/// What came of a step of a hart: `step HART`; `run HART LIMIT`, how many steps there were in one call; `slice HART LIMIT`, where a
/// job of so many instructions at most is worked apart from the machine, which takes what comes of it, and said are the hart and the
/// pc before, the window, how many instructions there were, and pc and x5 after them; `hart HART`, its pc, ra and a0, how many
/// instructions it has executed, and how many of them in scratch slots; `register HART NUMBER`, of which 32 is pc; or `set HART
/// NUMBER VALUE`.
pub fn answer(
    alloc: Global,
    machine: &mut Machine,
    word: &str,
    rest: &str,
) -> Result<String, RowFault> {
    let (hart, number, value) = (number_at(rest, 0), number_at(rest, 1), number_at(rest, 2));
    if (hart as usize) >= machine.harts() {
        return said(alloc, "no such hart");
    }
    match word {
        "step" => shown(alloc, &machine.step(hart)),
        "run" => told(alloc, &[Number(machine.run(hart, number))]),
        "slice" => slice(alloc, machine, hart, number),
        "register" => register(alloc, machine, hart, number),
        "set" => set(alloc, machine, hart, number, value),
        _ => show(alloc, machine, hart),
    }
}
