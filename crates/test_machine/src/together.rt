// The machine and the plain machine, side by side.
ghost use Rattle.std.specs.Prelude.{◌<◌, length};

use crate::programs::{DATA, SETTINGS, image_of};
use dbg_traits::View;
use elf32_read::Image;
use hart_machine::Machine;
use rv_exec::Stepped;
use std::alloc::Global;
use test_rows::Piece::{Count, Hex, Text};
use test_rows::{RowFault, said, shown, told};
use unpatched_machine::Plain;

// Whether the registers of both harts and the data are the same.
fn same(machine: &Machine, plain: &Plain<'_>) -> bool {
    for h in 0..2u32 {
        if (h as usize) >= machine.harts() || (h as usize) >= plain.harts() {
            return false;
        }
        if plain.registers(h as usize) != *machine.view(h).regs {
            return false;
        }
    }
    let mut bytes = [0u8; 8];
    let mut others = [1u8; 8];
    machine.read_range(DATA, &mut bytes) == Ok(())
        && plain.read_range(DATA, &mut others) == Ok(())
        && bytes == others
}

// What hart 1 answers to its last step, with its count, pc, and a0 to a3.
fn told_step(alloc: Global, machine: &Machine, answer: Stepped) -> Result<String, RowFault>
    requires { 1 < length machine.now.cores }
{
    let view = machine.view(1);
    let answer = shown(alloc, &answer)?;
    told(
        alloc,
        &[
            Text(answer.as_str()),
            Text(", "),
            Count(machine.retired(1)),
            Text(" executed, "),
            Hex(view.reg(32)),
            Text(" "),
            Hex(view.reg(10)),
            Text(" "),
            Hex(view.reg(11)),
            Text(" "),
            Hex(view.reg(12)),
            Text(" "),
            Hex(view.reg(13)),
        ],
    )
}

// What came of steps on both machines.
#[derive(Clone, Copy)]
enum Together {
    // Both did the same at each, and this at the last one.
    Same(Stepped),
    Differ,
    NoHart,
}

// So many steps of hart 1 on both machines.
fn step_both(machine: &mut Machine, plain: &mut Plain<'_>, steps: u32) -> Together {
    let mut answer = Stepped::Hit;
    for _ in 0..steps {
        if machine.harts() < 2 || plain.harts() < 2 {
            return Together::NoHart;
        }
        answer = machine.step(1);
        if plain.step(1) != answer || !same(machine, plain) {
            return Together::Differ;
        }
    }
    Together::Same(answer)
}

fn told_both(alloc: Global, machine: &Machine, together: Together) -> Result<String, RowFault> {
    match together {
        Together::Same(answer) if machine.harts() > 1 => told_step(alloc, machine, answer),
        Together::Differ => said(alloc, "the machines differ"),
        _ => said(alloc, "no such hart"),
    }
}

// The machines are owned by functions with one way out each: what is let go of at many costs the proof as often.
fn beside_plain(
    alloc: Global,
    image: &Image,
    machine: &mut Machine,
    steps: u32,
) -> Result<String, RowFault> {
    match Plain::load(alloc, image, SETTINGS) {
        Ok(mut plain) => {
            let together = step_both(machine, &mut plain, steps);
            told_both(alloc, machine, together)
        }
        Err(_) => said(alloc, "no memory"),
    }
}

fn over(alloc: Global, image: &Image, steps: u32) -> Result<String, RowFault> {
    match Machine::load(alloc, image, SETTINGS) {
        Ok(mut machine) => beside_plain(alloc, image, &mut machine, steps),
        Err(_) => said(alloc, "no memory"),
    }
}

/// So many steps of hart 1 on both machines, which do the same at each, unless it is said that they don't.
pub fn stepped(alloc: Global, steps: u32, words: &str) -> Result<String, RowFault> {
    match image_of(alloc, words) {
        Some(image) => over(alloc, &image, steps),
        None => said(alloc, "no program"),
    }
}
