// The machine over unpatched text, without breakpoints.
ghost use Rattle.std.specs.Prelude.{◌≡◌, ◌<◌, ◌≤◌, Err, IfErr, IfOk, MatchResult, Ok, Some, length, map, slice_get};
ghost use Rattle.data_memory.specs.Ranges.{range_at};
ghost use Rattle.dbg_traits.specs.Settings.{AreSettings};
ghost use Rattle.plain_machine.specs.Answers.{IsByteCode};
ghost use Rattle.plain_machine.specs.PlainRun.{first_harts};
ghost use Rattle.unpatched_machine.specs.Unpatched.{GoesOn, PlainSteps, registers_of, started};

use crate::instruction::execute_plain;
use data_memory::DataMemory;
use dbg_traits::{NoMemory, Settings};
use elf32_read::Image;
use plain_machine::first_registers;
use rv_exec::{Regs, Stepped};
use std::alloc::{AllocError, Global};
use std::marker::Model;

/// The harts of an image over its unpatched text, and one memory. It is slow: each step looks its word up in the
/// image and decodes it anew. It has no breakpoints.
#[derive(Drop)]
pub struct Plain<'a> {
    image: &'a Image,
    harts: Vec<Regs>,
    memory: DataMemory,
}

impl<'a> Model for Plain<'a> {
    ghost use Rattle.unpatched_machine.specs.Unpatched.{Unpatched};
    ghost use Rattle.std.specs.Coded.{codes};
    ghost use Rattle.data_memory.specs.Maps.{memory_code};

    ghost Value = { Unpatched };

    ghost coded = { Prim.hlevel (codes, memory_code) };

    ghost view = { λ m. record { program = m.image.now; harts = m.harts.items; memory = m.memory } };
}

#[tactic(auto, using(crate::proofs::Stepping::one_more))]
fn first_harts(alloc: Global, image: &Image, harts: u32) -> Result<Vec<Regs>, AllocError>
    requires { harts ≤ 16 }
    ensures { IfOk result (λ v. v.items ≡ map registers_of (first_harts image.now harts harts)) }
{
    let mut all = Vec::new(alloc);
    for hart in 0..harts {
        all.push(first_registers(image.entry(), harts, hart))?;
    }
    Ok(all)
}

impl<'a> Plain<'a> {
    /// A machine before its first step: each hart at the entry, over the image's data and an empty stack for each.
    ///
    /// Fails where memory runs out.
    pub fn load(alloc: Global, image: &'a Image, settings: Settings) -> Result<Plain<'a>, NoMemory>
        requires { AreSettings settings }
        ensures { IfOk result (λ m. m ≡ started image.now settings.harts) }
    {
        let harts = first_harts(alloc, image, settings.harts)?;
        let memory = DataMemory::load(alloc, image, settings.harts)?;
        Ok(Plain {
            image,
            harts,
            memory,
        })
    }

    /// How many harts there are.
    pub fn harts(&self) -> usize
        ensures { result ≡ length self.now.harts }
    {
        self.harts.len()
    }

    /// The registers of a hart.
    pub fn registers(&self, h: usize) -> Regs
        requires { h < length self.now.harts }
        ensures { slice_get self.now.harts h ≡ Some result }
    {
        self.harts[h]
    }

    /// The bytes from an address on; the first address that can't be read where there is one, and then nothing changed.
    pub fn read_range(&self, addr: u32, into: &mut [u8]) -> Result<(), u32>
        ensures range { MatchResult result (λ _. range_at self.now.memory addr (length into.old) ≡ Ok into.new) (λ at. range_at self.now.memory addr (length into.old) ≡ Err at) }
        ensures kept { IfErr result (λ _. into.new ≡ into.old) }
    {
        self.memory.read_range(addr, into)
    }

    /// One instruction of a hart: the word of the image's text at its pc. Never `Hit`; after a `Trap` nothing has
    /// changed.
    pub fn step(&mut self, h: usize) -> Stepped
        requires { h < length self.old.harts }
        ensures code { IsByteCode result }
        ensures step { PlainSteps result self.old h self.new }
        ensures run { GoesOn result self.old h self.new }
    {
        let regs = &mut self.harts[h];
        execute_plain(self.image, regs, &mut self.memory)
    }
}
