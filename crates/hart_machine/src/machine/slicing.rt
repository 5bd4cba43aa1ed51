// Runs of instructions that are executed apart from the machine.
ghost use Rattle.std.specs.Prelude.{◌≡◌, ◌<◌, length, Some, slice_get};
ghost use Rattle.hart_machine.specs.declared.hart.Core.{Core};
ghost use Rattle.hart_machine.specs.Slices.{AllInPlace, Fits, TakesSlice};
ghost use Rattle.hart_machine.specs.Slices as slices;

use super::Machine;
use crate::window::{push_window, window_operations};
use arrayvec::ArrayVec;
use reg_slices::{Job, Slice};

impl Machine {
    /// What a slice of a hart starts from: its registers, and the stored words from its pc on, at most 64 and up to a gap, with their
    /// operations.
    pub fn job(&self, h: u32, limit: u32) -> Job
        requires { h < length self.now.cores }
        ensures job { (result.hart ≡ h) × (result.limit ≡ limit) }
        ensures hart { (c : Core) → slice_get self.now.cores h ≡ Some c → (result.regs ≡ c.regs) × (result.at ≡ c.regs.pc) }
        ensures words { result.words.items ≡ slices.window self.now.text result.at }
    {
        let regs = self.cores[h as usize].regs;
        let at = regs.pc();
        let mut words = ArrayVec::new();
        push_window(&self.text, at, &mut words);
        let operations = window_operations(&self.text, at);
        Job {
            hart: h,
            regs,
            at,
            words,
            operations,
            limit,
        }
    }

    /// Gives the slice's hart the registers after the slice, and counts its instructions. Nothing else changes. Where the
    /// hart is in no slot and has the registers before the slice, and the slice's words are still stored, that is as many
    /// steps of the hart, none of them at a breakpoint.
    pub fn take_slice(&mut self, slice: &Slice)
        requires { slice.now.hart < length self.old.cores }
        ensures taken { TakesSlice self.old slice.now.hart slice.now.count slice.now.after self.new }
        ensures steps { Fits self.old slice.now.hart slice.now.regs slice.now.at slice.now.words.items → AllInPlace slice.now.count self.old slice.now.hart self.new }
    {
        let core = &mut self.cores[slice.hart as usize];
        core.regs = slice.after;
        core.retired = core.retired.saturating_add(u64::from(slice.count));
    }
}
