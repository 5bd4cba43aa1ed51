// The machine: harts over patched text, one memory and the scratch slots.
ghost use Rattle.std.specs.Prelude.{◌≡◌, ◌≢◌, ◌<◌, ◌≤◌, ℕ, [], length, IfOk, IfErr, IfSome, IfNone, MatchResult, Err, Some, None, is_some, IsSome, true, false, replicate, slice_get, slice_set};
ghost use Rattle.std.specs.Option.{option_map};
ghost use Rattle.std.specs.FinSet as set;
ghost use Rattle.text_words.specs.Words as text;
ghost use Rattle.data_memory.specs.Start.{start_memory};
ghost use Rattle.data_memory.specs.Ranges.{bytes_at, first_unwritable, range_at};
ghost use Rattle.dbg_traits.specs.Settings.{AreSettings, AreHarts};
ghost use Rattle.rv_decode.specs.Decode.{decode};
ghost use Rattle.scratch_slots.specs.Table.{slot_address, slot_number, use_at, least_free, with_use, AllOut};
ghost use Rattle.scratch_slots.specs.declared.slots.SlotUse.{SlotUse};
ghost use Rattle.hart_machine.specs.Copying.{Begins, Enters, Finishes, Settles, StepsByCopy, owner};
ghost use Rattle.hart_machine.specs.Stepping.{AreCounted, Steps, IsByteCode, has_run, loaded};
ghost use Rattle.hart_machine.specs.Poking.{IsOut, PokesRegister, poked_bytes};
ghost use Rattle.hart_machine.specs.Running.{AllRan, HasStopped};
ghost use Rattle.text_words.specs.Words.{AreStored};
ghost use Rattle.hart_machine.specs.declared.hart.Core.{Core};

mod slicing;
mod staying;
mod stretching;

use crate::Core;
use crate::cores::first_cores;
use crate::hart::{copy_core, enter_core, settle_core, step_core};
use crate::running::run_core;
use crate::view::HartView;
use data_memory::DataMemory;
use dbg_traits::{NoMemory, Settings};
use elf32_read::Image;
use rv_decode::decode;
use rv_exec::{Operation, Stepped};
use scratch_slots::{SlotUse, Slots};
use std::alloc::Global;
use std::marker::Model;
use text_words::TextWords;

/// Several harts over one text, one memory and the scratch slots.
#[derive(Drop)]
pub struct Machine {
    text: TextWords,
    cores: Vec<Core>,
    memory: DataMemory,
    // On the heap, since a session is handed about with its machine.
    slots: Box<Slots>,
}

impl Model for Machine {
    ghost use Rattle.hart_machine.specs.Patched.{Patched};
    ghost use Rattle.hart_machine.specs.Stepping.{AreCounted};
    ghost use Rattle.std.specs.Coded.{codes};
    ghost use Rattle.data_memory.specs.Maps.{memory_code};
    ghost use Rattle.text_words.specs.Words.{words_code};

    ghost Value = { Patched };

    ghost coded = { Prim.hlevel (codes, memory_code, words_code) };

    ghost view = { λ m. record { text = m.text; cores = m.cores.items; memory = m.memory; slots = m.slots.value } };

    ghost invariant = { λ m. AreCounted m.cores.items };
}

// So many slots, all free.
fn first_slots(alloc: Global, count: u32) -> Result<Box<Slots>, NoMemory>
    requires { count ≤ 512 }
    ensures { IfOk result (λ s. s.value ≡ replicate count None) }
{
    Ok(Box::new(alloc, Slots::new(count))?)
}

impl Machine {
    /// A machine before its first step.
    pub fn load(alloc: Global, image: &Image, settings: Settings) -> Result<Machine, NoMemory>
        requires { AreSettings settings }
        ensures { IfOk result (λ m. m ≡ loaded image.now settings.harts settings.slots) }
    {
        let Ok(cores) = first_cores(alloc, image.entry(), settings.harts) else {
            return Err(NoMemory);
        };
        let Ok(slots) = first_slots(alloc, settings.slots) else {
            return Err(NoMemory);
        };
        let Ok(text) = TextWords::load(alloc, image) else {
            return Err(NoMemory);
        };
        let Ok(memory) = DataMemory::load(alloc, image, settings.harts) else {
            return Err(NoMemory);
        };
        Ok(Machine {
            text,
            cores,
            memory,
            slots,
        })
    }

    /// How many harts there are.
    pub fn harts(&self) -> usize
        ensures { result ≡ length self.now.cores }
    {
        self.cores.len()
    }

    /// The harts, in the order of their numbers.
    pub fn cores(&self) -> &[Core]
        ensures { result.now ≡ self.now.cores }
    {
        self.cores.as_slice()
    }

    /// Where a hart is.
    pub fn pc(&self, h: u32) -> u32
        requires { h < length self.now.cores }
        ensures { (c : Core) → slice_get self.now.cores h ≡ Some c → result ≡ c.regs.pc }
    {
        self.cores[h as usize].regs.pc()
    }

    /// How many instructions a hart has executed.
    pub fn retired(&self, h: u32) -> u64
        requires { h < length self.now.cores }
        ensures { (c : Core) → slice_get self.now.cores h ≡ Some c → result ≡ c.retired }
    {
        self.cores[h as usize].retired
    }

    /// How many of these it has executed in scratch slots.
    pub fn copied(&self, h: u32) -> u64
        requires { h < length self.now.cores }
        ensures { (c : Core) → slice_get self.now.cores h ≡ Some c → result ≡ c.copied }
    {
        self.cores[h as usize].copied
    }

    /// The data that harts share.
    pub fn data(&self) -> &DataMemory
        ensures { result.now ≡ self.now.memory }
    {
        &self.memory
    }

    /// What a reader sees of a hart: its registers, and the bytes of data and of the program's text.
    pub fn view(&self, h: u32) -> HartView<'_>
        requires { h < length self.now.cores }
        ensures registers { (c : Core) → slice_get self.now.cores h ≡ Some c → result.regs.now ≡ c.regs }
        ensures memory { result.memory.now ≡ self.now.memory }
        ensures text { result.text.now ≡ self.now.text }
    {
        HartView {
            regs: &self.cores[h as usize].regs,
            memory: &self.memory,
            text: &self.text,
        }
    }

    /// The bytes from an address on; the first address that can't be read where there is one, and then nothing changed.
    pub fn read_range(&self, addr: u32, into: &mut [u8]) -> Result<(), u32>
        ensures bytes { MatchResult result (λ _. bytes_at self.now.memory addr (length into.old) ≡ Some into.new) (λ a. (bytes_at self.now.memory addr (length into.old) ≡ None) × (into.new ≡ into.old)) }
        ensures first { IfErr result (λ at. range_at self.now.memory addr (length into.old) ≡ Err at) }
    {
        self.memory.read_range(addr, into)
    }

    /// The stored word at an address, EBREAK where a breakpoint is planted; none where no word of text is.
    pub fn word(&self, addr: u32) -> Option<u32>
        ensures { result ≡ text.stored self.now.text addr }
    {
        self.text.word(addr)
    }

    /// The operation of what stands at an address for a hart that executes it and is in no slot: that of EBREAK where a
    /// breakpoint is planted, and where there is no instruction.
    pub fn operation(&self, addr: u32) -> Operation
        ensures { result ≡ text.operation_of (text.fetched self.now.text addr) }
    {
        self.text.operation(addr)
    }

    /// Whether these words are stored one after another from an address on: EBREAK where a breakpoint is planted. Nothing
    /// is stored past the last address, and no words are stored anywhere.
    pub fn stores(&self, addr: u32, words: &[u32]) -> bool
        ensures yes { result ≡ true → AreStored self.now.text addr words.now }
        ensures no { AreStored self.now.text addr words.now → result ≡ true }
    {
        self.text.stores(addr, words)
    }

    /// The program's word at an address; none where no word of text is.
    pub fn shown(&self, addr: u32) -> Option<u32>
        ensures { result ≡ text.shown self.now.text addr }
    {
        self.text.shown(addr)
    }

    /// Whether a breakpoint is planted at an address.
    pub fn planted(&self, addr: u32) -> bool
        ensures { result ≡ text.is_planted self.now.text addr }
    {
        self.text.planted(addr)
    }

    /// Plants a breakpoint at a word of text that has none.
    pub fn plant(&mut self, addr: u32)
        requires text { IsSome (text.shown self.old.text addr) }
        requires free { text.is_planted self.old.text addr ≡ false }
        ensures { self.new ≡ record self.old { text = record self.old.text { planted = set.insert self.old.text.planted addr } } }
    {
        self.text.plant(addr);
    }

    /// Lifts the breakpoint at an address that has one.
    pub fn lift(&mut self, addr: u32)
        requires { text.is_planted self.old.text addr ≡ true }
        ensures { self.new ≡ record self.old { text = record self.old.text { planted = set.remove self.old.text.planted addr } } }
    {
        self.text.lift(addr);
    }

    /// How many scratch slots there are, free or not.
    pub fn slots(&self) -> u32
        ensures { result ≡ length self.now.slots }
    {
        self.slots.count()
    }

    /// The use of the slot at an address; None where no slot is there, or it is free.
    pub fn slot(&self, slot: u32) -> Option<SlotUse>
        ensures { result ≡ use_at self.now.slots slot }
    {
        self.slots.at(slot)
    }

    /// Whether a scratch slot is free.
    pub fn has_room(&self) -> bool
        ensures { result ≡ is_some (least_free self.now.slots) }
    {
        self.slots.has_room()
    }

    /// Gives the hart the least free slot for a copy of the word. None exactly where all are out.
    pub fn claim(&mut self, hart: u32, word: u32) -> Option<u32>
        ensures slot { result ≡ option_map slot_address (least_free self.old.slots) }
        ensures machine { self.new ≡ record self.old { slots = with_use self.old.slots (least_free self.old.slots) (record { hart = hart; word = word }) } }
        ensures was_free { IfSome result (λ slot. use_at self.old.slots slot ≡ None) }
        ensures taken { IfSome result (λ slot. use_at self.new.slots slot ≡ Some (record { hart = hart; word = word })) }
        ensures others { (other : ℕ) → result ≢ Some other → use_at self.new.slots other ≡ use_at self.old.slots other }
        ensures full { IfNone result (AllOut self.old.slots) }
    {
        self.slots.claim(hart, word)
    }

    /// Takes back a slot, which must be out.
    pub fn free(&mut self, slot: u32)
        requires { IsSome (use_at self.old.slots slot) }
        ensures machine { self.new ≡ record self.old { slots = slice_set self.old.slots (slot_number slot) None } }
        ensures freed { use_at self.new.slots slot ≡ None }
        ensures others { (other : ℕ) → other ≢ slot → use_at self.new.slots other ≡ use_at self.old.slots other }
    {
        self.slots.free(slot);
    }

    /// Puts a hart at a slot that it has claimed: its next step executes the slot's word.
    pub fn enter(&mut self, h: u32, slot: u32)
        requires hart { h < length self.old.cores }
        requires claimed { owner self.old.slots slot ≡ Some h }
        ensures { Enters self.old h slot self.new }
    {
        enter_core(&mut self.cores[h as usize], slot);
    }

    /// Takes a hart home from a slot that it has claimed: makes of its registers those that the slot's word leaves at
    /// `home`. Where the word didn't run, or is no instruction, pc alone goes to `home`. The slot stays claimed.
    pub fn settle(&mut self, h: u32, slot: u32, home: u32, ran: bool)
        requires hart { h < length self.old.cores }
        requires claimed { owner self.old.slots slot ≡ Some h }
        requires word { (u : SlotUse) → use_at self.old.slots slot ≡ Some u → ran ≡ true → IsSome (decode u.word) }
        ensures { Settles self.old h slot home ran self.new }
    {
        if let Some(found) = self.slots.at(slot) {
            settle_core(&mut self.cores[h as usize], found.word, slot, home, ran);
        }
    }

    /// Sets a register of a hart that is in no slot. Nothing else changes, and no memory is taken.
    pub fn poke_register(&mut self, h: u32, n: u32, v: u32)
        requires hart { h < length self.old.cores }
        requires number { (1 ≤ n) × (n ≤ 31) }
        requires out { IsOut self.old h }
        ensures { PokesRegister self.old h n v self.new }
    {
        self.cores[h as usize].regs.set(n, v);
    }

    /// Puts bytes of data from `addr` on, where all are writable; addresses go on modulo 2^32. Nothing else changes, and
    /// no memory is taken.
    pub fn poke_bytes(&mut self, addr: u32, bytes: &[u8])
        requires { first_unwritable self.old.memory addr (length bytes.now) ≡ None }
        ensures { self.new ≡ poked_bytes self.old addr bytes.now }
    {
        self.memory.write_range(addr, bytes);
    }

    /// Gives a hart the least free slot for a copy of the word, and puts it there: its next step executes the word. None
    /// exactly where all are out, and then nothing has changed.
    pub fn begin_copy(&mut self, h: u32, word: u32) -> Option<u32>
        requires { h < length self.old.cores }
        ensures slot { result ≡ option_map slot_address (least_free self.old.slots) }
        ensures begun { IfSome result (λ slot. Begins self.old h word slot self.new) }
        ensures kept { IfNone result (self.new ≡ self.old) }
        ensures was_free { IfSome result (λ slot. use_at self.old.slots slot ≡ None) }
        ensures taken { IfSome result (λ slot. use_at self.new.slots slot ≡ Some (record { hart = h; word = word })) }
        ensures others { (other : ℕ) → result ≢ Some other → use_at self.new.slots other ≡ use_at self.old.slots other }
        ensures full { IfNone result (AllOut self.old.slots) }
    {
        let slot = self.slots.claim(h, word)?;
        enter_core(&mut self.cores[h as usize], slot);
        Some(slot)
    }

    /// Takes a hart home from a slot that it has claimed, and the slot back: `settle`, then `free`.
    pub fn finish_copy(&mut self, h: u32, slot: u32, home: u32, ran: bool)
        requires hart { h < length self.old.cores }
        requires claimed { owner self.old.slots slot ≡ Some h }
        requires word { (u : SlotUse) → use_at self.old.slots slot ≡ Some u → ran ≡ true → IsSome (decode u.word) }
        ensures finished { Finishes self.old h slot home ran self.new }
        ensures freed { use_at self.new.slots slot ≡ None }
        ensures others { (other : ℕ) → other ≢ slot → use_at self.new.slots other ≡ use_at self.old.slots other }
    {
        if let Some(found) = self.slots.at(slot) {
            settle_core(&mut self.cores[h as usize], found.word, slot, home, ran);
            self.slots.free(slot);
        }
    }

    /// Steps a hart over a word by a copy in the least free slot, in one call: `begin_copy`, a step that answers `Ran`, and
    /// `finish_copy`. False where all slots are out, the hart is in one, or the word is no instruction, asks the
    /// environment or traps; then nothing has changed.
    pub fn step_copy(&mut self, h: u32, word: u32) -> bool
        requires { h < length self.old.cores }
        ensures counts { result ≡ true → AreCounted self.old.cores }
        ensures steps { result ≡ true → StepsByCopy self.old h word self.new }
        ensures kept { result ≡ false → self.new ≡ self.old }
        ensures harts { length self.new.cores ≡ length self.old.cores }
    {
        let Some(instruction) = decode(word) else {
            return false;
        };
        let Some(slot) = self.slots.claim(h, word) else {
            return false;
        };
        let copied = copy_core(
            &instruction,
            slot,
            &mut self.cores[h as usize],
            &mut self.memory,
        );
        self.slots.free(slot);
        copied
    }

    /// One instruction of a hart: the stored word at its pc, or the word of the slot that it entered. Nothing changes
    /// at a breakpoint, and where the instruction traps.
    pub fn step(&mut self, h: u32) -> Stepped
        requires hart { h < length self.old.cores }
        ensures code { IsByteCode result }
        ensures counts { AreCounted self.old.cores }
        ensures step { Steps result self.old h self.new }
        ensures stopped { has_run result ≡ false → self.new ≡ self.old }
    {
        step_core(
            &self.text,
            &self.slots,
            &mut self.cores[h as usize],
            &mut self.memory,
        )
    }

    /// Steps a hart at most `limit` times while each step answers `Ran`, and answers how many there were. It ends early only
    /// where the hart is in a slot, no instruction is at its pc, a breakpoint is planted there, or the instruction asks the
    /// environment or traps.
    pub fn run(&mut self, h: u32, limit: u32) -> u32
        requires { h < length self.old.cores }
        ensures limit { result ≤ limit }
        ensures counts { AreCounted self.old.cores }
        ensures runs { AllRan result self.old h self.new }
        ensures far { result < limit → HasStopped self.new h }
        ensures harts { length self.new.cores ≡ length self.old.cores }
    {
        run_core(
            &self.text,
            &mut self.cores[h as usize],
            &mut self.memory,
            limit,
        )
    }
}
