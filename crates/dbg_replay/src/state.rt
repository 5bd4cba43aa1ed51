// The model's state behind what was taken of a journal.
ghost use Rattle.std.specs.Prelude.{◌≡◌, true, Some, is_some, map};
ghost use Rattle.break_table.specs.Entry.{entry_of};

use break_table::BreakEntry;
use dbg_model::{Hart, Shown};
use replay_parts::Parts;
use std::marker::Model;
use watch_points::Watch;

/// The model's state behind what was taken of a journal, and what the last of that shows. Contracts see a `Standing`.
#[derive(Drop)]
pub struct ModelState {
    pub(crate) parts: Parts,
    /// The hart of the entry that was taken last, if that is a `Ran`.
    pub(crate) prev: Option<u32>,
    pub(crate) shown: Option<Shown>,
}

impl Model for ModelState {
    ghost use Rattle.dbg_replay.specs.Standing.{Standing};
    ghost use Rattle.std.specs.Coded.{codes};
    ghost use Rattle.data_memory.specs.Maps.{memory_code};
    ghost use Rattle.break_table.specs.Codes.{term_code};
    ghost use Rattle.text_words.specs.Words.{words_code};

    ghost Value = { Standing };

    ghost coded = { Prim.hlevel (codes, memory_code, term_code, words_code) };

    ghost use Rattle.dbg_replay.specs.Standing.{standing_of};

    ghost view = { λ s. standing_of s.parts s.prev s.shown };
}

// Large parts are dropped one by one: each proof has that much less to carry.
fn let_parts_go(parts: Parts) {
    parts.sources.let_go();
    drop(parts.words);
    drop(parts.memory);
}

impl ModelState {
    /// Drops the state, where nothing else is at hand: what it is made of is gone through here, once in all proofs.
    pub fn let_go(self) {
        drop(self.shown);
        let_parts_go(self.parts);
    }

    /// What the entry or the instruction shows that was taken last. It refers to what is kept: nothing is copied.
    pub fn shown(&self) -> &Shown
        requires { is_some self.now.shown ≡ true }
        ensures { self.now.shown ≡ Some result.now }
    {
        match self.shown.as_ref() {
            Some(shown) => shown,
            None => unreachable!(),
        }
    }

    /// The harts, counted from 0.
    pub fn harts(&self) -> &[Hart]
        ensures { result.now ≡ self.now.place.state.harts }
    {
        self.parts.harts.as_slice()
    }

    /// The bytes that the program wrote.
    pub fn output(&self) -> &[u8]
        ensures { result.now ≡ self.now.place.state.out }
    {
        self.parts.out.as_slice()
    }

    /// The breakpoints that the user set, in rising order of their numbers.
    pub fn breakpoints(&self) -> &[BreakEntry]
        ensures { map entry_of result.now ≡ self.now.place.state.breaks }
    {
        self.parts.table.entries()
    }

    /// The watches that the user set, in rising order of their numbers.
    pub fn watches(&self) -> &[Watch]
        ensures { result.now ≡ self.now.place.state.watches }
    {
        self.parts.watches.as_slice()
    }

    /// The selected thread, counted from 1.
    pub fn selected(&self) -> u32
        ensures { result ≡ self.now.place.state.selected }
    {
        self.parts.selected
    }

    /// For each hart, how many of its instructions were executed where an enabled breakpoint stood, while displaced
    /// stepping wasn't off.
    pub fn passed(&self) -> &[u64]
        ensures { result.now ≡ self.now.place.state.passed }
    {
        self.parts.passed.as_slice()
    }

    /// How many instructions were executed.
    pub fn retired(&self) -> u64
        ensures { result ≡ self.now.place.state.retired }
    {
        self.parts.retired
    }
}
