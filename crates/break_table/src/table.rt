//! The table of breakpoints.

ghost use Rattle.std.specs.Prelude.{◌≡◌, ◌+◌, ◌-◌, ◌^◌, ◌<◌, ℕ, true, false, filter, map, replicate, slice_get, IfOk, OnOk, OnErr, Some, None, length};
ghost use Rattle.std.specs.Option.{option_map};
ghost use Rattle.break_table.specs.Entry.{asked_of, condition_of, entry_of};
ghost use Rattle.break_table.specs.Arrival.{due_of, settled, stays};
ghost use Rattle.break_table.specs.Changes.{made};
ghost use Rattle.break_table.specs.Text.{is_instruction, is_place};
ghost use Rattle.break_table.specs.Table.{changed, deleted, drawn, first_table, insert_fault, inserted, LeavesRoom, missing, stands, waits, with_condition, with_enabled, with_ignore, with_wait, Answers, IsRising};

use crate::change::{Change, change_entry, remove};
use crate::due::{Due, due_among};
use crate::entry::{BreakEntry, Spec};
use crate::fault::BreakFault;
use crate::finding::{has_thread, stands_among, waits_among};
use crate::places::{Place, add_place, place_all, run_at};
use crate::settle::{retain_staying, settle_each, some_leaves};
use cond_expr::Expr;
use dbg_traits::{NoMemory, View};
use elf32_read::{Image, TextSpans};
use std::alloc::{AllocError, Global};
use std::marker::Model;

/// The most user entries that stand at once.
const MOST: usize = 128;

/// The breakpoints of a session and the addresses at which its harts wait.
///
/// Contracts see it as a `Table`: the user entries in rising order of number, how many numbers were given, where text
/// stands, and for each hart where it waits.
#[derive(Drop)]
pub struct BreakTable {
    entries: Vec<BreakEntry>,
    /// The place of each entry, sorted by address.
    places: Vec<Place>,
    given: u32,
    text: TextSpans,
    waits: Vec<Option<u32>>,
}

impl Model for BreakTable {
    ghost use Rattle.std.specs.Coded.{codes};
    ghost use Rattle.break_table.specs.Table.{Table};
    ghost use Rattle.break_table.specs.Codes.{term_code};

    ghost Value = { Table };

    ghost coded = { Prim.hlevel (codes, term_code) };

    ghost use Rattle.break_table.specs.Inside.{seen, IsKept};

    ghost view = { seen };

    ghost invariant = { IsKept };
}

/// Harts of which none waits.
fn no_waits(alloc: Global, harts: usize) -> Result<Vec<Option<u32>>, AllocError>
    ensures { IfOk result (λ v. v.items ≡ replicate harts None) }
{
    let mut waits = Vec::new(alloc);
    waits.resize(harts, None)?;
    Ok(waits)
}

/// Whether an address is a multiple of 4 in text.
fn is_place(text: &TextSpans, addr: u32) -> bool
    ensures { result ≡ is_place text.now addr }
{
    addr % 4 == 0 && text.contains(addr)
}

impl BreakTable {
    /// A table without breakpoints, for the text of a program and so many harts.
    pub fn new(alloc: Global, image: &Image, harts: u32) -> Result<BreakTable, NoMemory>
        ensures table { IfOk result (λ t. t ≡ first_table image.now harts) }
        ensures places { IfOk result (λ t. (addr : ℕ) → is_place t.text addr ≡ is_instruction image.now addr) }
    {
        let waits = no_waits(alloc, harts as usize)?;
        let text = image.text_spans(alloc)?;
        let places = Vec::with_capacity(alloc, MOST)?;
        let entries = Vec::with_capacity(alloc, MOST)?;
        Ok(BreakTable {
            entries,
            places,
            given: 0,
            text,
            waits,
        })
    }

    /// How many numbers were given, from 1 on.
    pub fn given(&self) -> u32
        ensures { result ≡ self.now.given }
    {
        self.given
    }

    // Why an entry can't be made, if it can't.
    fn refusal(&self, spec: &Spec) -> Option<BreakFault>
        ensures fault { result ≡ insert_fault self.now (asked_of spec.now) }
        ensures room { LeavesRoom result self.now }
    {
        if !is_place(&self.text, spec.address) {
            return Some(BreakFault::Place);
        }
        if self.entries.len() >= MOST {
            return Some(BreakFault::Full);
        }
        if !has_thread(self.waits.len(), spec.thread) {
            return Some(BreakFault::Thread);
        }
        None
    }

    // A new entry, where one can be made.
    fn add(&mut self, spec: Spec) -> u32
        requires given { self.old.given < 2 ^ 32 - 1 }
        requires room { length self.old.entries < 128 }
        ensures number { result ≡ self.old.given + 1 }
        ensures done { self.new ≡ inserted self.old (asked_of spec) }
    {
        self.given += 1;
        let number = self.given;
        let place = Place {
            address: spec.address,
            index: self.entries.len(),
        };
        add_place(&mut self.places, place);
        let _ = self.entries.push(BreakEntry::new(number, spec));
        number
    }

    /// A new entry, with the next number.
    ///
    /// # Errors
    /// `Place` where the address isn't a multiple of 4 in text, `Full` where 128 entries stand, and `Thread` where there is no
    /// such thread; of several the first of these. Nothing changes then.
    pub fn insert(&mut self, spec: Spec) -> Result<u32, BreakFault>
        requires { self.old.given < 2 ^ 32 - 1 }
        ensures answer { Answers result (insert_fault self.old (asked_of spec)) }
        ensures number { IfOk result (λ number. number ≡ self.old.given + 1) }
        ensures done { OnOk result (self.new ≡ inserted self.old (asked_of spec)) }
        ensures refused { OnErr result (self.new ≡ self.old) }
    {
        match self.refusal(&spec) {
            Some(fault) => Err(fault),
            None => Ok(self.add(spec)),
        }
    }

    /// The entry of a number goes. `NoNumber` where there is none, as of each change of an entry; nothing changes then.
    pub fn delete(&mut self, number: u32) -> Result<(), BreakFault>
        ensures answer { Answers result (missing number self.old.entries) }
        ensures done { OnOk result (self.new ≡ deleted number self.old) }
        ensures refused { OnErr result (self.new ≡ self.old) }
    {
        remove(&mut self.entries, number)?;
        place_all(&mut self.places, &self.entries);
        Ok(())
    }

    // The entry of a number is changed.
    fn change_one(&mut self, number: u32, change: Change) -> Result<(), BreakFault>
        ensures answer { Answers result (missing number self.old.entries) }
        ensures done { OnOk result (self.new ≡ changed (made change) number self.old) }
        ensures refused { OnErr result (self.new ≡ self.old) }
    {
        change_entry(&mut self.entries, number, change)
    }

    /// The entry of a number counts and stops again.
    pub fn enable(&mut self, number: u32) -> Result<(), BreakFault>
        ensures answer { Answers result (missing number self.old.entries) }
        ensures done { OnOk result (self.new ≡ changed (with_enabled true) number self.old) }
        ensures refused { OnErr result (self.new ≡ self.old) }
    {
        self.change_one(number, Change::Enabled(true))
    }

    /// The entry of a number neither counts nor stops.
    pub fn disable(&mut self, number: u32) -> Result<(), BreakFault>
        ensures answer { Answers result (missing number self.old.entries) }
        ensures done { OnOk result (self.new ≡ changed (with_enabled false) number self.old) }
        ensures refused { OnErr result (self.new ≡ self.old) }
    {
        self.change_one(number, Change::Enabled(false))
    }

    /// The entry of a number gets another condition, or none.
    pub fn condition(&mut self, number: u32, e: Option<Expr>) -> Result<(), BreakFault>
        ensures answer { Answers result (missing number self.old.entries) }
        ensures done { OnOk result (self.new ≡ changed (with_condition (option_map condition_of e)) number self.old) }
        ensures refused { OnErr result (self.new ≡ self.old) }
    {
        self.change_one(number, Change::Condition(e))
    }

    /// So many arrivals at the entry of a number are only counted from now on, before one stops.
    pub fn after(&mut self, number: u32, count: u32) -> Result<(), BreakFault>
        ensures answer { Answers result (missing number self.old.entries) }
        ensures done { OnOk result (self.new ≡ changed (with_ignore count) number self.old) }
        ensures refused { OnErr result (self.new ≡ self.old) }
    {
        self.change_one(number, Change::Ignore(count))
    }

    /// The user entries in rising order of number.
    pub fn entries(&self) -> &[BreakEntry]
        ensures entries { map entry_of result.now ≡ self.now.entries }
        ensures rising { IsRising 0 self.now.entries self.now.given }
    {
        self.entries.as_slice()
    }

    /// Whether an enabled user entry stands at an address.
    pub fn stands(&self, addr: u32) -> bool
        ensures { result ≡ stands addr self.now.entries }
    {
        stands_among(&self.entries, run_at(&self.places, addr), addr)
    }

    /// What the entries do at an arrival of a hart, counted from 0, by what it sees.
    pub fn due<V: View>(&self, hart: u32, view: &V) -> Due
        ensures { result ≡ due_of hart (V.registers view.now) (V.bytes view.now) self.now.entries }
    {
        due_among(
            &self.entries,
            run_at(&self.places, view.reg(32)),
            hart,
            view,
        )
    }

    /// Makes the changes of a due arrival of a hart: counts it, and deletes the temporary entries that stop.
    pub fn settle_arrival<V: View>(&mut self, hart: u32, view: &V)
        ensures { self.new ≡ record self.old { entries = settled hart (V.registers view.now) (V.bytes view.now) self.old.entries } }
    {
        self.drop_leaving(hart, view);
        settle_each(
            &mut self.entries,
            run_at(&self.places, view.reg(32)),
            hart,
            view,
        );
    }

    /// Deletes the temporary entries that stop.
    fn drop_leaving<V: View>(&mut self, hart: u32, view: &V)
        ensures { self.new ≡ record self.old { entries = filter (stays hart (V.registers view.now) (V.bytes view.now)) self.old.entries } }
    {
        if some_leaves(
            &self.entries,
            run_at(&self.places, view.reg(32)),
            hart,
            view,
        ) {
            retain_staying(&mut self.entries, hart, view);
            place_all(&mut self.places, &self.entries);
        }
    }

    /// The next number, for something else than a breakpoint.
    pub fn draw(&mut self) -> u32
        requires { self.old.given < 2 ^ 32 - 1 }
        ensures number { result ≡ self.old.given + 1 }
        ensures given { self.new ≡ drawn self.old }
    {
        self.given += 1;
        self.given
    }

    /// A hart that doesn't wait begins to wait at an address.
    pub fn wait_at(&mut self, hart: u32, ret: u32)
        requires place { is_place self.old.text ret ≡ true }
        requires free { slice_get self.old.waits hart ≡ Some None }
        ensures { self.new ≡ with_wait hart (Some ret) self.old }
    {
        self.waits[hart as usize] = Some(ret);
    }

    /// A hart waits no longer, if it did.
    pub fn wait_end(&mut self, hart: u32)
        ensures { self.new ≡ with_wait hart None self.old }
    {
        if let Some(wait) = self.waits.get_mut(hart as usize) {
            *wait = None;
        }
    }

    /// Where a hart waits, if it does.
    pub fn wait(&self, hart: u32) -> Option<u32>
        requires { hart < length self.now.waits }
        ensures { slice_get self.now.waits hart ≡ Some result }
    {
        self.waits[hart as usize]
    }

    /// Whether a hart waits at an address.
    pub fn waits(&self, addr: u32) -> bool
        ensures { result ≡ waits addr self.now }
    {
        waits_among(&self.waits, addr)
    }
}
