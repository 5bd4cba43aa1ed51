// The watches of a session.
ghost use Rattle.std.specs.Prelude.{◌≡◌, ◌≤◌, ◌<◌, ◌+◌, ◌^◌, ℕ, List, false, ◌++◌, ◌∷◌, [], ◌==◌, length, map, if◌then◌else◌, None, IfOk};
ghost use Rattle.rv_exec.specs.Memory.{IsLen, Memory, with_number};
ghost use Rattle.watch_points.specs.Watches.{most_watches};
ghost use Rattle.watch_points.specs.declared.watchpoint.Watch.{Watch};
ghost use Rattle.watch_points.specs.Watches.{changed, fired_by, is_of, meets, meets_one, risen, risen_one, switched, switched_one, unwatched, worth, AreSized, IsKeptBut};

use crate::watchpoint::{Fired, Watch, is_one_of};
use arrayvec::ArrayVec;
use data_memory::DataMemory;
use std::alloc::{AllocError, Global};
use std::marker::Model;

/// So many watches of the user stand at most.
pub const MOST_WATCHES: usize = 16;

/// The watches that the user set, of which there are at most 16. Contracts see the list of them.
#[derive(Drop)]
pub struct WatchList {
    watches: Vec<Watch>,
}

impl Model for WatchList {
    ghost use Rattle.std.specs.Prelude.{List};
    ghost use Rattle.watch_points.specs.declared.watchpoint.Watch.{Watch};
    ghost use Rattle.watch_points.specs.WatchKept.{IsKept};

    ghost Value = { List Watch };

    ghost view = { λ l. l.watches.items };

    ghost invariant = { IsKept };
}

/// What the bytes of each watch of a list are worth, where they are all mapped. Contracts see the list of it.
#[derive(Drop)]
pub struct Worths {
    worths: ArrayVec<Option<u32>, 16>,
}

impl Model for Worths {
    ghost use Rattle.std.specs.Prelude.{List, Option, ℕ};

    ghost Value = { List (Option ℕ) };

    ghost view = { λ w. w.worths.items };
}

// Whether an enabled watch has one of so many bytes from an address on.
fn meets_one(watch: &Watch, address: u32, size: u32) -> bool
    ensures { result ≡ meets_one address size watch.now }
{
    watch.enabled
        && (address.wrapping_sub(watch.address) < watch.size
            || watch.address.wrapping_sub(address) < size)
}

// What fired of a watch whose bytes were worth this.
fn fired_one(watch: &Watch, old: Option<u32>, memory: &DataMemory) -> Option<Fired>
    requires { IsLen watch.now.size }
    ensures { result ≡ (if watch.now.enabled then changed watch.now.number old (worth memory.now watch.now) else None) }
{
    if !watch.enabled {
        return None;
    }
    let old = old?;
    let new = watch.worth(memory)?;
    if old == new {
        return None;
    }
    Some(Fired {
        number: watch.number,
        old,
        new,
    })
}

// What fired first, of watches whose bytes were worth this.
fn fired_among(watches: &[Watch], before: &[Option<u32>], memory: &DataMemory) -> Option<Fired>
    requires { AreSized watches.now }
    ensures { (m : Memory) → before.now ≡ map (worth m) watches.now → result ≡ fired_by watches.now m memory.now }
{
    let [watch, rest @ ..] = watches else {
        return None;
    };
    let [old, olds @ ..] = before else {
        return None;
    };
    match fired_one(watch, *old, memory) {
        Some(fired) => Some(fired),
        None => fired_among(rest, olds, memory),
    }
}

// What the bytes of each watch are worth.
fn worths_of(watches: &[Watch], memory: &DataMemory) -> ArrayVec<Option<u32>, 16>
    requires few { length watches.now ≤ 16 }
    requires sized { AreSized watches.now }
    ensures { result.items ≡ map (worth memory.now) watches.now }
{
    let mut worths = ArrayVec::new();
    for watch in watches {
        worths.push(watch.worth(memory));
    }
    worths
}

fn switch_one(watch: &mut Watch, numbers: &[u32], enabled: bool)
    ensures { watch.new ≡ switched_one enabled numbers.now watch.old }
{
    if is_one_of(numbers, watch.number) {
        watch.enabled = enabled;
    }
}

fn switch_each(watches: &mut [Watch], numbers: &[u32], enabled: bool)
    ensures { watches.new ≡ switched enabled numbers.now watches.old }
{
    for watch in watches.iter_mut() {
        switch_one(watch, numbers, enabled);
    }
}

fn is_of(fired: Option<Fired>, watch: &Watch) -> bool
    ensures { result ≡ is_of fired watch.now }
{
    match fired {
        None => false,
        Some(fired) => fired.number == watch.number,
    }
}

fn rise_one(watch: &mut Watch, fired: Option<Fired>)
    ensures { watch.new ≡ risen_one fired watch.old }
{
    if is_of(fired, watch) {
        watch.times = watch.times.saturating_add(1);
    }
}

fn rise_each(watches: &mut [Watch], fired: Option<Fired>)
    ensures { watches.new ≡ risen fired watches.old }
{
    for watch in watches.iter_mut() {
        rise_one(watch, fired);
    }
}

impl WatchList {
    /// No watch. Room for the most is taken at once, so that one that is added takes no memory.
    pub fn new(alloc: Global) -> Result<WatchList, AllocError>
        ensures { IfOk result (λ l. l ≡ []) }
    {
        Ok(WatchList {
            watches: Vec::with_capacity(alloc, MOST_WATCHES)?,
        })
    }

    /// The watches in rising order of number.
    pub fn as_slice(&self) -> &[Watch]
        ensures watches { result.now ≡ self.now }
        ensures few { length self.now ≤ most_watches }
        ensures sized { AreSized self.now }
    {
        self.watches.as_slice()
    }

    /// Whether there is none.
    pub fn is_empty(&self) -> bool
        ensures { result ≡ (length self.now == 0) }
    {
        self.watches.is_empty()
    }

    /// One more watch.
    pub fn add(&mut self, watch: Watch)
        requires room { length self.old < most_watches }
        requires sized { IsLen watch.size }
        ensures { self.new ≡ self.old ++ watch ∷ [] }
    {
        let _ = self.watches.push(watch);
    }

    /// The watches of these numbers go.
    pub fn delete(&mut self, numbers: &[u32])
        ensures { self.new ≡ unwatched numbers.now self.old }
    {
        self.watches
            .retain(|watch| !is_one_of(numbers, watch.number));
    }

    /// The watches of these numbers are enabled, or disabled.
    pub fn switch(&mut self, numbers: &[u32], enabled: bool)
        ensures { self.new ≡ switched enabled numbers.now self.old }
    {
        switch_each(self.watches.as_mut_slice(), numbers, enabled);
    }

    /// The times of the watch that fired rise by one, if one did.
    pub fn rise(&mut self, fired: Option<Fired>)
        ensures { self.new ≡ risen fired self.old }
    {
        rise_each(self.watches.as_mut_slice(), fired);
    }

    /// Whether an enabled watch has one of `size` bytes from an address on; addresses go on modulo 2^32.
    pub fn meets(&self, address: u32, size: u32) -> bool
        ensures { result ≡ meets self.now address size }
    {
        self.watches
            .iter()
            .any(|watch| meets_one(watch, address, size))
    }

    /// What the bytes of each watch are worth.
    pub fn worths(&self, memory: &DataMemory) -> Worths
        ensures { result ≡ map (worth memory.now) self.now }
    {
        Worths {
            worths: worths_of(&self.watches, memory),
        }
    }

    /// The first enabled watch whose value is another one than before, where `before` is what the bytes were worth in a
    /// memory.
    pub fn fired(&self, before: &Worths, memory: &DataMemory) -> Option<Fired>
        ensures { (m : Memory) → before.now ≡ map (worth m) self.now → result ≡ fired_by self.now m memory.now }
    {
        fired_among(&self.watches, &before.worths, memory)
    }
}

/// Where an instruction stores nothing, or nothing that meets an enabled watch, no watch fires.
pub fn apart_fires_none()
    ensures none { (ws : List Watch) (m : Memory) → fired_by ws m m ≡ None }
    ensures apart { (ws : List Watch) (addr n : ℕ) (m k : Memory) → IsKeptBut addr n m k → meets ws addr n ≡ false → fired_by ws m k ≡ None }
    ensures store { (m : Memory) (addr len v : ℕ) → addr + len ≤ 2 ^ 32 → IsKeptBut addr len m (with_number m addr len v) }
{}
