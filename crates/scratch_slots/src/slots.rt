// The scratch slots, and who has each.
ghost use Rattle.std.specs.Prelude.{◌≡◌, ◌≢◌, ◌≤◌, ◌<◌, ℕ, IfSome, IfNone, length, replicate, None, Some, slice_set, is_some, IsSome};
ghost use Rattle.std.specs.Option.{option_map};

use crate::index::{clear_bit, first_one, set_bit};
use std::marker::Model;

/// The address of slot 0.
const FIRST: u32 = 0xFFFF_F000;

/// The hart that has a slot, and the word that stands there for it.
#[derive(Clone, Copy)]
pub struct SlotUse {
    pub hart: u32,
    pub word: u32,
}

/// Up to 512 scratch slots. Slot k is the word at `0xFFFFF000 + 8k`, and a slot is named by this address.
/// Contracts see the list of the slots' uses, None where a slot is free.
#[derive(Drop)]
pub struct Slots {
    uses: [Option<SlotUse>; 512],
    // bit k % 64 of number k / 64 is 1 where slot k is free
    free: [u64; 8],
    count: u32,
}

impl Model for Slots {
    ghost use Rattle.std.specs.Prelude.{List, Option, take, ◌≤◌, ◌≡◌, length};
    ghost use Rattle.scratch_slots.specs.declared.slots.SlotUse.{SlotUse};
    ghost use Rattle.scratch_slots.specs.Table.{IsIndexed};

    ghost Value = { List (Option SlotUse) };

    ghost view = { λ s. take s.count s.uses };

    ghost invariant = { λ s. (s.count ≤ 512) × (length s.uses ≡ 512) × IsIndexed s.free (take s.count s.uses) };
}

impl Slots {
    ghost use Rattle.scratch_slots.specs.Table.{slot_address, slot_number, use_at, least_free, with_use, AllOut};

    /// So many slots, all free; `count` must be at most 512.
    pub fn new(count: u32) -> Slots
        requires { count ≤ 512 }
        ensures { result ≡ replicate count None }
    {
        let uses: [Option<SlotUse>; 512] = [None; 512];
        let mut free = [0; 8];
        let mut k = 0;
        while k < count {
            set_bit(&mut free, k);
            k += 1;
        }
        Slots { uses, free, count }
    }

    /// How many slots there are, free or not.
    pub fn count(&self) -> u32
        ensures { result ≡ length self.now }
    {
        self.count
    }

    /// The use of the slot at this address; None where no slot is there, or it is free.
    pub fn at(&self, slot: u32) -> Option<SlotUse>
        ensures { result ≡ use_at self.now slot }
    {
        if slot < FIRST || (slot - FIRST) % 8 != 0 {
            return None;
        }
        let k = (slot - FIRST) / 8;
        if k < self.count {
            self.uses[k as usize]
        } else {
            None
        }
    }

    /// Whether a slot is free.
    pub fn has_room(&self) -> bool
        ensures { result ≡ is_some (least_free self.now) }
    {
        let Some(_k) = first_one(&self.free) else {
            return false
        };
        true
    }

    /// Gives the hart the least free slot for a copy of the word. None exactly where all are out.
    pub fn claim(&mut self, hart: u32, word: u32) -> Option<u32>
        ensures slot { result ≡ option_map slot_address (least_free self.old) }
        ensures slots { self.new ≡ with_use self.old (least_free self.old) (record { hart = hart; word = word }) }
        ensures was_free { IfSome result (λ slot. use_at self.old slot ≡ None) }
        ensures taken { IfSome result (λ slot. use_at self.new slot ≡ Some (record { hart = hart; word = word })) }
        ensures others { (other : ℕ) → result ≢ Some other → use_at self.new other ≡ use_at self.old other }
        ensures full { IfNone result (AllOut self.old) }
    {
        let Some(k) = first_one(&self.free) else {
            return None
        };
        clear_bit(&mut self.free, k);
        self.uses[k as usize] = Some(SlotUse { hart, word });
        Some(FIRST + 8 * k)
    }

    /// Takes back a slot, which must be out.
    pub fn free(&mut self, slot: u32)
        requires { IsSome (use_at self.old slot) }
        ensures slots { self.new ≡ slice_set self.old (slot_number slot) None }
        ensures freed { use_at self.new slot ≡ None }
        ensures others { (other : ℕ) → other ≢ slot → use_at self.new other ≡ use_at self.old other }
    {
        let k = (slot - FIRST) / 8;
        set_bit(&mut self.free, k);
        self.uses[k as usize] = None;
    }
}
