// The beginning and the end of a step over a breakpoint.
ghost use Rattle.std.specs.Prelude.{◌≡◌, ◌<◌, ℕ, Option, None, Some, IsTrue, slice_get, true, false};
ghost use Rattle.scratch_slots.specs.Table.{use_at, AllOut};
ghost use Rattle.dbg_model.specs.State.{is_off};
ghost use Rattle.engine_parts.specs.Minds.{slot_of};
ghost use Rattle.engine_parts.specs.Facts.{other_holder};
ghost use Rattle.dbg_model.specs.declared.entry.Why.{Why};

use super::Engine;
use crate::{Move, Standing, Turned};
use engine_parts::homing::go_home;
use engine_parts::patching::{release, repatch};
use engine_parts::{Activity, Hold, Mind, Phase};
use mi_commands::Displaced;

// Whether planted words are stepped over by copies: displaced stepping isn't off, and there are slots.
pub(super) fn by_copies(displaced: Displaced, slots: u32) -> bool
    ensures yes { result ≡ true → (is_off displaced ≡ false) × (0 < slots) }
    ensures no { result ≡ false → 0 < slots → is_off displaced ≡ true }
{
    !matches!(displaced, Displaced::Off) && slots > 0
}

impl Engine {
    ghost use Rattle.engine_parts.specs.Facts.{Facts};
    ghost use Rattle.engine_parts.specs.Calls.{AtPlanted, Rephases, Lifts, Copies, Turns};
    ghost use Rattle.engine_parts.specs.Rows.{Begins, row_of};

    // A running hart steps over nothing any more: it comes home from its slot, which is free then, and a lifted patch is
    // planted again where a breakpoint stands.
    pub(crate) fn unwind(&mut self, h: u32, mind: Mind)
        requires mind { slice_get self.old.minds h ≡ Some mind }
        requires runs { mind.activity ≡ Activity.Running }
        requires free { other_holder self.old.hold h ≡ None }
        ensures home { Rephases self.old self.new h mind (Phase.Idle) None }
        ensures freed { (slot : ℕ) → slot_of mind.phase ≡ Some slot → use_at self.new.machine.slots slot ≡ None }
        ensures facts { Facts self.new }
    {
        go_home(&mut self.machine, h, mind.phase);
        release(&mut self.machine, self.hold, &self.table);
        self.hold = None;
        self.minds[h as usize].phase = Phase::Idle;
    }

    // The patch at the hart's pc is lifted.
    fn lift(&mut self, h: u32, mind: Mind, pc: u32)
        requires before { AtPlanted self.old h mind pc }
        requires runs { mind.activity ≡ Activity.Running }
        requires only { 0 < self.old.opening.settings.slots → is_off self.old.displaced ≡ true }
        ensures lifts { Lifts self.old self.new h }
        ensures facts { Facts self.new }
    {
        repatch(&mut self.machine, pc, false);
        self.hold = Some(Hold { hart: h, home: pc });
        self.minds[h as usize].phase = Phase::Lifted { home: pc };
    }

    // The hart enters the least free slot with a copy of its word. False where all slots are out.
    fn copy(&mut self, h: u32, mind: Mind, pc: u32) -> bool
        requires before { AtPlanted self.old h mind pc }
        requires runs { mind.activity ≡ Activity.Running }
        requires on { is_off self.old.displaced ≡ false }
        ensures copied { IsTrue result → Copies self.old self.new h }
        ensures full { result ≡ false → (self.new ≡ self.old) × AllOut self.old.machine.slots }
        ensures facts { Facts self.new }
    {
        let Some(word) = self.machine.shown(pc) else {
            unreachable!()
        };
        let Some(slot) = self.machine.begin_copy(h, word) else {
            return false;
        };
        self.minds[h as usize].phase = Phase::Copied { slot, home: pc };
        true
    }

    // A running hart at a planted word begins to step over it: by a copy where displaced stepping is on and there are
    // slots, else by lifting the patch.
    pub(crate) fn step_over(&mut self, h: u32, mind: Mind, pc: u32) -> Turned
        requires before { AtPlanted self.old h mind pc }
        requires runs { mind.activity ≡ Activity.Running }
        ensures row { (why : Option Why) → row_of result why ≡ Begins }
        ensures turns { Turns result self.old self.new h }
        ensures facts { Facts self.new }
    {
        if !by_copies(self.displaced, self.machine.slots()) {
            self.lift(h, mind, pc);
            return Turned::Moved(Move::Lifted);
        }
        if self.copy(h, mind, pc) {
            Turned::Moved(Move::Copied)
        } else {
            Turned::Stood(Standing::NoSlot)
        }
    }
}
