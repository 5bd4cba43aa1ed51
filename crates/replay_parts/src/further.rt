// Further instructions of a hart that goes on by itself, over the parts of a replay.
ghost use Rattle.std.specs.Prelude.{◌≡◌, ◌≤◌, ◌<◌, IfSome, Some};
ghost use Rattle.replay_parts.specs.Parts.{state_of};
ghost use Rattle.replay_parts.specs.Going.{HasRoom, Kept};
ghost use Rattle.replay_parts.specs.Further.{GoesNoFurther, LengthensBy, Unwatched, gone_on};

use crate::going::{Way, go};
use crate::movers::mover;
use crate::state::Parts;
use dbg_model::{Hart, Opening};
use rv_exec::Regs;

// The hart of a number, where it may move, there is no watch, and none fired for it.
fn unwatched(opening: &Opening, parts: &Parts, h: u32) -> Option<Hart>
    ensures hart { Unwatched result opening.now (state_of parts.now) h }
    ensures room { IfSome result (λ x. HasRoom opening.now parts.now) }
{
    let Ok(hart) = mover(opening, parts, h) else {
        return None;
    };
    if parts.watches.is_empty() && hart.course.fired.is_none() {
        Some(hart)
    } else {
        None
    }
}

// A hart that went on by itself.
fn gone_on(hart: Hart, regs: Regs) -> Hart
    ensures { result ≡ gone_on hart regs }
{
    Hart {
        regs,
        course: hart.course.after_instruction(None, None),
        ..hart
    }
}

/// At most so many further instructions of a hart, by which it goes on by itself, and how many they were.
pub fn go_on(opening: &Opening, parts: &mut Parts, h: u32, most: u64) -> u64
    requires { Kept opening.now parts.old }
    ensures most { result ≤ most }
    ensures lengthens { LengthensBy result opening.now h (record { prev = Some h; state = state_of parts.old }) (record { prev = Some h; state = state_of parts.new }) }
    ensures far { result < most → GoesNoFurther opening.now h (record { prev = Some h; state = state_of parts.new }) }
    ensures kept { Kept opening.now parts.new }
{
    let Some(hart) = unwatched(opening, parts, h) else {
        return 0;
    };
    let limit = most.min(opening.settings.budget - parts.retired);
    let way = Way {
        words: &parts.words,
        table: &parts.table,
        plan: hart.course.plan,
    };
    let mut regs = hart.regs;
    let count = go(&way, &mut regs, &mut parts.memory, limit);
    if count == 0 {
        return 0;
    }
    parts.harts[h as usize] = gone_on(hart, regs);
    parts.retired += count;
    count
}
