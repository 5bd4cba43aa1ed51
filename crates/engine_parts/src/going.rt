// A hart that goes on by itself, over the parts of an engine.
ghost use Rattle.std.specs.Prelude.{◌≡◌, ◌<◌, ◌≤◌, ◌⊎◌, [], length, true, false};
ghost use Rattle.hart_machine.specs.Running.{HasStopped};
ghost use Rattle.engine_parts.specs.Going.{Goes, Passes, surroundings_view};
ghost use Rattle.engine_parts.specs.Watching.{WritesNear};

use crate::hits::due_at;
use crate::watching::is_near;
use break_table::BreakTable;
use dbg_model::is_kept;
use elf32_read::Image;
use hart_machine::Machine;
use step_plans::Plan;
use watch_points::WatchList;

/// A hart that goes on, and what it meets there.
#[derive(Clone, Copy)]
pub struct Surroundings<'a> {
    pub hart: u32,
    pub table: &'a BreakTable,
    pub watches: &'a WatchList,
    /// What conditions read of the text.
    pub image: &'a Image,
    /// The plan of the hart.
    pub plan: Plan,
    /// Whether planted words are stepped over by copies.
    pub copies: bool,
}

/// How far a hart went.
#[derive(Clone, Copy)]
pub struct Progress {
    pub turns: u32,
    pub instructions: u32,
}

// Steps over the planted word at a hart's pc, where the breakpoints there neither stop nor count it and its plan stays.
// False where it isn't stepped over; then nothing has changed. There is no watch.
fn pass(machine: &mut Machine, around: &Surroundings<'_>) -> bool
    requires hart { around.now.hart < length machine.old.cores }
    requires unwatched { around.now.watches.now ≡ [] }
    ensures passes { result ≡ true → Passes (surroundings_view around.now) machine.old machine.new }
    ensures kept { result ≡ false → machine.new ≡ machine.old }
    ensures harts { length machine.new.cores ≡ length machine.old.cores }
{
    if !around.copies {
        return false;
    }
    let pc = machine.pc(around.hart);
    if !machine.planted(pc) {
        return false;
    }
    if !is_kept(around.plan, pc) {
        return false;
    }
    let due = due_at(around.table, around.image, machine, around.hart, pc);
    if due.counts || due.stop.is_some() {
        return false;
    }
    let Some(word) = machine.shown(pc) else {
        return false;
    };
    machine.step_copy(around.hart, word)
}

// As `go`, where there is no watch.
fn go_freely(machine: &mut Machine, around: &Surroundings<'_>, limit: u32, most: u32) -> Progress
    requires hart { around.now.hart < length machine.old.cores }
    requires unwatched { around.now.watches.now ≡ [] }
    ensures limit { result.turns ≤ limit }
    ensures most { result.instructions ≤ most }
    ensures fewer { result.instructions ≤ result.turns }
    ensures goes { Goes (surroundings_view around.now) most result.turns result.instructions machine.old machine.new }
    ensures far { result.turns < limit → result.instructions < most → HasStopped machine.new around.now.hart }
{
    let mut turns = 0;
    let mut instructions = 0;
    while turns < limit && instructions < most {
        let left = (limit - turns).min(most - instructions);
        let count = machine.run(around.hart, left);
        turns += count;
        instructions += count;
        if limit - turns < 3 || most - instructions < 2 {
            return Progress {
                turns,
                instructions,
            };
        }
        if !pass(machine, around) {
            return Progress {
                turns,
                instructions,
            };
        }
        turns += 3;
        instructions += 1;
    }
    Progress {
        turns,
        instructions,
    }
}

// As `go`, where there are watches: as many instructions as turns, each of which writes where none has its bytes.
fn go_watched(machine: &mut Machine, around: &Surroundings<'_>, limit: u32, most: u32) -> u32
    requires { around.now.hart < length machine.old.cores }
    ensures limit { result ≤ limit }
    ensures most { result ≤ most }
    ensures goes { Goes (surroundings_view around.now) most result result machine.old machine.new }
    ensures far { result < limit → result < most → HasStopped machine.new around.now.hart ⊎ WritesNear machine.new around.now.hart around.now.watches.now }
{
    let mut count = 0;
    while count < limit && count < most {
        if is_near(machine, around.hart, around.watches) {
            return count;
        }
        if machine.run(around.hart, 1) == 0 {
            return count;
        }
        count += 1;
    }
    count
}

/// Takes a hart at most `limit` turns on, in which it executes at most `most` instructions. Where neither is reached, it has
/// come to where it doesn't go on by itself.
pub fn go(machine: &mut Machine, around: &Surroundings<'_>, limit: u32, most: u32) -> Progress
    requires { around.now.hart < length machine.old.cores }
    ensures limit { result.turns ≤ limit }
    ensures most { result.instructions ≤ most }
    ensures fewer { result.instructions ≤ result.turns }
    ensures goes { Goes (surroundings_view around.now) most result.turns result.instructions machine.old machine.new }
    ensures far { result.turns < limit → result.instructions < most → HasStopped machine.new around.now.hart ⊎ WritesNear machine.new around.now.hart around.now.watches.now }
{
    if around.watches.is_empty() {
        return go_freely(machine, around, limit, most);
    }
    let count = go_watched(machine, around, limit, most);
    Progress {
        turns: count,
        instructions: count,
    }
}
