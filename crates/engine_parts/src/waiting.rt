// Where harts wait for returns, and the words that are planted for it.
ghost use Rattle.std.specs.Prelude.{◌≡◌, ◌↔◌, ◌<◌, ◌≤◌, ℕ, length, map, slice_get, IsSome, is_some, None, Some, false, true};
ghost use Rattle.text_words.specs.Words.{shown, unpatched};
ghost use Rattle.break_table.specs.Table.{with_wait};
ghost use Rattle.break_table.specs.Text.{is_place};
ghost use Rattle.engine_parts.specs.Minds.{awaited, return_of};
ghost use Rattle.engine_parts.specs.Tables.{ArePlanted};
ghost use Rattle.engine_parts.specs.Changing.{Retabled, wants_by};

use crate::minds::is_running;
use crate::patching::plant_as_wanted;
use crate::{Hold, Mind};
use break_table::BreakTable;
use elf32_read::Image;
use hart_machine::Machine;
use step_plans::Plan;

/// What harts wait by.
#[derive(Clone, Copy)]
pub struct Waiting<'a> {
    pub image: &'a Image,
    /// What is kept of each hart.
    pub minds: &'a [Mind],
    /// The patch that is lifted.
    pub hold: Option<Hold>,
}

// The address that a call returns to for which a plan waits.
fn return_of(plan: Plan) -> Option<u32>
    ensures { result ≡ return_of plan }
{
    match plan {
        Plan::ToReturn { ret, .. } | Plan::Finish { ret, .. } => Some(ret),
        _ => None,
    }
}

// Whether there is a word of text at an address.
fn is_word(image: &Image, addr: u32) -> bool
    ensures { result ≡ is_some (shown (unpatched image.now) addr) }
{
    image.text_word(addr).is_some()
}

/// Where a hart waits for a return: that of its plan, where there is a word of text.
pub fn awaited(image: &Image, mind: Mind) -> Option<u32>
    ensures { result ≡ awaited image.now mind }
{
    if !is_running(&mind) {
        return None;
    }
    match return_of(mind.course.plan) {
        Some(ret) if is_word(image, ret) => Some(ret),
        _ => None,
    }
}

/// Whether a hart goes on with another plan.
pub fn changes(old: Plan, new: Plan) -> bool
    ensures { (result ≡ false) ↔ (new ≡ old) }
{
    old != new
}

fn mind_of(minds: &[Mind], h: u32) -> Mind
    requires { h < length minds.now }
    ensures { slice_get minds.now h ≡ Some result }
{
    minds[h as usize]
}

// A hart waits no longer, and the word where it did is planted as it is wanted then.
fn end_wait(machine: &mut Machine, table: &mut BreakTable, hold: Option<Hold>, h: u32)
    requires hart { h < length table.old.waits }
    requires planted { ArePlanted machine.old.text (wants_by table.old hold) }
    ensures table { table.new ≡ with_wait h None table.old }
    ensures machine { Retabled machine.old machine.new (wants_by table.new hold) }
{
    let Some(addr) = table.wait(h) else {
        return;
    };
    table.wait_end(h);
    plant_as_wanted(machine, table, hold, addr);
}

// A hart that doesn't wait begins to where it is to, and the word there is planted as it is wanted then.
fn begin_wait(
    machine: &mut Machine,
    table: &mut BreakTable,
    hold: Option<Hold>,
    h: u32,
    to: Option<u32>,
)
    requires hart { h < length table.old.waits }
    requires free { slice_get table.old.waits h ≡ Some None }
    requires planted { ArePlanted machine.old.text (wants_by table.old hold) }
    requires text { (a : ℕ) → to ≡ Some a → IsSome (shown machine.old.text a) }
    requires place { (a : ℕ) → to ≡ Some a → is_place table.old.text a ≡ true }
    ensures table { table.new ≡ with_wait h to table.old }
    ensures machine { Retabled machine.old machine.new (wants_by table.new hold) }
{
    let Some(addr) = to else {
        return;
    };
    table.wait_at(h, addr);
    plant_as_wanted(machine, table, hold, addr);
}

// A hart waits where its plan has it wait.
fn wait_for(machine: &mut Machine, table: &mut BreakTable, waiting: &Waiting<'_>, h: u32)
    requires hart { h < length waiting.now.minds.now }
    requires many { length table.old.waits ≡ length waiting.now.minds.now }
    requires words { machine.old.text.words ≡ (unpatched waiting.now.image.now).words }
    requires places { (a : ℕ) → IsSome (shown (unpatched waiting.now.image.now) a) → is_place table.old.text a ≡ true }
    requires planted { ArePlanted machine.old.text (wants_by table.old waiting.now.hold) }
    ensures table { (x : Mind) → slice_get waiting.now.minds.now h ≡ Some x → table.new ≡ with_wait h (awaited waiting.now.image.now x) table.old }
    ensures machine { Retabled machine.old machine.new (wants_by table.new waiting.now.hold) }
{
    let to = awaited(waiting.image, mind_of(waiting.minds, h));
    end_wait(machine, table, waiting.hold, h);
    begin_wait(machine, table, waiting.hold, h, to);
}

/// Each hart waits where its plan has it wait, and the words are planted as they are wanted then. Nothing is done where
/// it isn't needed.
pub fn rewait(machine: &mut Machine, table: &mut BreakTable, waiting: &Waiting<'_>, needed: bool)
    requires few { length waiting.now.minds.now ≤ 16 }
    requires many { length table.old.waits ≡ length waiting.now.minds.now }
    requires words { machine.old.text.words ≡ (unpatched waiting.now.image.now).words }
    requires places { (a : ℕ) → IsSome (shown (unpatched waiting.now.image.now) a) → is_place table.old.text a ≡ true }
    requires planted { ArePlanted machine.old.text (wants_by table.old waiting.now.hold) }
    requires stays { needed ≡ false → table.old.waits ≡ map (awaited waiting.now.image.now) waiting.now.minds.now }
    ensures table { table.new ≡ record table.old { waits = map (awaited waiting.now.image.now) waiting.now.minds.now } }
    ensures machine { Retabled machine.old machine.new (wants_by table.new waiting.now.hold) }
{
    if !needed {
        return;
    }
    for h in 0..waiting.minds.len() {
        wait_for(machine, table, waiting, h as u32);
    }
}
