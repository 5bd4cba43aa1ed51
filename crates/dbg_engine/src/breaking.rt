// The table of breakpoints, and the words of the machine that are planted for it.
ghost use Rattle.std.specs.Prelude.{◌≡◌, ◌<◌, ◌-◌, ◌^◌, None, Some, IsSome, map};
ghost use Rattle.text_words.specs.Words.{shown};
ghost use Rattle.break_table.specs.Entry.{asked_of, entry_of};
ghost use Rattle.break_table.specs.Table.{changed, deleted, insert_fault, inserted, with_enabled};
ghost use Rattle.dbg_effects.specs.Effect.{change_of};
ghost use Rattle.dbg_model.specs.Breaks.{enabling, without};
ghost use Rattle.engine_parts.specs.Tables.{number_place, ArePlanted};
ghost use Rattle.engine_parts.specs.Changing.{Retabled, wants_by};
ghost use Rattle.dbg_engine.specs.Changing.{Applies};
ghost use Rattle.dbg_effects.specs.Table.{CanBeWatched, changed_table};
ghost use Rattle.dbg_model.specs.Reply.{watches_after};

use break_table::{BreakEntry, BreakTable, Spec};
use dbg_effects::{
    Effect, change_table as change_entries, delete_entry, enable_entry, insert_entry,
};
use engine_parts::Hold;
use engine_parts::patching::plant_as_wanted;
use hart_machine::Machine;
use watch_points::WatchList;

// The address of the breakpoint of a number.
fn place_of(entries: &[BreakEntry], number: u32) -> Option<u32>
    ensures { result ≡ number_place (map entry_of entries.now) number }
{
    match entries {
        [] => None,
        [first, rest @ ..] => {
            if first.number == number {
                Some(first.address)
            } else {
                place_of(rest, number)
            }
        }
    }
}

// A new breakpoint, whose word is planted where it is wanted now.
fn insert(machine: &mut Machine, table: &mut BreakTable, hold: Option<Hold>, spec: Spec)
    requires planted { ArePlanted machine.old.text (wants_by table.old hold) }
    requires given { table.old.given < 2 ^ 32 - 1 }
    requires may { insert_fault table.old (asked_of spec) ≡ None }
    requires text { spec.address < 2 ^ 32 → IsSome (shown machine.old.text spec.address) }
    ensures table { table.new ≡ inserted table.old (asked_of spec) }
    ensures machine { Retabled machine.old machine.new (wants_by table.new hold) }
{
    let place = spec.address;
    insert_entry(table, spec);
    plant_as_wanted(machine, table, hold, place);
}

// The breakpoint of a number goes, if there is one.
fn delete(machine: &mut Machine, table: &mut BreakTable, hold: Option<Hold>, number: u32)
    requires { ArePlanted machine.old.text (wants_by table.old hold) }
    ensures table { table.new ≡ deleted number table.old }
    ensures machine { Retabled machine.old machine.new (wants_by table.new hold) }
{
    let Some(place) = place_of(table.entries(), number) else {
        return;
    };
    delete_entry(table, number);
    plant_as_wanted(machine, table, hold, place);
}

// The breakpoint of a number is enabled, or disabled, if there is one.
fn enable(
    machine: &mut Machine,
    table: &mut BreakTable,
    hold: Option<Hold>,
    number: u32,
    enabled: bool,
)
    requires { ArePlanted machine.old.text (wants_by table.old hold) }
    ensures table { table.new ≡ changed (with_enabled enabled) number table.old }
    ensures machine { Retabled machine.old machine.new (wants_by table.new hold) }
{
    let Some(place) = place_of(table.entries(), number) else {
        return;
    };
    enable_entry(table, number, enabled);
    plant_as_wanted(machine, table, hold, place);
}

fn delete_each(machine: &mut Machine, table: &mut BreakTable, hold: Option<Hold>, numbers: &[u32])
    requires { ArePlanted machine.old.text (wants_by table.old hold) }
    ensures table { table.new ≡ record table.old { entries = without numbers.now table.old.entries } }
    ensures machine { Retabled machine.old machine.new (wants_by table.new hold) }
{
    let [number, rest @ ..] = numbers else {
        return;
    };
    delete(machine, table, hold, *number);
    delete_each(machine, table, hold, rest);
}

fn enable_each(
    machine: &mut Machine,
    table: &mut BreakTable,
    hold: Option<Hold>,
    numbers: &[u32],
    enabled: bool,
)
    requires { ArePlanted machine.old.text (wants_by table.old hold) }
    ensures table { table.new ≡ record table.old { entries = enabling enabled numbers.now table.old.entries } }
    ensures machine { Retabled machine.old machine.new (wants_by table.new hold) }
{
    let [number, rest @ ..] = numbers else {
        return;
    };
    enable(machine, table, hold, *number, enabled);
    enable_each(machine, table, hold, rest, enabled);
}

/// Makes a change of breakpoints and watches, with the words that are planted for breakpoints.
pub fn change_table(
    machine: &mut Machine,
    table: &mut BreakTable,
    watches: &mut WatchList,
    hold: Option<Hold>,
    effect: Effect,
)
    requires planted { ArePlanted machine.old.text (wants_by table.old hold) }
    requires given { table.old.given < 2 ^ 32 - 1 }
    requires may { Applies machine.old.text table.old effect }
    requires watch { CanBeWatched watches.old effect }
    ensures table { table.new ≡ changed_table table.old (change_of effect) }
    ensures watches { watches.new ≡ watches_after watches.old table.old.given (change_of effect) }
    ensures machine { Retabled machine.old machine.new (wants_by table.new hold) }
{
    match effect {
        Effect::Insert(spec) => insert(machine, table, hold, spec),
        Effect::Delete(numbers) => {
            delete_each(machine, table, hold, numbers.as_slice());
            watches.delete(numbers.as_slice());
        }
        Effect::Enable { numbers, enabled } => {
            enable_each(machine, table, hold, numbers.as_slice(), enabled);
            watches.switch(numbers.as_slice(), enabled);
        }
        other => change_entries(table, watches, other),
    }
}
