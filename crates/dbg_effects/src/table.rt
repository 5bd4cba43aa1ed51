// What an effect makes of the table of breakpoints and the list of watches. Whether it can be made was judged with the answer to its line.
ghost use Rattle.std.specs.Prelude.{◌≡◌, ◌+◌, ◌-◌, ◌^◌, ◌<◌, ◌++◌, ◌∷◌, [], None, length};
ghost use Rattle.std.specs.Option.{option_map};
ghost use Rattle.break_table.specs.Entry.{asked_of, condition_of};
ghost use Rattle.rv_exec.specs.Memory.{IsLen};
ghost use Rattle.break_table.specs.Table.{changed, deleted, drawn, insert_fault, inserted, with_condition, with_enabled, with_ignore};
ghost use Rattle.dbg_model.specs.Breaks.{enabling, without};
ghost use Rattle.watch_points.specs.Watches.{most_watches};
ghost use Rattle.dbg_model.specs.Reply.{watches_after};
ghost use Rattle.watch_points.specs.Watches.{new_watch};
ghost use Rattle.dbg_effects.specs.Effect.{change_of};
ghost use Rattle.dbg_effects.specs.Table.{CanBeMade, CanBeWatched, LacksAtMost, changed_table};

use crate::effect::Effect;
use break_table::{BreakFault, BreakTable, Spec};
use cond_expr::Expr;
use dbg_traits::ByteList;
use watch_points::{Watch, WatchList, Watched};

// A call that names a number is done, or nothing is there to be changed: a line may delete a number twice.
fn done_where_there(call: Result<(), BreakFault>)
    requires { LacksAtMost call }
{
    match call {
        Ok(()) | Err(BreakFault::NoNumber) => {}
        Err(BreakFault::Place | BreakFault::Full | BreakFault::Thread) => unreachable!(),
    }
}

/// A new breakpoint.
pub fn insert_entry(table: &mut BreakTable, spec: Spec)
    requires given { table.old.given < 2 ^ 32 - 1 }
    requires may { insert_fault table.old (asked_of spec) ≡ None }
    ensures { table.new ≡ inserted table.old (asked_of spec) }
{
    match table.insert(spec) {
        Ok(_number) => {}
        Err(_fault) => unreachable!(),
    }
}

/// A new watch, with the next number.
fn add_watch(table: &mut BreakTable, watches: &mut WatchList, text: ByteList, watched: Watched)
    requires given { table.old.given < 2 ^ 32 - 1 }
    requires room { length watches.old < most_watches }
    requires sized { IsLen watched.size }
    ensures table { table.new ≡ drawn table.old }
    ensures watches { watches.new ≡ watches.old ++ new_watch (table.old.given + 1) text watched ∷ [] }
{
    watches.add(Watch {
        number: table.draw(),
        text,
        address: watched.address,
        size: watched.size,
        signed: watched.signed,
        enabled: true,
        times: 0,
    });
}

/// The breakpoint of a number goes, if there is one.
pub fn delete_entry(table: &mut BreakTable, number: u32)
    ensures { table.new ≡ deleted number table.old }
{
    done_where_there(table.delete(number));
}

/// The breakpoint of a number is enabled, or disabled, if there is one.
pub fn enable_entry(table: &mut BreakTable, number: u32, enabled: bool)
    ensures { table.new ≡ changed (with_enabled enabled) number table.old }
{
    if enabled {
        done_where_there(table.enable(number));
    } else {
        done_where_there(table.disable(number));
    }
}

/// The breakpoint of a number gets another condition or none, if there is one.
fn set_condition(table: &mut BreakTable, number: u32, condition: Option<Expr>)
    ensures { table.new ≡ changed (with_condition (option_map condition_of condition)) number table.old }
{
    done_where_there(table.condition(number, condition));
}

/// So many arrivals at the breakpoint of a number are only counted, if there is one.
fn set_ignore(table: &mut BreakTable, number: u32, count: u32)
    ensures { table.new ≡ changed (with_ignore count) number table.old }
{
    done_where_there(table.after(number, count));
}

fn delete_each(table: &mut BreakTable, numbers: &[u32])
    ensures { table.new ≡ record table.old { entries = without numbers.now table.old.entries } }
{
    let [number, rest @ ..] = numbers else {
        return;
    };
    delete_entry(table, *number);
    delete_each(table, rest);
}

fn enable_each(table: &mut BreakTable, numbers: &[u32], enabled: bool)
    ensures { table.new ≡ record table.old { entries = enabling enabled numbers.now table.old.entries } }
{
    let [number, rest @ ..] = numbers else {
        return;
    };
    enable_entry(table, *number, enabled);
    enable_each(table, rest, enabled);
}

/// Makes an effect of a command in the table and the list.
pub fn change_table(table: &mut BreakTable, watches: &mut WatchList, effect: Effect)
    requires given { table.old.given < 2 ^ 32 - 1 }
    requires may { CanBeMade table.old effect }
    requires watch { CanBeWatched watches.old effect }
    ensures table { table.new ≡ changed_table table.old (change_of effect) }
    ensures watches { watches.new ≡ watches_after watches.old table.old.given (change_of effect) }
{
    match effect {
        Effect::Insert(spec) => insert_entry(table, spec),
        Effect::Watch { text, watched } => add_watch(table, watches, text, watched),
        Effect::Delete(numbers) => {
            delete_each(table, numbers.as_slice());
            watches.delete(numbers.as_slice());
        }
        Effect::Enable { numbers, enabled } => {
            enable_each(table, numbers.as_slice(), enabled);
            watches.switch(numbers.as_slice(), enabled);
        }
        Effect::Condition { number, condition } => set_condition(table, number, condition),
        Effect::After { number, count } => set_ignore(table, number, count),
        Effect::Nothing
        | Effect::Resume { .. }
        | Effect::Interrupt(_)
        | Effect::Select(_)
        | Effect::Displace(_)
        | Effect::Poke(_)
        | Effect::Exit => {}
    }
}
