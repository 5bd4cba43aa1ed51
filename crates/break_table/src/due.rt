//! Which breakpoints count and stop at an arrival.

ghost use Rattle.std.specs.Prelude.{◌≡◌, length, map};
ghost use Rattle.cond_expr.specs.Condition.{tree_of};
ghost use Rattle.cond_expr.specs.Value.{value_of};
ghost use Rattle.break_table.specs.Entry.{condition_of, entry_of};
ghost use Rattle.break_table.specs.Arrival.{counts, due_of, error_of, fits, is_for, is_met, stops, value_error};
ghost use Rattle.break_table.specs.Places.{picked, AreInside};

use crate::entry::BreakEntry;
use crate::places::{Place, entry_at};
use cond_expr::{Expr, Value, value};
use dbg_traits::View;
use thiserror::Error;

/// Why the value of a condition can't be had.
#[derive(Clone, Copy, Debug, Error)]
pub enum CondError {
    /// A divisor was 0.
    #[error("division by zero")]
    DivZero,
    /// No byte is mapped at this address.
    #[error("no byte is mapped at {0:#x}")]
    Unread(u32),
}

/// What the breakpoints do at an arrival.
#[derive(Clone, Copy)]
pub struct Due {
    /// The least number of an entry that stops.
    pub stop: Option<u32>,
    /// Why the value of that entry's condition can't be had.
    pub error: Option<CondError>,
    /// Whether some entry counts.
    pub counts: bool,
}

/// No entry stops, and none counts.
pub const NOTHING: Due = Due {
    stop: None,
    error: None,
    counts: false,
};

fn is_for(hart: u32, thread: Option<u32>) -> bool
    ensures { result ≡ is_for hart thread }
{
    match thread {
        None => true,
        Some(thread) => u64::from(thread) == u64::from(hart) + 1,
    }
}

fn fits(entry: &BreakEntry, hart: u32, pc: u32) -> bool
    ensures { result ≡ fits hart pc (entry_of entry.now) }
{
    entry.address == pc && entry.enabled && is_for(hart, entry.thread)
}

/// Whether an entry counts an arrival and lets the hart pass.
pub fn counts(entry: &BreakEntry, hart: u32, pc: u32) -> bool
    ensures { result ≡ counts hart pc (entry_of entry.now) }
{
    fits(entry, hart, pc) && entry.ignore > 0
}

fn value_error(value: Value) -> Option<CondError>
    ensures { result ≡ value_error value }
{
    match value {
        Value::Word(_, _) => None,
        Value::DivZero => Some(CondError::DivZero),
        Value::Unread(addr) => Some(CondError::Unread(addr)),
    }
}

fn error_of<V: View>(entry: &BreakEntry, view: &V) -> Option<CondError>
    ensures { result ≡ error_of (V.registers view.now) (V.bytes view.now) (entry_of entry.now).condition }
{
    match &entry.condition {
        None => None,
        Some(condition) => value_error(value(condition, view)),
    }
}

fn is_met<V: View>(entry: &BreakEntry, view: &V) -> bool
    ensures { result ≡ is_met (V.registers view.now) (V.bytes view.now) (entry_of entry.now).condition }
{
    match &entry.condition {
        None => true,
        Some(condition) => !matches!(value(condition, view), Value::Word(0, _)),
    }
}

/// Whether an entry stops a hart that has arrived. Its condition is evaluated where all else fits.
pub fn stops<V: View>(entry: &BreakEntry, hart: u32, view: &V) -> bool
    ensures { result ≡ stops hart (V.registers view.now) (V.bytes view.now) (entry_of entry.now) }
{
    fits(entry, hart, view.reg(32)) && entry.ignore == 0 && is_met(entry, view)
}

/// What the entries at places do at an arrival.
pub fn due_among<V: View>(entries: &[BreakEntry], places: &[Place], hart: u32, view: &V) -> Due
    requires { AreInside (length entries.now) places.now }
    ensures { result ≡ due_of hart (V.registers view.now) (V.bytes view.now) (picked (map entry_of entries.now) places.now) }
{
    let [first, rest @ ..] = places else {
        return NOTHING;
    };
    let due = due_among(entries, rest, hart, view);
    let entry = entry_at(entries, first);
    if counts(entry, hart, view.reg(32)) {
        return Due {
            counts: true,
            ..due
        };
    }
    if !stops(entry, hart, view) || due.stop.is_some_and(|least| least < entry.number) {
        return due;
    }
    Due {
        stop: Some(entry.number),
        error: error_of(entry, view),
        ..due
    }
}
