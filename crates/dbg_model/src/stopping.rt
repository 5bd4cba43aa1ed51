// What stops a hart, as the breakpoints and the watches tell it.
ghost use Rattle.std.specs.Prelude.{◌≡◌, IfOk, map};
ghost use Rattle.std.specs.Option.{option_copied};
ghost use Rattle.break_table.specs.Entry.{entry_of};
ghost use Rattle.dbg_model.specs.Breaks.{is_temporary};
ghost use Rattle.dbg_model.specs.Shown.{stopping_watch, stops_once, watch_of};

use crate::{ShownWatch, Why, bytes_of};
use break_table::{BreakEntry, BreakTable};
use std::alloc::{AllocError, Global};
use watch_points::Watch;

// Whether the breakpoint of that number is temporary.
fn is_temporary(entries: &[BreakEntry], number: u32) -> bool
    ensures { result ≡ is_temporary (map entry_of entries.now) number }
{
    match entries {
        [] => false,
        [first, rest @ ..] => {
            if first.number == number {
                first.temporary
            } else {
                is_temporary(rest, number)
            }
        }
    }
}

/// Whether it is a temporary breakpoint that stops a hart.
pub fn stops_once(table: &BreakTable, why: Why) -> bool
    ensures { result ≡ stops_once table.now.entries why }
{
    match why {
        Why::Break { number, .. } => is_temporary(table.entries(), number),
        _ => false,
    }
}

// The watch of that number.
fn watch_of(watches: &[Watch], number: u32) -> Option<&Watch>
    ensures { option_copied result ≡ watch_of watches.now number }
{
    let [watch, rest @ ..] = watches else {
        return None;
    };
    if watch.number == number {
        return Some(watch);
    }
    watch_of(rest, number)
}

/// The watch of these that stops a hart, if one does.
pub fn stopping_watch(
    alloc: Global,
    watches: &[Watch],
    why: Why,
) -> Result<Option<ShownWatch>, AllocError>
    ensures { IfOk result (λ w. w ≡ stopping_watch watches.now why) }
{
    let Why::Watch(fired) = why else {
        return Ok(None);
    };
    let Some(watch) = watch_of(watches, fired.number) else {
        return Ok(None);
    };
    Ok(Some(ShownWatch {
        text: bytes_of(alloc, watch.text.as_slice())?,
        signed: watch.signed,
    }))
}
