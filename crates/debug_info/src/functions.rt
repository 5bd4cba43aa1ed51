//! The functions of a section and their addresses (DWARF 4, sections 2.17.2 and 3.3).

ghost use Rattle.std.specs.Prelude.{◌≡◌, ◌<◌, ◌≤◌, ◌+◌, ◌^◌, ◌++◌, IfSome, OnOk, length};
ghost use Rattle.debug_info.specs.Entries.{Gives, entries_from, entry_list};
ghost use Rattle.debug_info.specs.Functions.{functions_in, functions_read};
ghost use Rattle.debug_info.specs.Sources.{IsSource};
ghost use Rattle.debug_info.specs.Tables.{IsTable};

use crate::entry::{Entry, Tag, entry_at, level_behind};
use crate::fault::InfoError;
use crate::offset::Source;
use crate::tables::Table;
use address_tables::AddressRange;
use dbg_traits::NoMemory;
use std::alloc::Global;

// Adds the function that an entry of the unit at a place is, if there is one.
fn push_function(
    functions: &mut Vec<AddressRange<u32>>,
    unit: usize,
    entry: &Option<Entry>,
) -> Result<(), NoMemory>
    requires { IfSome entry.now (λ e. unit + e.offset < 2 ^ 32) }
    ensures { OnOk result (functions.new.items ≡ functions.old.items ++ functions_in unit (entry_list entry.now)) }
{
    if let Some(entry) = entry {
        if entry.tag == Tag::Subprogram {
            if let Some(range) = entry.range {
                functions.push(AddressRange {
                    begin: u64::from(range.low),
                    end: range.end,
                    value: unit as u32 + entry.offset,
                })?;
            }
        }
    }
    Ok(())
}

/// The functions of the unit at a place, whose bytes end with the section's, by its entries from another place on. Of these
/// none is kept.
pub fn functions_at(
    alloc: Global,
    source: &Source<'_>,
    table: &Table,
    unit: usize,
    at: usize,
) -> Result<Vec<AddressRange<u32>>, InfoError>
    requires source { IsSource source.now }
    requires table { IsTable source.now.abbrevs.now table.now }
    requires unit { unit ≤ at }
    requires within { at ≤ length source.now.info.now }
    ensures { Gives result (functions_read unit (entries_from (length source.now.info.now + 1) source.now.abbrevs.now source.now.strs.now source.now.info.now table.now.at unit 0 at)) }
{
    let mut functions = Vec::new(alloc);
    let mut level = 0;
    let mut place = at;
    'entries: while place < source.info.len() {
        let (entry, next) = entry_at(source, table, unit, level, place)?;
        push_function(&mut functions, unit, &entry)?;
        level = level_behind(level, &entry);
        place = next;
    }
    functions.shrink_to_fit();
    Ok(functions)
}
