//! What is kept of a unit's entries while it is looked through: so much that each is found, and read again.

ghost use Rattle.std.specs.Prelude.{◌≡◌, ◌≤◌, ◌+◌, ◌++◌, IfOk, OnOk, length, map};
ghost use Rattle.debug_info.specs.Entries.{entries_from, entry_list};
ghost use Rattle.debug_info.specs.Marks.{GivesMarks, mark_of, reread_in};
ghost use Rattle.debug_info.specs.Rising.{RisesFrom};
ghost use Rattle.debug_info.specs.Sources.{IsSource};
ghost use Rattle.debug_info.specs.Tables.{IsTable};

use crate::entry::{Entry, LEVELS, Tag, entry_at, level_behind};
use crate::fault::InfoError;
use crate::offset::Source;
use crate::tables::Table;
use dbg_traits::NoMemory;
use std::alloc::Global;

/// What is kept of an entry.
#[derive(Clone, Copy)]
pub struct Mark {
    /// From the unit's beginning.
    pub offset: u32,
    pub tag: Tag,
    /// How deep it stands.
    pub level: u8,
    pub is_named: bool,
}

/// A unit that is looked through.
#[derive(Clone, Copy)]
pub struct Unit<'a> {
    /// The bytes of `.debug_info` end with the unit's.
    pub source: Source<'a>,
    pub table: &'a Table,
    /// Where it begins.
    pub at: usize,
    /// Those of its entries, in their order.
    pub marks: &'a [Mark],
}

fn mark_of(entry: &Entry) -> Mark
    ensures { result ≡ mark_of entry.now }
{
    Mark {
        offset: entry.offset,
        tag: entry.tag,
        level: entry.level,
        is_named: entry.name.is_some(),
    }
}

fn push_mark(marks: &mut Vec<Mark>, entry: &Option<Entry>) -> Result<(), NoMemory>
    ensures { OnOk result (marks.new.items ≡ marks.old.items ++ map mark_of (entry_list entry.now)) }
{
    if let Some(entry) = entry {
        marks.push(mark_of(entry))?;
    }
    Ok(())
}

/// The marks of a unit's entries, whose bytes end with the section's, from a place on.
pub fn marks_at(
    alloc: Global,
    source: &Source<'_>,
    table: &Table,
    unit: usize,
    at: usize,
) -> Result<Vec<Mark>, InfoError>
    requires source { IsSource source.now }
    requires table { IsTable source.now.abbrevs.now table.now }
    requires unit { unit ≤ at }
    requires within { at ≤ length source.now.info.now }
    ensures rising { IfOk result (λ v. RisesFrom 0 v.items) }
    ensures value { GivesMarks source.now.abbrevs.now source.now.strs.now source.now.info.now table.now.at unit result (entries_from (length source.now.info.now + 1) source.now.abbrevs.now source.now.strs.now source.now.info.now table.now.at unit 0 at) }
{
    let mut marks = Vec::new(alloc);
    let mut level = 0;
    let mut place = at;
    'entries: while place < source.info.len() {
        let (entry, next) = entry_at(source, table, unit, level, place)?;
        push_mark(&mut marks, &entry)?;
        level = level_behind(level, &entry);
        place = next;
    }
    marks.shrink_to_fit();
    Ok(marks)
}

impl Unit<'_> {
    /// The entry of a mark.
    pub fn entry(&self, mark: Mark) -> Option<Entry>
        requires source { IsSource self.now.source }
        requires table { IsTable self.now.source.abbrevs.now self.now.table.now }
        requires within { self.now.at ≤ length self.now.source.info.now }
        ensures { result ≡ reread_in self.now mark }
    {
        let at = self.at + mark.offset as usize;
        if mark.level == 0 || LEVELS < mark.level || self.source.info.len() < at {
            return None;
        }
        match entry_at(&self.source, self.table, self.at, mark.level - 1, at) {
            Ok((entry, _)) => entry,
            Err(_) => None,
        }
    }
}
