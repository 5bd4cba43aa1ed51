//! The tables of directories and files in version 5.

ghost use Rattle.std.specs.Prelude.{◌≡◌, IfOk};
ghost use Rattle.leb_read.specs.Leb.{IsBehind};
ghost use Rattle.line_headers.specs.Texts.{texts_before};
ghost use Rattle.line_headers.specs.Gives.{Finds, Gives};
ghost use Rattle.line_headers.specs.Entries.{counted_at, entries_at, entry_at, entry_tables_at, table_at, text_named, value_at};

use crate::formats::{Field, format_at};
use crate::places::{NamePlace, name_in_line};
use crate::texts::TextEnds;
use leb_read::{Form, behind_form, text_at, u32_at, uleb};
use line_rows::{LineError, LineFault};
use std::alloc::Global;

// The name at an offset, which is looked up for a path alone.
fn text_named(
    is_path: bool,
    stands: bool,
    name: NamePlace,
    next: usize,
) -> Result<(NamePlace, usize), LineFault>
    ensures { result ≡ text_named is_path stands name next }
{
    if is_path && !stands {
        return Err(LineFault::Short);
    }
    Ok((name, next))
}

// The name that a value gives.
#[tactic(auto, unfolding(crate::specs::Entries::value_at))]
fn value_at(
    bytes: &[u8],
    at: usize,
    field: Field,
    ends: TextEnds,
) -> Result<(NamePlace, usize), LineError>
    ensures { Finds result (value_at (texts_before ends) field bytes.now at) }
{
    match field.form {
        Form::Inline => {
            let (_, next) = text_at(bytes, at)?;
            Ok((name_in_line(at)?, next))
        }
        Form::LineShared => {
            let (offset, next) = u32_at(bytes, at)?;
            let stands = (offset as usize) < ends.line_str;
            Ok(text_named(field.is_path, stands, NamePlace::LineStr(offset), next)?)
        }
        Form::Shared => {
            let (offset, next) = u32_at(bytes, at)?;
            let stands = (offset as usize) < ends.strs;
            Ok(text_named(field.is_path, stands, NamePlace::Str(offset), next)?)
        }
        _ => Ok((NamePlace::Empty, behind_form(field.form, bytes, at)?)),
    }
}

// The name of an entry, and the place behind the entry.
fn entry_at(
    bytes: &[u8],
    at: usize,
    fields: &[Field],
    ends: TextEnds,
) -> Result<(NamePlace, usize), LineError>
    ensures { Finds result (entry_at (texts_before ends) fields.now NamePlace.Empty bytes.now at) }
{
    let mut name = NamePlace::Empty;
    let mut place = at;
    for field in fields {
        let (value, next) = value_at(bytes, place, *field, ends)?;
        if field.is_path {
            name = value;
        }
        place = next;
    }
    Ok((name, place))
}

fn entries_at(
    alloc: Global,
    bytes: &[u8],
    at: usize,
    fields: &[Field],
    count: u64,
    ends: TextEnds,
) -> Result<(Vec<NamePlace>, usize), LineError>
    ensures { Gives result (entries_at (texts_before ends) fields.now count bytes.now at) }
{
    let mut names = Vec::new(alloc);
    let mut place = at;
    for _ in 0..count {
        let (name, next) = entry_at(bytes, place, fields, ends)?;
        names.push(name)?;
        place = next;
    }
    Ok((names, place))
}

// Entries without fields can't be told apart, and any count of them would fit.
fn counted_at(
    alloc: Global,
    bytes: &[u8],
    at: usize,
    fields: &[Field],
    count: u64,
    ends: TextEnds,
) -> Result<(Vec<NamePlace>, usize), LineError>
    ensures { Gives result (counted_at (texts_before ends) fields.now count bytes.now at) }
{
    if fields.is_empty() && count > 0 {
        return Err(LineError::Fault(LineFault::Header));
    }
    entries_at(alloc, bytes, at, fields, count, ends)
}

#[tactic(auto, unfolding(crate::specs::Entries::table_at))]
fn table_at(
    alloc: Global,
    bytes: &[u8],
    at: usize,
    ends: TextEnds,
) -> Result<(Vec<NamePlace>, usize), LineError>
    ensures { Gives result (table_at (texts_before ends) bytes.now at) }
{
    let (fields, next) = format_at(alloc, bytes, at)?;
    let (count, next) = uleb(bytes, next)?;
    counted_at(alloc, bytes, next, &fields, count, ends)
}

/// The files of a header of version 5.
#[tactic(auto, unfolding(crate::specs::Entries::entry_tables_at))]
pub fn entry_tables_at(
    alloc: Global,
    bytes: &[u8],
    at: usize,
    ends: TextEnds,
) -> Result<(Vec<NamePlace>, usize), LineError>
    ensures { Gives result (entry_tables_at (texts_before ends) bytes.now at) }
{
    let (_, next) = table_at(alloc, bytes, at, ends)?;
    table_at(alloc, bytes, next, ends)
}
