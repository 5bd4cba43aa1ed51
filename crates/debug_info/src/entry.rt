//! The entries of a unit (DWARF 4, sections 2.1 to 2.3 and 7.5.2).

ghost use Rattle.std.specs.Prelude.{◌≡◌, ◌<◌, ◌≤◌, ◌+◌, ◌-◌, IfOk, IfSome, length};
ghost use Rattle.debug_info.specs.Attributes.{basic_kind, constant_of, entry_of, expression_of, range_of, reference_of, tag_of, text_of};
ghost use Rattle.debug_info.specs.Entries.{IsLevel, entry_at, level_behind};
ghost use Rattle.debug_info.specs.Sources.{IsSource};
ghost use Rattle.debug_info.specs.Tables.{IsTable};

use crate::abbreviation::Declaration;
use crate::attribute::{Attributes, attributes_at};
use crate::expression::{Base, Operation, Place, base_of, place_of};
use crate::fault::InfoFault;
use crate::form::{TextPlace, Value};
use crate::offset::Source;
use crate::tables::Table;
use leb_read::uleb;

/// What an entry stands for.
#[derive(Clone, Copy)]
pub enum Tag {
    Parameter,
    Block,
    Pointer,
    Typedef,
    BaseType,
    Const,
    Subprogram,
    Variable,
    Volatile,
    /// The entry of a unit, of one compilation or a part of one.
    Unit,
    Other,
}

/// What a variable's bytes are.
#[derive(Clone, Copy)]
pub enum Kind {
    /// A signed number of 1, 2 or 4 bytes.
    Signed(u8),
    /// An unsigned number of 1, 2 or 4 bytes.
    Unsigned(u8),
    Pointer,
    Other,
}

/// The addresses of a function or a block.
#[derive(Clone, Copy)]
pub struct Range {
    pub low: u32,
    /// Behind the last one, at most 2^32.
    pub end: u64,
}

/// An entry of a unit.
#[derive(Clone, Copy)]
pub struct Entry {
    /// From the unit's beginning.
    pub offset: u32,
    /// The offset of its type's entry, from the unit's beginning.
    pub type_of: Option<u32>,
    /// Where its name begins, which isn't empty.
    pub name: Option<TextPlace>,
    pub range: Option<Range>,
    pub place: Place,
    pub base: Base,
    /// The kind of a base type.
    pub basic: Kind,
    pub tag: Tag,
    /// How deep it stands: the unit's own entry at 1, and each child one deeper.
    pub level: u8,
    pub has_children: bool,
}

/// Most levels.
pub const LEVELS: u8 = 64;

fn tag_of(code: u64) -> Tag
    ensures { result ≡ tag_of code }
{
    match code {
        0x05 => Tag::Parameter,
        0x0B => Tag::Block,
        0x0F => Tag::Pointer,
        0x11 | 0x3C => Tag::Unit,
        0x16 => Tag::Typedef,
        0x24 => Tag::BaseType,
        0x26 => Tag::Const,
        0x2E => Tag::Subprogram,
        0x34 => Tag::Variable,
        0x35 => Tag::Volatile,
        _ => Tag::Other,
    }
}

fn text_of(value: Option<Value>) -> Option<TextPlace>
    ensures { result ≡ text_of value }
{
    match value {
        Some(Value::Text(place)) => Some(place),
        _ => None,
    }
}

fn constant_of(value: Option<Value>) -> Option<u64>
    ensures { result ≡ constant_of value }
{
    match value {
        Some(Value::Constant(number)) => Some(number),
        _ => None,
    }
}

fn reference_of(value: Option<Value>) -> Option<u32>
    ensures { result ≡ reference_of value }
{
    match value {
        Some(Value::Reference(offset)) => u32::try_from(offset).ok(),
        _ => None,
    }
}

fn expression_of(value: Option<Value>) -> Option<Operation>
    ensures { result ≡ expression_of value }
{
    match value {
        Some(Value::Block(operation)) => operation,
        _ => None,
    }
}

// The range from a low address up to a high one, or of a length.
fn range_of(low: Option<Value>, high: Option<Value>) -> Option<Range>
    ensures { result ≡ range_of low high }
{
    match (low, high) {
        (Some(Value::Address(low)), Some(Value::Address(high))) => Some(Range {
            low,
            end: u64::from(high),
        }),
        (Some(Value::Address(low)), Some(Value::Constant(length))) => Some(Range {
            low,
            end: u64::from(low).saturating_add(length).min(1 << 32),
        }),
        _ => None,
    }
}

// The kind of a base type, by its encoding and its size.
fn basic_kind(encoding: Option<u64>, size: Option<u64>) -> Kind
    ensures { result ≡ basic_kind encoding size }
{
    match (encoding, size) {
        (Some(5 | 6), Some(n @ (1 | 2 | 4))) => Kind::Signed(n as u8),
        (Some(2 | 7 | 8), Some(n @ (1 | 2 | 4))) => Kind::Unsigned(n as u8),
        _ => Kind::Other,
    }
}

fn entry_of(offset: u32, level: u8, declaration: Declaration, attributes: Attributes) -> Entry
    ensures { result ≡ entry_of offset level declaration attributes }
{
    Entry {
        offset,
        level,
        has_children: declaration.has_children,
        tag: tag_of(declaration.tag),
        name: text_of(attributes.name),
        range: range_of(attributes.low_pc, attributes.high_pc),
        place: place_of(expression_of(attributes.location)),
        base: base_of(expression_of(attributes.frame_base)),
        basic: basic_kind(
            constant_of(attributes.encoding),
            constant_of(attributes.byte_size),
        ),
        type_of: reference_of(attributes.type_of),
    }
}

/// The entry at a place of a unit below so many levels, or none where children end, and the next place.
#[tactic(auto, unfolding(crate::specs::Entries::entry_at))]
pub fn entry_at(
    source: &Source<'_>,
    table: &Table,
    unit: usize,
    level: u8,
    at: usize,
) -> Result<(Option<Entry>, usize), InfoFault>
    requires source { IsSource source.now }
    requires table { IsTable source.now.abbrevs.now table.now }
    requires level { level ≤ 64 }
    requires unit { unit ≤ at }
    requires within { at ≤ length source.now.info.now }
    ensures value { result ≡ entry_at source.now.abbrevs.now source.now.strs.now source.now.info.now table.now.at unit level at }
    ensures behind { IfOk result (λ r. at < r.1) }
    ensures within { IfOk result (λ r. r.1 ≤ length source.now.info.now) }
    ensures deep { IfOk result (λ r. IfSome r.0 IsLevel) }
    ensures offset { IfOk result (λ r. IfSome r.0 (λ e. e.offset ≡ at - unit)) }
    ensures below { IfOk result (λ r. IfSome r.0 (λ e. e.level ≡ level + 1)) }
{
    let (code, next) = uleb(source.info, at)?;
    if code == 0 {
        return Ok((None, next));
    }
    let declaration = table.find(source.abbrevs, source.index, code)?;
    if level == LEVELS {
        return Err(InfoFault::Deep);
    }
    let (attributes, next) = attributes_at(source, declaration.attributes, next)?;
    let offset = (at - unit) as u32;
    let entry = entry_of(offset, level + 1, declaration, attributes);
    Ok((Some(entry), next))
}

/// The levels above what stands behind an entry, or behind an end of children.
pub fn level_behind(level: u8, entry: &Option<Entry>) -> u8
    requires level { level ≤ 64 }
    requires entry { IfSome entry.now IsLevel }
    ensures value { result ≡ level_behind level entry.now }
    ensures range { result ≤ 64 }
{
    match entry {
        None => level.saturating_sub(1),
        Some(entry) if entry.has_children => entry.level,
        Some(entry) => entry.level - 1,
    }
}
