//! The attributes of an entry (DWARF 4, sections 2.2 and 7.5.3).

ghost use Rattle.std.specs.Prelude.{◌≡◌, ◌≤◌, IfOk, length, []};
ghost use Rattle.debug_info.specs.Attributes.{attributes_at, attributes_of, or_named, with_value};
ghost use Rattle.leb_read.specs.Leb.{IsReadTo};
ghost use Rattle.debug_info.specs.Index.{or_flag, with_flags};
ghost use Rattle.debug_info.specs.Sources.{IsSource};

use crate::abbreviation::specification_at;
use crate::fault::InfoFault;
use crate::form::{Value, value_at};
use crate::index::{Flags, unpacked};
use crate::offset::{AbbrevOffset, Source};

/// The values of an entry's attributes.
#[derive(Clone, Copy)]
pub struct Attributes {
    pub location: Option<Value>,
    pub name: Option<Value>,
    pub byte_size: Option<Value>,
    pub low_pc: Option<Value>,
    pub high_pc: Option<Value>,
    pub encoding: Option<Value>,
    pub frame_base: Option<Value>,
    pub type_of: Option<Value>,
}

fn no_attributes() -> Attributes
    ensures { result ≡ attributes_of [] }
{
    Attributes {
        location: None,
        name: None,
        byte_size: None,
        low_pc: None,
        high_pc: None,
        encoding: None,
        frame_base: None,
        type_of: None,
    }
}

// The value of a name: the first, or this one if it has the name.
fn or_named(code: u64, first: Option<Value>, name: u64, value: Value) -> Option<Value>
    ensures { result ≡ or_named code first name value }
{
    match first {
        Some(_) => first,
        None if name == code => Some(value),
        None => None,
    }
}

// The attributes with one more.
fn with_value(attributes: Attributes, name: u64, value: Value) -> Attributes
    ensures { result ≡ with_value attributes name value }
{
    Attributes {
        location: or_named(0x02, attributes.location, name, value),
        name: or_named(0x03, attributes.name, name, value),
        byte_size: or_named(0x0B, attributes.byte_size, name, value),
        low_pc: or_named(0x11, attributes.low_pc, name, value),
        high_pc: or_named(0x12, attributes.high_pc, name, value),
        encoding: or_named(0x3E, attributes.encoding, name, value),
        frame_base: or_named(0x40, attributes.frame_base, name, value),
        type_of: or_named(0x49, attributes.type_of, name, value),
    }
}

// The value of a name: the first, or none that is taken from if a flag has the name.
fn or_flag(first: Option<Value>, is_flagged: bool) -> Option<Value>
    ensures { result ≡ or_flag first is_flagged }
{
    if first.is_none() && is_flagged {
        Some(Value::Opaque)
    } else {
        first
    }
}

// The attributes with those that flags name.
fn with_flags(attributes: Attributes, flags: Flags) -> Attributes
    ensures { result ≡ with_flags attributes flags }
{
    Attributes {
        location: or_flag(attributes.location, flags.location),
        name: or_flag(attributes.name, flags.name),
        byte_size: or_flag(attributes.byte_size, flags.byte_size),
        low_pc: or_flag(attributes.low_pc, flags.low_pc),
        high_pc: or_flag(attributes.high_pc, flags.high_pc),
        encoding: or_flag(attributes.encoding, flags.encoding),
        frame_base: or_flag(attributes.frame_base, flags.frame_base),
        type_of: or_flag(attributes.type_of, flags.type_of),
    }
}

/// The attributes at a place whose specifications stand at another, and the next place. It takes a step for each value
/// that has bytes.
pub fn attributes_at(
    source: &Source<'_>,
    specifications: AbbrevOffset,
    at: usize,
) -> Result<(Attributes, usize), InfoFault>
    requires source { IsSource source.now }
    requires specifications { specifications.at ≤ length source.now.abbrevs.now }
    requires within { at ≤ length source.now.info.now }
    ensures value { result ≡ attributes_at source.now.abbrevs.now source.now.strs.now source.now.info.now specifications.at at }
    ensures within { IfOk result (λ r. IsReadTo source.now.info.now at r.1) }
{
    let mut attributes = no_attributes();
    let mut specified = specifications.at as usize;
    let mut place = at;
    'specifications: loop {
        let run = source.index.run(source.abbrevs, specified);
        attributes = with_flags(attributes, unpacked(run.flags));
        let (specification, next) = specification_at(source.abbrevs, run.behind as usize)?;
        let Some(specification) = specification else {
            return Ok((attributes, place));
        };
        let (value, behind) = value_at(specification.form, source, place)?;
        attributes = with_value(attributes, specification.name, value);
        specified = next;
        place = behind;
    }
}
