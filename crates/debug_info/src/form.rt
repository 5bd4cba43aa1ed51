//! The values of attributes, by their forms (DWARF 4, sections 7.5.4 and 7.5.5; DWARF 2 and 3 have no others).

ghost use Rattle.std.specs.Prelude.{◌≡◌, ◌≤◌, IfOk, length};
ghost use Rattle.leb_read.specs.Leb.{IsReadTo};
ghost use Rattle.debug_info.specs.Forms.{block_at, shared_at, signed_constant, text_value, value_at, value_by};
ghost use Rattle.debug_info.specs.Sources.{IsSource};

use crate::expression::{Operation, only_operation};
use crate::fault::InfoFault;
use crate::offset::{InfoOffset, Source, StrOffset};
use leb_read::{Form, Width, behind_run, form_of, number_by, sleb, text_at, u32_at};

/// Where a text begins.
#[derive(Clone, Copy)]
pub enum TextPlace {
    Inline(InfoOffset),
    Shared(StrOffset),
}

/// The value of an attribute.
#[derive(Clone, Copy)]
pub enum Value {
    Address(u32),
    Constant(u64),
    /// The operation of a block that is an expression of exactly one.
    Block(Option<Operation>),
    Text(TextPlace),
    /// From the unit's beginning.
    Reference(u64),
    /// What no attribute is taken from.
    Opaque,
}

// A length, and so many bytes.
#[tactic(auto, unfolding(crate::specs::Forms::block_at))]
fn block_at(width: Width, bytes: &[u8], at: usize) -> Result<(Value, usize), InfoFault>
    ensures value { result ≡ block_at width bytes.now at }
    ensures within { IfOk result (λ r. IsReadTo bytes.now at r.1) }
{
    let (length, start) = number_by(width, bytes, at)?;
    let past = behind_run(length, bytes, start)?;
    Ok((Value::Block(only_operation(&bytes[start..past])), past))
}

// The value of a text that begins at a place: an empty one says nothing.
fn text_value(text: &[u8], place: TextPlace) -> Value
    ensures { result ≡ text_value text.now place }
{
    if text.is_empty() {
        Value::Opaque
    } else {
        Value::Text(place)
    }
}

// A text of `.debug_str`, by its offset.
#[tactic(auto, unfolding(crate::specs::Forms::shared_at, leb_read::specs::Leb::text_at))]
fn shared_at(source: &Source<'_>, at: usize) -> Result<(Value, usize), InfoFault>
    requires { IsSource source.now }
    ensures value { result ≡ shared_at source.now.strs.now source.now.info.now at }
    ensures within { IfOk result (λ r. IsReadTo source.now.info.now at r.1) }
{
    let (offset, next) = u32_at(source.info, at)?;
    let place = StrOffset { at: offset };
    if !source.lengths.is_ended(source.strs, offset as usize) {
        return Err(InfoFault::Short);
    }
    let text = source.lengths.text(source.strs, offset as usize);
    Ok((text_value(text, TextPlace::Shared(place)), next))
}

fn signed_constant(number: i64) -> Value
    ensures { result ≡ signed_constant number }
{
    match u64::try_from(number) {
        Ok(constant) => Value::Constant(constant),
        Err(_) => Value::Opaque,
    }
}

// The value of a form at a place, and the next place. Two forms came with version 5.
#[tactic(auto, unfolding(crate::specs::Forms::value_by))]
fn value_by(form: Form, source: &Source<'_>, at: usize) -> Result<(Value, usize), InfoFault>
    requires source { IsSource source.now }
    requires within { at ≤ length source.now.info.now }
    ensures value { result ≡ value_by form source.now.strs.now source.now.info.now at }
    ensures within { IfOk result (λ r. IsReadTo source.now.info.now at r.1) }
{
    let bytes = source.info;
    match form {
        Form::Address => {
            let (address, next) = u32_at(bytes, at)?;
            Ok((Value::Address(address), next))
        }
        Form::Constant(width) => {
            let (number, next) = number_by(width, bytes, at)?;
            Ok((Value::Constant(number), next))
        }
        Form::SignedConstant => {
            let (number, next) = sleb(bytes, at)?;
            Ok((signed_constant(number), next))
        }
        Form::Block(width) => block_at(width, bytes, at),
        Form::Expression => block_at(Width::Variable, bytes, at),
        Form::Inline => {
            let (text, next) = text_at(bytes, at)?;
            let place = InfoOffset { at: at as u32 };
            Ok((text_value(text, TextPlace::Inline(place)), next))
        }
        Form::Shared => shared_at(source, at),
        Form::Reference(width) => {
            let (offset, next) = number_by(width, bytes, at)?;
            Ok((Value::Reference(offset), next))
        }
        Form::Opaque(size) => {
            let next = behind_run(size, bytes, at)?;
            Ok((Value::Opaque, next))
        }
        Form::LongConstant | Form::LineShared => Err(InfoFault::Form),
    }
}

/// The value of the form of a code at a place, and the next place.
#[tactic(auto, unfolding(crate::specs::Forms::value_at))]
pub fn value_at(code: u64, source: &Source<'_>, at: usize) -> Result<(Value, usize), InfoFault>
    requires source { IsSource source.now }
    requires within { at ≤ length source.now.info.now }
    ensures value { result ≡ value_at code source.now.strs.now source.now.info.now at }
    ensures within { IfOk result (λ r. IsReadTo source.now.info.now at r.1) }
{
    match form_of(code) {
        Some(form) => value_by(form, source, at),
        None => Err(InfoFault::Form),
    }
}
