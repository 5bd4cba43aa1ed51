//! Values, read from the front.

ghost use Rattle.std.specs.Prelude.{◌≡◌, ℕ, List, ◌∷◌, MatchOption, true, false};
ghost use Rattle.mi_values.specs.Name.{is_name_byte};
ghost use Rattle.mi_values.specs.Reads.{ReadsWord, ReadsName, ReadsField, ReadsValue, ReadsItems, ReadsFields, begins_item, is_close};

use crate::c_string::read_c_string;
use crate::name::{Name, is_name_byte};
use crate::value::Value;
use mi_text::{ReadFault, after};
use std::alloc::Global;

fn name_byte(bytes: &[u8]) -> Option<(u8, &[u8])>
    ensures { MatchOption result
        ((b : ℕ) (rest : List ℕ) → bytes.now ≡ b ∷ rest → is_name_byte b ≡ false)
        (λ p. (bytes.now ≡ p.0 ∷ p.1.now) × (is_name_byte p.0 ≡ true)) }
{
    match bytes {
        [first, rest @ ..] if is_name_byte(*first) => Some((*first, rest)),
        _ => None,
    }
}

/// The longest name at the front, and the bytes behind it.
pub fn read_word(alloc: Global, bytes: &[u8]) -> Result<(Name, &[u8]), ReadFault>
    ensures { ReadsWord bytes.now result }
{
    let mut name = Vec::new(alloc);
    let mut rest = bytes;
    'turns: while let Some((b, more)) = name_byte(rest) {
        name.push(b)?;
        rest = more;
    }
    if name.is_empty() {
        return Err(ReadFault::Text);
    }
    Ok((Name::new(name), rest))
}

/// The name at the front, and the bytes behind its `=`.
fn read_name(alloc: Global, bytes: &[u8]) -> Result<(Name, &[u8]), ReadFault>
    ensures { ReadsName bytes.now result }
{
    let (name, rest) = read_word(alloc, bytes)?;
    let Some(end) = after(rest, b'=') else {
        return Err(ReadFault::Text);
    };
    Ok((name, end))
}

fn begins_item(bytes: &[u8]) -> bool
    ensures { result ≡ begins_item bytes.now }
{
    match bytes {
        [first, ..] => matches!(*first, b']' | b'"' | b'{' | b'['),
        [] => false,
    }
}

/// The value at the front, and the bytes behind it. Values nest at most `depth` deep.
#[cycle(read)]
fn read_value(alloc: Global, bytes: &[u8], depth: u32) -> Result<(Value, &[u8]), ReadFault>
    ensures { ReadsValue bytes.now depth result }
{
    if depth == 0 {
        return Err(ReadFault::Text);
    }
    if let Some(inner) = after(bytes, b'{') {
        let (fields, rest) = read_fields(alloc, inner, b'}', depth - 1)?;
        return Ok((Value::Tuple(fields), rest));
    }
    if let Some(inner) = after(bytes, b'[') {
        if begins_item(inner) {
            let (values, rest) = read_items(alloc, inner, depth - 1)?;
            return Ok((Value::Items(values), rest));
        }
        let (named, rest) = read_fields(alloc, inner, b']', depth - 1)?;
        return Ok((Value::Named(named), rest));
    }
    let (text, rest) = read_c_string(alloc, bytes)?;
    Ok((Value::Text(text), rest))
}

/// The values up to the closing bracket.
#[cycle(read)]
fn read_items(alloc: Global, bytes: &[u8], depth: u32) -> Result<(Vec<Value>, &[u8]), ReadFault>
    ensures { ReadsItems bytes.now depth result }
{
    let mut values = Vec::new(alloc);
    if let Some(end) = after(bytes, b']') {
        return Ok((values, end));
    }
    let mut rest = bytes;
    'turns: loop {
        let (value, more) = read_value(alloc, rest, depth)?;
        values.push(value)?;
        if let Some(end) = after(more, b']') {
            return Ok((values, end));
        }
        let Some(next) = after(more, b',') else {
            return Err(ReadFault::Text);
        };
        rest = next;
    }
}

/// The field at the front.
#[cycle(read)]
fn read_field(alloc: Global, bytes: &[u8], depth: u32) -> Result<((Name, Value), &[u8]), ReadFault>
    ensures { ReadsField bytes.now depth result }
{
    let (name, rest) = read_name(alloc, bytes)?;
    let (value, rest) = read_value(alloc, rest, depth)?;
    Ok(((name, value), rest))
}

/// The fields up to the closing byte.
#[cycle(read)]
pub fn read_fields(
    alloc: Global,
    bytes: &[u8],
    close: u8,
    depth: u32,
) -> Result<(Vec<(Name, Value)>, &[u8]), ReadFault>
    requires { is_close close ≡ true }
    ensures { ReadsFields close bytes.now depth result }
{
    let mut fields = Vec::new(alloc);
    if let Some(end) = after(bytes, close) {
        return Ok((fields, end));
    }
    let mut rest = bytes;
    'turns: loop {
        let (field, more) = read_field(alloc, rest, depth)?;
        fields.push(field)?;
        if let Some(end) = after(more, close) {
            return Ok((fields, end));
        }
        let Some(next) = after(more, b',') else {
            return Err(ReadFault::Text);
        };
        rest = next;
    }
}
