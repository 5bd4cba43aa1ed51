//! Values and lines, written.

ghost use Rattle.std.specs.Prelude.{◌≡◌, [], ◌∷◌, ◌++◌, OnOk, OnErr, true, false};
ghost use Rattle.mi_values.specs.Name.{is_name};
ghost use Rattle.mi_values.specs.Tree.{value_view, items_view, fields_view};
ghost use Rattle.mi_values.specs.Spelling.{comma, value_bytes, items_from, fields_from};
ghost use Rattle.mi_text.specs.Keeps.{Keeps};
ghost use Rattle.mi_values.specs.Record.{Record, IsLine, notice_byte, stream_byte, line_bytes, class_bytes};
ghost use Rattle.mi_values.specs.Line.{line_view};

use crate::line::{Fields, Line};
use crate::name::Name;
use crate::sign::{NoticeSign, StreamSign};
use crate::value::Value;
use dbg_traits::NoMemory;
use mi_text::write_c_string;
use std::alloc::AllocError;

/// Puts the value's text at the end.
#[cycle(write)]
fn write_value(value: &Value, into: &mut Vec<u8>) -> Result<(), AllocError>
    ensures written { OnOk result (into.new.items ≡ into.old.items ++ value_bytes (value_view value.now)) }
    ensures kept { Keeps into.old.items into.new.items }
{
    match value {
        Value::Text(text) => write_c_string(text, into),
        Value::Tuple(fields) => {
            write_byte(b'{', into)?;
            write_fields(fields, b'}', false, into)
        }
        Value::Items(values) => {
            write_byte(b'[', into)?;
            write_items(values, into)
        }
        Value::Named(fields) => {
            write_byte(b'[', into)?;
            write_fields(fields, b']', false, into)
        }
    }
}

fn separate(started: bool, into: &mut Vec<u8>) -> Result<(), AllocError>
    ensures written { OnOk result (into.new.items ≡ into.old.items ++ comma started) }
    ensures kept { Keeps into.old.items into.new.items }
{
    if started {
        into.push(b',')?;
    }
    Ok(())
}

/// Puts a byte at the end.
fn write_byte(byte: u8, into: &mut Vec<u8>) -> Result<(), AllocError>
    ensures written { OnOk result (into.new.items ≡ into.old.items ++ byte ∷ []) }
    ensures kept { Keeps into.old.items into.new.items }
{
    into.push(byte)?;
    Ok(())
}

/// Puts a field's name and its `=` at the end.
fn write_name(started: bool, name: &Name, into: &mut Vec<u8>) -> Result<(), AllocError>
    ensures written { OnOk result (into.new.items ≡ into.old.items ++ (comma started ++ (name.now ++ 61 ∷ []))) }
    ensures kept { Keeps into.old.items into.new.items }
{
    separate(started, into)?;
    into.extend_from_slice(name.as_bytes())?;
    write_byte(b'=', into)
}

#[cycle(write)]
fn write_items(values: &Vec<Value>, into: &mut Vec<u8>) -> Result<(), AllocError>
    ensures written { OnOk result (into.new.items ≡ into.old.items ++ items_from false (items_view values.now.items)) }
    ensures kept { Keeps into.old.items into.new.items }
{
    let mut started = false;
    for value in values {
        separate(started, into)?;
        write_value(value, into)?;
        started = true;
    }
    write_byte(b']', into)
}

/// Puts the fields and the closing byte at the end; a comma comes before the first where one stands before.
#[cycle(write)]
fn write_fields(
    fields: &Vec<(Name, Value)>,
    close: u8,
    mut started: bool,
    into: &mut Vec<u8>,
) -> Result<(), AllocError>
    ensures written { OnOk result (into.new.items ≡ into.old.items ++ fields_from close started (fields_view fields.now.items)) }
    ensures kept { Keeps into.old.items into.new.items }
{
    for field in fields {
        write_name(started, &field.0, into)?;
        write_value(&field.1, into)?;
        started = true;
    }
    write_byte(close, into)
}

// The first byte of a notice.
fn notice_byte(sign: NoticeSign) -> u8
    ensures { result ≡ notice_byte sign }
{
    match sign {
        NoticeSign::Exec => b'*',
        NoticeSign::Notify => b'=',
    }
}

// The first byte of a stream.
fn stream_byte(sign: StreamSign) -> u8
    ensures { result ≡ stream_byte sign }
{
    match sign {
        StreamSign::Target => b'@',
        StreamSign::Log => b'&',
    }
}

/// Puts a class, its fields and LF at the end.
fn write_class(class: &Name, fields: &Fields, into: &mut Vec<u8>) -> Result<(), AllocError>
    ensures written { OnOk result (into.new.items ≡ into.old.items ++ class_bytes class.now (fields_view fields.now.items.items)) }
    ensures named { OnOk result (is_name class.now ≡ true) }
    ensures kept { Keeps into.old.items into.new.items }
{
    into.extend_from_slice(class.as_bytes())?;
    write_fields(&fields.items, b'\n', true, into)
}

fn write_parts(line: &Line, into: &mut Vec<u8>) -> Result<(), AllocError>
    ensures written { OnOk result (into.new.items ≡ into.old.items ++ line_bytes (line_view line.now)) }
    ensures line { OnOk result (IsLine (line_view line.now)) }
    ensures kept { Keeps into.old.items into.new.items }
{
    match line {
        Line::Result {
            token,
            class,
            fields,
        } => {
            into.extend_from_slice(token.as_bytes())?;
            write_byte(b'^', into)?;
            write_class(class, fields, into)
        }
        Line::Notice {
            sign,
            class,
            fields,
        } => {
            write_byte(notice_byte(*sign), into)?;
            write_class(class, fields, into)
        }
        Line::Stream { sign, bytes } => {
            write_byte(stream_byte(*sign), into)?;
            write_c_string(bytes, into)?;
            write_byte(b'\n', into)
        }
        Line::Prompt => into.extend_from_slice(b"(gdb)\n"),
    }
}

/// Puts the line's one text at the end. Out of memory, the buffer is as before.
pub fn write_line(line: &Line, into: &mut Vec<u8>) -> Result<(), NoMemory>
    ensures written { OnOk result (into.new.items ≡ into.old.items ++ line_bytes (line_view line.now)) }
    ensures record { OnOk result (Record (line_bytes (line_view line.now)) (line_view line.now)) }
    ensures unchanged { OnErr result (into.new.items ≡ into.old.items) }
{
    let before = into.len();
    if write_parts(line, into).is_err() {
        into.truncate(before);
        return Err(NoMemory);
    }
    Ok(())
}
