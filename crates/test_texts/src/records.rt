// Output lines as trees: read, and written again.
use mi_values::{
    Fields, Line, Name, NoticeSign, ReadFault, StreamSign, Token, is_name, read_line, write_line,
};
use std::alloc::{AllocError, Global};
use test_rows::Piece::{Number, Text};
use test_rows::{RowFault, number_at, read_bytes, said, told, told_bytes};

// The line at the front. None where no line stands there.
fn front_line(alloc: Global, text: &[u8]) -> Result<Option<Line>, RowFault> {
    match read_line(alloc, text) {
        Ok(line) => Ok(Some(line)),
        Err(ReadFault::Text) => Ok(None),
        Err(ReadFault::NoMemory) => Err(RowFault::NoMemory),
    }
}

fn write(line: &Line, into: &mut Vec<u8>) -> Result<(), RowFault> {
    write_line(line, into).map_err(|_| RowFault::NoMemory)
}

fn written(alloc: Global, line: &Line) -> Result<Vec<u8>, RowFault> {
    let mut out = Vec::new(alloc);
    write(line, &mut out)?;
    Ok(out)
}

fn told_written(alloc: Global, line: &Line) -> Result<String, RowFault> {
    let out = written(alloc, line)?;
    Ok(told_bytes(alloc, &out)?)
}

fn told_front(alloc: Global, line: Option<&Line>) -> Result<String, RowFault> {
    match line {
        Some(line) => told_written(alloc, line),
        None => said(alloc, "no line"),
    }
}

// What is written of the line at the front.
fn told_line(alloc: Global, text: &[u8]) -> Result<String, RowFault> {
    let line = front_line(alloc, text)?;
    told_front(alloc, line.as_ref())
}

fn push_times(byte: u8, count: u32, into: &mut Vec<u8>) -> Result<(), AllocError> {
    for _ in 0..count {
        into.push(byte)?;
    }
    Ok(())
}

fn push_in_brackets(count: u32, inner: &[u8], into: &mut Vec<u8>) -> Result<(), AllocError> {
    push_times(b'[', count, into)?;
    into.extend_from_slice(inner)?;
    push_times(b']', count, into)?;
    Ok(into.push(b'\n')?)
}

// A result whose one value stands in brackets, and what stands in them.
fn in_brackets(alloc: Global, count: u32, inner: &[u8]) -> Result<Vec<u8>, AllocError> {
    let mut text = Vec::from_slice(alloc, b"^done,a=")?;
    push_in_brackets(count, inner, &mut text)?;
    Ok(text)
}

fn is_line(alloc: Global, text: &[u8]) -> Result<bool, RowFault> {
    let line = front_line(alloc, text)?;
    Ok(line.is_some())
}

fn told_whether_line(alloc: Global, text: &[u8]) -> Result<String, RowFault> {
    let told = if is_line(alloc, text)? {
        "a line"
    } else {
        "no line"
    };
    said(alloc, told)
}

fn told_brackets(alloc: Global, rest: &str) -> Result<String, RowFault> {
    let (count, inner) = rest.split_once(' ').unwrap_or((rest, ""));
    let text = in_brackets(alloc, number_at(count, 0), inner.as_bytes())?;
    told_whether_line(alloc, &text)
}

// Bytes behind a text.
fn push_bytes(alloc: Global, bytes: &[u8], into: &mut String) -> Result<(), RowFault> {
    let told = told_bytes(alloc, bytes)?;
    Ok(into.push_str(told.as_str())?)
}

fn told_behind(alloc: Global, front: &str, bytes: &[u8]) -> Result<String, RowFault> {
    let mut text = String::from_str(alloc, front)?;
    push_bytes(alloc, bytes, &mut text)?;
    Ok(text)
}

fn told_stream(alloc: Global, line: Option<&Line>) -> Result<String, RowFault> {
    match line {
        Some(Line::Stream { sign, bytes }) => {
            let front = match sign {
                StreamSign::Target => "Target ",
                StreamSign::Log => "Log ",
            };
            told_behind(alloc, front, bytes)
        }
        _ => said(alloc, "no stream"),
    }
}

fn log_line(alloc: Global, text: &str) -> Result<Line, AllocError> {
    Ok(Line::Stream {
        sign: StreamSign::Log,
        bytes: read_bytes(alloc, text)?,
    })
}

fn written_log(alloc: Global, text: &str) -> Result<Vec<u8>, RowFault> {
    let line = log_line(alloc, text)?;
    written(alloc, &line)
}

// Bytes, and the stream that is read of them.
fn told_with_read(alloc: Global, bytes: &[u8]) -> Result<String, RowFault> {
    let line = front_line(alloc, bytes)?;
    let read = told_stream(alloc, line.as_ref())?;
    told_as(alloc, bytes, &read)
}

fn told_as(alloc: Global, bytes: &[u8], read: &str) -> Result<String, RowFault> {
    let mut text = told_bytes(alloc, bytes)?;
    text.push_str(" is ")?;
    text.push_str(read)?;
    Ok(text)
}

// A message, and what is read where it was written.
fn told_log(alloc: Global, text: &str) -> Result<String, RowFault> {
    let out = written_log(alloc, text)?;
    told_with_read(alloc, &out)
}

fn name_of(alloc: Global, text: &str) -> Result<Name, RowFault> {
    let bytes = read_bytes(alloc, text)?;
    if is_name(&bytes) {
        Ok(Name::new(bytes))
    } else {
        Err(RowFault::Unknown)
    }
}

fn push_result(alloc: Global, class: Name, into: &mut Vec<u8>) -> Result<(), RowFault> {
    let line = Line::Result {
        token: Token::none(),
        class,
        fields: Fields::none(alloc),
    };
    write(&line, into)
}

fn push_notice(alloc: Global, class: Name, into: &mut Vec<u8>) -> Result<(), RowFault> {
    let line = Line::Notice {
        sign: NoticeSign::Notify,
        class,
        fields: Fields::none(alloc),
    };
    write(&line, into)
}

fn push_prompt(into: &mut Vec<u8>) -> Result<(), RowFault> {
    let line = Line::Prompt;
    write(&line, into)
}

// A result and a notice of these classes, and a prompt.
fn push_made(
    alloc: Global,
    (first, second): (&str, &str),
    into: &mut Vec<u8>,
) -> Result<(), RowFault> {
    push_result(alloc, name_of(alloc, first)?, into)?;
    push_notice(alloc, name_of(alloc, second)?, into)?;
    push_prompt(into)
}

fn told_made(alloc: Global, classes: &str) -> Result<String, RowFault> {
    let classes = classes.split_once(' ').ok_or(RowFault::Unknown)?;
    let mut out = Vec::new(alloc);
    push_made(alloc, classes, &mut out)?;
    Ok(told_bytes(alloc, &out)?)
}

// Whether a line is read whole, and what is written of it is the line.
fn is_kept(alloc: Global, text: &[u8]) -> Result<bool, RowFault> {
    let Some(line) = front_line(alloc, text)? else {
        return Ok(false);
    };
    Ok(written(alloc, &line)?.as_slice() == text)
}

fn told_kept(alloc: Global, count: u32) -> Result<String, RowFault> {
    told(
        alloc,
        &[
            Number(count),
            Text(" lines, each read and written again as it is"),
        ],
    )
}

/// How many stored lines there are, where each of them is read and written again as it is; else the first that isn't.
pub fn told_stored(alloc: Global, text: &[u8]) -> Result<String, RowFault> {
    let mut count = 0u32;
    for line in text.split_inclusive(|b| *b == b'\n') {
        if !is_kept(alloc, line)? {
            return told_behind(alloc, "not the same: ", line);
        }
        count = count.saturating_add(1);
    }
    told_kept(alloc, count)
}

/// What came of a row: `record TEXT`, `brackets COUNT INNER`, `log BYTES` or `made RESULT NOTICE`.
pub fn answer(alloc: Global, word: &str, rest: &str) -> Result<String, RowFault> {
    match word {
        "record" => told_line(alloc, &read_bytes(alloc, rest)?),
        "brackets" => told_brackets(alloc, rest),
        "log" => told_log(alloc, rest),
        _ => told_made(alloc, rest),
    }
}
