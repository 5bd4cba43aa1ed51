//! Lines, read from the front.

ghost use Rattle.std.specs.Prelude.{◌≡◌, ℕ, List, ◌++◌, position, ◌==◌, MatchBool};
ghost use Rattle.mi_values.specs.Record.{LineTree, Record, prompt_text};
ghost use Rattle.mi_values.specs.Line.{ReadsLine, GivesLine};
ghost use Rattle.mi_values.specs.LineParts.{ReadsToken, ReadsTail, ReadsClass, ReadsNotice, ReadsStream, ReadsResult};

use crate::c_string::read_c_string;
use crate::line::{Fields, Line};
use crate::name::Name;
use crate::proper::DEPTH;
use crate::read::{read_fields, read_word};
use crate::sign::{NoticeSign, StreamSign};
use crate::value::Value;
use mi_text::{ReadFault, Token, after, is_token};
use std::alloc::Global;

/// The fields behind a class, each behind a comma, up to LF.
fn read_tail(alloc: Global, bytes: &[u8]) -> Result<(Vec<(Name, Value)>, &[u8]), ReadFault>
    ensures { ReadsTail bytes.now result }
{
    if let Some(rest) = after(bytes, b'\n') {
        return Ok((Vec::new(alloc), rest));
    }
    let Some(inner) = after(bytes, b',') else {
        return Err(ReadFault::Text);
    };
    if let Some(_) = after(inner, b'\n') {
        return Err(ReadFault::Text);
    }
    read_fields(alloc, inner, b'\n', DEPTH)
}

/// A class, its fields and LF.
fn read_class(alloc: Global, bytes: &[u8]) -> Result<(Name, Fields), ReadFault>
    ensures { ReadsClass bytes.now result }
{
    let (class, rest) = read_word(alloc, bytes)?;
    let (items, _end) = read_tail(alloc, rest)?;
    Ok((class, Fields { items }))
}

/// The notice behind its sign.
fn read_notice(alloc: Global, sign: NoticeSign, bytes: &[u8]) -> Result<Line, ReadFault>
    ensures { ReadsNotice sign bytes.now result }
{
    let (class, fields) = read_class(alloc, bytes)?;
    Ok(Line::Notice {
        sign,
        class,
        fields,
    })
}

/// The stream behind its sign.
fn read_stream(alloc: Global, sign: StreamSign, bytes: &[u8]) -> Result<Line, ReadFault>
    ensures { ReadsStream sign bytes.now result }
{
    let (bytes, rest) = read_c_string(alloc, bytes)?;
    match after(rest, b'\n') {
        Some(_) => Ok(Line::Stream { sign, bytes }),
        None => Err(ReadFault::Text),
    }
}

/// Where the first `^` stands.
fn caret_at(bytes: &[u8]) -> Option<usize>
    ensures { result ≡ position (λ b. b == 94) bytes.now }
{
    bytes.iter().position(|b| *b == b'^')
}

/// The token and what stands behind its `^`.
fn read_token(bytes: &[u8]) -> Option<(Token, &[u8])>
    ensures { ReadsToken bytes.now result }
{
    let end = caret_at(bytes)?;
    let digits = &bytes[..end];
    if !is_token(digits) {
        return None;
    }
    Some((Token::new(digits), &bytes[end + 1..]))
}

/// The result at the front.
fn read_result(alloc: Global, bytes: &[u8]) -> Result<Line, ReadFault>
    ensures { ReadsResult bytes.now result }
{
    let Some((token, rest)) = read_token(bytes) else {
        return Err(ReadFault::Text);
    };
    let (class, fields) = read_class(alloc, rest)?;
    Ok(Line::Result {
        token,
        class,
        fields,
    })
}

/// Whether the prompt stands at the front.
fn is_prompt(bytes: &[u8]) -> bool
    ensures { MatchBool result
        ((rest : List ℕ) × (bytes.now ≡ prompt_text ++ rest))
        ((rest : List ℕ) → bytes.now ≡ prompt_text ++ rest → ⊥) }
{
    matches!(bytes, [b'(', b'g', b'd', b'b', b')', b'\n', ..])
}

fn line_at(alloc: Global, bytes: &[u8]) -> Result<Line, ReadFault>
    ensures { ReadsLine bytes.now result }
{
    if let Some(rest) = after(bytes, b'*') {
        return read_notice(alloc, NoticeSign::Exec, rest);
    }
    if let Some(rest) = after(bytes, b'=') {
        return read_notice(alloc, NoticeSign::Notify, rest);
    }
    if let Some(rest) = after(bytes, b'@') {
        return read_stream(alloc, StreamSign::Target, rest);
    }
    if let Some(rest) = after(bytes, b'&') {
        return read_stream(alloc, StreamSign::Log, rest);
    }
    if is_prompt(bytes) {
        return Ok(Line::Prompt);
    }
    read_result(alloc, bytes)
}

/// The line at the front of these bytes, whatever follows it.
///
/// # Errors
/// `Text` where the bytes begin with no output line.
pub fn read_line(alloc: Global, bytes: &[u8]) -> Result<Line, ReadFault>
    ensures reads { ReadsLine bytes.now result }

    // What was written is read again, whatever follows it.
    ensures again { (tree : LineTree) (text rest : List ℕ) → Record text tree → bytes.now ≡ text ++ rest → GivesLine tree result }
{
    line_at(alloc, bytes)
}
