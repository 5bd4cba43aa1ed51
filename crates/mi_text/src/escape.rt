//! C strings as they are read: escapes and texts.

ghost use Rattle.std.specs.Prelude.{◌≡◌, ◌<◌, ℕ, List, ◌∷◌, ◌++◌};
ghost use Rattle.mi_text.specs.CString.{escapes, AreBytes};
ghost use Rattle.mi_text.specs.Escape.{octal_at, second_digit, third_digit, escape_at, symbol_at};
ghost use Rattle.mi_text.specs.Text.{GivesSymbol, ReadsText, GivesText};

use crate::digits::is_octal;
use crate::fault::ReadFault;
use crate::front::after;
use std::alloc::Global;

fn third_digit(n: u32, bytes: &[u8]) -> Option<(u8, &[u8])>
    requires { n < 64 }
    ensures { GivesSymbol result (third_digit n bytes.now) }
{
    match bytes {
        [b, rest @ ..] if is_octal(*b) => {
            let byte = u8::try_from(8 * n + u32::from(*b - 48)).ok()?;
            Some((byte, rest))
        }
        _ => Some((n as u8, bytes)),
    }
}

fn second_digit(n: u32, bytes: &[u8]) -> Option<(u8, &[u8])>
    requires { n < 8 }
    ensures { GivesSymbol result (second_digit n bytes.now) }
{
    match bytes {
        [b, rest @ ..] if is_octal(*b) => third_digit(8 * n + u32::from(*b - 48), rest),
        _ => Some((n as u8, bytes)),
    }
}

// The byte of one to three octal digits, as many as stand there.
fn octal(bytes: &[u8]) -> Option<(u8, &[u8])>
    ensures { GivesSymbol result (octal_at bytes.now) }
{
    match bytes {
        [b, rest @ ..] if is_octal(*b) => second_digit(u32::from(*b - 48), rest),
        _ => None,
    }
}

// The byte that an escape stands for, behind its `\`.
#[tactic(auto, unfolding(crate::specs::Escape::escape_at))]
fn escape(bytes: &[u8]) -> Option<(u8, &[u8])>
    ensures { GivesSymbol result (escape_at bytes.now) }
{
    let [first, rest @ ..] = bytes else {
        return None;
    };
    match *first {
        b'"' => Some((b'"', rest)),
        b'\\' => Some((b'\\', rest)),
        b'n' => Some((b'\n', rest)),
        b'r' => Some((b'\r', rest)),
        b't' => Some((b'\t', rest)),
        _ => octal(bytes),
    }
}

// The byte whose spelling stands at the front of a C string.
#[tactic(auto, unfolding(crate::specs::Escape::symbol_at))]
fn symbol(bytes: &[u8]) -> Option<(u8, &[u8])>
    ensures { GivesSymbol result (symbol_at bytes.now) }
{
    let [first, rest @ ..] = bytes else {
        return None;
    };
    match *first {
        b'"' => None,
        b'\\' => escape(rest),
        b => Some((b, rest)),
    }
}

fn body(alloc: Global, bytes: &[u8]) -> Result<(Vec<u8>, &[u8]), ReadFault>
    ensures { ReadsText bytes.now result }
{
    let mut text = Vec::new(alloc);
    let mut rest = bytes;
    'turns: loop {
        if let Some(end) = after(rest, b'"') {
            return Ok((text, end));
        }
        let Some((b, more)) = symbol(rest) else {
            return Err(ReadFault::Text);
        };
        text.push(b)?;
        rest = more;
    }
}

/// The text of a C string behind its first `"`, and the bytes behind its last one.
///
/// A text has several spellings: one to three octal digits, and any byte but `"` and `\` for itself.
///
/// # Errors
/// `Text` where no `"` closes the text, where a `\` stands before none of `"`, `\`, `n`, `r`, `t` and the octal digits,
/// and where these are above 377.
pub fn read_text(alloc: Global, bytes: &[u8]) -> Result<(Vec<u8>, &[u8]), ReadFault>
    ensures reads { ReadsText bytes.now result }

    // What was written is read again, whatever follows it.
    ensures again { (text rest : List ℕ) → AreBytes text → bytes.now ≡ escapes text ++ 34 ∷ rest → GivesText text rest result }
{
    body(alloc, bytes)
}
