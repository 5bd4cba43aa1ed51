//! The words of a line.

ghost use Rattle.std.specs.Prelude.{◌≡◌, length, take_while, false};
ghost use Rattle.mi_input.specs.Parts.{is_blank, is_word_byte, is_parted, after_blanks};
ghost use Rattle.mi_input.specs.Split.{ReadsWord, ReadsWords};

use crate::parts::Word;
use mi_text::{ReadFault, after, read_text};
use std::alloc::Global;

fn is_blank(b: u8) -> bool
    ensures { result ≡ is_blank b }
{
    matches!(b, b' ' | b'\t')
}

/// Whether a blank or the end stands there.
pub fn is_parted(bytes: &[u8]) -> bool
    ensures { result ≡ is_parted bytes.now }
{
    match bytes {
        [first, ..] => is_blank(*first),
        [] => true,
    }
}

// How many blanks stand at the front.
fn blanks(bytes: &[u8]) -> usize
    ensures { result ≡ length (take_while is_blank bytes.now) }
{
    bytes.iter().take_while(|b| is_blank(**b)).count()
}

pub fn after_blanks(bytes: &[u8]) -> &[u8]
    ensures { result.now ≡ after_blanks bytes.now }
{
    &bytes[blanks(bytes)..]
}

// How many bytes stand before the first blank.
fn word_length(bytes: &[u8]) -> usize
    ensures { result ≡ length (take_while is_word_byte bytes.now) }
{
    bytes.iter().take_while(|b| !is_blank(**b)).count()
}

/// The word at the front, and the bytes behind it.
fn word(alloc: Global, bytes: &[u8]) -> Result<(Word, &[u8]), ReadFault>
    requires { is_parted bytes.now ≡ false }
    ensures { ReadsWord bytes.now result }
{
    let Some(inner) = after(bytes, b'"') else {
        let end = word_length(bytes);
        let plain = Vec::from_slice(alloc, &bytes[..end])?;
        return Ok((
            Word {
                bytes: plain,
                quoted: false,
            },
            &bytes[end..],
        ));
    };
    let (text, rest) = read_text(alloc, inner)?;
    if !is_parted(rest) {
        return Err(ReadFault::Text);
    }
    Ok((
        Word {
            bytes: text,
            quoted: true,
        },
        rest,
    ))
}

/// The words of a line behind its operation.
pub fn words(alloc: Global, bytes: &[u8]) -> Result<Vec<Word>, ReadFault>
    ensures { ReadsWords bytes.now result }
{
    let mut words = Vec::new(alloc);
    let mut rest = bytes;
    'turns: loop {
        let start = after_blanks(rest);
        if start.is_empty() {
            return Ok(words);
        }
        let (next, more) = word(alloc, start)?;
        words.push(next)?;
        rest = more;
    }
}
