//! A line, split into its parts.

ghost use Rattle.std.specs.Prelude.{◌≡◌, ◌≤◌, ℕ, List, Some, length, take_while, true};
ghost use Rattle.mi_text.specs.Digits.{is_digit};
ghost use Rattle.mi_text.specs.Token.{is_token};
ghost use Rattle.mi_input.specs.Parts.{PartsView, HasParts, is_operation_byte, token_of, behind_token};
ghost use Rattle.mi_input.specs.Split.{Splits, GivesParts, ReadsCommand};
ghost use Rattle.mi_input.specs.Reading.{Reads, parts_read};

use crate::parts::{InputFault, Parts, Word};
use crate::word::{after_blanks, is_parted, words};
use mi_text::{ReadFault, Token, after, is_digit};
use std::alloc::Global;

/// The greatest length of a line.
const LONGEST: usize = 4096;

// How many digits stand at the front.
fn digits(bytes: &[u8]) -> usize
    ensures { result ≡ length (take_while is_digit bytes.now) }
{
    bytes.iter().take_while(|b| is_digit(**b)).count()
}

// The token's digits, and the bytes behind them.
fn cut_token(bytes: &[u8]) -> (&[u8], &[u8])
    ensures token { result.0.now ≡ token_of bytes.now }
    ensures behind { result.1.now ≡ behind_token bytes.now }
    ensures digits { is_token result.0.now ≡ true }
{
    let end = digits(bytes).min(Token::MOST);
    (&bytes[..end], &bytes[end..])
}

fn is_operation_byte(b: u8) -> bool
    ensures { result ≡ is_operation_byte b }
{
    matches!(b, b'a'..=b'z' | b'0'..=b'9' | b'-')
}

// How many bytes of an operation stand at the front.
fn operation_length(bytes: &[u8]) -> usize
    ensures { result ≡ length (take_while is_operation_byte bytes.now) }
{
    bytes.iter().take_while(|b| is_operation_byte(**b)).count()
}

/// The operation and the words behind a `-`.
fn command(alloc: Global, bytes: &[u8]) -> Result<(&[u8], Vec<Word>), ReadFault>
    ensures { ReadsCommand bytes.now result }
{
    let end = operation_length(bytes);
    let rest = &bytes[end..];
    if end == 0 {
        return Err(ReadFault::Text);
    }
    if !is_parted(rest) {
        return Err(ReadFault::Text);
    }
    let found = words(alloc, rest)?;
    Ok((&bytes[..end], found))
}

fn split_line(alloc: Global, line: &[u8]) -> Result<Parts<'_>, InputFault>
    ensures { Splits line.now result }
{
    if line.len() > LONGEST {
        return Err(InputFault::Long);
    }
    let start = after_blanks(line);
    if start.is_empty() {
        return Ok(Parts {
            token: Token::none(),
            operation: None,
            words: Vec::new(alloc),
        });
    }
    if let Some(_) = after(start, b'"') {
        return Err(InputFault::Syntax);
    }
    let (digits, behind) = cut_token(start);
    let token = Token::new(digits);
    let Some(rest) = after(behind, b'-') else {
        return Err(InputFault::Cli(token));
    };
    let (operation, words) = command(alloc, rest)?;
    Ok(Parts {
        token,
        operation: Some(operation),
        words,
    })
}

/// The parts of a line without its end.
///
/// # Errors
/// `Long` where the line has more than 4096 bytes; else `Syntax` where a command is malformed or the line begins with
/// `"`; else `Cli`, with the token, where no `-` follows the token.
pub fn split(alloc: Global, line: &[u8]) -> Result<Parts<'_>, InputFault>
    ensures splits { Splits line.now result }

    // A line has one list of parts.
    ensures only { (p : PartsView) → length line.now ≤ 4096 → HasParts line.now p → GivesParts p result }

    // The parts as a function of the line.
    ensures read { Reads line.now result }
{
    split_line(alloc, line)
}

/// A law: the parts of a line as a function of it are its parts by the grammar, and it has no others.
#[tactic(auto, using(crate::proofs::Reading::parts_sound, crate::proofs::Reading::parts_complete))]
pub fn parts_read_is_grammar()
    ensures sound { (line : List ℕ) (p : PartsView) → parts_read line ≡ Some p → HasParts line p }
    ensures complete { (line : List ℕ) (p : PartsView) → HasParts line p → parts_read line ≡ Some p }
{}
