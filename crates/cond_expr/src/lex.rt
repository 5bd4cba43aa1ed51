//! The tokens of an expression's text.

ghost use Rattle.std.specs.Prelude.{◌≡◌, ◌<◌, ◌≤◌, ◌^◌, ◌+◌, ℕ, List, [], ◌∷◌, length, IfOk, MatchOption, true, false, nat_lt};
ghost use Rattle.cond_expr.specs.Lex.{either, either_of_two, is_digit, digit_value, number_behind, number_at, register_at, signed_type, unsigned_type, braced, typed, unsigned_at, type_at, sign_at, token_at, named_at, spot_at, tokens_of, Sees, SeesAt, begins_with};

use crate::token::{Binary, Leaf, ReadType, Spot, Token};
use crate::word::{after_blanks, front, is_blank, is_name_start, run_length, word};
use elf_symbols::Symbols;
use rv_decode::register_of;
use std::alloc::{AllocError, Global};

/// One token if this byte is next, which it takes, and else another.
fn either(bytes: &[u8], next: u8, taken: Token, left: Token) -> (Token, &[u8])
    ensures sees { Sees result (either bytes.now next taken left) }
    ensures shorter { length result.1.now ≤ length bytes.now }
{
    match bytes {
        [first, rest @ ..] if *first == next => (taken, rest),
        _ => (left, bytes),
    }
}

/// The same with two bytes that may be next, each with its token.
fn either_of_two(bytes: &[u8], next: (u8, Token), other: (u8, Token), left: Token) -> (Token, &[u8])
    ensures sees { Sees result (either_of_two bytes.now next.0 next.1 other.0 other.1 left) }
    ensures shorter { length result.1.now ≤ length bytes.now }
{
    match bytes {
        [first, rest @ ..] if *first == next.0 => (next.1, rest),
        [first, rest @ ..] if *first == other.0 => (other.1, rest),
        _ => (left, bytes),
    }
}

/// What a hexadecimal digit counts, and 16 for other bytes.
fn digit_value(b: u8) -> u8
    ensures value { result ≡ digit_value b }
    ensures small { result ≤ 16 }
{
    match b {
        b'0'..=b'9' => b - b'0',
        b'a'..=b'f' => b - b'a' + 10,
        b'A'..=b'F' => b - b'A' + 10,
        _ => 16,
    }
}

/// The digit at the front, by what it counts.
fn digit(bytes: &[u8], base: u8) -> Option<(u8, &[u8])>
    ensures { MatchOption result
        ((b : ℕ) (rest : List ℕ) → bytes.now ≡ b ∷ rest → nat_lt (digit_value b) base ≡ false)
        (λ p. (b : ℕ) × (bytes.now ≡ b ∷ p.1.now) × (nat_lt (digit_value b) base ≡ true) × (p.0 ≡ digit_value b) × (p.0 ≤ 16)) }
{
    let (first, rest) = front(bytes)?;
    let value = digit_value(first);
    if value < base {
        Some((value, rest))
    } else {
        None
    }
}

/// The number that the digits in front go on with; from 2^32 on all count alike.
fn digits(bytes: &[u8], base: u8, so_far: u64) -> (Token, &[u8])
    requires room { so_far ≤ 2 ^ 32 }
    requires few { base ≤ 16 }
    ensures sees { Sees result (number_behind base so_far bytes.now) }
    ensures shorter { length result.1.now ≤ length bytes.now }
{
    let mut value = so_far;
    let mut rest = bytes;
    'digits: while let Some((d, more)) = digit(rest, base) {
        value = (u64::from(base) * value + u64::from(d)).min(1 << 32);
        rest = more;
    }
    match u32::try_from(value) {
        Ok(n) => (Token::Leaf(Leaf::Number(n)), rest),
        Err(_) => (Token::Large, rest),
    }
}

/// The number that begins with this digit.
fn number(first: u8, rest: &[u8]) -> (Token, &[u8])
    requires { is_digit first ≡ true }
    ensures sees { Sees result (number_at first rest.now) }
    ensures shorter { length result.1.now ≤ length rest.now }
{
    match rest {
        [x, d, ..] if (first == b'0' && *x == b'x') && digit_value(*d) < 16 => {
            digits(&rest[1..], 16, 0)
        }
        _ => digits(rest, 10, u64::from(first - b'0')),
    }
}

/// The register behind a `$`.
fn register(bytes: &[u8]) -> (Token, &[u8])
    ensures sees { Sees result (register_at bytes.now) }
    ensures shorter { length result.1.now ≤ length bytes.now }
{
    let (name, behind) = word(bytes);
    if name.is_empty() {
        return (Token::Stray, bytes);
    }
    match register_of(name) {
        Some(register) => (Token::Leaf(Leaf::Register(register)), behind),
        None => (Token::Unknown, behind),
    }
}

fn signed_type(word: &[u8]) -> Option<ReadType>
    ensures { result ≡ signed_type word.now }
{
    if word == b"int".as_slice() {
        Some(ReadType::Int)
    } else if word == b"short".as_slice() {
        Some(ReadType::Short)
    } else if word == b"char".as_slice() {
        Some(ReadType::Char)
    } else {
        None
    }
}

fn unsigned_type(word: &[u8]) -> Option<ReadType>
    ensures { result ≡ unsigned_type word.now }
{
    if word == b"int".as_slice() {
        Some(ReadType::UnsignedInt)
    } else if word == b"short".as_slice() {
        Some(ReadType::UnsignedShort)
    } else if word == b"char".as_slice() {
        Some(ReadType::UnsignedChar)
    } else {
        None
    }
}

/// The token of a type whose closing brace should stand in front; `end` is the place behind the text.
fn braced(end: u32, kind: ReadType, bytes: &[u8]) -> (Token, &[u8])
    requires { length bytes.now ≤ end }
    ensures sees { Sees result (braced end kind bytes.now) }
    ensures shorter { length result.1.now ≤ length bytes.now }
{
    match bytes {
        [b'}', rest @ ..] => (Token::Cast(kind), rest),
        _ => (Token::Broken(end - bytes.len() as u32), bytes),
    }
}

/// The token of a type, if its last word, which `bytes` begin with, is one.
fn typed<'a>(
    end: u32,
    kind: Option<ReadType>,
    behind: &'a [u8],
    bytes: &'a [u8],
) -> (Token, &'a [u8])
    requires within { length bytes.now ≤ end }
    requires behind { length behind.now ≤ length bytes.now }
    ensures sees { Sees result (typed end kind behind.now bytes.now) }
    ensures shorter { length result.1.now ≤ length bytes.now }
{
    match kind {
        Some(kind) => braced(end, kind, after_blanks(behind)),
        None => (Token::Broken(end - bytes.len() as u32), bytes),
    }
}

/// The type behind `unsigned`.
fn unsigned(end: u32, bytes: &[u8]) -> (Token, &[u8])
    requires { length bytes.now ≤ end }
    ensures sees { Sees result (unsigned_at end bytes.now) }
    ensures shorter { length result.1.now ≤ length bytes.now }
{
    let (word, behind) = word(bytes);
    typed(end, unsigned_type(word), behind, bytes)
}

/// The type behind an opening brace.
fn cast(end: u32, bytes: &[u8]) -> (Token, &[u8])
    requires { length bytes.now ≤ end }
    ensures sees { Sees result (type_at end bytes.now) }
    ensures shorter { length result.1.now ≤ length bytes.now }
{
    let (word, behind) = word(bytes);
    if word == b"unsigned".as_slice() {
        return unsigned(end, after_blanks(behind));
    }
    typed(end, signed_type(word), behind, bytes)
}

/// The operator or parenthesis that begins with this byte.
fn sign(first: u8, rest: &[u8]) -> (Token, &[u8])
    ensures sees { Sees result (sign_at first rest.now) }
    ensures shorter { length result.1.now ≤ length rest.now }
{
    match first {
        b'|' => either(
            rest,
            b'|',
            Token::Operator(Binary::OrElse),
            Token::Operator(Binary::Or),
        ),
        b'&' => either(
            rest,
            b'&',
            Token::Operator(Binary::AndThen),
            Token::Operator(Binary::And),
        ),
        b'=' => either(rest, b'=', Token::Operator(Binary::Equal), Token::Stray),
        b'!' => either(rest, b'=', Token::Operator(Binary::NotEqual), Token::Bang),
        b'<' => either_of_two(
            rest,
            (b'<', Token::Operator(Binary::ShiftLeft)),
            (b'=', Token::Operator(Binary::LessEqual)),
            Token::Operator(Binary::Less),
        ),
        b'>' => either_of_two(
            rest,
            (b'>', Token::Operator(Binary::ShiftRight)),
            (b'=', Token::Operator(Binary::GreaterEqual)),
            Token::Operator(Binary::Greater),
        ),
        b'^' => (Token::Operator(Binary::Xor), rest),
        b'+' => (Token::Operator(Binary::Add), rest),
        b'-' => (Token::Operator(Binary::Subtract), rest),
        b'*' => (Token::Operator(Binary::Multiply), rest),
        b'/' => (Token::Operator(Binary::Divide), rest),
        b'%' => (Token::Operator(Binary::Remainder), rest),
        b'~' => (Token::Tilde, rest),
        b'(' => (Token::Open, rest),
        b')' => (Token::Close, rest),
        _ => (Token::Stray, rest),
    }
}

fn is_digit(b: u8) -> bool
    ensures { result ≡ is_digit b }
{
    matches!(b, b'0'..=b'9')
}

/// The token that begins with this byte, and what stands behind it.
pub fn token(end: u32, first: u8, rest: &[u8]) -> (Token, &[u8])
    requires { length rest.now ≤ end }
    ensures sees { Sees result (token_at end first rest.now) }
    ensures shorter { length result.1.now ≤ length rest.now }
{
    if is_digit(first) {
        number(first, rest)
    } else if is_name_start(first) {
        (Token::Unknown, &rest[run_length(rest)..])
    } else if first == b'$' {
        register(rest)
    } else if first == b'{' {
        cast(end, after_blanks(rest))
    } else {
        sign(first, rest)
    }
}

/// The address of the symbol whose name stands behind an `&` at a place.
fn address<'a>(symbols: &Symbols, end: u32, at: u32, bytes: &'a [u8]) -> (Token, u32, &'a [u8])
    requires { length bytes.now ≤ end }
    ensures sees { SeesAt result (named_at symbols.now end at bytes.now) }
    ensures shorter { length result.2.now ≤ length bytes.now }
{
    let (name, behind) = word(bytes);
    if name.is_empty() {
        return (Token::Stray, end - bytes.len() as u32, bytes);
    }
    let token = match symbols.address_of(name) {
        Some(symbol) => Token::Leaf(Leaf::Address(symbol.address)),
        None => Token::Unknown,
    };
    (token, at, behind)
}

pub fn begins_with(byte: u8, bytes: &[u8]) -> bool
    ensures { result ≡ begins_with byte bytes.now }
{
    matches!(bytes, [first, ..] if *first == byte)
}

/// The token that begins with this byte, with its place, and what stands behind it.
fn spot<'a>(
    symbols: &Symbols,
    end: u32,
    wants: bool,
    first: u8,
    rest: &'a [u8],
) -> (Token, u32, &'a [u8])
    requires { length rest.now < end }
    ensures sees { SeesAt result (spot_at symbols.now end wants first rest.now) }
    ensures shorter { length result.2.now ≤ length rest.now }
{
    let at = end - 1 - rest.len() as u32;
    if wants && first == b'&' && !begins_with(b'&', rest) {
        return address(symbols, end, at, after_blanks(rest));
    }
    let (token, behind) = token(end, first, rest);
    (token, at, behind)
}

/// The tokens of a text.
pub fn tokens(alloc: Global, symbols: &Symbols, text: &[u8]) -> Result<Vec<Spot>, AllocError>
    requires { length text.now < 2 ^ 32 }
    ensures { IfOk result (λ v. v.items ≡ tokens_of symbols.now text.now) }
{
    let end = text.len() as u32;
    let mut found = Vec::new(alloc);
    let mut wants = true;
    let mut rest = text;
    'turns: while let Some((first, more)) = front(rest) {
        if is_blank(first) {
            rest = more;
        } else {
            let (token, at, behind) = spot(symbols, end, wants, first, more);
            wants = token.wants_operand();
            rest = behind;
            found.push(Spot { token, at })?;
        }
    }
    Ok(found)
}
