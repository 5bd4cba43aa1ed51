//! What a line would be the line of, were it one: read from its words, whatever stands there.

ghost use Rattle.std.specs.Prelude.{◌≡◌, position, IfOk};
ghost use Rattle.session_log.specs.Guess.{is_gap, word, behind, u64_of, u32_of, bytes_of, cause_of, error_of, why_of, poke_of, entry_of, row_of, guess};

use crate::row::LogRow;
use break_table::CondError;
use dbg_model::{Entry, Poke, Why};
use dbg_traits::{ByteList, Settings};
use hex::FromHexError;
use rv_exec::Cause;
use std::alloc::{AllocError, Global};
use watch_points::Fired;

// Where the first word ends.
fn gap_at(bytes: &[u8]) -> Option<usize>
    ensures { result ≡ position is_gap bytes.now }
{
    bytes.iter().position(|b| *b <= b' ')
}

// The word in front, and what stands behind the byte behind it.
fn cut(bytes: &[u8]) -> (&[u8], &[u8])
    ensures word { result.0.now ≡ word bytes.now }
    ensures behind { result.1.now ≡ behind bytes.now }
{
    match gap_at(bytes) {
        Some(i) => (&bytes[..i], &bytes[i + 1..]),
        None => (bytes, &[]),
    }
}

// The number of a decimal text below 2^64; some number where there is no such text.
fn u64_of(word: &[u8]) -> u64
    ensures { result ≡ u64_of word.now }
{
    let mut n: u64 = 0;
    let mut rest = word;
    'digits: while let [d, more @ ..] = rest {
        n = n
            .wrapping_mul(10)
            .wrapping_add(u64::from(d.saturating_sub(48)));
        rest = more;
    }
    n
}

// The number of a decimal text below 2^32; some number where there is no such text.
fn u32_of(word: &[u8]) -> u32
    ensures { result ≡ u32_of word.now }
{
    u32::try_from(u64_of(word)).unwrap_or(0)
}

// The bytes of a hexadecimal text; none where there is no such text.
fn bytes_of(alloc: Global, word: &[u8]) -> Result<ByteList, AllocError>
    ensures { IfOk result (λ bytes. bytes ≡ bytes_of word.now) }
{
    match hex::decode(alloc, word) {
        Ok(bytes) => Ok(ByteList::of(bytes)),
        Err(FromHexError::OutOfMemory) => Err(AllocError),
        Err(_) => Ok(ByteList::of(Vec::new(alloc))),
    }
}

#[tactic(auto, unfolding(crate::specs::Guess::cause_of))]
fn cause_of(n: u64) -> Cause
    ensures { result ≡ cause_of n }
{
    match n {
        1 => Cause::FetchAlign,
        2 => Cause::LoadFault,
        3 => Cause::StoreFault,
        4 => Cause::LoadAlign,
        5 => Cause::StoreAlign,
        6 => Cause::Break,
        7 => Cause::Illegal,
        _ => Cause::FetchFault,
    }
}

#[tactic(auto, unfolding(crate::specs::Guess::error_of))]
fn error_of(kind: &[u8], a: &[u8]) -> Option<CondError>
    ensures { result ≡ error_of kind.now a.now }
{
    if kind == b"divzero".as_slice() {
        Some(CondError::DivZero)
    } else if kind == b"unread".as_slice() {
        Some(CondError::Unread(u32_of(a)))
    } else {
        None
    }
}

#[tactic(auto, unfolding(crate::specs::Guess::why_of))]
fn why_of(kind: &[u8], a: &[u8], b: &[u8], c: &[u8]) -> Why
    ensures { result ≡ why_of kind.now a.now b.now c.now }
{
    if kind == b"break".as_slice() {
        Why::Break {
            number: u32_of(a),
            error: error_of(b, c),
        }
    } else if kind == b"watch".as_slice() {
        Why::Watch(Fired {
            number: u32_of(a),
            old: u32_of(b),
            new: u32_of(c),
        })
    } else if kind == b"finished".as_slice() {
        Why::Finished
    } else if kind == b"interrupted".as_slice() {
        Why::Interrupted
    } else if kind == b"fault".as_slice() {
        Why::Fault(cause_of(u64_of(a)))
    } else {
        Why::Stepped
    }
}

#[tactic(auto, unfolding(crate::specs::Guess::poke_of))]
fn poke_of(alloc: Global, key: &[u8], a: &[u8], b: &[u8], c: &[u8]) -> Result<Poke, AllocError>
    ensures { IfOk result (λ poke. poke ≡ poke_of key.now a.now b.now c.now) }
{
    if key == b"#set".as_slice() {
        Ok(Poke::Register {
            hart: u32_of(a),
            number: u32_of(b),
            value: u32_of(c),
        })
    } else {
        Ok(Poke::Bytes {
            address: u32_of(a),
            bytes: bytes_of(alloc, b)?,
        })
    }
}

#[tactic(auto, unfolding(crate::specs::Guess::entry_of))]
fn entry_of(
    alloc: Global,
    key: &[u8],
    a: &[u8],
    b: &[u8],
    c: &[u8],
    d: &[u8],
    e: &[u8],
) -> Result<Entry, AllocError>
    ensures { IfOk result (λ entry. entry ≡ entry_of key.now a.now b.now c.now d.now e.now) }
{
    if key == b"#ran".as_slice() {
        Ok(Entry::Ran {
            hart: u32_of(a),
            count: u64_of(b),
        })
    } else if key == b"#counted".as_slice() {
        Ok(Entry::Counted { hart: u32_of(a) })
    } else if key == b"#stopped".as_slice() {
        Ok(Entry::Stopped {
            hart: u32_of(a),
            why: why_of(b, c, d, e),
        })
    } else if key == b"#left".as_slice() {
        Ok(Entry::Left {
            hart: u32_of(a),
            code: u32_of(b),
        })
    } else if key == b"#did".as_slice() {
        Ok(Entry::Did {
            line: bytes_of(alloc, a)?,
        })
    } else {
        Ok(Entry::Poked {
            poke: poke_of(alloc, key, a, b, c)?,
        })
    }
}

#[tactic(auto, unfolding(crate::specs::Guess::row_of))]
fn row_of(
    alloc: Global,
    key: &[u8],
    a: &[u8],
    b: &[u8],
    c: &[u8],
    d: &[u8],
    e: &[u8],
) -> Result<LogRow, AllocError>
    ensures { IfOk result (λ row. row ≡ row_of key.now a.now b.now c.now d.now e.now) }
{
    if key == b"#settings".as_slice() {
        Ok(LogRow::Head(Settings {
            harts: u32_of(a),
            workers: u32_of(b),
            slots: u32_of(c),
            budget: u64_of(d),
            slice: u32_of(e),
        }))
    } else if key == b"#end".as_slice() {
        Ok(LogRow::End(u64_of(a)))
    } else {
        Ok(LogRow::Entry(entry_of(alloc, key, a, b, c, d, e)?))
    }
}

/// The only row whose line this can be.
pub fn guess(alloc: Global, line: &[u8]) -> Result<LogRow, AllocError>
    ensures { IfOk result (λ row. row ≡ guess line.now) }
{
    let (key, rest) = cut(line);
    let (a, rest) = cut(rest);
    let (b, rest) = cut(rest);
    let (c, rest) = cut(rest);
    let (d, rest) = cut(rest);
    let (e, _) = cut(rest);
    row_of(alloc, key, a, b, c, d, e)
}
