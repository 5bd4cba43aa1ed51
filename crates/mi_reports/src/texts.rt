// Fixed texts in a message, with what stands behind them.
ghost use Rattle.std.specs.Prelude.{◌≡◌, ◌++◌, decimal, OnOk};
ghost use Rattle.mi_text.specs.Numeral.{address_text};
ghost use Rattle.mi_reports.specs.Phrases.{phrase_text};

use crate::words::{Phrase, wording};
use dbg_traits::ByteList;
use mi_text::{address_text, write_decimal};
use std::alloc::AllocError;

/// Puts a fixed text at the end.
pub fn push(into: &mut Vec<u8>, phrase: Phrase) -> Result<(), AllocError>
    ensures { OnOk result (into.new.items ≡ into.old.items ++ phrase_text phrase) }
{
    into.extend_from_slice(wording(phrase))
}

/// Puts a text at the end, and bytes behind it.
pub fn push_named(into: &mut Vec<u8>, head: Phrase, bytes: &ByteList) -> Result<(), AllocError>
    ensures { OnOk result (into.new.items ≡ into.old.items ++ (phrase_text head ++ bytes.now)) }
{
    push(into, head)?;
    into.extend_from_slice(bytes.as_slice())
}

/// Puts a text at the end, and a number behind it.
pub fn push_counted(into: &mut Vec<u8>, head: Phrase, n: u32) -> Result<(), AllocError>
    ensures { OnOk result (into.new.items ≡ into.old.items ++ (phrase_text head ++ decimal n)) }
{
    push(into, head)?;
    write_decimal(u64::from(n), into)
}

/// Puts a text at the end, and an address behind it.
pub fn push_at(into: &mut Vec<u8>, head: Phrase, address: u32) -> Result<(), AllocError>
    ensures { OnOk result (into.new.items ≡ into.old.items ++ (phrase_text head ++ address_text address)) }
{
    push(into, head)?;
    into.extend_from_slice(&address_text(address))
}
