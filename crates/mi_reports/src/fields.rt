// Fields, written behind a byte: a comma, or the bracket that they stand in.
ghost use Rattle.std.specs.Prelude.{◌≡◌, ◌∷◌, [], ◌++◌, decimal, true};
ghost use Rattle.std.specs.List.{list_all};
ghost use Rattle.mi_values.specs.Tree.{items, no_item};
ghost use Rattle.mi_text.specs.CString.{is_own};
ghost use Rattle.mi_text.specs.Numeral.{address_text, worth_text};
ghost use Rattle.mi_reports.specs.Led.{Adds, head, led, behind};
ghost use Rattle.mi_reports.specs.Words.{key_text, says, says_some};
ghost use Rattle.mi_reports.specs.Phrases.{phrase_text};

use crate::words::{Key, Phrase, name, wording};
use dbg_traits::ByteList;
use itoa::Buffer;
use mi_text::{address_text, write_c_string};
use std::alloc::AllocError;

/// Puts a byte at the end.
#[inline(always)]
pub fn write_byte(into: &mut Vec<u8>, byte: u8) -> Result<(), AllocError>
    ensures { Adds result into.old.items into.new.items (byte ∷ []) }
{
    into.push(byte)?;
    Ok(())
}

/// Puts a fixed text at the end.
#[inline(always)]
pub fn write(into: &mut Vec<u8>, text: &'static str) -> Result<(), AllocError>
    ensures { Adds result into.old.items into.new.items text.now }
{
    into.extend_from_slice(text.as_bytes())
}

/// Puts bytes between two fixed texts at the end.
#[inline(always)]
pub fn put(
    into: &mut Vec<u8>,
    before: &'static str,
    bytes: &[u8],
    after: &'static str,
) -> Result<(), AllocError>
    ensures { Adds result into.old.items into.new.items (before.now ++ (bytes.now ++ after.now)) }
{
    write(into, before)?;
    into.extend_from_slice(bytes)?;
    write(into, after)
}

/// Puts the byte before a field, its name and `=` at the end.
#[inline(always)]
#[tactic(auto, unfolding(crate::specs::Led::head))]
pub fn write_head(into: &mut Vec<u8>, lead: u8, key: Key) -> Result<(), AllocError>
    ensures { Adds result into.old.items into.new.items (head lead key) }
{
    write_byte(into, lead)?;
    into.extend_from_slice(name(key).as_bytes())?;
    write_byte(into, b'=')
}

/// Puts a field that is a text at the end.
#[tactic(auto, using(std::proofs::lemmas::Grind::common_steps, crate::proofs::Led::text_led))]
pub fn write_text(into: &mut Vec<u8>, lead: u8, key: Key, bytes: &[u8]) -> Result<(), AllocError>
    ensures { Adds result into.old.items into.new.items (led lead (says key bytes.now)) }
{
    write_head(into, lead, key)?;
    write_c_string(bytes, into)
}

// Puts a field at the end that is a text whose bytes are spelled as they are.
#[tactic(auto, using(std::proofs::lemmas::Grind::common_steps, crate::proofs::Led::own_led))]
#[inline(always)]
fn write_own(into: &mut Vec<u8>, lead: u8, key: Key, bytes: &[u8]) -> Result<(), AllocError>
    requires { list_all is_own bytes.now ≡ true }
    ensures { Adds result into.old.items into.new.items (led lead (says key bytes.now)) }
{
    write_head(into, lead, key)?;
    put(into, "\"", bytes, "\"")
}

/// Puts a field that is a fixed text at the end.
#[tactic(auto, using(crate::proofs::Names::phrase_own))]
#[inline(always)]
pub fn write_phrase(
    into: &mut Vec<u8>,
    lead: u8,
    key: Key,
    phrase: Phrase,
) -> Result<(), AllocError>
    ensures { Adds result into.old.items into.new.items (led lead (says key (phrase_text phrase))) }
{
    write_own(into, lead, key, wording(phrase))
}

/// Puts a field that is a number in decimal at the end.
#[tactic(auto, using(crate::proofs::Bytes::decimal_own))]
#[inline(always)]
pub fn write_number(into: &mut Vec<u8>, lead: u8, key: Key, n: u64) -> Result<(), AllocError>
    ensures { Adds result into.old.items into.new.items (led lead (says key (decimal n))) }
{
    let mut buffer = Buffer::new();
    write_own(into, lead, key, buffer.format(n).as_bytes())
}

/// Puts a field that is a word in decimal at the end.
#[inline(always)]
pub fn write_word(into: &mut Vec<u8>, lead: u8, key: Key, n: u32) -> Result<(), AllocError>
    ensures { Adds result into.old.items into.new.items (led lead (says key (decimal n))) }
{
    write_number(into, lead, key, u64::from(n))
}

/// Puts a field that is an address at the end.
#[tactic(auto, using(crate::proofs::Bytes::address_own))]
#[inline(always)]
pub fn write_address(into: &mut Vec<u8>, lead: u8, key: Key, address: u32) -> Result<(), AllocError>
    ensures { Adds result into.old.items into.new.items (led lead (says key (address_text address))) }
{
    write_own(into, lead, key, &address_text(address))
}

/// Puts a field that is a word as a number at the end, by whether it is unsigned.
pub fn write_worth(
    into: &mut Vec<u8>,
    lead: u8,
    key: Key,
    word: u32,
    unsigned: bool,
) -> Result<(), AllocError>
    ensures { Adds result into.old.items into.new.items (led lead (says key (worth_text word unsigned))) }
{
    let mut text = Vec::new(*into.allocator());
    mi_text::write_worth(word, unsigned, &mut text)?;
    write_text(into, lead, key, text.as_slice())
}

/// Puts a field that is a text at the end, behind a comma; nothing where there is none.
pub fn write_some(into: &mut Vec<u8>, key: Key, bytes: &Option<ByteList>) -> Result<(), AllocError>
    ensures { Adds result into.old.items into.new.items (behind (says_some key bytes.now)) }
{
    let Some(bytes) = bytes else {
        return Ok(());
    };
    write_text(into, b',', key, bytes.as_slice())
}

/// Puts a field that is `[]` at the end.
#[tactic(auto, using(std::proofs::lemmas::Grind::common_steps, crate::proofs::Led::empty_led))]
pub fn write_empty(into: &mut Vec<u8>, lead: u8, key: Key) -> Result<(), AllocError>
    ensures { Adds result into.old.items into.new.items (led lead (key_text key, items no_item)) }
{
    write_head(into, lead, key)?;
    into.extend_from_slice(b"[]")
}
