// Regions of text side by side in one list of words.
ghost use Rattle.std.specs.Prelude.{◌≡◌, ◌/◌, ◌++◌, [], length, map, slice_get, Some, OnOk, IfOk};
ghost use Rattle.rv_decode.specs.Decode.{decode};
ghost use Rattle.elf32_read.specs.Fields.{u32_at, entries};
ghost use Rattle.elf32_read.specs.Spans.{Rise};
ghost use Rattle.elf32_read.specs.TextSpans.{AreAligned, text_spans};
ghost use Rattle.text_words.specs.Words.{decoded_as, fetched_as, operation_of};
ghost use Rattle.text_words.specs.Layout.{IsLayout, IsLayoutOf, Opens, index, word_at, mark_at, operation_at};

use crate::fetch::Fetch;
use crate::region::{Region, place_of};
use elf32_read::fields::u32_at;
use elf32_read::{Image, Span};
use rv_decode::decode;
use rv_exec::Operation;
use std::alloc::{AllocError, Global};

/// The program's word at an address.
pub fn shown_in(regions: &[Region], words: &[u32], guess: usize, addr: u32) -> Option<u32>
    requires { IsLayout regions.now (length words.now) }
    ensures { result ≡ word_at regions.now words.now addr }
{
    match place_of(regions, guess, addr, words.len()) {
        Some(i) => Some(words[i]),
        None => None,
    }
}

/// What stands at an address for a hart.
#[inline(always)]
pub fn fetch_in(
    regions: &[Region],
    words: &[u32],
    planted: &[bool],
    guess: usize,
    addr: u32,
) -> Fetch
    requires layout { IsLayout regions.now (length words.now) }
    requires whole { length planted.now ≡ length words.now }
    ensures { result ≡ fetched_as (word_at regions.now words.now addr) (mark_at regions.now planted.now addr) }
{
    match place_of(regions, guess, addr, words.len()) {
        Some(i) => entry_of(words[i], planted[i]),
        None => Fetch::Absent,
    }
}

/// The operation at an address: that of EBREAK where no word of text is.
#[inline(always)]
pub fn operation_in(
    regions: &[Region],
    operations: &[Operation],
    guess: usize,
    addr: u32,
) -> Operation
    requires { IsLayout regions.now (length operations.now) }
    ensures { result ≡ operation_at regions.now operations.now addr }
{
    match place_of(regions, guess, addr, operations.len()) {
        Some(i) => operations[i],
        None => Operation::Break,
    }
}

/// Whether a breakpoint stands at an address.
pub fn planted_in(regions: &[Region], planted: &[bool], guess: usize, addr: u32) -> bool
    requires { IsLayout regions.now (length planted.now) }
    ensures { result ≡ mark_at regions.now planted.now addr }
{
    match place_of(regions, guess, addr, planted.len()) {
        Some(i) => planted[i],
        None => false,
    }
}

/// What stands at a word of the program for a hart.
pub fn entry_of(word: u32, planted: bool) -> Fetch
    ensures { result ≡ fetched_as (Some word) planted }
{
    if planted {
        return Fetch::Planted;
    }
    match decode(word) {
        Some(instruction) => Fetch::Instruction(instruction),
        None => Fetch::Illegal,
    }
}

/// Appends the words that the bytes spell, lowest byte first.
fn add_words(words: &mut Vec<u32>, bytes: &[u8]) -> Result<(), AllocError>
    ensures { OnOk result (words.new.items ≡ words.old.items ++ entries (u32_at bytes.now) 0 4 (length bytes.now / 4)) }
{
    for i in 0..bytes.len() / 4 {
        words.push(u32_at(bytes, 4 * i))?;
    }
    Ok(())
}

// Where the region of the next section begins, and the place of its first word. A section that begins where the one before it
// ends goes on with the last region, which is taken out.
fn open_region(regions: &mut Vec<Region>, start: u32, end: u64, len: usize) -> (u32, usize)
    ensures { Opens regions.old.items regions.new.items result.0 result.1 start len end }
{
    if u64::from(start) == end {
        if let Some(last) = regions.pop() {
            return (last.address, last.first);
        }
    }
    (start, len)
}

/// The regions of an image's text in the order of their addresses, and their words. The spans are those of its text sections.
pub fn collect(
    image: &Image,
    spans: &[Span],
    regions: &mut Vec<Region>,
    words: &mut Vec<u32>,
) -> Result<(), AllocError>
    requires spans { spans.now ≡ text_spans image.now }
    requires rise { Rise spans.now }
    requires aligned { AreAligned spans.now }
    requires none { regions.old.items ≡ [] }
    requires empty { words.old.items ≡ [] }
    ensures { OnOk result (IsLayoutOf image.now regions.new.items words.new.items) }
{
    let mut end = 0;
    for span in spans {
        let (address, first) = open_region(regions, span.start, end, words.len());
        add_words(words, image.text(span.number).bytes)?;
        regions.push(Region {
            address,
            count: words.len() - first,
            first,
        })?;
        end = span.end();
    }
    Ok(())
}

/// The operation of each word, with no breakpoint.
pub fn operations_of(alloc: Global, words: &[u32]) -> Result<Vec<Operation>, AllocError>
    ensures { IfOk result (λ v. v.items ≡ map (λ w. operation_of (decoded_as (decode w))) words.now) }
{
    let mut operations = Vec::with_capacity(alloc, words.len())?;
    for word in words {
        operations.push(entry_of(*word, false).operation())?;
    }
    Ok(operations)
}
