// A file of words and bytes alone.
ghost use Rattle.std.specs.Prelude.{◌≡◌, ◌+◌, ◌++◌, ◌<◌, ◌^◌, true, IfOk, OnOk};
ghost use Rattle.elf_checks.specs.Reading.{IsImage};
ghost use Rattle.elf_gen.specs.Plain.{IsPlain, fits, plain_file, plain_names, plain_program, plain_sections};

use crate::layout::{DATA, ENTRY, FRONT, put_header, put_segments};
use crate::numbers::put_words;
use dbg_traits::NoMemory;
use std::alloc::{AllocError, Global};

/// The sections' names, at 1, 7 and 13.
const NAMES: &[u8] = b"\0.text\0.data\0.shstrtab\0";

/// The size of a section header.
const SECTION: usize = 40;

/// The size of the headers and the names.
const FILE_ROOM: usize = FRONT + 23 + 4 * SECTION;

/// A file is shorter: the places in it are numbers of 32 bits.
const MOST: usize = 1 << 32;

/// The section headers, by the sizes of text and data in bytes: each is name, type, flags, address, offset, size,
/// link, info, alignment and entry size (gABI, Section Header).
fn put_sections(file: &mut Vec<u8>, text: u32, bytes: u32) -> Result<(), AllocError>
    requires { 116 + text + bytes < 2 ^ 32 }
    ensures { OnOk result (file.new.items ≡ file.old.items ++ plain_sections text bytes) }
{
    let front = FRONT as u32;
    let data = front + text;
    put_words(file, &[0, 0, 0, 0, 0, 0, 0, 0, 0, 0])?;
    put_words(file, &[1, 1, 6, ENTRY, front, text, 0, 0, 4, 0])?;
    put_words(file, &[7, 1, 3, DATA, data, bytes, 0, 0, 1, 0])?;
    put_words(file, &[13, 3, 0, 0, data + bytes, 23, 0, 0, 1, 0])
}

/// The file, piece by piece.
fn laid_out(alloc: Global, words: &[u32], bytes: &[u8]) -> Result<Vec<u8>, AllocError>
    requires { fits words.now bytes.now ≡ true }
    ensures { IfOk result (λ file. file.items ≡ plain_file words.now bytes.now) }
{
    let text = 4 * words.len();
    let sections = FRONT + text + bytes.len() + NAMES.len();
    let mut file = Vec::with_capacity(alloc, sections + 4 * SECTION)?;
    put_header(&mut file, sections as u32, 4)?;
    put_segments(&mut file, text as u32, bytes.len() as u32)?;
    put_words(&mut file, words)?;
    file.extend_from_slice(bytes)?;
    file.extend_from_slice(NAMES)?;
    put_sections(&mut file, text as u32, bytes.len() as u32)?;
    Ok(file)
}

/// Whether the file of these words and bytes is shorter than 2^32 bytes, as that of any program is.
pub fn fits(words: &[u32], bytes: &[u8]) -> bool
    ensures { result ≡ fits words.now bytes.now }
{
    // Each alone first, so that the sum can't wrap.
    words.len() < MOST && bytes.len() < MOST && FILE_ROOM + 4 * words.len() + bytes.len() < MOST
}

/// The file of a program: its words of text at 0x10074, where it begins, and its bytes of data at 0x20000. `fits` tells whether
/// they have a file. The one error is out of memory.
///
/// Reading the file accepts it where there is a word, the text ends before the data begins, and the two fit the memory
/// of a program.
pub fn plain(alloc: Global, words: &[u32], bytes: &[u8]) -> Result<Vec<u8>, NoMemory>
    requires { fits words.now bytes.now ≡ true }
    ensures bytes { IfOk result (λ file. file.items ≡ plain_file words.now bytes.now) }
    ensures image { IsPlain words.now bytes.now → IfOk result (λ file. IsImage file.items (plain_program words.now bytes.now)) }
{
    Ok(laid_out(alloc, words, bytes)?)
}
