// The program of a generated session.
ghost use Rattle.std.specs.Prelude.{◌≡◌, ◌++◌, IfOk, OnOk};
ghost use Rattle.elf_checks.specs.Reading.{IsImage};
ghost use Rattle.elf_gen.specs.Generated.{debug_bytes, generated_file, generated_program, generated_sections, symbol, symbols};

use crate::layout::{DATA, ENTRY, put_header, put_segments};
use crate::numbers::put_words;
use dbg_traits::NoMemory;
use std::alloc::{AllocError, Global};

/// `_start` and then `work`, which adds to the counter.
const WORDS: [u32; 16] = [
    0x0002_0737,
    0x0047_2583,
    0x0100_00ef,
    0x05d0_0893,
    0x0000_0513,
    0x0000_0073,
    0xff01_0113,
    0x0011_2623,
    0x0002_0637,
    0x0010_0693,
    0x00d6_252f,
    0xfff5_8593,
    0xfe05_9ce3,
    0x00c1_2083,
    0x0101_0113,
    0x0000_8067,
];

/// Where the section headers begin.
const SECTIONS: u32 = 461;

/// A global function.
const FUNCTION: u8 = 0x12;

/// A global object.
const OBJECT: u8 = 0x11;

/// The symbols' names, at 1, 8, 13 and 19.
const STRINGS: &[u8] = b"\0_start\0work\0count\0limit\0";

/// The rows of `work`.
const LINES: [u8; 60] = [
    0x38, 0x00, 0x00, 0x00, 0x04, 0x00, 0x1f, 0x00, 0x00, 0x00, 0x01, 0x01, 0x01, 0xfb, 0x0e, 0x0d,
    0x00, 0x01, 0x01, 0x01, 0x01, 0x00, 0x00, 0x00, 0x01, 0x00, 0x00, 0x01, 0x00, 0x63, 0x6f, 0x75,
    0x6e, 0x74, 0x2e, 0x63, 0x00, 0x00, 0x00, 0x00, 0x00, 0x00, 0x05, 0x02, 0x8c, 0x00, 0x01, 0x00,
    0x03, 0x09, 0x01, 0x83, 0x83, 0x4b, 0x83, 0x02, 0x0c, 0x00, 0x01, 0x01,
];

/// How `work` keeps its caller's registers.
const FRAMES: [u8; 44] = [
    0x0c, 0x00, 0x00, 0x00, 0xff, 0xff, 0xff, 0xff, 0x03, 0x00, 0x01, 0x7c, 0x01, 0x0c, 0x02, 0x00,
    0x18, 0x00, 0x00, 0x00, 0x00, 0x00, 0x00, 0x00, 0x8c, 0x00, 0x01, 0x00, 0x28, 0x00, 0x00, 0x00,
    0x44, 0x0e, 0x10, 0x44, 0x81, 0x01, 0x58, 0xc1, 0x44, 0x0e, 0x00, 0x00,
];

/// The sections' names, in their order.
const NAMES: &[u8] = b"\0.text\0.data\0.symtab\0.strtab\0.debug_line\0.debug_frame\0.shstrtab\0";

/// An entry of the symbol table: its name's place, its value and size, its binding with its type, and its section.
fn put_symbol(
    file: &mut Vec<u8>,
    name: u32,
    value: u32,
    size: u32,
    info: u8,
    section: u8,
) -> Result<(), AllocError>
    ensures { OnOk result (file.new.items ≡ file.old.items ++ symbol name value size info section) }
{
    put_words(file, &[name, value, size])?;
    file.extend_from_slice(&[info, 0, section, 0])
}

/// An empty entry, two functions of the first section and two objects of the second.
fn put_symbols(file: &mut Vec<u8>) -> Result<(), AllocError>
    ensures { OnOk result (file.new.items ≡ file.old.items ++ symbols) }
{
    put_symbol(file, 0, 0, 0, 0, 0)?;
    put_symbol(file, 1, ENTRY, 24, FUNCTION, 1)?;
    put_symbol(file, 8, ENTRY + 24, 40, FUNCTION, 1)?;
    put_symbol(file, 13, DATA, 4, OBJECT, 2)?;
    put_symbol(file, 19, DATA + 4, 4, OBJECT, 2)
}

/// The section headers: each is name, type, flags, address, offset, size, link, info, alignment and entry size.
fn put_sections(file: &mut Vec<u8>) -> Result<(), AllocError>
    ensures { OnOk result (file.new.items ≡ file.old.items ++ generated_sections) }
{
    put_words(file, &[0, 0, 0, 0, 0, 0, 0, 0, 0, 0])?;
    put_words(file, &[1, 1, 6, ENTRY, 116, 64, 0, 0, 4, 0])?;
    put_words(file, &[7, 1, 3, DATA, 180, 8, 0, 0, 1, 0])?;
    put_words(file, &[13, 2, 0, 0, 188, 80, 4, 1, 4, 16])?;
    put_words(file, &[21, 3, 0, 0, 268, 25, 0, 0, 1, 0])?;
    put_words(file, &[29, 1, 0, 0, 293, 60, 0, 0, 1, 0])?;
    put_words(file, &[41, 1, 0, 0, 353, 44, 0, 0, 1, 0])?;
    put_words(file, &[54, 3, 0, 0, 397, 64, 0, 0, 1, 0])
}

/// The sections that no segment loads, and the section headers.
fn put_debug(file: &mut Vec<u8>) -> Result<(), AllocError>
    ensures { OnOk result (file.new.items ≡ file.old.items ++ debug_bytes) }
{
    put_symbols(file)?;
    file.extend_from_slice(STRINGS)?;
    file.extend_from_slice(&LINES)?;
    file.extend_from_slice(&FRAMES)?;
    file.extend_from_slice(NAMES)?;
    put_sections(file)
}

/// The file of a program whose harts each add 1 to one counter, `number` times, in the function `work` of count.c.
///
/// It has symbols, the rows of `work` and its call frame information. For `number` 0 the loop goes on for 2^32 turns.
/// The one error is out of memory.
pub fn generate(alloc: Global, number: u32) -> Result<Vec<u8>, NoMemory>
    ensures bytes { IfOk result (λ file. file.items ≡ generated_file number) }
    ensures image { IfOk result (λ file. IsImage file.items (generated_program number)) }
{
    let mut file = Vec::with_capacity(alloc, SECTIONS as usize + 8 * 40)?;
    put_header(&mut file, SECTIONS, 8)?;
    put_segments(&mut file, 64, 8)?;
    put_words(&mut file, &WORDS)?;
    put_words(&mut file, &[0, number])?;
    put_debug(&mut file)?;
    Ok(file)
}
