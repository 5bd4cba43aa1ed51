// The headers at the front of a file.
ghost use Rattle.std.specs.Prelude.{◌≡◌, ◌+◌, ◌++◌, ◌<◌, ◌≤◌, ◌^◌, OnOk};
ghost use Rattle.elf_gen.specs.Layout.{elf_header, segment_headers};

use crate::numbers::{put_halves, put_words};
use std::alloc::AllocError;

/// The size of the file's header and the two program headers.
pub const FRONT: usize = 116;

/// Where the text begins: behind the headers.
pub const ENTRY: u32 = 0x0001_0074;

/// Where the data begins.
pub const DATA: u32 = 0x0002_0000;

/// The magic, the class of 32 bits, the low byte first, the version, and padding.
const IDENT: [u8; 16] = [0x7f, b'E', b'L', b'F', 1, 1, 1, 0, 0, 0, 0, 0, 0, 0, 0, 0];

/// The file's header, by the place and the number of the section headers. The last section has the names.
pub fn put_header(file: &mut Vec<u8>, sections: u32, count: u16) -> Result<(), AllocError>
    requires { 0 < count }
    ensures { OnOk result (file.new.items ≡ file.old.items ++ elf_header sections count) }
{
    file.extend_from_slice(&IDENT)?;
    // An executable for RISC-V.
    put_halves(file, &[2, 243])?;
    put_words(file, &[1, ENTRY, 52, sections, 0])?;
    put_halves(file, &[52, 32, 2, 40, count, count - 1])
}

/// The program headers, by the sizes of text and data in bytes.
pub fn put_segments(file: &mut Vec<u8>, text: u32, bytes: u32) -> Result<(), AllocError>
    requires { 116 + text < 2 ^ 32 }
    ensures { OnOk result (file.new.items ≡ file.old.items ++ segment_headers text bytes) }
{
    // Each is type, offset, address, physical address, file size, memory size, flags and alignment.
    let end = FRONT as u32 + text;
    put_words(file, &[1, 0, 0x0001_0000, 0x0001_0000, end, end, 5, 4])?;
    put_words(file, &[1, end, DATA, DATA, bytes, bytes, 6, 1])
}
