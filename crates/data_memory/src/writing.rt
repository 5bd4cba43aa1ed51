// Ranges that are written, over bytes in pages.
ghost use Rattle.std.specs.Prelude.{◌≡◌, None, length, true};
ghost use Rattle.std.specs.FinMap as map;
ghost use Rattle.rv_exec.specs.Memory.{is_writable};
ghost use Rattle.data_memory.specs.Paged.{paged, IsPaged};
ghost use Rattle.data_memory.specs.Ranges.{first_unwritable, with_byte, with_bytes};

use crate::access::Access;
use crate::frames::Frames;
use crate::page_table::PageTable;
use crate::paged::spot;
use crate::reading::{address_on, writable_in};

/// The first of `len` addresses, in the order of writing, whose byte isn't writable.
pub fn unwritable_in(pages: &PageTable, frames: &Frames, addr: u32, len: usize) -> Option<u32>
    requires { IsPaged pages.now frames.now }
    ensures { result ≡ first_unwritable (paged pages.now frames.now) addr len }
{
    'check: for i in 0..len {
        let at = address_on(addr, i);
        if !writable_in(pages, frames, at) {
            return Some(at);
        }
    }
    None
}

/// Puts a value at an address whose byte is writable.
fn put_in(pages: &PageTable, frames: &mut Frames, addr: u32, value: u8)
    requires kept { IsPaged pages.now frames.old }
    requires writable { is_writable (map.get (paged pages.now frames.old) addr) ≡ true }
    ensures memory { paged pages.now frames.new ≡ with_byte (paged pages.now frames.old) addr value }
    ensures kept { IsPaged pages.now frames.new }
{
    frames.set(spot(pages, addr), Access::Writable, value);
}

/// Puts bytes from an address on, where all are writable.
pub fn write_in(pages: &PageTable, frames: &mut Frames, addr: u32, bytes: &[u8])
    requires kept { IsPaged pages.now frames.old }
    requires writable { first_unwritable (paged pages.now frames.old) addr (length bytes.now) ≡ None }
    ensures memory { paged pages.now frames.new ≡ with_bytes (paged pages.now frames.old) addr bytes.now }
    ensures kept { IsPaged pages.now frames.new }
{
    'write: for i in 0..bytes.len() {
        put_in(pages, frames, address_on(addr, i), bytes[i]);
    }
}
