// Bytes and ranges that are read, over bytes in pages.
ghost use Rattle.std.specs.Prelude.{◌≡◌, ◌<◌, ◌+◌, ◌%◌, ◌^◌, ℕ, length, MatchResult, IfErr, IfSome, IfNone, IsSome, Ok, Err};
ghost use Rattle.std.specs.FinMap as map;
ghost use Rattle.rv_exec.specs.Memory.{is_writable};
ghost use Rattle.data_memory.specs.Paged.{paged, IsPaged};
ghost use Rattle.std.specs.Option.{is_some};
ghost use Rattle.data_memory.specs.Ranges.{value_at, range_at, bytes_at};

use crate::frames::Frames;
use crate::page_table::PageTable;
use crate::paged::spot;

/// The byte at an address, if it is mapped.
pub fn byte_in(pages: &PageTable, frames: &Frames, addr: u32) -> Option<u8>
    requires { IsPaged pages.now frames.now }
    ensures { result ≡ value_at (paged pages.now frames.now) addr }
{
    frames.value(spot(pages, addr))
}

/// Whether the byte at an address is mapped and may be stored.
pub fn writable_in(pages: &PageTable, frames: &Frames, addr: u32) -> bool
    requires { IsPaged pages.now frames.now }
    ensures { result ≡ is_writable (map.get (paged pages.now frames.now) addr) }
{
    frames.is_writable(spot(pages, addr))
}

/// The address `i` bytes on, modulo 2^32.
pub fn address_on(addr: u32, i: usize) -> u32
    ensures { result ≡ (addr + i) % 2 ^ 32 }
{
    addr.wrapping_add((i % 0x1_0000_0000) as u32)
}

/// The first of `len` addresses, in the order of reading, that isn't mapped.
fn first_unmapped(pages: &PageTable, frames: &Frames, addr: u32, len: usize) -> Option<u32>
    requires { IsPaged pages.now frames.now }
    ensures some { IfSome result (λ at. range_at (paged pages.now frames.now) addr len ≡ Err at) }
    ensures none { IfNone result ((k : ℕ) → k < len → IsSome (value_at (paged pages.now frames.now) ((addr + k) % 2 ^ 32))) }
{
    'check: for i in 0..len {
        let at = address_on(addr, i);
        if byte_in(pages, frames, at).is_none() {
            return Some(at);
        }
    }
    None
}

/// Whether all of `len` bytes from an address on are mapped.
pub fn are_mapped(pages: &PageTable, frames: &Frames, addr: u32, len: usize) -> bool
    requires { IsPaged pages.now frames.now }
    ensures { result ≡ is_some (bytes_at (paged pages.now frames.now) addr len) }
{
    match first_unmapped(pages, frames, addr, len) {
        None => true,
        Some(_) => false,
    }
}

/// The bytes from an address on; the first one that isn't mapped, and then nothing is written.
pub fn read_into(pages: &PageTable, frames: &Frames, addr: u32, into: &mut [u8]) -> Result<(), u32>
    requires { IsPaged pages.now frames.now }
    ensures range { MatchResult result (λ _. range_at (paged pages.now frames.now) addr (length into.old) ≡ Ok into.new) (λ at. range_at (paged pages.now frames.now) addr (length into.old) ≡ Err at) }
    ensures kept { IfErr result (λ _. into.new ≡ into.old) }
{
    if let Some(at) = first_unmapped(pages, frames, addr, into.len()) {
        return Err(at);
    }
    'copy: for i in 0..into.len() {
        if let Some(value) = byte_in(pages, frames, address_on(addr, i)) {
            into[i] = value;
        }
    }
    Ok(())
}
