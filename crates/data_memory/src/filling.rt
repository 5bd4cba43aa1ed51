// Pages that are given frames, and ranges of addresses that are filled.
ghost use Rattle.std.specs.Prelude.{◌≡◌, ◌≢◌, ◌<◌, ◌≤◌, ◌-◌, ◌+◌, ◌/◌, ◌%◌, ◌^◌, ℕ, OnOk, length, min, slice_index, Some};
ghost use Rattle.data_memory.specs.Paged.{IsPaged, Holds, byte_of, byte_at, replaced};

use crate::access::Access;
use crate::frames::Frames;
use crate::page_table::{BLOCK, PageTable};
use crate::paged::spot;
use std::alloc::AllocError;

/// How many addresses there are.
const ADDRESSES: u64 = 0x1_0000_0000;

/// Gives the page of the address a frame, if it has none.
fn add_page(pages: &mut PageTable, frames: &mut Frames, addr: u32) -> Result<(), AllocError>
    requires { IsPaged pages.old frames.old }
    ensures same { OnOk result (Holds pages.new frames.new (byte_at pages.old frames.old)) }
    ensures framed { OnOk result (slice_index pages.new (addr / 512) ≢ 0) }
{
    let page = addr / BLOCK as u32;
    if pages.frame(page) == 0 {
        let Ok(number) = u32::try_from(frames.len() / BLOCK) else {
            return Err(AllocError);
        };
        frames.add()?;
        pages.set_frame(page, number)?;
    }
    Ok(())
}

/// Puts `len` bytes of one page: zeros behind the values that are given.
fn place_block(
    pages: &mut PageTable,
    frames: &mut Frames,
    addr: u32,
    len: usize,
    values: &[u8],
    access: Access,
) -> Result<(), AllocError>
    requires kept { IsPaged pages.old frames.old }
    requires within { addr % 512 + len ≤ 512 }
    requires values { length values.now ≤ len }
    ensures { OnOk result (Holds pages.new frames.new (replaced (byte_at pages.old frames.old) addr len (λ q. byte_of access (slice_index values.now (q - addr))))) }
{
    add_page(pages, frames, addr)?;
    let at = spot(pages, addr);
    frames.fill(at, len, values, access);
    Ok(())
}

/// How many of the addresses of a range there are.
fn addresses(start: u32, size: u64) -> usize
    ensures { result ≡ min size (2 ^ 32 - start) }
{
    size.min(ADDRESSES - u64::from(start)) as usize
}

/// How many of the next addresses, at most `most`, are of one page.
fn block_len(addr: u32, most: usize) -> usize
    ensures { result ≡ min most (512 - addr % 512) }
{
    most.min(BLOCK - addr as usize % BLOCK)
}

/// At most `len` of the values from a place on.
fn part(values: &[u8], from: usize, len: usize) -> &[u8]
    ensures few { length result.now ≤ len }
    ensures each { (j : ℕ) → j < len → slice_index result.now j ≡ slice_index values.now (from + j) }
{
    if from >= values.len() {
        return &[];
    }
    &values[from..from + len.min(values.len() - from)]
}

/// Puts the values from the start on, and zeros behind them, page by page; nothing past the last address.
fn place(
    pages: &mut PageTable,
    frames: &mut Frames,
    start: u32,
    size: u64,
    values: &[u8],
    access: Access,
) -> Result<(), AllocError>
    requires { IsPaged pages.old frames.old }
    ensures { OnOk result (Holds pages.new frames.new (replaced (byte_at pages.old frames.old) start size (λ q. byte_of access (slice_index values.now (q - start))))) }
{
    let count = addresses(start, size);
    let mut i = 0;
    while i < count {
        let addr = start + i as u32;
        let len = block_len(addr, count - i);
        place_block(pages, frames, addr, len, part(values, i, len), access)?;
        i += len;
    }
    Ok(())
}

/// Puts zeros at each address of a range.
pub fn fill(
    pages: &mut PageTable,
    frames: &mut Frames,
    start: u32,
    size: u64,
    access: Access,
) -> Result<(), AllocError>
    requires { IsPaged pages.old frames.old }
    ensures { OnOk result (Holds pages.new frames.new (replaced (byte_at pages.old frames.old) start size (λ q. byte_of access 0))) }
{
    place(pages, frames, start, size, &[], access)
}

/// How the bytes of a segment may be accessed.
fn data_access(is_writable: bool) -> Access
    ensures { (v : ℕ) → byte_of result v ≡ Some (record { value = v; is_writable = is_writable }) }
{
    if is_writable {
        Access::Writable
    } else {
        Access::ReadOnly
    }
}

/// Puts the bytes from the start on, and zero past their end.
pub fn fill_data(
    pages: &mut PageTable,
    frames: &mut Frames,
    start: u32,
    size: u64,
    bytes: &[u8],
    is_writable: bool,
) -> Result<(), AllocError>
    requires { IsPaged pages.old frames.old }
    ensures { OnOk result (Holds pages.new frames.new (replaced (byte_at pages.old frames.old) start size (λ q. Some (record { value = slice_index bytes.now (q - start); is_writable = is_writable })))) }
{
    place(pages, frames, start, size, bytes, data_access(is_writable))
}
