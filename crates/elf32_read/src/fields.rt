//! Numbers and names in the bytes of an ELF file.

ghost use Rattle.std.specs.Prelude.{◌≡◌, ◌+◌, ◌≤◌, length, false};
ghost use Rattle.std.specs.Bool.{OnTrue};
ghost use Rattle.std.specs.Option.{option_map_or};
ghost use Rattle.std.specs.Str.{bytes_eq};
ghost use Rattle.elf32_read.specs.Fields.{IsAlike, u16_at, u32_at, name_from, zero_end};

use byteorder::{ByteOrder, LittleEndian};
use memchr::memrchr;

/// The number in two bytes, the lowest first.
#[tactic(auto, unfolding(crate::specs::Fields::u16_at))]
pub fn u16_at(bytes: &[u8], at: usize) -> u16
    requires { at + 2 ≤ length bytes.now }
    ensures { result ≡ u16_at bytes.now at }
{
    LittleEndian::read_u16(&bytes[at..])
}

/// The number in four bytes, the lowest first.
#[tactic(auto, unfolding(crate::specs::Fields::u32_at))]
pub fn u32_at(bytes: &[u8], at: usize) -> u32
    requires { at + 4 ≤ length bytes.now }
    ensures { result ≡ u32_at bytes.now at }
{
    LittleEndian::read_u32(&bytes[at..])
}

/// The place after the last zero byte, or 0 where there is none.
pub fn zero_end(table: &[u8]) -> usize
    ensures { result ≡ zero_end table.now }
{
    match memrchr(0, table) {
        Some(last) => last + 1,
        None => 0,
    }
}

/// How many bytes are compared at once.
const STRIDE: usize = 32;

/// Whether both begin with the same bytes, as many as are compared at once, and none of them is zero. No byte ends the
/// loop, so that they can be compared side by side.
fn begin_alike(left: &[u8], right: &[u8]) -> bool
    requires left { STRIDE ≤ length left.now }
    requires right { STRIDE ≤ length right.now }
    ensures { OnTrue result (IsAlike STRIDE left.now right.now) }
{
    let mut alike = true;
    for k in 0..STRIDE {
        if left[k] != right[k] || left[k] == 0 {
            alike = false;
        }
    }
    alike
}

/// How many bytes at the front are the same and not zero; it may leave out up to 31 of them.
fn alike_front(left: &[u8], right: &[u8]) -> usize
    ensures { IsAlike result left.now right.now }
{
    let mut front = 0;
    while STRIDE <= left.len() - front
        && STRIDE <= right.len() - front
        && begin_alike(&left[front..], &right[front..])
    {
        front += STRIDE;
    }
    front
}

/// Whether the bytes up to the first zero byte, which must be there, are this name. Long ones are compared many bytes
/// at a time.
pub fn begins_with_name(bytes: &[u8], name: &[u8]) -> bool
    ensures { result ≡ option_map_or (bytes_eq name.now) (name_from bytes.now) false }
{
    let front = alike_front(bytes, name);
    is_name(&bytes[front..], &name[front..])
}

/// The same, byte by byte.
fn is_name(bytes: &[u8], name: &[u8]) -> bool
    ensures { result ≡ option_map_or (bytes_eq name.now) (name_from bytes.now) false }
{
    let mut rest = bytes;
    for byte in name {
        match rest {
            [first, after @ ..] if *first != 0 && first == byte => rest = after,
            _ => return false,
        }
    }
    matches!(rest, [0, ..])
}
