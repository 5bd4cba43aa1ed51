//! Numbers of variable length: seven bits a byte, the lowest first.

ghost use Rattle.std.specs.Prelude.{◌≡◌, ◌<◌, ◌≤◌, ◌^◌, ◌+◌, IfOk, length, take_while, true};
ghost use Rattle.leb_read.specs.Leb.{HasFit, IsBehind, goes_on, is_wide, leb_at, leb_length, sleb_at, spelled, spelled_signed, tenth_of, uleb_at};
ghost use Rattle.leb_read.specs.Reading.{GivesText};

use crate::fault::Leb;

/// Bit 7: the number goes on in the next byte.
const GOES_ON: u8 = 0x80;

/// More bytes than these have more than 64 bits.
const BYTES_AT_MOST: usize = 10;

// How many bytes at the front go on in the next one.
fn going_on(bytes: &[u8]) -> usize
    ensures { result ≡ length (take_while goes_on bytes.now) }
{
    bytes.iter().take_while(|b| **b >= GOES_ON).count()
}

// How many bytes the number at the front has, which may be more than there are.
#[tactic(auto, unfolding(crate::specs::Leb::leb_length))]
fn leb_length(bytes: &[u8]) -> usize
    ensures { result ≡ leb_length bytes.now }
{
    let end = bytes.len().min(BYTES_AT_MOST - 1);
    going_on(&bytes[..end]) + 1
}

// The number that the low seven bits of the bytes spell.
#[tactic(auto, using(crate::proofs::Numbers::spelled_fits))]
fn spelled(bytes: &[u8]) -> u128
    requires { length bytes.now ≤ 10 }
    ensures value { result ≡ spelled bytes.now }
    ensures below { result < 2 ^ 70 }
{
    let mut value = 0;
    let mut start = bytes.len();
    while start > 0 {
        start -= 1;
        value = value * 128 + u128::from(bytes[start] % 128);
    }
    value
}

// Whether a tenth byte leaves the number within 64 bits.
fn is_tenth(byte: u8, is_signed: bool) -> bool
    ensures { result ≡ tenth_of is_signed byte }
{
    if is_signed {
        byte == 0 || byte == 0x7F
    } else {
        byte <= 1
    }
}

fn is_wide(number: &[u8], is_signed: bool) -> bool
    ensures { result ≡ is_wide is_signed number.now }
{
    number.len() == BYTES_AT_MOST && !is_tenth(number[BYTES_AT_MOST - 1], is_signed)
}

// The bytes of the number at a place, and the place behind it.
#[tactic(auto, using(crate::proofs::Numbers::leb_some, crate::proofs::Numbers::leb_most), unfolding(crate::specs::Leb::leb_at))]
fn leb_bytes(bytes: &[u8], at: usize, is_signed: bool) -> Result<(&[u8], usize), Leb>
    ensures bytes { GivesText result (leb_at is_signed bytes.now at) }
    ensures fits { IfOk result (λ r. HasFit is_signed r.0.now) }
    ensures within { IfOk result (λ r. IsBehind bytes.now at r.1) }
{
    if bytes.len() < at {
        return Err(Leb::Short);
    }
    let front = &bytes[at..];
    let length = leb_length(front);
    if front.len() < length {
        return Err(Leb::Short);
    }
    let number = &front[..length];
    if is_wide(number, is_signed) {
        return Err(Leb::Wide);
    }
    Ok((number, at + length))
}

/// The unsigned number at a place (ULEB128), and the place behind it, in bytes from the front.
///
/// # Errors
///
/// `Short` where the bytes end before the number does, and `Wide` where it has ten bytes and more than 64 bits. `Short`
/// is told before `Wide`. A number may have bytes that add nothing to it.
#[tactic(auto, using(crate::proofs::Numbers::unsigned_fits), unfolding(crate::specs::Leb::uleb_at))]
pub fn uleb(bytes: &[u8], at: usize) -> Result<(u64, usize), Leb>
    ensures value { result ≡ uleb_at bytes.now at }
    ensures within { IfOk result (λ r. IsBehind bytes.now at r.1) }
{
    let (number, next) = leb_bytes(bytes, at, false)?;
    Ok((spelled(number) as u64, next))
}

/// The signed number at a place (SLEB128), and the place behind it, in bytes from the front.
///
/// # Errors
///
/// As those of `uleb`, with 64 bits for the number in two's complement.
#[tactic(auto, unfolding(crate::specs::Leb::sleb_at))]
pub fn sleb(bytes: &[u8], at: usize) -> Result<(i64, usize), Leb>
    ensures value { result ≡ sleb_at bytes.now at }
    ensures within { IfOk result (λ r. IsBehind bytes.now at r.1) }
{
    let (number, next) = leb_bytes(bytes, at, true)?;
    Ok((spelled_signed(number), next))
}

fn power(bits: usize) -> u128
    requires { bits ≤ 70 }
    ensures { result ≡ 2 ^ bits }
{
    1 << bits
}

// The same number, with bit 6 of the last byte for its sign.
#[tactic(auto, using(crate::proofs::Numbers::signed, crate::proofs::Numbers::bits), unfolding(crate::specs::Leb::spelled_signed))]
fn spelled_signed(bytes: &[u8]) -> i64
    requires { HasFit true bytes.now }
    ensures { result ≡ spelled_signed bytes.now }
{
    let value = spelled(bytes) as i128;
    let is_negative = bytes[bytes.len() - 1] % 128 >= 64;
    if is_negative {
        (value - power(7 * bytes.len()) as i128) as i64
    } else {
        value as i64
    }
}
