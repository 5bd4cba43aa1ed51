//! Numbers, as they are written.

ghost use Rattle.std.specs.Prelude.{◌≡◌, ◌<◌, ◌++◌, decimal, OnErr, OnOk};
ghost use Rattle.mi_text.specs.Numeral.{hex_digit, address_text, exit_code, signed_text, worth_text};

use itoa::Buffer;
use std::alloc::AllocError;

fn hex_digit(d: u32) -> u8
    requires { d < 16 }
    ensures { result ≡ hex_digit d }
{
    if d < 10 { 48 + d as u8 } else { 87 + d as u8 }
}

/// `0x` and eight lower-case hexadecimal digits.
#[tactic(auto, unfolding(crate::specs::Numeral::address_text))]
pub fn address_text(n: u32) -> [u8; 10]
    ensures { result ≡ address_text n }
{
    [
        b'0',
        b'x',
        hex_digit(n / 268435456 % 16),
        hex_digit(n / 16777216 % 16),
        hex_digit(n / 1048576 % 16),
        hex_digit(n / 65536 % 16),
        hex_digit(n / 4096 % 16),
        hex_digit(n / 256 % 16),
        hex_digit(n / 16 % 16),
        hex_digit(n % 16),
    ]
}

/// Puts a number in decimal at the end. Out of memory, the one error, nothing is put.
pub fn write_decimal(n: u64, into: &mut Vec<u8>) -> Result<(), AllocError>
    ensures written { OnOk result (into.new.items ≡ into.old.items ++ decimal n) }
    ensures unchanged { OnErr result (into.new.items ≡ into.old.items) }
{
    let mut buffer = Buffer::new();
    into.extend_from_slice(buffer.format(n).as_bytes())
}

// Puts a word at the end as a number by its sign.
fn write_signed(word: u32, into: &mut Vec<u8>) -> Result<(), AllocError>
    ensures written { OnOk result (into.new.items ≡ into.old.items ++ signed_text word) }
    ensures unchanged { OnErr result (into.new.items ≡ into.old.items) }
{
    if word < 0x8000_0000 {
        return write_decimal(u64::from(word), into);
    }
    let before = into.len();
    into.push(b'-')?;
    let written = write_decimal(0x1_0000_0000 - u64::from(word), into);
    if written.is_err() {
        into.truncate(before);
    }
    written
}

/// Puts a word at the end as a number, by whether it is unsigned. Out of memory, the one error, nothing is put.
pub fn write_worth(word: u32, unsigned: bool, into: &mut Vec<u8>) -> Result<(), AllocError>
    ensures written { OnOk result (into.new.items ≡ into.old.items ++ worth_text word unsigned) }
    ensures unchanged { OnErr result (into.new.items ≡ into.old.items) }
{
    if unsigned {
        return write_decimal(u64::from(word), into);
    }
    write_signed(word, into)
}

/// Puts an exit code at the end: `0` and octal digits without leading zeros. Out of memory, the one error, nothing is put.
#[tactic(auto, unfolding(crate::specs::Numeral::exit_code))]
pub fn write_exit_code(code: u8, into: &mut Vec<u8>) -> Result<(), AllocError>
    ensures written { OnOk result (into.new.items ≡ into.old.items ++ exit_code code) }
    ensures unchanged { OnErr result (into.new.items ≡ into.old.items) }
{
    if code < 8 {
        return into.extend_from_slice(&[b'0', 48 + code]);
    }
    if code < 64 {
        return into.extend_from_slice(&[b'0', 48 + code / 8, 48 + code % 8]);
    }
    into.extend_from_slice(&[b'0', 48 + code / 64, 48 + code / 8 % 8, 48 + code % 8])
}
