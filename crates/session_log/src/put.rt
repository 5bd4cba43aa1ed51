//! Words of a line, put at the end of a buffer, each with the byte behind it.

ghost use Rattle.std.specs.Prelude.{◌≡◌, [], ◌∷◌, ◌++◌, decimal, OnOk, true};
ghost use Rattle.hex.specs.Hex.{encode_lower};
ghost use Rattle.mi_text.specs.Keeps.{Keeps};
ghost use Rattle.mi_values.specs.Testing.{are_bytes};
ghost use Rattle.session_log.specs.Words.{line_of};

use itoa::Buffer;
use mi_values::known_bytes;
use std::alloc::AllocError;

/// Puts a word at the end, and the byte behind it.
pub fn put(word: &[u8], gap: u8, into: &mut Vec<u8>) -> Result<(), AllocError>
    ensures written { OnOk result (into.new.items ≡ into.old.items ++ (word.now ++ gap ∷ [])) }
    ensures kept { Keeps into.old.items into.new.items }
{
    into.extend_from_slice(word)?;
    into.push(gap)?;
    Ok(())
}

/// Puts a number at the end in decimal, and the byte behind it.
pub fn put_u64(n: u64, gap: u8, into: &mut Vec<u8>) -> Result<(), AllocError>
    ensures written { OnOk result (into.new.items ≡ into.old.items ++ (decimal n ++ gap ∷ [])) }
    ensures kept { Keeps into.old.items into.new.items }
{
    let mut buffer = Buffer::new();
    put(buffer.format(n).as_bytes(), gap, into)
}

/// Puts a number at the end in decimal, and the byte behind it.
pub fn put_u32(n: u32, gap: u8, into: &mut Vec<u8>) -> Result<(), AllocError>
    ensures written { OnOk result (into.new.items ≡ into.old.items ++ (decimal n ++ gap ∷ [])) }
    ensures kept { Keeps into.old.items into.new.items }
{
    put_u64(u64::from(n), gap, into)
}

/// Puts a word at the end, a number behind it in decimal, and the byte behind that.
#[tactic(auto, using(std::proofs::lemmas::Grind::common_steps))]
pub fn put_named(word: &[u8], n: u32, gap: u8, into: &mut Vec<u8>) -> Result<(), AllocError>
    ensures written { OnOk result (into.new.items ≡ into.old.items ++ (word.now ++ 32 ∷ (decimal n ++ gap ∷ []))) }
    ensures kept { Keeps into.old.items into.new.items }
{
    put(word, b' ', into)?;
    put_u32(n, gap, into)
}

/// Puts a line of a word and three numbers at the end.
pub fn put_three(key: &[u8], a: u32, b: u32, c: u32, into: &mut Vec<u8>) -> Result<(), AllocError>
    ensures written { OnOk result (into.new.items ≡ into.old.items ++ line_of (key.now ∷ decimal a ∷ decimal b ∷ decimal c ∷ [])) }
    ensures kept { Keeps into.old.items into.new.items }
{
    put_named(key, a, b' ', into)?;
    put_u32(b, b' ', into)?;
    put_u32(c, b'\n', into)
}

/// Puts bytes at the end in hexadecimal, and the byte behind them.
pub fn put_hex(bytes: &[u8], gap: u8, into: &mut Vec<u8>) -> Result<(), AllocError>
    ensures written { OnOk result (into.new.items ≡ into.old.items ++ (encode_lower bytes.now ++ gap ∷ [])) }
    ensures bytes { are_bytes bytes.now ≡ true }
    ensures kept { Keeps into.old.items into.new.items }
{
    known_bytes(bytes);
    let digits = hex::encode(*into.allocator(), bytes)?;
    put(digits.as_bytes(), gap, into)
}
