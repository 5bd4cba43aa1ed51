//! C strings as they are written: one spelling for each text.

ghost use Rattle.std.specs.Prelude.{◌≡◌, ◌+◌, ◌/◌, ◌%◌, [], ◌∷◌, ◌++◌, OnOk};
ghost use Rattle.std.specs.List.{list_all};
ghost use Rattle.mi_text.specs.CString.{escaped, escapes, c_string, AreBytes, is_own};
ghost use Rattle.mi_text.specs.Keeps.{Keeps};

use std::alloc::AllocError;

// How a byte is spelled, where `own` is the byte itself and `octal` a `\` and its three octal digits.
#[tactic(auto, unfolding(crate::specs::CString::escaped))]
fn spelled<'a>(b: u8, own: &'a [u8], octal: &'a [u8]) -> &'a [u8]
    requires itself { own.now ≡ b ∷ [] }
    requires digits { octal.now ≡ 92 ∷ (48 + b / 64) ∷ (48 + b / 8 % 8) ∷ (48 + b % 8) ∷ [] }
    ensures { result.now ≡ escaped b }
{
    match b {
        b'"' => b"\\\"",
        b'\\' => b"\\\\",
        b'\n' => b"\\n",
        b'\r' => b"\\r",
        b'\t' => b"\\t",
        0x20..=0x7E => own,
        _ => octal,
    }
}

/// Puts one byte's spelling at the end.
fn write_byte(b: u8, into: &mut Vec<u8>) -> Result<(), AllocError>
    ensures written { OnOk result (into.new.items ≡ into.old.items ++ escaped b) }
    ensures kept { Keeps into.old.items into.new.items }
{
    let own = [b];
    let octal = [b'\\', b'0' + b / 64, b'0' + b / 8 % 8, b'0' + b % 8];
    into.extend_from_slice(spelled(b, &own, &octal))
}

// Whether a byte's spelling is the byte.
fn is_own(b: u8) -> bool
    ensures { result ≡ is_own b }
{
    b != b'"' && b != b'\\' && 32 <= b && b <= 126
}

fn are_own(bytes: &[u8]) -> bool
    ensures { result ≡ list_all is_own bytes.now }
{
    bytes.iter().all(|b| is_own(*b))
}

#[tactic(auto, using(std::proofs::lemmas::Grind::common_steps, crate::proofs::Spelled::own_escapes))]
/// Puts the spellings of a text's bytes at the end. Most texts are spelled as they are.
fn write_bytes(text: &[u8], into: &mut Vec<u8>) -> Result<(), AllocError>
    ensures written { OnOk result (into.new.items ≡ into.old.items ++ escapes text.now) }
    ensures kept { Keeps into.old.items into.new.items }
{
    if are_own(text) {
        return into.extend_from_slice(text);
    }
    for b in text {
        write_byte(*b, into)?;
    }
    Ok(())
}

/// Puts the C string of a text at the end.
pub fn write_c_string(text: &[u8], into: &mut Vec<u8>) -> Result<(), AllocError>
    ensures written { OnOk result (into.new.items ≡ into.old.items ++ c_string text.now) }
    ensures bytes { OnOk result (AreBytes text.now) }
    ensures kept { Keeps into.old.items into.new.items }
{
    into.push(b'"')?;
    write_bytes(text, into)?;
    into.push(b'"')?;
    Ok(())
}
