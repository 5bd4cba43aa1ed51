//! Bytes, each as two hexadecimal digits.

ghost use Rattle.std.specs.Prelude.{◌≡◌, IfOk};
ghost use Rattle.std.specs.List.{list_all};
ghost use Rattle.std.specs.Char.{is_ascii_hexdigit};
ghost use Rattle.mi_text.specs.Hexadecimal.{are_bytes, bytes_of};

use hex::{FromHexError, decode};
use std::alloc::{AllocError, Global};

fn are_digits(word: &[u8]) -> bool
    ensures { result ≡ list_all is_ascii_hexdigit word.now }
{
    word.iter().all(|b| b.is_ascii_hexdigit())
}

/// Whether a word is the digits of one byte or more.
#[tactic(auto, using(crate::proofs::Decoding::decodes))]
pub fn are_bytes(word: &[u8]) -> bool
    ensures { result ≡ are_bytes word.now }
{
    !word.is_empty() && word.len() % 2 == 0 && are_digits(word)
}

/// The bytes that a word spells: none where it isn't digits, two each.
pub fn bytes_of(alloc: Global, word: &[u8]) -> Result<Vec<u8>, AllocError>
    ensures { IfOk result (λ v. v.items ≡ bytes_of word.now) }
{
    match decode(alloc, word) {
        Ok(bytes) => Ok(bytes),
        Err(FromHexError::OutOfMemory) => Err(AllocError),
        Err(_) => Ok(Vec::new(alloc)),
    }
}
