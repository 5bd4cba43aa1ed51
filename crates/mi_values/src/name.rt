//! Names and classes: one or more letters, digits, `-` and `_`.

ghost use Rattle.std.specs.Prelude.{◌≡◌, true};
ghost use Rattle.mi_values.specs.Name.{is_name, is_name_byte, are_name_bytes};

use std::marker::Model;

/// The name of a field, or a line's class. Contracts see its bytes.
#[derive(Drop)]
pub struct Name {
    bytes: Vec<u8>,
}

impl Model for Name {
    ghost use Rattle.std.specs.Prelude.{ℕ, List, ◌≡◌, true};
    ghost use Rattle.mi_values.specs.Name.{is_name};

    ghost Value = { List ℕ };

    ghost view = { λ n. n.bytes.items };

    ghost invariant = { λ n. is_name n.bytes.items ≡ true };
}

impl Name {
    /// The name of one or more bytes that may stand in one (`is_name` tells whether they are a name); it keeps their memory.
    pub fn new(bytes: Vec<u8>) -> Name
        requires { is_name bytes.items ≡ true }
        ensures { result ≡ bytes.items }
    {
        Name { bytes }
    }

    /// Its bytes, one or more.
    pub fn as_bytes(&self) -> &[u8]
        ensures value { result.now ≡ self.now }
        ensures name { is_name self.now ≡ true }
    {
        self.bytes.as_slice()
    }
}

/// Whether this byte may stand in a name.
pub fn is_name_byte(b: u8) -> bool
    ensures { result ≡ is_name_byte b }
{
    matches!(b, b'a'..=b'z' | b'A'..=b'Z' | b'0'..=b'9' | b'-' | b'_')
}

fn are_name_bytes(bytes: &[u8]) -> bool
    ensures { result ≡ are_name_bytes bytes.now }
{
    bytes.iter().all(|b| is_name_byte(*b))
}

/// Whether these bytes are a name.
pub fn is_name(bytes: &[u8]) -> bool
    ensures { result ≡ is_name bytes.now }
{
    !bytes.is_empty() && are_name_bytes(bytes)
}
