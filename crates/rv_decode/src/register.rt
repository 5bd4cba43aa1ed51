//! Registers by their names (RISC-V psABI, "Integer Register Convention").

ghost use Rattle.std.specs.Prelude.{◌≡◌, ◌≤◌};
ghost use Rattle.std.specs.Option.{option_map};
ghost use Rattle.rv_decode.specs.Registers.{number_of, register_number, numbered, two_letters};

use std::marker::Model;

/// The number of a register; 32 is pc. Contracts see it as that number.
#[derive(Clone, Copy)]
pub struct Register {
    number: u8,
}

impl Model for Register {
    ghost use Rattle.std.specs.Prelude.{ℕ, ◌≤◌};

    ghost Value = { ℕ };

    ghost view = { λ r. r.number };

    ghost invariant = { λ r. r.number ≤ 32 };

    ghost inverse = { λ n. record { number = n } };
}

impl Register {
    fn new(number: u8) -> Register
        requires { number ≤ 32 }
        ensures { result ≡ number }
    {
        Register { number }
    }

    /// The register's number; 32 is pc.
    pub fn number(self) -> u32
        ensures value { result ≡ self }
        ensures range { result ≤ 32 }
    {
        u32::from(self.number)
    }
}

/// The number that one digit spells, or two of which the first is not 0.
fn number_of(digits: &[u8]) -> Option<u8>
    ensures { result ≡ number_of digits.now }
{
    match digits {
        [b @ b'0'..=b'9'] => Some(*b - b'0'),
        [a @ b'1'..=b'9', b @ b'0'..=b'9'] => Some(10 * (*a - b'0') + (*b - b'0')),
        _ => None,
    }
}

/// The register of a letter and a number.
fn numbered(letter: u8, n: u8) -> Option<Register>
    ensures { result ≡ numbered letter n }
{
    match (letter, n) {
        (b'x', 0..=31) => Some(Register::new(n)),
        (b'a', 0..=7) => Some(Register::new(10 + n)),
        (b's', 0..=1) => Some(Register::new(8 + n)),
        (b's', 2..=11) => Some(Register::new(16 + n)),
        (b't', 0..=2) => Some(Register::new(5 + n)),
        (b't', 3..=6) => Some(Register::new(25 + n)),
        _ => None,
    }
}

/// The register of a name of two letters.
fn two_letters(first: u8, second: u8) -> Option<Register>
    ensures { result ≡ two_letters first second }
{
    match (first, second) {
        (b'r', b'a') => Some(Register::new(1)),
        (b's', b'p') => Some(Register::new(2)),
        (b'g', b'p') => Some(Register::new(3)),
        (b't', b'p') => Some(Register::new(4)),
        (b'f', b'p') => Some(Register::new(8)),
        (b'p', b'c') => Some(Register::new(32)),
        _ => None,
    }
}

/// The register of a name.
pub fn register_of(name: &[u8]) -> Option<Register>
    ensures { result ≡ register_number name.now }
{
    match name {
        [b'z', b'e', b'r', b'o'] => Some(Register::new(0)),
        [letter, digits @ ..] => match number_of(digits) {
            Some(n) => numbered(*letter, n),
            None => match digits {
                [second] => two_letters(*letter, *second),
                _ => None,
            },
        },
        [] => None,
    }
}
