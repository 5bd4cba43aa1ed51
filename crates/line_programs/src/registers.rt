//! The registers of the state machine (DWARF 4 and 5, section 6.2.2), as far as a row shows them.

ghost use Rattle.std.specs.Prelude.{◌≡◌, ◌^◌};
ghost use Rattle.line_programs.specs.Operations.{residue};

/// What the next row will show.
#[derive(Clone, Copy)]
pub struct Registers {
    pub address: u32,
    /// The number of a file in the unit's table.
    pub file: u64,
    pub line: u32,
    pub is_stmt: bool,
    pub prologue_end: bool,
}

/// A number modulo 2^32.
pub fn residue(number: i64) -> u32
    ensures { result ≡ residue number }
{
    number.rem_euclid(0x1_0000_0000) as u32
}
