// What stands at an address of text.
ghost use Rattle.std.specs.Prelude.{◌≡◌};
ghost use Rattle.text_words.specs.Words.{operation_of};

use rv_decode::Instr;
use rv_exec::Operation;

/// What stands at an address for a hart that executes it.
#[derive(Clone, Copy)]
pub enum Fetch {
    /// No word of text.
    Absent,
    /// A planted breakpoint.
    Planted,
    /// A word that is no instruction.
    Illegal,
    /// The instruction of a word.
    Instruction(Instr),
}

impl Fetch {
    /// The operation of the instruction: that of EBREAK where a breakpoint is planted, and where there is no instruction.
    pub fn operation(self) -> Operation
        ensures { result ≡ operation_of self }
    {
        match self {
            Fetch::Instruction(instruction) => Operation::of(instruction),
            Fetch::Absent | Fetch::Planted | Fetch::Illegal => Operation::Break,
        }
    }
}
