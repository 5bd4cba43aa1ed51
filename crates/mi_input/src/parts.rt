//! The parts of a line, and why a line has none.

ghost use Rattle.std.specs.Prelude.{◌≡◌};
ghost use Rattle.mi_input.specs.Faults.{fault_of};

use mi_text::{ReadFault, Token};
use thiserror::Error;

/// A word of a line.
#[derive(Drop)]
pub struct Word {
    /// Its bytes; of a C string the text that it spells.
    pub bytes: Vec<u8>,
    /// Whether it was a C string.
    pub quoted: bool,
}

/// The parts of a line.
#[derive(Drop)]
pub struct Parts<'a> {
    /// At most 18 digits, none where there is no token.
    pub token: Token,
    /// The operation without the `-` before it, where it stands in the line; a line of blanks has none.
    pub operation: Option<&'a [u8]>,
    pub words: Vec<Word>,
}

/// Why a line has no parts.
#[derive(Debug, Drop, Error)]
pub enum InputFault {
    #[error("out of memory")]
    NoMemory,
    #[error("the line is longer than 4096 bytes")]
    Long,
    #[error("the line is malformed")]
    Syntax,
    /// A line that is no command of the machine interface, with its token.
    #[error("the line is no command of the machine interface")]
    Cli(Token),
}

impl From<ReadFault> for InputFault {
    ghost from_gives = { λ fault e. e ≡ fault_of fault };

    fn from(fault: ReadFault) -> InputFault {
        match fault {
            ReadFault::NoMemory => InputFault::NoMemory,
            ReadFault::Text => InputFault::Syntax,
        }
    }
}
