//! `Refusal`: why a line is no command.

ghost use Rattle.std.specs.Prelude.{◌≡◌};
ghost use Rattle.mi_commands.specs.Faults.{fault_number};
ghost use Rattle.mi_commands.specs.declared.refusal.Failure.TheVariants as failures;
ghost use Rattle.mi_commands.specs.declared.refusal.Refusal.TheVariants as refusals;

use dbg_traits::ByteList;
use mi_input::InputFault;
use mi_text::Token;
use std::alloc::AllocError;
use thiserror::Error;

/// What is wrong with a line that has parts.
#[derive(Debug, Drop, Error)]
pub enum Fault {
    /// There is no operation of this name.
    #[error("undefined command")]
    Undefined(ByteList),
    /// An unknown option, one that stands twice, one without its value, `--all` beside `--thread`, or a wrong number
    /// of words; with the operation's name.
    #[error("wrong parameters")]
    Parameters(ByteList),
    /// The leftmost word that is no number, or one out of its range, or no bytes; of `$NAME=VALUE` the value.
    #[error("bad number")]
    Number(ByteList),
    /// Another setting or value, another register format, or no register.
    #[error("unsupported setting")]
    Setting,
    /// A word of no location form, and the thread of `-p`.
    #[error("bad location")]
    Location { word: ByteList, thread: Option<u32> },
}

impl Fault {
    /// The number of the fault's error message: 4, 5, 6, 7 or 13.
    pub fn number(&self) -> u32
        ensures { result ≡ fault_number self.now }
    {
        match self {
            Fault::Undefined(_) => 4,
            Fault::Parameters(_) => 5,
            Fault::Number(_) => 6,
            Fault::Setting => 7,
            Fault::Location { word: _, thread: _ } => 13,
        }
    }
}

/// Why a line is no command.
#[derive(Debug, Drop, Error)]
pub enum Refusal {
    /// The line has no parts, or there is no memory for the command.
    #[error(transparent)]
    Input(InputFault),
    /// A line that has parts, with its token: the least of its faults in the order of `Fault`.
    #[error("the command is refused")]
    Faulty { token: Token, fault: Fault },
}

impl From<InputFault> for Refusal {
    ghost from_gives = { λ fault e. e ≡ refusals.Input fault };

    fn from(fault: InputFault) -> Refusal {
        Refusal::Input(fault)
    }
}

// Why parts are no command.
#[derive(Drop)]
pub enum Failure {
    NoMemory,
    Faulty(Fault),
}

impl From<AllocError> for Failure {
    ghost from_gives = { λ _ e. e ≡ failures.NoMemory };

    fn from(_: AllocError) -> Failure {
        Failure::NoMemory
    }
}
