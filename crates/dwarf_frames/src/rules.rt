//! The rules that tell a caller's registers (DWARF 5, section 6.4.1).

ghost use Rattle.std.specs.Prelude.{◌≡◌, ◌<◌};
ghost use Rattle.dwarf_frames.specs.Table.{first_rules};
ghost use Rattle.dwarf_frames.specs.Within.{AreWithin};

/// The canonical frame address (CFA): the value of a register, and an offset that is added to it modulo 2^32.
#[derive(Clone, Copy)]
pub struct CfaRule {
    /// The number of the register, below 32.
    pub register: u8,
    /// In bytes, modulo 2^32.
    pub offset: u32,
}

/// How the value that a register has in the caller is had. Offsets are in bytes and added modulo 2^32.
#[derive(Clone, Copy, Debug, PartialEq, Eq)]
pub enum RegisterRule {
    /// No operation speaks of the register: its value is kept, but that of x2 is the CFA.
    Unspecified,
    /// The value can't be had: `undefined`, or `register` with a number above 31.
    Undefined,
    /// The value is kept, that of x2 too.
    SameValue,
    /// The value stands in memory at the CFA and this offset.
    Offset(u32),
    /// The value is the CFA and this offset.
    ValOffset(u32),
    /// The value is that of the register of this number, below 32.
    Register(u8),
}

/// The rules of a place in the code.
#[derive(Clone, Copy)]
pub struct Rules {
    pub cfa: CfaRule,
    /// The number of the register whose value in the caller is the return address, below 32.
    pub return_column: u8,
    /// By the numbers of the registers.
    pub registers: [RegisterRule; 32],
}

/// The number of the stack pointer (`sp`).
const STACK_POINTER: u8 = 2;

impl Rules {
    /// The rules before any operation: the CFA is x2, and no register has a rule; `return_column` must be below 32.
    pub fn new(return_column: u8) -> Rules
        requires { return_column < 32 }
        ensures value { result ≡ first_rules return_column }
        ensures within { AreWithin result }
    {
        Rules {
            cfa: CfaRule {
                register: STACK_POINTER,
                offset: 0,
            },
            return_column,
            registers: [RegisterRule::Unspecified; 32],
        }
    }
}

/// What an unused slot of remembered rules holds.
impl Default for Rules {
    ghost is_default = { λ r. r ≡ first_rules 0 };

    fn default() -> Rules {
        Rules::new(0)
    }
}
