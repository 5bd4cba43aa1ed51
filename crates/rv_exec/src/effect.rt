// How an instruction ends, and how a step of a machine does.
ghost use Rattle.std.specs.Prelude.{◌≡◌};

/// Why an instruction isn't executed.
#[derive(Clone, Copy, Debug, PartialEq, Eq)]
pub enum Cause {
    /// A jump or a taken branch to an address that isn't a multiple of 4.
    FetchAlign = 1,
    /// A load of a byte that isn't mapped.
    LoadFault = 2,
    /// A store or an AMO that isn't wholly to writable bytes.
    StoreFault = 3,
    /// A load from an address that isn't a multiple of its length.
    LoadAlign = 4,
    /// A store or an AMO to an address that isn't a multiple of its length.
    StoreAlign = 5,
    /// EBREAK.
    Break = 6,
    /// A word that is no instruction.
    Illegal = 7,
    /// A pc at which no instruction word stands.
    FetchFault = 8,
}

impl Cause {
    ghost use Rattle.rv_exec.specs.Causes.{cause_number};

    /// The cause's number, 1 to 8 in the order of the variants.
    pub fn number(self) -> u32
        ensures { result ≡ cause_number self }
    {
        self as u32
    }
}

/// How an instruction ended.
#[derive(Clone, Copy, Debug, PartialEq, Eq)]
pub enum Effect {
    /// It was executed.
    Done,
    /// It is ECALL; its environment is the caller's.
    Call,
    /// It wasn't executed, for one of the causes 1 to 6.
    Trap(Cause),
}

/// What a machine's step of a hart did.
#[derive(Clone, Copy, Debug, PartialEq, Eq)]
pub enum Stepped {
    /// One instruction was executed, and nothing was output.
    Ran,
    /// One instruction was executed, and it output the `len` bytes at `addr`.
    Wrote { addr: u32, len: u32 },
    /// One instruction was executed, and this hart has exited with this code.
    HartExit(u32),
    /// One instruction was executed, and all harts have exited with this code.
    AllExit(u32),
    /// A breakpoint is planted at pc; nothing changed.
    Hit,
    /// The instruction wasn't executed; nothing changed.
    Trap(Cause),
}
