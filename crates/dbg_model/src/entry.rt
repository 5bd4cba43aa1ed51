// Entries of a journal, and what they say of a hart.
use break_table::CondError;
use dbg_traits::ByteList;
use rv_exec::Cause;
use watch_points::Fired;
/// What a hart is at. A hart that isn't `Exited` is live.
#[derive(Clone, Copy, Debug, PartialEq, Eq)]
pub enum Mode {
    Stopped,
    Running,
    /// It executed an exit with this code, which is still to be reported.
    Leaving(u32),
    Exited,
}

/// Why a hart stopped.
#[derive(Clone, Copy)]
pub enum Why {
    /// It came to the breakpoint of this number, of whose condition the value couldn't be had for this reason.
    Break {
        number: u32,
        error: Option<CondError>,
    },
    /// Its instruction changed the bytes of this watch.
    Watch(Fired),
    /// Its step came to its end.
    Stepped,
    /// The function that it was to finish has returned.
    Finished,
    /// An interrupt was asked of it.
    Interrupted,
    /// Its instruction trapped.
    Fault(Cause),
}

/// What the user writes into the program.
#[derive(Drop)]
pub enum Poke {
    /// The register of this number of a hart, which is counted from 0, gets a value. x0 and pc are never written.
    Register { hart: u32, number: u32, value: u32 },
    /// The bytes of data from an address on, which go on modulo 2^32.
    Bytes { address: u32, bytes: ByteList },
}

/// One entry of a journal. Harts are counted from 0.
#[derive(Drop)]
pub enum Entry {
    /// A hart executed so many instructions.
    Ran { hart: u32, count: u64 },
    /// A hart came to breakpoints that count it, and goes on.
    Counted { hart: u32 },
    /// A hart stopped.
    Stopped { hart: u32, why: Why },
    /// A hart exited with this code.
    Left { hart: u32, code: u32 },
    /// A line of the input was done.
    Did { line: ByteList },
    /// What the line before asked to be written was written.
    Poked { poke: Poke },
}

/// An entry where a journal keeps it. A `Ran` is told by its bytes there, so nothing refers to it.
#[derive(Clone, Copy)]
pub enum EntryRef<'a> {
    /// A hart executed so many instructions.
    Ran { hart: u32, count: u64 },
    /// An entry other than `Ran`.
    Noted(&'a Entry),
}
