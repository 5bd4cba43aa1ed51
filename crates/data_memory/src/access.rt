// What may be done with a byte, and tests of several bytes at once.
ghost use Rattle.std.specs.Prelude.{◌≡◌, ◌+◌, ◌≤◌, ◌&&◌, length};
ghost use Rattle.rv_exec.specs.Memory.{IsLen};
ghost use Rattle.data_memory.specs.Paged.{all_are, code, may_load, may_store};

/// How a byte may be accessed.
#[derive(Clone, Copy)]
pub enum Access {
    Absent = 0,
    ReadOnly = 1,
    Writable = 2,
}

/// The codes of four writable bytes as one word.
const FOUR_WRITABLE: u32 = 0x0202_0202;

impl Access {
    #[inline(always)]
    fn code(self) -> u32
        ensures { result ≡ code self }
    {
        self as u32
    }

    #[inline(always)]
    pub fn may_load(self) -> bool
        ensures { result ≡ may_load self }
    {
        !matches!(self, Access::Absent)
    }

    #[inline(always)]
    pub fn may_store(self) -> bool
        ensures { result ≡ may_store self }
    {
        matches!(self, Access::Writable)
    }
}

/// Whether four bytes are writable, by one comparison of their codes.
#[inline(always)]
fn are_four_writable(a: Access, b: Access, c: Access, d: Access) -> bool
    ensures { result ≡ (may_store a && (may_store b && (may_store c && may_store d))) }
{
    a.code() + (b.code() << 8) + (c.code() << 16) + (d.code() << 24) == FOUR_WRITABLE
}

/// Whether the `len` bytes from a place on are writable.
#[inline(always)]
pub fn all_writable(accesses: &[Access], at: usize, len: u32) -> bool
    requires len { IsLen len }
    requires within { at + len ≤ length accesses.now }
    ensures { result ≡ all_are may_store accesses.now at len }
{
    match len {
        1 => accesses[at].may_store(),
        2 => accesses[at].may_store() && accesses[at + 1].may_store(),
        _ => {
            are_four_writable(
                accesses[at],
                accesses[at + 1],
                accesses[at + 2],
                accesses[at + 3],
            )
        }
    }
}

/// Whether the `len` bytes from a place on are mapped.
#[inline(always)]
#[tactic(auto, using(crate::proofs::Bytes::all_load))]
pub fn all_mapped(accesses: &[Access], at: usize, len: u32) -> bool
    requires len { IsLen len }
    requires within { at + len ≤ length accesses.now }
    ensures { result ≡ all_are may_load accesses.now at len }
{
    if all_writable(accesses, at, len) {
        return true;
    }
    each_mapped(accesses, at, len)
}

/// The same, byte by byte; rare, since most bytes that are loaded are writable.
#[inline(never)]
fn each_mapped(accesses: &[Access], at: usize, len: u32) -> bool
    requires len { IsLen len }
    requires within { at + len ≤ length accesses.now }
    ensures { result ≡ all_are may_load accesses.now at len }
{
    match len {
        1 => accesses[at].may_load(),
        2 => accesses[at].may_load() && accesses[at + 1].may_load(),
        _ => {
            accesses[at].may_load()
                && accesses[at + 1].may_load()
                && accesses[at + 2].may_load()
                && accesses[at + 3].may_load()
        }
    }
}
