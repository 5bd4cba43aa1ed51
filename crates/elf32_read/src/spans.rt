//! The ranges of addresses of a table's entries, and the one that an address is in.

ghost use Rattle.std.specs.Prelude.{◌≡◌, ◌+◌, find};
ghost use Rattle.std.specs.Option.{option_map};
ghost use Rattle.elf32_read.specs.Spans.{Rise, covers, middle};

/// The addresses of an entry of a table, as of a text section.
#[derive(Clone, Copy)]
pub struct Span {
    /// The first address.
    pub start: u32,
    /// In bytes.
    pub size: u32,
    /// The entry's number in its table, from 0 on.
    pub number: usize,
}

impl Span {
    /// The address behind the last one.
    pub fn end(&self) -> u64
        ensures { result ≡ self.now.start + self.now.size }
    {
        self.start as u64 + self.size as u64
    }

    /// Twice the middle, which puts ranges without a common address in the order of their addresses.
    pub fn middle(&self) -> u64
        ensures { result ≡ middle self.now }
    {
        self.start as u64 + self.end()
    }
}

/// The range that an address is in.
pub fn span_at(sorted: &[Span], addr: u32) -> Option<Span>
    requires { Rise sorted.now }
    ensures { result ≡ find (covers addr) sorted.now }
{
    let after = sorted.partition_point(|s| s.start <= addr);
    if after == 0 {
        return None;
    }
    let last = sorted[after - 1];
    if (addr as u64) < last.end() {
        Some(last)
    } else {
        None
    }
}

/// The number of the range that an address is in.
pub fn number_at(sorted: &[Span], addr: u32) -> Option<usize>
    requires { Rise sorted.now }
    ensures { result ≡ option_map (λ s. s.number) (find (covers addr) sorted.now) }
{
    match span_at(sorted, addr) {
        Some(span) => Some(span.number),
        None => None,
    }
}
