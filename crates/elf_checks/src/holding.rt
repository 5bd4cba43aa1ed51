//! The segment that a text section lies in.

ghost use Rattle.std.specs.Prelude.{◌≡◌, ◌<◌, find};
ghost use Rattle.elf32_read.specs.Headers.{holds_text};
ghost use Rattle.elf32_read.specs.Spans.{AreSegments};
ghost use Rattle.elf_checks.specs.Overlaps.{AreFilled};

use elf32_read::abi::PF_X;
use elf32_read::header::{ProgramHeader, SectionHeader};
use elf32_read::{Span, segment_at};

/// Whether a section lies wholly in the file part of an executable segment.
fn holds_text(h: &SectionHeader, s: &ProgramHeader) -> bool
    ensures { result ≡ holds_text h.now s.now }
{
    s.flags & PF_X == PF_X
        && (s.address <= h.address
            && h.address as u64 + h.size as u64 <= s.address as u64 + s.file_size as u64)
}

/// The segment that a text section lies in, which is the one that has its first byte.
pub fn holder(
    segments: &[ProgramHeader],
    sorted: &[Span],
    h: &SectionHeader,
) -> Option<ProgramHeader>
    requires sorted { AreSegments segments.now sorted.now }
    requires filled { AreFilled segments.now }
    requires some { 0 < h.now.size }
    ensures { result ≡ find (holds_text h.now) segments.now }
{
    match segment_at(segments, sorted, h.address) {
        Some(s) if holds_text(h, &s) => Some(s),
        _ => None,
    }
}
