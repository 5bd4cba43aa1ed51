//! Which ranges of addresses of a table's entries have an address in common.

ghost use Rattle.std.specs.Prelude.{◌≡◌, ◌<◌, IfOk, AllPairs, MatchBool};
ghost use Rattle.std.specs.List.Sorted.{IsNonDecreasingBy, IsPermutation};
ghost use Rattle.elf32_read.specs.Spans.{Apart, Rise, middle};
ghost use Rattle.elf_checks.specs.Overlaps.{IsApartFront, IsSpanTable, section_spans, segment_spans};

use elf32_read::Span;
use elf32_read::header::{ProgramHeader, SectionHeader};
use std::alloc::{AllocError, Global};

/// The ranges of a table's entries.
#[derive(Drop)]
pub struct SpanTable {
    /// By their middles, which puts those that are apart in the order of their addresses.
    pub sorted: Vec<Span>,
    /// How many entries there are before the first one that has an address in common with an earlier one.
    pub apart: usize,
}

/// The ranges by their middles.
fn sorted(alloc: Global, spans: &[Span]) -> Result<Vec<Span>, AllocError>
    ensures same { IfOk result (λ v. IsPermutation spans.now v.items) }
    ensures ordered { IfOk result (λ v. IsNonDecreasingBy middle v.items) }
{
    let mut sorted = Vec::from_slice(alloc, spans)?;
    sorted.sort_unstable_by_key(|s| s.middle());
    Ok(sorted)
}

/// Whether each range ends by the start of the next.
fn rise(sorted: &[Span]) -> bool
    requires { IsNonDecreasingBy middle sorted.now }
    ensures { MatchBool result (Rise sorted.now) (AllPairs Apart sorted.now → ⊥) }
{
    for k in 1..sorted.len() {
        if (sorted[k].start as u64) < sorted[k - 1].end() {
            return false;
        }
    }
    true
}

/// Whether no two ranges have an address in common.
fn are_apart(alloc: Global, spans: &[Span]) -> Result<bool, AllocError>
    ensures { IfOk result (λ b. MatchBool b (AllPairs Apart spans.now) (AllPairs Apart spans.now → ⊥)) }
{
    let sorted = sorted(alloc, spans)?;
    Ok(rise(&sorted))
}

/// How many ranges there are before the first one that has an address in common with an earlier one.
fn apart_front(alloc: Global, spans: &[Span]) -> Result<usize, AllocError>
    ensures { IfOk result (λ n. IsApartFront spans.now n) }
{
    if are_apart(alloc, spans)? {
        return Ok(spans.len());
    }
    let mut apart = 0;
    let mut meeting = spans.len();
    while apart + 1 < meeting {
        let half = apart + (meeting - apart) / 2;
        if are_apart(alloc, &spans[..half])? {
            apart = half;
        } else {
            meeting = half;
        }
    }
    Ok(apart)
}

fn span_table(alloc: Global, spans: &[Span]) -> Result<SpanTable, AllocError>
    ensures { IfOk result (λ t. IsSpanTable spans.now t) }
{
    let apart = apart_front(alloc, spans)?;
    let sorted = sorted(alloc, spans)?;
    Ok(SpanTable { sorted, apart })
}

fn segment_spans(alloc: Global, segments: &[ProgramHeader]) -> Result<Vec<Span>, AllocError>
    ensures { IfOk result (λ v. v.items ≡ segment_spans segments.now) }
{
    let mut spans = Vec::with_capacity(alloc, segments.len())?;
    for (number, h) in segments.iter().enumerate() {
        spans.push(Span {
            start: h.address,
            size: h.memory_size,
            number,
        })?;
    }
    Ok(spans)
}

fn section_spans(alloc: Global, sections: &[SectionHeader]) -> Result<Vec<Span>, AllocError>
    ensures { IfOk result (λ v. v.items ≡ section_spans sections.now) }
{
    let mut spans = Vec::with_capacity(alloc, sections.len())?;
    for (number, h) in sections.iter().enumerate() {
        spans.push(Span {
            start: h.address,
            size: h.size,
            number,
        })?;
    }
    Ok(spans)
}

/// The segments' ranges in memory.
pub fn segment_table(alloc: Global, segments: &[ProgramHeader]) -> Result<SpanTable, AllocError>
    ensures { IfOk result (λ t. IsSpanTable (segment_spans segments.now) t) }
{
    span_table(alloc, &segment_spans(alloc, segments)?)
}

/// The sections' ranges in memory.
pub fn section_table(alloc: Global, sections: &[SectionHeader]) -> Result<SpanTable, AllocError>
    ensures { IfOk result (λ t. IsSpanTable (section_spans sections.now) t) }
{
    span_table(alloc, &section_spans(alloc, sections)?)
}
