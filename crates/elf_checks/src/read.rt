// A file whose checks hold becomes an image.
ghost use Rattle.std.specs.Prelude.{◌≡◌, ◌<◌, IfOk, find, map};
ghost use Rattle.std.specs.Option.{option_map_or};
ghost use Rattle.elf32_read.specs.Headers.{holds_text, program_of};
ghost use Rattle.elf32_read.specs.Ranges.{offset_of, range_in};
ghost use Rattle.elf32_read.specs.Program.{IsLinked};
ghost use Rattle.elf32_read.specs.Spans.{AreSegments};
ghost use Rattle.elf_checks.specs.Overlaps.{AreFilled, AreSome};
ghost use Rattle.elf_checks.specs.Reading.{Reads, ReadsTables};

use crate::checks::{check_header, check_size, check_tables};
use crate::fault::ElfReadError;
use crate::holding::holder;
use crate::overlaps::{section_table, segment_table};
use elf32_read::header::{
    FileHeader, ProgramHeader, SectionHeader, loaded_headers, section_headers, text_headers,
};
use elf32_read::tables::{Tables, TextRange};
use elf32_read::{Image, Span};
use std::alloc::{AllocError, Global};

fn text_offset(segments: &[ProgramHeader], sorted: &[Span], h: &SectionHeader) -> usize
    requires sorted { AreSegments segments.now sorted.now }
    requires filled { AreFilled segments.now }
    requires some { 0 < h.now.size }
    ensures { result ≡ option_map_or (offset_of h.now.address) (find (holds_text h.now) segments.now) 0 }
{
    match holder(segments, sorted, h) {
        Some(s) => s.offset as usize + h.address.saturating_sub(s.address) as usize,
        None => 0,
    }
}

fn text_range(segments: &[ProgramHeader], sorted: &[Span], h: &SectionHeader) -> TextRange
    requires sorted { AreSegments segments.now sorted.now }
    requires filled { AreFilled segments.now }
    requires some { 0 < h.now.size }
    ensures { result ≡ range_in segments.now h.now }
{
    TextRange {
        address: h.address,
        size: h.size,
        offset: text_offset(segments, sorted, h),
    }
}

fn text_ranges(
    alloc: Global,
    segments: &[ProgramHeader],
    sorted: &[Span],
    texts: &[SectionHeader],
) -> Result<Vec<TextRange>, AllocError>
    requires sorted { AreSegments segments.now sorted.now }
    requires filled { AreFilled segments.now }
    requires some { AreSome texts.now }
    ensures { IfOk result (λ v. v.items ≡ map (range_in segments.now) texts.now) }
{
    let mut ranges = Vec::with_capacity(alloc, texts.len())?;
    for h in texts {
        ranges.push(text_range(segments, sorted, h))?;
    }
    Ok(ranges)
}

/// The tables of a file that fails no check.
#[tactic(auto, using(crate::proofs::Stages::parts))]
fn read_tables(alloc: Global, bytes: &[u8]) -> Result<Tables, ElfReadError>
    ensures tables { ReadsTables bytes.now result }
    ensures linked { IfOk result (λ _. IsLinked (program_of bytes.now)) }
{
    check_size(bytes)?;
    let header = FileHeader::read(bytes);
    check_header(bytes, &header)?;
    let segments = loaded_headers(alloc, bytes, &header)?;
    let sections = section_headers(alloc, bytes, &header)?;
    let texts = text_headers(alloc, &sections)?;
    let segment_table = segment_table(alloc, &segments)?;
    let text_table = section_table(alloc, &texts)?;
    check_tables(
        bytes,
        &header,
        &segments,
        &segment_table,
        &sections,
        &texts,
        &text_table,
    )?;
    let text = text_ranges(alloc, &segments, &segment_table.sorted, &texts)?;
    Ok(Tables {
        header,
        segments,
        segment_spans: segment_table.sorted,
        text,
        text_spans: text_table.sorted,
        sections,
    })
}

/// The image of a file's bytes, which it takes over. No byte of the image's program is in two segments, and its entry
/// is a word of text.
///
/// # Errors
///
/// The first check that the bytes fail, or out of memory. The bytes are dropped then: a caller that needs them after
/// a fault keeps a copy.
pub fn read_image(alloc: Global, bytes: Vec<u8>) -> Result<Image, ElfReadError>
    ensures read { Reads bytes.items result }
    ensures linked { IfOk result (λ program. IsLinked program) }
{
    let tables = read_tables(alloc, &bytes)?;
    Ok(Image::of(bytes, tables))
}
