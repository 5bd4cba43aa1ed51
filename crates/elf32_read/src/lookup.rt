// The bytes and words at an address.
ghost use Rattle.std.specs.Prelude.{◌≡◌, ◌+◌, ◌-◌, ◌%◌, ◌≤◌, ◌<◌, ◌==◌, ◌&&◌, not, All, length, true, false, find, map, slice_get, Some, None, if◌then◌else◌};
ghost use Rattle.std.specs.List.{list_any};
ghost use Rattle.std.specs.Option.{option_copied, option_map, option_map_or};
ghost use Rattle.elf32_read.specs.Fields.{u32_at};
ghost use Rattle.elf32_read.specs.Program.{byte_of};
ghost use Rattle.elf32_read.specs.Headers.{section_bytes, section_of, segment_of};
ghost use Rattle.elf32_read.specs.Views.{range_shown, section_shown, segment_shown, text_shown, unnamed};
ghost use Rattle.elf32_read.specs.Ranges.{IsRange, IsWithin, in_loaded, in_range, is_called, is_writable_header};
ghost use Rattle.elf32_read.specs.Spans.{AreSegments, AreTexts};

use crate::abi::PF_W;
use crate::fields::{begins_with_name, u32_at};
use crate::header::{ProgramHeader, SectionHeader, section_bytes};
use crate::spans::{Span, number_at};
use crate::tables::TextRange;
use crate::views::{SectionView, SegmentView, TextView};

/// The byte of a segment at an address, which is zero past the file part.
fn byte_in(file: &[u8], h: &ProgramHeader, addr: u32) -> u8
    requires within { IsWithin file.now h.now }
    requires inside { in_loaded addr h.now ≡ true }
    ensures { result ≡ byte_of addr (segment_of file.now h.now) }
{
    let distance = addr - h.address;
    if distance < h.file_size {
        file[h.offset as usize + distance as usize]
    } else {
        0
    }
}

/// The segment that has an address, by the segments' ranges.
pub fn segment_at(segments: &[ProgramHeader], sorted: &[Span], addr: u32) -> Option<ProgramHeader>
    requires { AreSegments segments.now sorted.now }
    ensures { result ≡ find (in_loaded addr) segments.now }
{
    match number_at(sorted, addr) {
        Some(k) => Some(segments[k]),
        None => None,
    }
}

/// The text section that has an address, by the sections' ranges.
fn text_at(text: &[TextRange], sorted: &[Span], addr: u32) -> Option<TextRange>
    requires { AreTexts text.now sorted.now }
    ensures { result ≡ find (in_range addr) text.now }
{
    match number_at(sorted, addr) {
        Some(k) => Some(text[k]),
        None => None,
    }
}

/// The byte that is loaded at an address.
pub fn loaded_byte(
    file: &[u8],
    segments: &[ProgramHeader],
    sorted: &[Span],
    addr: u32,
) -> Option<u8>
    requires within { All (IsWithin file.now) segments.now }
    requires sorted { AreSegments segments.now sorted.now }
    ensures { result ≡ option_map (λ h. byte_of addr (segment_of file.now h)) (find (in_loaded addr) segments.now) }
{
    match segment_at(segments, sorted, addr) {
        Some(h) => Some(byte_in(file, &h, addr)),
        None => None,
    }
}

/// Whether the segment at an address may be written.
fn in_writable(segments: &[ProgramHeader], sorted: &[Span], addr: u32) -> bool
    requires { AreSegments segments.now sorted.now }
    ensures { result ≡ option_map_or is_writable_header (find (in_loaded addr) segments.now) false }
{
    match segment_at(segments, sorted, addr) {
        Some(h) => h.flags & PF_W == PF_W,
        None => false,
    }
}

pub fn in_ranges(text: &[TextRange], sorted: &[Span], addr: u32) -> bool
    requires { AreTexts text.now sorted.now }
    ensures { result ≡ list_any (in_range addr) text.now }
{
    text_at(text, sorted, addr).is_some()
}

/// Whether an address is writable and not text.
pub fn may_write(
    segments: &[ProgramHeader],
    sorted_segments: &[Span],
    text: &[TextRange],
    sorted_text: &[Span],
    addr: u32,
) -> bool
    requires segments { AreSegments segments.now sorted_segments.now }
    requires text { AreTexts text.now sorted_text.now }
    ensures { result ≡ (option_map_or is_writable_header (find (in_loaded addr) segments.now) false && not (list_any (in_range addr) text.now)) }
{
    in_writable(segments, sorted_segments, addr) && !in_ranges(text, sorted_text, addr)
}

/// The word of text at an address that is a multiple of 4.
pub fn word_in(file: &[u8], text: &[TextRange], sorted: &[Span], addr: u32) -> Option<u32>
    requires ranges { All (IsRange file.now) text.now }
    requires sorted { AreTexts text.now sorted.now }
    requires aligned { addr % 4 ≡ 0 }
    ensures { result ≡ option_map (λ t. u32_at file.now (t.offset + (addr - t.address))) (find (in_range addr) text.now) }
{
    match text_at(text, sorted, addr) {
        Some(t) => Some(word_of(file, &t, addr)),
        None => None,
    }
}

fn word_of(file: &[u8], t: &TextRange, addr: u32) -> u32
    requires range { IsRange file.now t.now }
    requires inside { in_range addr t.now ≡ true }
    requires aligned { addr % 4 ≡ 0 }
    ensures { result ≡ u32_at file.now (t.now.offset + (addr - t.now.address)) }
{
    u32_at(file, t.offset + (addr - t.address) as usize)
}

#[tactic(auto, unfolding(crate::specs::Fields::name_at))]
fn is_called(names: &[u8], name: &[u8], h: &SectionHeader) -> bool
    ensures { result ≡ is_called names.now name.now h.now }
{
    let start = h.name as usize;
    start <= names.len() && begins_with_name(&names[start..], name)
}

/// What stands in the file of the first section of a name.
pub fn section_called<'a>(
    file: &'a [u8],
    names: &[u8],
    sections: &[SectionHeader],
    name: &[u8],
) -> Option<&'a [u8]>
    ensures { option_copied result ≡ option_map (section_bytes file.now) (find (is_called names.now name.now) sections.now) }
{
    for h in sections {
        if is_called(names, name, h) {
            return Some(section_bytes(file, h));
        }
    }
    None
}

/// The segment of a number.
pub fn segment_in<'a>(file: &'a [u8], segments: &[ProgramHeader], k: usize) -> SegmentView<'a>
    requires number { k < length segments.now }
    requires within { All (IsWithin file.now) segments.now }
    ensures { slice_get (map (segment_of file.now) segments.now) k ≡ Some (segment_shown result) }
{
    segment_view(file, &segments[k])
}

fn segment_view<'a>(file: &'a [u8], h: &ProgramHeader) -> SegmentView<'a>
    requires { IsWithin file.now h.now }
    ensures { segment_shown result ≡ segment_of file.now h.now }
{
    let start = h.offset as usize;
    SegmentView {
        address: h.address,
        size: h.memory_size,
        flags: h.flags,
        bytes: &file[start..start + h.file_size as usize],
    }
}

/// The text section of a number, by where its words stand in the file.
pub fn text_in<'a>(file: &'a [u8], text: &[TextRange], k: usize) -> TextView<'a>
    requires number { k < length text.now }
    requires within { All (IsRange file.now) text.now }
    ensures { slice_get (map (range_shown file.now) text.now) k ≡ Some (text_shown result) }
{
    text_view(file, &text[k])
}

fn text_view<'a>(file: &'a [u8], t: &TextRange) -> TextView<'a>
    requires { IsRange file.now t.now }
    ensures { text_shown result ≡ range_shown file.now t.now }
{
    TextView {
        address: t.address,
        bytes: &file[t.offset..t.offset + t.size as usize],
    }
}

/// The section of a number.
pub fn section_in<'a>(file: &'a [u8], sections: &[SectionHeader], k: usize) -> SectionView<'a>
    requires { k < length sections.now }
    ensures { slice_get (map (λ h. unnamed (section_of file.now h)) sections.now) k ≡ Some (section_shown result) }
{
    section_view(file, &sections[k])
}

fn section_view<'a>(file: &'a [u8], h: &SectionHeader) -> SectionView<'a>
    ensures { section_shown result ≡ unnamed (section_of file.now h.now) }
{
    SectionView {
        kind: h.kind,
        flags: h.flags,
        address: h.address,
        link: h.link,
        bytes: section_bytes(file, h),
    }
}
