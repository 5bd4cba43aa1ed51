// The checks of a file, one by one.
ghost use Rattle.std.specs.Prelude.{◌≡◌, ◌+◌, ◌*◌, ◌%◌, ◌==◌, ◌&&◌, ◌≤◌, ◌<◌, ◌⊎◌, ◌∷◌, [], length, not, take, IfOk, map, slice_index, slice_index_or};
ghost use Rattle.std.specs.Bool.{OnTrue};
ghost use Rattle.std.specs.List.{list_any};
ghost use Rattle.std.specs.Result.{result_err};
ghost use Rattle.elf32_read.specs.Headers.{file_header, loaded, text_headers, section_headers, names, names_header};
ghost use Rattle.elf32_read.specs.Ranges.{segment_fits, text_fits};
ghost use Rattle.elf32_read.specs.Spans.{AreSegments};
ghost use Rattle.elf_checks.specs.Checks.{segments_overlap, sections_overlap, by_earlier, check, first_fault, is_magic, size_checks, kind_checks, extent_checks, header_checks, table_checks, segment_check, memory_check, section_fits, section_check, name_check, name_checks, entry_checks, text_check, in_section};
ghost use Rattle.elf_checks.specs.Overlaps.{AreFilled, AreSome, IsApartFront, IsSpanTable, section_spans, segment_spans};

use crate::fault::{ElfFault, ElfKind};
use crate::holding::holder;
use crate::overlaps::SpanTable;
use elf32_read::Span;
use elf32_read::abi::{
    EF_RISCV_RVC, EF_RISCV_RVE, EI_CLASS, EI_DATA, ELFCLASS32, ELFDATA2LSB, EM_RISCV, ET_EXEC,
    FILE_HEADER_SIZE, SHF_COMPRESSED, SHT_NOBITS, SHT_NULL,
};
use elf32_read::fields::zero_end;
use elf32_read::header::{FILE_LIMIT, FileHeader, ProgramHeader, SectionHeader, section_bytes};

/// Of `e_flags`, what no accepted file has: its instructions are of 4 bytes, over 32 registers.
const REFUSED_FLAGS: u32 = EF_RISCV_RVC | EF_RISCV_RVE;

/// The greatest sum of the segments' sizes in memory.
const MEMORY_LIMIT: u64 = 16_777_216;

/// Above all that is loaded: the stacks lie higher.
const LOAD_END: u64 = 0xE000_0000;

pub fn check(holds: bool, kind: ElfKind, place: u32) -> Result<(), ElfFault>
    ensures { result_err result ≡ first_fault (check holds kind place ∷ []) }
{
    if holds {
        Ok(())
    } else {
        Err(ElfFault { kind, place })
    }
}

/// The file's size.
pub fn check_size(bytes: &[u8]) -> Result<(), ElfFault>
    ensures checks { result_err result ≡ first_fault (size_checks bytes.now) }
    ensures least { IfOk result (λ _. FILE_HEADER_SIZE ≤ length bytes.now) }
    ensures most { IfOk result (λ _. length bytes.now ≤ FILE_LIMIT) }
{
    check(bytes.len() <= FILE_LIMIT, ElfKind::Large, FILE_LIMIT as u32)?;
    check(
        bytes.len() >= FILE_HEADER_SIZE,
        ElfKind::Short,
        bytes.len() as u32,
    )
}

fn is_magic(bytes: &[u8]) -> bool
    requires { FILE_HEADER_SIZE ≤ length bytes.now }
    ensures { result ≡ is_magic bytes.now }
{
    bytes[0] == 0x7F && (bytes[1] == 0x45 && (bytes[2] == 0x4C && bytes[3] == 0x46))
}

/// What kind of file the header says that it is.
fn check_kind(bytes: &[u8], header: &FileHeader) -> Result<(), ElfFault>
    requires header { header.now ≡ file_header bytes.now }
    requires least { FILE_HEADER_SIZE ≤ length bytes.now }
    ensures { result_err result ≡ first_fault (kind_checks bytes.now) }
{
    check(is_magic(bytes), ElfKind::Magic, 0)?;
    check(bytes[EI_CLASS] == ELFCLASS32, ElfKind::Class, 4)?;
    check(bytes[EI_DATA] == ELFDATA2LSB, ElfKind::Order, 5)?;
    check(header.kind == ET_EXEC, ElfKind::Kind, 16)?;
    check(header.machine == EM_RISCV, ElfKind::Machine, 18)?;
    check(header.flags & REFUSED_FLAGS == 0, ElfKind::Flags, 36)
}

/// The sizes of the headers that the file's header names, and where their tables end.
fn check_extents(bytes: &[u8], header: &FileHeader) -> Result<(), ElfFault>
    requires header { header.now ≡ file_header bytes.now }
    ensures checks { result_err result ≡ first_fault (extent_checks bytes.now) }
    ensures programs { IfOk result (λ _. header.now.program_headers + 32 * header.now.program_header_count ≤ length bytes.now) }
    ensures sections { IfOk result (λ _. header.now.section_headers + 40 * header.now.section_header_count ≤ length bytes.now) }
{
    let programs_end = header.program_headers as usize
        + ProgramHeader::SIZE * header.program_header_count as usize;
    let sections_end = header.section_headers as usize
        + SectionHeader::SIZE * header.section_header_count as usize;
    check(
        header.program_header_count == 0
            || header.program_header_size as usize == ProgramHeader::SIZE,
        ElfKind::Segment,
        42,
    )?;
    check(
        header.section_header_count == 0
            || header.section_header_size as usize == SectionHeader::SIZE,
        ElfKind::Section,
        46,
    )?;
    check(
        programs_end <= bytes.len(),
        ElfKind::Short,
        header.program_headers,
    )?;
    check(
        sections_end <= bytes.len(),
        ElfKind::Short,
        header.section_headers,
    )
}

/// What the file's header says, and the sizes of the tables that it names.
#[tactic(auto, using(crate::proofs::Stages::header))]
pub fn check_header(bytes: &[u8], header: &FileHeader) -> Result<(), ElfFault>
    requires header { header.now ≡ file_header bytes.now }
    requires least { FILE_HEADER_SIZE ≤ length bytes.now }
    ensures checks { result_err result ≡ first_fault (header_checks bytes.now) }
    ensures programs { IfOk result (λ _. header.now.program_headers + 32 * header.now.program_header_count ≤ length bytes.now) }
    ensures sections { IfOk result (λ _. header.now.section_headers + 40 * header.now.section_header_count ≤ length bytes.now) }
{
    check_kind(bytes, header)?;
    check_extents(bytes, header)
}

fn segment_fits(size: usize, h: &ProgramHeader) -> bool
    ensures { result ≡ segment_fits size h.now }
{
    h.file_size <= h.memory_size
        && (h.offset as u64 + h.file_size as u64 <= size as u64
            && h.address as u64 + h.memory_size as u64 <= LOAD_END)
}

/// Whether the segment of a number has no address in common with an earlier one.
fn is_segment_apart(segments: &[ProgramHeader], k: usize, h: &ProgramHeader, apart: usize) -> bool
    requires front { IsApartFront (segment_spans segments.now) apart }
    requires before { k ≤ apart }
    requires number { k < length segments.now }
    requires is { slice_index_or segments.now k h.now ≡ h.now }
    ensures value { result ≡ not (list_any (segments_overlap h.now) (take k segments.now)) }
    ensures before { OnTrue result (k < apart) }
{
    k < apart
}

/// `apart` is how many segments there are before the first one that has an address in common with an earlier one.
pub fn check_segments(size: usize, segments: &[ProgramHeader], apart: usize) -> Result<(), ElfFault>
    requires { IsApartFront (segment_spans segments.now) apart }
    ensures checks { result_err result ≡ first_fault (by_earlier (segment_check size) segments.now) }
    ensures apart { IfOk result (λ _. length segments.now ≤ apart) }
    ensures filled { IfOk result (λ _. AreFilled segments.now) }
{
    for (k, h) in segments.iter().enumerate() {
        let is_apart = is_segment_apart(segments, k, h, apart);
        check(segment_fits(size, h) && is_apart, ElfKind::Segment, h.place)?;
    }
    Ok(())
}

/// The sum of the sizes in memory.
pub fn check_memory(segments: &[ProgramHeader]) -> Result<(), ElfFault>
    ensures { result_err result ≡ first_fault (by_earlier memory_check segments.now) }
{
    let mut sum: u64 = 0;
    for h in segments {
        sum += h.memory_size as u64;
        check(sum <= MEMORY_LIMIT, ElfKind::Large, h.place)?;
    }
    Ok(())
}

fn section_fits(size: usize, h: &SectionHeader) -> bool
    ensures { result ≡ section_fits size h.now }
{
    let has_file_part = !(h.kind == SHT_NULL || h.kind == SHT_NOBITS);
    !has_file_part
        || (h.offset as u64 + h.size as u64 <= size as u64 && h.flags & SHF_COMPRESSED == 0)
}

/// Each section's part is in the file, and isn't compressed.
pub fn check_sections(size: usize, sections: &[SectionHeader]) -> Result<(), ElfFault>
    ensures { result_err result ≡ first_fault (map (section_check size) sections.now) }
{
    for h in sections {
        check(section_fits(size, h), ElfKind::Section, h.place)?;
    }
    Ok(())
}

/// Each section's name ends in the table, which is where it begins before the table's last zero byte.
fn check_name_ends(table: &[u8], sections: &[SectionHeader]) -> Result<(), ElfFault>
    ensures { result_err result ≡ first_fault (map (name_check table.now) sections.now) }
{
    let end = zero_end(table);
    for h in sections {
        check((h.name as usize) < end, ElfKind::Section, h.place)?;
    }
    Ok(())
}

/// The section of names stands in the file, and each section's name ends in it.
pub fn check_names(
    bytes: &[u8],
    header: &FileHeader,
    sections: &[SectionHeader],
) -> Result<(), ElfFault>
    requires header { header.now ≡ file_header bytes.now }
    requires sections { sections.now ≡ section_headers bytes.now }
    requires within { header.now.section_headers + 40 * header.now.section_header_count ≤ length bytes.now }
    requires named { header.now.section_names ≡ 0 ⊎ header.now.section_names < header.now.section_header_count }
    requires limit { length bytes.now ≤ FILE_LIMIT }
    ensures { result_err result ≡ first_fault (name_checks bytes.now) }
{
    if header.section_names == 0 {
        return Ok(());
    }
    let at = header.section_headers + 40 * header.section_names as u32;
    let names = SectionHeader::read(bytes, at);
    check(names.kind != SHT_NOBITS, ElfKind::Section, at)?;
    check_name_ends(section_bytes(bytes, &names), sections)
}

/// Whether a section begins at a multiple of 4 and has whole words.
fn is_whole(h: &SectionHeader) -> bool
    ensures { result ≡ ((h.now.address % 4 == 0) && (h.now.size % 4 == 0)) }
{
    h.address % 4 == 0 && h.size % 4 == 0
}

fn text_fits(segments: &[ProgramHeader], sorted: &[Span], h: &SectionHeader) -> bool
    requires sorted { AreSegments segments.now sorted.now }
    requires filled { AreFilled segments.now }
    requires some { 0 < h.now.size }
    ensures { result ≡ text_fits segments.now h.now }
{
    is_whole(h) && (h.kind != SHT_NOBITS && holder(segments, sorted, h).is_some())
}

/// Whether the text section of a number has no address in common with an earlier one.
fn is_text_apart(texts: &[SectionHeader], k: usize, h: &SectionHeader, apart: usize) -> bool
    requires front { IsApartFront (section_spans texts.now) apart }
    requires before { k ≤ apart }
    requires number { k < length texts.now }
    requires is { slice_index_or texts.now k h.now ≡ h.now }
    ensures value { result ≡ not (list_any (sections_overlap h.now) (take k texts.now)) }
    ensures before { OnTrue result (k < apart) }
{
    k < apart
}

/// `sorted` are the segments' ranges, and `apart` is how many texts there are before the first one that has an
/// address in common with an earlier one.
pub fn check_text(
    segments: &[ProgramHeader],
    sorted: &[Span],
    texts: &[SectionHeader],
    apart: usize,
) -> Result<(), ElfFault>
    requires sorted { AreSegments segments.now sorted.now }
    requires filled { AreFilled segments.now }
    requires some { AreSome texts.now }
    requires front { IsApartFront (section_spans texts.now) apart }
    ensures checks { result_err result ≡ first_fault (by_earlier (text_check segments.now) texts.now) }
    ensures apart { IfOk result (λ _. length texts.now ≤ apart) }
{
    for (k, h) in texts.iter().enumerate() {
        let is_apart = is_text_apart(texts, k, h, apart);
        check(
            text_fits(segments, sorted, h) && is_apart,
            ElfKind::Text,
            h.place,
        )?;
    }
    Ok(())
}

fn in_section(addr: u32, h: &SectionHeader) -> bool
    ensures { result ≡ in_section addr h.now }
{
    h.address <= addr && (addr as u64) < h.address as u64 + h.size as u64
}

fn enters(entry: u32, texts: &[SectionHeader]) -> bool
    ensures { result ≡ list_any (in_section entry) texts.now }
{
    texts.iter().any(|h| in_section(entry, h))
}

/// There is text, and the entry is a multiple of 4 in it.
pub fn check_entry(header: &FileHeader, texts: &[SectionHeader]) -> Result<(), ElfFault>
    ensures { result_err result ≡ first_fault (entry_checks header.now texts.now) }
{
    let entered = header.entry % 4 == 0 && enters(header.entry, texts);
    check(!texts.is_empty(), ElfKind::Text, header.section_headers)?;
    check(entered, ElfKind::Entry, 24)
}

/// The checks of the tables, in their order.
#[tactic(auto, using(crate::proofs::Stages::tables))]
pub fn check_tables(
    bytes: &[u8],
    header: &FileHeader,
    segments: &[ProgramHeader],
    segment_table: &SpanTable,
    sections: &[SectionHeader],
    texts: &[SectionHeader],
    text_table: &SpanTable,
) -> Result<(), ElfFault>
    requires header { header.now ≡ file_header bytes.now }
    requires segments { segments.now ≡ loaded bytes.now }
    requires segment_table { IsSpanTable (segment_spans segments.now) segment_table.now }
    requires sections { sections.now ≡ section_headers bytes.now }
    requires texts { texts.now ≡ text_headers bytes.now }
    requires text_table { IsSpanTable (section_spans texts.now) text_table.now }
    requires within { header.now.section_headers + 40 * header.now.section_header_count ≤ length bytes.now }
    requires limit { length bytes.now ≤ FILE_LIMIT }
    ensures checks { result_err result ≡ first_fault (table_checks bytes.now) }
    ensures segments { IfOk result (λ _. length segments.now ≤ segment_table.now.apart) }
    ensures filled { IfOk result (λ _. AreFilled segments.now) }
    ensures texts { IfOk result (λ _. length texts.now ≤ text_table.now.apart) }
{
    check_segments(bytes.len(), segments, segment_table.apart)?;
    check_memory(segments)?;
    let names = header.section_names;
    check(
        names == 0 || names < header.section_header_count,
        ElfKind::Section,
        50,
    )?;
    check_sections(bytes.len(), sections)?;
    check_names(bytes, header, sections)?;
    check_text(segments, &segment_table.sorted, texts, text_table.apart)?;
    check_entry(header, texts)
}
