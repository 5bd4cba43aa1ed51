// The headers of a file, as far as they are used.
ghost use Rattle.std.specs.Prelude.{◌≡◌, ◌+◌, ◌*◌, ◌≤◌, length, IfOk, filter};
ghost use Rattle.elf32_read.specs.Headers.{file_header, program_header, section_header, is_loaded, is_text, loaded, names, section_bytes, section_headers};

use crate::abi::{FILE_HEADER_SIZE, PT_LOAD, SHF_ALLOC, SHF_EXECINSTR, SHT_NOBITS};
use crate::fields::{u16_at, u32_at};
use std::alloc::{AllocError, Global};

/// The greatest size of a file.
pub const FILE_LIMIT: usize = 33_554_432;

/// What `sh_flags` has of a text section.
const TEXT_FLAGS: u32 = SHF_ALLOC | SHF_EXECINSTR;

/// The file's header (gABI, ELF Header), as far as it is used.
#[derive(Clone, Copy)]
pub struct FileHeader {
    /// `e_type`.
    pub kind: u16,
    /// `e_machine`.
    pub machine: u16,
    /// `e_entry`: the address of the first instruction.
    pub entry: u32,
    /// `e_phoff`: the place of the program headers, in bytes from the file's start.
    pub program_headers: u32,
    /// `e_shoff`: the place of the section headers.
    pub section_headers: u32,
    /// `e_flags`.
    pub flags: u32,
    /// `e_phentsize`, in bytes.
    pub program_header_size: u16,
    /// `e_phnum`.
    pub program_header_count: u16,
    /// `e_shentsize`, in bytes.
    pub section_header_size: u16,
    /// `e_shnum`.
    pub section_header_count: u16,
    /// `e_shstrndx`: the number of the section that has the sections' names; 0 says that there are none.
    pub section_names: u16,
}

/// A program header (gABI, Program Header), and its place in the file.
#[derive(Clone, Copy)]
pub struct ProgramHeader {
    /// Where the header itself stands, in bytes from the file's start.
    pub place: u32,
    /// `p_type`.
    pub kind: u32,
    /// `p_offset`: the place of the file part.
    pub offset: u32,
    /// `p_vaddr`.
    pub address: u32,
    /// `p_filesz`, in bytes.
    pub file_size: u32,
    /// `p_memsz`, in bytes.
    pub memory_size: u32,
    /// `p_flags`.
    pub flags: u32,
}

/// A section header (gABI, Section Header), and its place in the file.
#[derive(Clone, Copy)]
pub struct SectionHeader {
    /// Where the header itself stands, in bytes from the file's start.
    pub place: u32,
    /// `sh_name`: where the name begins in the section of names.
    pub name: u32,
    /// `sh_type`.
    pub kind: u32,
    /// `sh_flags`.
    pub flags: u32,
    /// `sh_addr`.
    pub address: u32,
    /// `sh_offset`: the place of its part of the file.
    pub offset: u32,
    /// `sh_size`, in bytes.
    pub size: u32,
    /// `sh_link`: the number of another section.
    pub link: u32,
}

impl FileHeader {
    pub fn read(bytes: &[u8]) -> FileHeader
        requires { FILE_HEADER_SIZE ≤ length bytes.now }
        ensures { result ≡ file_header bytes.now }
    {
        FileHeader {
            kind: u16_at(bytes, 16),
            machine: u16_at(bytes, 18),
            entry: u32_at(bytes, 24),
            program_headers: u32_at(bytes, 28),
            section_headers: u32_at(bytes, 32),
            flags: u32_at(bytes, 36),
            program_header_size: u16_at(bytes, 42),
            program_header_count: u16_at(bytes, 44),
            section_header_size: u16_at(bytes, 46),
            section_header_count: u16_at(bytes, 48),
            section_names: u16_at(bytes, 50),
        }
    }
}

impl ProgramHeader {
    pub const SIZE: usize = 32;

    pub fn read(bytes: &[u8], at: u32) -> ProgramHeader
        requires { at + Self.SIZE ≤ length bytes.now }
        ensures { result ≡ program_header bytes.now at }
    {
        let start = at as usize;
        ProgramHeader {
            place: at,
            kind: u32_at(bytes, start),
            offset: u32_at(bytes, start + 4),
            address: u32_at(bytes, start + 8),
            file_size: u32_at(bytes, start + 16),
            memory_size: u32_at(bytes, start + 20),
            flags: u32_at(bytes, start + 24),
        }
    }

    /// Whether this is a segment to be loaded that takes memory.
    pub fn is_loaded(&self) -> bool
        ensures { result ≡ is_loaded self.now }
    {
        self.kind == PT_LOAD && self.memory_size > 0
    }
}

impl SectionHeader {
    pub const SIZE: usize = 40;

    pub fn read(bytes: &[u8], at: u32) -> SectionHeader
        requires { at + Self.SIZE ≤ length bytes.now }
        ensures { result ≡ section_header bytes.now at }
    {
        let start = at as usize;
        SectionHeader {
            place: at,
            name: u32_at(bytes, start),
            kind: u32_at(bytes, start + 4),
            flags: u32_at(bytes, start + 8),
            address: u32_at(bytes, start + 12),
            offset: u32_at(bytes, start + 16),
            size: u32_at(bytes, start + 20),
            link: u32_at(bytes, start + 24),
        }
    }

    /// Whether this is allocated, executable and not empty.
    pub fn is_text(&self) -> bool
        ensures { result ≡ is_text self.now }
    {
        self.flags & TEXT_FLAGS == TEXT_FLAGS && self.size > 0
    }
}

/// What stands in the file of a section.
pub fn section_bytes<'a>(bytes: &'a [u8], h: &SectionHeader) -> &'a [u8]
    ensures { result.now ≡ section_bytes bytes.now h.now }
{
    let start = h.offset as usize;
    let end = start + h.size as usize;
    if h.kind == SHT_NOBITS || bytes.len() < end {
        return &[];
    }
    &bytes[start..end]
}

/// The bytes of the section that has the sections' names.
pub fn names_of<'a>(bytes: &'a [u8], header: &FileHeader) -> &'a [u8]
    requires header { header.now ≡ file_header bytes.now }
    requires within { header.now.section_headers + 40 * header.now.section_names + 40 ≤ length bytes.now }
    requires limit { length bytes.now ≤ FILE_LIMIT }
    ensures { result.now ≡ names bytes.now }
{
    let at = header.section_headers + 40 * header.section_names as u32;
    section_bytes(bytes, &SectionHeader::read(bytes, at))
}

/// The headers of the segments that are loaded, in the file's order.
pub fn loaded_headers(
    alloc: Global,
    bytes: &[u8],
    header: &FileHeader,
) -> Result<Vec<ProgramHeader>, AllocError>
    requires header { header.now ≡ file_header bytes.now }
    requires limit { length bytes.now ≤ FILE_LIMIT }
    requires within { header.now.program_headers + 32 * header.now.program_header_count ≤ length bytes.now }
    ensures { IfOk result (λ v. v.items ≡ loaded bytes.now) }
{
    let mut headers = Vec::new(alloc);
    for k in 0..header.program_header_count as u32 {
        let entry = ProgramHeader::read(bytes, header.program_headers + 32 * k);
        if entry.is_loaded() {
            headers.push(entry)?;
        }
    }
    Ok(headers)
}

/// The headers of all sections, in the file's order.
pub fn section_headers(
    alloc: Global,
    bytes: &[u8],
    header: &FileHeader,
) -> Result<Vec<SectionHeader>, AllocError>
    requires header { header.now ≡ file_header bytes.now }
    requires limit { length bytes.now ≤ FILE_LIMIT }
    requires within { header.now.section_headers + 40 * header.now.section_header_count ≤ length bytes.now }
    ensures { IfOk result (λ v. v.items ≡ section_headers bytes.now) }
{
    let mut headers = Vec::with_capacity(alloc, header.section_header_count as usize)?;
    for k in 0..header.section_header_count as u32 {
        headers.push(SectionHeader::read(bytes, header.section_headers + 40 * k))?;
    }
    Ok(headers)
}

/// The headers of the text sections.
pub fn text_headers(
    alloc: Global,
    sections: &[SectionHeader],
) -> Result<Vec<SectionHeader>, AllocError>
    ensures { IfOk result (λ v. v.items ≡ filter is_text sections.now) }
{
    sections
        .iter()
        .filter(|h| h.is_text())
        .copied()
        .collect(alloc)
}
