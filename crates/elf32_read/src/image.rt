// A linked program that was read.
ghost use Rattle.std.specs.Prelude.{◌≡◌, ◌<◌, IfOk, Some, length, slice_get};
ghost use Rattle.std.specs.Option.{option_copied, option_map};
ghost use Rattle.elf32_read.specs.Program.{in_text, mapped, section, text_word, writable};
ghost use Rattle.elf32_read.specs.Headers.{program_of};
ghost use Rattle.elf32_read.specs.Tables.{AreWhole};
ghost use Rattle.elf32_read.specs.TextSpans.{text_spans};
ghost use Rattle.elf32_read.specs.Views.{section_shown, segment_shown, text_shown, unnamed};

use crate::header::names_of;
use crate::lookup::{
    in_ranges, loaded_byte, may_write, section_called, section_in, segment_in, text_in, word_in,
};
use crate::tables::Tables;
use crate::text_spans::TextSpans;
use crate::views::{SectionView, SegmentView, TextView};
use std::alloc::{AllocError, Global};
use std::marker::Model;

/// A linked program that was read. Contracts see it as a `Program`: its entry, segments, text and sections.
///
/// The stacks of the harts aren't part of it, since it doesn't know how many harts there are.
#[derive(Drop)]
pub struct Image {
    file: Vec<u8>,
    tables: Tables,
}

impl Model for Image {
    ghost use Rattle.elf32_read.specs.Program.{Program};

    ghost Value = { Program };

    ghost use Rattle.elf32_read.specs.Inside.{seen, IsKept};

    ghost view = { seen };

    ghost invariant = { IsKept };
}

impl Image {
    /// The image of a file's bytes, with the tables of what stands in them. What a file must be for that is checked by `elf_checks`.
    pub fn of(file: Vec<u8>, tables: Tables) -> Image
        requires { AreWhole file.items tables }
        ensures { result ≡ program_of file.items }
    {
        Image { file, tables }
    }

    /// The address of the first instruction.
    pub fn entry(&self) -> u32
        ensures { result ≡ self.now.entry }
    {
        self.tables.header.entry
    }

    /// Whether an address is a byte of text: of an allocated, executable section.
    pub fn in_text(&self, addr: u32) -> bool
        ensures { result ≡ in_text self.now addr }
    {
        in_ranges(&self.tables.text, &self.tables.text_spans, addr)
    }

    /// The word of text at an address; none where the address isn't a multiple of 4 in text.
    pub fn text_word(&self, addr: u32) -> Option<u32>
        ensures { result ≡ text_word self.now addr }
    {
        if addr % 4 != 0 {
            return None;
        }
        word_in(&self.file, &self.tables.text, &self.tables.text_spans, addr)
    }

    /// The byte that is loaded at an address, in text or data; none where no segment has it.
    pub fn mapped(&self, addr: u32) -> Option<u8>
        ensures { result ≡ mapped self.now addr }
    {
        loaded_byte(
            &self.file,
            &self.tables.segments,
            &self.tables.segment_spans,
            addr,
        )
    }

    /// Whether the program may write at an address: its segment is writable, and it isn't text.
    pub fn writable(&self, addr: u32) -> bool
        ensures { result ≡ writable self.now addr }
    {
        may_write(
            &self.tables.segments,
            &self.tables.segment_spans,
            &self.tables.text,
            &self.tables.text_spans,
            addr,
        )
    }

    /// What stands in the file of the first section of a name: nothing of one that has no part there (`SHT_NOBITS`).
    /// None where no section has the name, or the file names no sections (`e_shstrndx` is 0).
    pub fn section(&self, name: &[u8]) -> Option<&[u8]>
        ensures { option_copied result ≡ section self.now name.now }
    {
        if self.tables.header.section_names == 0 {
            return None;
        }
        section_called(
            &self.file,
            names_of(&self.file, &self.tables.header),
            &self.tables.sections,
            name,
        )
    }

    /// How many segments are loaded: program headers `PT_LOAD` with a size in memory.
    pub fn segment_count(&self) -> usize
        ensures { result ≡ length self.now.segments }
    {
        self.tables.segments.as_slice().len()
    }

    /// A segment by its number, in the file's order.
    pub fn segment(&self, k: usize) -> SegmentView<'_>
        requires { k < length self.now.segments }
        ensures { slice_get self.now.segments k ≡ Some (segment_shown result) }
    {
        segment_in(&self.file, &self.tables.segments, k)
    }

    /// How many text sections there are: allocated, executable and not empty.
    pub fn text_count(&self) -> usize
        ensures { result ≡ length self.now.text }
    {
        self.tables.text.as_slice().len()
    }

    /// Where the text sections stand, as a value that is kept apart from the image. Its one error is out of memory.
    pub fn text_spans(&self, alloc: Global) -> Result<TextSpans, AllocError>
        ensures { IfOk result (λ spans. spans ≡ text_spans self.now) }
    {
        Ok(TextSpans::of(Vec::from_slice(alloc, &self.tables.text_spans)?))
    }

    /// A text section by its number, in the file's order.
    pub fn text(&self, k: usize) -> TextView<'_>
        requires { k < length self.now.text }
        ensures { slice_get self.now.text k ≡ Some (text_shown result) }
    {
        text_in(&self.file, &self.tables.text, k)
    }

    /// How many section headers the file has, the first one without a section among them.
    pub fn section_count(&self) -> usize
        ensures { result ≡ length self.now.sections }
    {
        self.tables.sections.as_slice().len()
    }

    /// A section by its number.
    pub fn section_at(&self, k: usize) -> SectionView<'_>
        requires { k < length self.now.sections }
        ensures { option_map unnamed (slice_get self.now.sections k) ≡ Some (section_shown result) }
    {
        section_in(&self.file, &self.tables.sections, k)
    }
}
