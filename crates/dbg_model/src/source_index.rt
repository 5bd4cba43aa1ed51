// What a program's file tells of its source, built once: symbols, lines, frames and variables.
ghost use Rattle.std.specs.Prelude.{◌≡◌, IfOk, codes};
ghost use Rattle.line_rows.specs.Sections.{sections_shown};
ghost use Rattle.dbg_model.specs.Sources.{line_sections, section_bytes, sources_of, variables_told};

use dbg_traits::NoMemory;
use debug_info::{Info, Sections, read_info};
use dwarf_frames::FrameIndex;
use dwarf_lines::rows;
use elf_symbols::{Symbols, symbols};
use elf32_read::Image;
use line_index::LineIndex;
use line_rows::LineSections;
use std::alloc::Global;
use std::marker::Model;

/// The symbols, the line tables, the frames and the variables of a program. Contracts see it as `Sources`.
#[derive(Drop)]
pub struct SourceIndex {
    symbols: Symbols,
    lines: LineIndex,
    frames: FrameIndex,
    info: Info,
}

impl Model for SourceIndex {
    ghost use Rattle.dbg_model.specs.Sources.{Sources};

    ghost Value = { Sources };

    ghost view = { λ i. record { names = i.symbols; lines = i.lines; frames = i.frames; info = i.info } };
}

// The bytes of the first section of a name, and nothing where there is no such section.
fn section_bytes<'a>(image: &'a Image, name: &[u8]) -> &'a [u8]
    ensures { result.now ≡ section_bytes image.now name.now }
{
    match image.section(name) {
        Some(bytes) => bytes,
        None => &[],
    }
}

fn line_sections(image: &Image) -> LineSections<'_>
    ensures { sections_shown result ≡ line_sections image.now }
{
    LineSections {
        line: section_bytes(image, b".debug_line"),
        line_str: section_bytes(image, b".debug_line_str"),
        strs: section_bytes(image, b".debug_str"),
    }
}

fn variables_told(alloc: Global, image: &Image) -> Result<Info, NoMemory>
    ensures { IfOk result (λ info. info ≡ variables_told image.now) }
{
    let info = section_bytes(image, b".debug_info");
    let abbrevs = section_bytes(image, b".debug_abbrev");
    let strs = section_bytes(image, b".debug_str");
    read_info(
        alloc,
        &Sections {
            info,
            abbrevs,
            strs,
        },
    )
}

impl SourceIndex {
    /// The index of a program. It takes n log n time in the symbols, the line rows, the frame entries and the entries of
    /// variables. A unit of `.debug_line` with a fault gives no rows and one of `.debug_info` no variables, and a fault of
    /// `.debug_frame` is met where frames are looked up: no file is refused for them.
    ///
    /// # Errors
    /// No memory for the tables.
    #[tactic(auto, unfolding(crate::specs::Sources::sources_of))]
    pub fn build(alloc: Global, image: &Image) -> Result<SourceIndex, NoMemory>
        ensures { IfOk result (λ index. index ≡ sources_of image.now) }
    {
        let Ok(rows) = rows(alloc, &line_sections(image)) else {
            return Err(NoMemory);
        };
        let Ok(symbols) = symbols(alloc, image) else {
            return Err(NoMemory);
        };
        let Ok(lines) = LineIndex::build(alloc, rows, &symbols, image) else {
            return Err(NoMemory);
        };
        let Ok(info) = variables_told(alloc, image) else {
            drop(symbols);
            drop(lines);
            return Err(NoMemory);
        };
        let Ok(frames) = FrameIndex::build(alloc, section_bytes(image, b".debug_frame")) else {
            drop(symbols);
            drop(lines);
            return Err(NoMemory);
        };
        Ok(SourceIndex {
            symbols,
            lines,
            frames,
            info,
        })
    }

    /// Drops the index, where nothing else is at hand: what it is made of is gone through here, once in all proofs.
    pub fn let_go(self) {}

    /// The symbols of the program.
    pub fn symbols(&self) -> &Symbols
        ensures { result.now ≡ self.now.names }
    {
        &self.symbols
    }

    /// The line tables of the program.
    pub fn lines(&self) -> &LineIndex
        ensures { result.now ≡ self.now.lines }
    {
        &self.lines
    }

    /// The call frame information of the program.
    pub fn frames(&self) -> &FrameIndex
        ensures { result.now ≡ self.now.frames }
    {
        &self.frames
    }

    /// The variables of the program.
    pub fn info(&self) -> &Info
        ensures { result.now ≡ self.now.info }
    {
        &self.info
    }
}
