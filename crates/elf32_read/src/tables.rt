// What is kept of a file's headers.
use crate::header::{FileHeader, ProgramHeader, SectionHeader};
use crate::spans::Span;

/// Where the words of a text section stand in the file.
#[derive(Clone, Copy)]
pub struct TextRange {
    pub address: u32,
    /// In bytes.
    pub size: u32,
    pub offset: usize,
}

/// What stands in a file that fails no check, by its headers. `specs/Tables.antt` ties it to the file.
#[derive(Drop)]
pub struct Tables {
    pub header: FileHeader,
    /// In the file's order, as `text` and `sections`.
    pub segments: Vec<ProgramHeader>,
    /// The segments' ranges in the order of their addresses.
    pub segment_spans: Vec<Span>,
    pub text: Vec<TextRange>,
    /// The text sections' ranges in the order of their addresses.
    pub text_spans: Vec<Span>,
    pub sections: Vec<SectionHeader>,
}
