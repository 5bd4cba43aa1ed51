// Where an address is in the source, with texts in memory of their own.
ghost use Rattle.std.specs.Prelude.{◌≡◌, IfOk};
ghost use Rattle.dbg_model.specs.Places.{function_name, line_of_row, place_frame, source_line};

use crate::{ShownFrame, SourceIndex, SourceLine};
use dbg_traits::ByteList;
use line_index::LineIndex;
use line_rows::Row;
use std::alloc::{AllocError, Global};

/// These bytes, in memory of their own.
pub fn bytes_of(alloc: Global, bytes: &[u8]) -> Result<ByteList, AllocError>
    ensures { IfOk result (λ b. b ≡ bytes.now) }
{
    Ok(ByteList::of(Vec::from_slice(alloc, bytes)?))
}

/// The name of the function that an address lies in.
pub fn function_name(
    alloc: Global,
    sources: &SourceIndex,
    address: u32,
) -> Result<Option<ByteList>, AllocError>
    ensures { IfOk result (λ name. name ≡ function_name sources.now address) }
{
    let function = sources.symbols().function_at(address);
    function
        .map(|named| bytes_of(alloc, named.name))
        .transpose()
}

fn line_of_row(alloc: Global, lines: &LineIndex, row: Row) -> Result<SourceLine, AllocError>
    ensures { IfOk result (λ line. line ≡ line_of_row lines.now row) }
{
    Ok(SourceLine {
        file: bytes_of(alloc, lines.file_name(row.file))?,
        line: row.line,
    })
}

/// The line of the source that an address belongs to.
pub fn source_line(
    alloc: Global,
    sources: &SourceIndex,
    address: u32,
) -> Result<Option<SourceLine>, AllocError>
    ensures { IfOk result (λ line. line ≡ source_line sources.now address) }
{
    let row = sources.lines().row_at(address);
    row.map(|row| line_of_row(alloc, sources.lines(), row))
        .transpose()
}

/// A frame at an address, with the function and the line of another one: a frame that called one is looked up before its
/// address.
pub fn shown_frame(
    alloc: Global,
    sources: &SourceIndex,
    address: u32,
    lookup: u32,
) -> Result<ShownFrame, AllocError>
    ensures { IfOk result (λ f. f ≡ place_frame sources.now address lookup) }
{
    Ok(ShownFrame {
        address,
        function: function_name(alloc, sources, lookup)?,
        source: source_line(alloc, sources, lookup)?,
    })
}
