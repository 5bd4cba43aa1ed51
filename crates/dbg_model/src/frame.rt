// Frames as they are shown.

use dbg_traits::{ByteList, ItemList};
/// A line of a source file.
#[derive(Drop)]
pub struct SourceLine {
    /// The file's name, as the line table has it.
    pub file: ByteList,
    /// Counted from 1.
    pub line: u32,
}

/// A frame of a thread, with what is known of its place in the source.
#[derive(Drop)]
pub struct ShownFrame {
    /// Of its next instruction.
    pub address: u32,
    /// The name of its function.
    pub function: Option<ByteList>,
    pub source: Option<SourceLine>,
}

/// Frames that contracts see as a list, the innermost first.
pub type FrameList = ItemList<ShownFrame>;
