// Rows of line tables, and sequences of them (DWARF 5, section 6.2).

/// A row: the place in the source of the instructions from its address on.
#[derive(Clone, Copy, Debug)]
pub struct Row {
    /// Of the first instruction.
    pub address: u32,
    /// The number of a file name; equal names have equal numbers.
    pub file: u32,
    /// From 1; 0 where no line is known.
    pub line: u32,
    /// Whether the address is a good place for a breakpoint at the line.
    pub is_stmt: bool,
    /// Whether a breakpoint at the entry of a function can stand here, behind its prologue. Several rows of one may be so marked.
    pub prologue_end: bool,
}

/// A sequence of rows, one after another in the program.
#[derive(Clone, Copy)]
pub struct SequenceView<'a> {
    pub rows: &'a [Row],
    /// The address behind the last instruction.
    pub end: u32,
}
