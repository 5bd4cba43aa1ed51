/// What a unit's header says of its program (DWARF 5, section 6.2.4). The lengths of the standard opcodes
/// stand apart.
#[derive(Clone, Copy)]
pub struct Parameters {
    /// The bytes of the shortest instruction, by which operands of address advances are multiplied.
    pub minimum_instruction_length: u8,
    /// Whether a row is a statement where the program says nothing of it.
    pub default_is_stmt: bool,
    /// The least line advance of a special opcode.
    pub line_base: i8,
    /// How many line advances the special opcodes have, never 0 where rows are asked for.
    pub line_range: u8,
    /// The first special opcode.
    pub opcode_base: u8,
    /// The number of the first entry of the table of files: 1, and from version 5 on 0.
    pub first_file: u32,
    /// How many files the header's table has.
    pub file_count: usize,
}
