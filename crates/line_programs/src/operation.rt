/// An operation of a line number program (DWARF 4 and 5, section 6.2.5).
#[derive(Clone, Copy)]
pub enum Operation {
    /// A special opcode, by how far it is above the first one: advances the address and the line, and appends a row.
    Special(u8),
    /// `DW_LNS_copy`: appends a row.
    Copy,
    /// `DW_LNS_advance_pc`, in instructions of the least length.
    AdvancePc(u64),
    /// `DW_LNS_advance_line`, modulo 2^32.
    AdvanceLine(u32),
    /// `DW_LNS_set_file`.
    SetFile(u64),
    /// `DW_LNS_negate_stmt`.
    NegateStmt,
    /// `DW_LNS_const_add_pc`: advances the address as special opcode 255 does.
    ConstAddPc,
    /// `DW_LNS_fixed_advance_pc`, in bytes.
    FixedAdvancePc(u16),
    /// `DW_LNS_set_prologue_end`.
    SetPrologueEnd,
    /// `DW_LNE_end_sequence`: appends the row that ends the sequence.
    EndSequence,
    /// `DW_LNE_set_address`.
    SetAddress(u32),
    /// `DW_LNE_define_file`: a file more in the table, whose name begins at this place of the unit.
    DefineFile(usize),
    /// An operation that changes nothing that a row shows.
    Ignored,
}
