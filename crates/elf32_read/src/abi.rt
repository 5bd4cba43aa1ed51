//! Numbers of the standards: System V gABI, chapters 4 and 5, and the RISC-V ELF psABI.

/// The size of the file's header (gABI, ELF Header, `e_ehsize`).
pub const FILE_HEADER_SIZE: usize = 52;

/// `e_ident` (gABI, ELF Identification): where the class and the order of bytes stand, and the values that are read.
pub const EI_CLASS: usize = 4;

pub const EI_DATA: usize = 5;

pub const ELFCLASS32: u8 = 1;

pub const ELFDATA2LSB: u8 = 1;

/// `e_type` of an executable file (gABI, ELF Header).
pub const ET_EXEC: u16 = 2;

/// `e_machine` of RISC-V (psABI, File Header).
pub const EM_RISCV: u16 = 243;

/// `e_flags`: compressed instructions, and the base with 16 registers (psABI, File Header).
pub const EF_RISCV_RVC: u32 = 1;

pub const EF_RISCV_RVE: u32 = 8;

/// `p_type` of a segment to be loaded (gABI, Program Header).
pub const PT_LOAD: u32 = 1;

/// `p_flags` (gABI, Segment Permissions).
pub const PF_X: u32 = 1;

pub const PF_W: u32 = 2;

/// `sh_type` of sections without a part of the file (gABI, Section Header).
pub const SHT_NULL: u32 = 0;

pub const SHT_NOBITS: u32 = 8;

/// `sh_flags` (gABI, Section Attribute Flags).
pub const SHF_ALLOC: u32 = 2;

pub const SHF_EXECINSTR: u32 = 4;

pub const SHF_COMPRESSED: u32 = 0x800;
