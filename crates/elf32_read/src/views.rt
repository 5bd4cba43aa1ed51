// Segments and sections, as a caller sees them.
use byteorder::{ByteOrder, LittleEndian};

/// A loadable segment of an image (gABI, Program Header, `PT_LOAD`).
#[derive(Clone, Copy)]
pub struct SegmentView<'a> {
    /// `p_vaddr`.
    pub address: u32,
    /// `p_memsz`: bytes in memory.
    pub size: u32,
    /// `p_flags`: 1 executable, 2 writable, 4 readable.
    pub flags: u32,
    /// The part that stands in the file, from the address on; the rest is zero.
    pub bytes: &'a [u8],
}

/// A text section of an image.
#[derive(Clone, Copy)]
pub struct TextView<'a> {
    /// A multiple of 4.
    pub address: u32,
    /// Whole words, the lowest byte first.
    pub bytes: &'a [u8],
}

/// A section of an image (gABI, Sections).
#[derive(Clone, Copy)]
pub struct SectionView<'a> {
    /// `sh_type`.
    pub kind: u32,
    /// `sh_flags`.
    pub flags: u32,
    /// `sh_addr`.
    pub address: u32,
    /// `sh_link`: the number of the section that this one is linked to.
    pub link: u32,
    /// What stands in the file.
    pub bytes: &'a [u8],
}
