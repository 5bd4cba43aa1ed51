//! Places in the three sections, each with a type of its own.

use crate::index::Index;
use crate::text_lengths::TextLengths;

/// An offset into `.debug_info`.
#[derive(Clone, Copy, Debug)]
pub struct InfoOffset {
    pub at: u32,
}

/// An offset into `.debug_abbrev`.
#[derive(Clone, Copy)]
pub struct AbbrevOffset {
    pub at: u32,
}

/// An offset into `.debug_str`.
#[derive(Clone, Copy, Debug)]
pub struct StrOffset {
    pub at: u32,
}

/// The three sections, each empty where there is none.
#[derive(Clone, Copy)]
pub struct Sections<'a> {
    /// `.debug_info`
    pub info: &'a [u8],
    /// `.debug_abbrev`
    pub abbrevs: &'a [u8],
    /// `.debug_str`
    pub strs: &'a [u8],
}

/// What entries are read of.
#[derive(Clone, Copy)]
pub struct Source<'a> {
    /// `.debug_info`, or its bytes up to a unit's end
    pub info: &'a [u8],
    /// `.debug_abbrev`
    pub abbrevs: &'a [u8],
    /// What stands at each place of it.
    pub index: &'a Index,
    /// `.debug_str`
    pub strs: &'a [u8],
    /// How long the texts of it are.
    pub lengths: &'a TextLengths,
}
