/// The bytes of the sections that line tables are read from. One that a file doesn't have is empty.
#[derive(Clone, Copy)]
pub struct LineSections<'a> {
    /// `.debug_line`.
    pub line: &'a [u8],
    /// `.debug_line_str`.
    pub line_str: &'a [u8],
    /// `.debug_str`.
    pub strs: &'a [u8],
}
