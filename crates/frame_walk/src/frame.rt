/// One frame of a hart.
#[derive(Clone, Copy, Default)]
pub struct Frame {
    /// The address of the next instruction.
    pub pc: u32,
    /// The address at which its name and its row are looked up: pc, and in a frame that called another one the byte before.
    pub lookup: u32,
    /// The canonical frame address; none exactly where the frame's rules have a fault.
    pub cfa: Option<u32>,
}

/// Where the innermost frame goes on.
#[derive(Clone, Copy)]
pub struct Caller {
    /// The canonical frame address of the innermost frame.
    pub cfa: u32,
    /// The address that it returns to.
    pub return_address: u32,
}
