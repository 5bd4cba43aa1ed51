//! What is known of a frame while frames are walked.

/// The registers of a frame.
#[derive(Clone, Copy)]
pub struct Context {
    pub pc: u32,
    /// The address at which its rules, its name and its row are looked up.
    pub lookup: u32,
    /// x0 to x31.
    pub registers: [u32; 32],
    /// The canonical frame address of the frame that it called, if it called one.
    pub inner_cfa: Option<u32>,
}
