/// The settings of a session, as the words of the command line give them.
#[derive(Clone, Copy)]
pub struct Settings {
    /// Harts of the machine, 1 to 16.
    pub harts: u32,
    /// Worker threads, 0 to 16; 0 runs the session on the calling thread.
    pub workers: u32,
    /// Scratch slots for displaced stepping, 0 to 512.
    pub slots: u32,
    /// The greatest number of retired instructions, 1 to 1,000,000,000,000.
    pub budget: u64,
    /// The greatest number of instructions of one slice, 0 to 1,024; 0 makes no slices.
    pub slice: u32,
}
