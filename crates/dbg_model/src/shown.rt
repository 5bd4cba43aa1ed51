// What an entry of a journal shows.

use crate::{Reply, ShownFrame};
use dbg_traits::ByteList;

/// A watch that stopped a hart, as it is told.
#[derive(Drop)]
pub struct ShownWatch {
    /// The text by which its bytes were given.
    pub text: ByteList,
    /// Whether their value has a sign.
    pub signed: bool,
}

/// What one entry shows, where a `Ran` is of one instruction.
#[derive(Drop)]
pub enum Shown {
    Nothing,
    /// These bytes were written by the program.
    Wrote {
        bytes: ByteList,
    },
    /// A hart stopped.
    Stop {
        /// The frame that it stopped in.
        frame: ShownFrame,
        /// Whether the breakpoint that stopped it was temporary.
        temporary: bool,
        /// The watch that stopped it, if one did.
        watch: Option<ShownWatch>,
    },
    /// A hart exited, and whether it was the last live one.
    Exit {
        last: bool,
    },
    /// A line was answered.
    Answer {
        reply: Reply,
    },
}
