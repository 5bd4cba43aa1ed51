// The limits of a session: of entries, of input and of breakpoints.

/// A journal with this many entries other than `Ran` ends its session.
pub const HISTORY: u64 = 4_194_304;

/// So many bytes of polled input end a session.
pub const MOST_INPUT: u64 = 67_108_864;

/// So many breakpoints of the user stand at most.
pub const MOST_BREAKPOINTS: usize = 128;
