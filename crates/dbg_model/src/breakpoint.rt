// Breakpoints as they are listed.

use crate::SourceLine;
use dbg_traits::ByteList;

/// A breakpoint that the user set, as it is listed.
#[derive(Drop)]
pub struct Breakpoint {
    /// From 1 on, and never used again.
    pub number: u32,
    /// Of the instruction that it stands at.
    pub address: u32,
    /// The name of the function that the address lies in.
    pub function: Option<ByteList>,
    /// The line of the source that the address belongs to.
    pub source: Option<SourceLine>,
    /// The text by which the address was given.
    pub location: ByteList,
    /// Whether it is deleted where it stops a hart.
    pub temporary: bool,
    pub enabled: bool,
    /// How many arrivals are only counted before one stops.
    pub ignore: u32,
    /// The text of its condition.
    pub condition: Option<ByteList>,
    /// The one thread that it is for, counted from 1; none is for each.
    pub thread: Option<u32>,
    /// How many arrivals it counted or stopped.
    pub times: u64,
}
