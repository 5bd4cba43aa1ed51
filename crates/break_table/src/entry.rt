//! What a breakpoint is.

use crate::location::Location;
use cond_expr::Expr;

/// What is asked of a new breakpoint.
#[derive(Drop)]
pub struct Spec {
    /// The instruction that it stands at.
    pub address: u32,
    /// The text by which the address was given.
    pub location: Location,
    /// Whether it is deleted where it stops a hart.
    pub temporary: bool,
    pub enabled: bool,
    /// How many arrivals are only counted before one stops.
    pub ignore: u32,
    /// An arrival stops only where the value of this isn't 0, or can't be had.
    pub condition: Option<Expr>,
    /// The one thread that it is for, counted from 1; none is for each.
    pub thread: Option<u32>,
}

/// A breakpoint.
#[derive(Drop)]
pub struct BreakEntry {
    /// From 1 on, and never used again.
    pub number: u32,
    /// The instruction that it stands at.
    pub address: u32,
    /// The text by which the address was given.
    pub location: Location,
    /// Whether it is deleted where it stops a hart.
    pub temporary: bool,
    pub enabled: bool,
    /// How many arrivals are only counted before one stops.
    pub ignore: u32,
    /// An arrival stops only where the value of this isn't 0, or can't be had.
    pub condition: Option<Expr>,
    /// The one thread that it is for, counted from 1; none is for each.
    pub thread: Option<u32>,
    /// How many arrivals it counted or stopped.
    pub times: u64,
}

impl BreakEntry {
    ghost use Rattle.std.specs.Prelude.{◌≡◌};
    ghost use Rattle.break_table.specs.Entry.{asked_of, entry_of, new_entry};

    /// The entry that is asked for, with a number.
    pub(crate) fn new(number: u32, spec: Spec) -> BreakEntry
        ensures { entry_of result ≡ new_entry number (asked_of spec) }
    {
        let Spec {
            address,
            location,
            temporary,
            enabled,
            ignore,
            condition,
            thread,
        } = spec;
        BreakEntry {
            number,
            address,
            location,
            temporary,
            enabled,
            ignore,
            condition,
            thread,
            times: 0,
        }
    }
}
