//! The phases in which a hart steps over a planted breakpoint, by a copy in a scratch slot or by lifting the patch.
#![tactic(auto)]

mod laws;
mod phase;

pub use laws::{
    one_run_or_none, one_step_or_none, other_marks_show_the_same, run_is_a_plain_step,
    slots_are_words,
};
pub use phase::{Mark, Phase};
