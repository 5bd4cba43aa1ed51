//! Plans of steps: where a hart that was resumed for a step, or to finish a function, is to stop.
#![tactic(auto)]

mod arrival;
mod laws;
mod plan;
mod verdicts;

pub use laws::{
    inner_returns_go_on, lines_end_at_rows, lines_go_on, others_are_judged_without,
    plans_keep_their_line,
};
pub use plan::{After, Last, Plan, Verdict};
pub use verdicts::arrive;
