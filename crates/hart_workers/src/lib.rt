//! Worker threads over a crew that stands under one lock.
#![tactic(auto)]

mod crew;
mod next;
mod run;
mod worker;

pub use crew::{Asked, Crew, Duty};
pub use run::run_crew;
