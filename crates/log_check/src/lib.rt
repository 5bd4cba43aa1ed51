//! Whether a text is what is said of a lawful session: it goes through a journal over the model alone, with neither the engine nor the
//! patched machine, and compares what a speaker says.
#![tactic(auto)]

mod checking;
mod hearing;
mod laws;
mod speaker;
mod verdict;

pub use checking::check;
pub use laws::one_verdict;
pub use speaker::Speaker;
pub use verdict::CheckVerdict;
