//! The machine that executes the stored words: its harts and their memory.
#![tactic(auto)]

mod cores;
mod hart;
mod laws;
mod machine;
mod running;
mod view;
mod window;
mod within;

pub use hart::Core;
pub use laws::copy_is_step_at_home;
pub use machine::Machine;
pub use view::HartView;
pub use within::{Bounds, Stayed, calls_or_returns};
