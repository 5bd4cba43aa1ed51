//! The world of the operating system: a file, standard input by a thread of its own, standard output, and the clock by which idle workers rest.
#![tactic(auto)]

mod again;
mod arguments;
mod feed;
mod gate;
mod reader;
mod shared;
mod world;

pub use arguments::words;
pub use gate::RestingGate;
pub use reader::pump;
pub use shared::Shared;
pub use world::RealWorld;
