//! The outside of the debugger, as traits, with numbers in the memory that a view shows, and lists of items.
#![tactic(auto)]

mod items;
mod names;
mod numbers;
mod settings;
mod text;
mod view;
mod world;

pub use items::{ByteList, ItemList, NumberList};
pub use names::{NamePlace, place_of};
pub use numbers::number_at;
pub use settings::Settings;
pub use text::{ArgText, NoMemory};
pub use view::View;
pub use world::{FileRead, Gate, OpenGate, Polled, Put, World};
