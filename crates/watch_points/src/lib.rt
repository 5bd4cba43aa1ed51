//! Watchpoints: which text can be watched and the bytes that it names, the list of them, and which fires.
#![tactic(auto)]

mod constant;
mod fault;
mod watch;
mod watch_list;
mod watchpoint;
mod words;

pub use fault::{WatchError, WatchFault};
pub use watch::{Watched, watch_of};
pub use watch_list::{MOST_WATCHES, WatchList, Worths, apart_fires_none};
pub use watchpoint::{Fired, Watch, is_one_of, unless_of};
