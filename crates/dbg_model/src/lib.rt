//! What a session is in the abstract: its journal, the state that the journal leaves, and what a line of input asks of it.
#![tactic(auto)]

mod breakpoint;
mod course;
mod entries;
mod entry;
mod frame;
mod hart;
mod journal;
mod judgement;
mod limits;
mod opening;
mod places;
mod reply;
mod row;
mod seen_hart;
mod shown;
mod source_index;
mod stopping;
mod thread_view;
mod variable;
mod writer;

pub use breakpoint::Breakpoint;
pub use course::{Course, noted_with};
pub use entries::Entries;
pub use entry::{Entry, EntryRef, Mode, Poke, Why};
pub use frame::{FrameList, ShownFrame, SourceLine};
pub use hart::Hart;
pub use journal::Journal;
pub use judgement::{Judge, Judgement, is_kept, plan_after};
pub use limits::{HISTORY, MOST_BREAKPOINTS, MOST_INPUT};
pub use opening::Opening;
pub use places::{bytes_of, function_name, shown_frame, source_line};
pub use reply::{Content, Obstacle, Refused, Register, RegisterList, Reply, Thread, ThreadList};
pub use row::{Row, RowList};
pub use seen_hart::{SeenHart, is_settable, shown_byte, shown_register};
pub use shown::{Shown, ShownWatch};
pub use source_index::SourceIndex;
pub use stopping::{stopping_watch, stops_once};
pub use thread_view::ThreadView;
pub use variable::{ShownVariable, VariableList, VariableValue};
pub use writer::JournalWriter;
