//! The decoder, what instructions do, memory, text, scratch slots and the machine of harts, which lines of input drive: each
//! line is answered by what came of it.
//!
//! The lines are those of `Subject::answer` and of the modules' `answer`. What begins with `#` is said again as it stands.
#![tactic(auto)]

mod copies;
mod harts;
mod instructions;
mod laws;
mod marks;
mod memory;
mod names;
mod places;
mod programs;
mod slots;
mod speed;
mod subject;
mod text;
mod together;
mod words;

use laws::call_all;
use std::io;
use subject::Subject;
use test_rows::play;

fn main(rt: HostRuntime) -> io::Result<()> {
    call_all();
    play(&rt, rt.alloc(), &mut Subject::new())
}
