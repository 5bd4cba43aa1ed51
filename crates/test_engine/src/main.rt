//! Engines over programs, which rows of input drive. The rows are those of `loads` and of `moved` and `asked`; each is answered by
//! what came of it. What begins with `#` is said again as it stands.
//!
//! Behind each row that notes something the journal is gone through apart from the engine, and the state that it leaves is
//! compared with what the engine shows.
#![tactic(auto)]

mod agreement;
mod bench;
mod moves;
mod programs;
mod subject;
mod turns;

use bench::EngineBench;
use dbg_engine::{moves_mark, one_instruction_or_none};
use std::io;
use test_rows::play;

fn main(rt: HostRuntime) -> io::Result<()> {
    moves_mark();
    one_instruction_or_none();
    play(&rt, rt.alloc(), &mut EngineBench::new())
}
