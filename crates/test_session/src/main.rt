//! Sessions over worlds in memory, which rows of input run one after the other. The rows are those of `Plan` and of
//! `SessionBench`; each is answered by what came of it. What begins with `#` is said again as it stands.
#![tactic(auto)]

mod bench;
mod holding;
mod input;
mod left;
mod plan;

use bench::{SessionBench, play_on};
use std::io;

fn main(rt: HostRuntime) -> io::Result<()> {
    let alloc = rt.alloc();
    play_on(&rt, alloc, &mut SessionBench::new(alloc))
}
