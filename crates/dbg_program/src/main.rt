//! The debugger: it runs one program by lines from standard input, and writes records to standard output.
#![tactic(auto)]

use dbg_session::{Ended, Status, debug_run};
use std::process::ExitCode;
use std::{fs, thread};
use system_world::{RealWorld, RestingGate, Shared, pump, words};

fn main(rt: HostRuntime) -> ExitCode {
    // A folder can be neither read nor written as a file. So it stands in for a standard descriptor that was closed.
    let _held = [fs::open(&rt, "/"), fs::open(&rt, "/"), fs::open(&rt, "/")];
    let Ok(words) = words(&rt) else {
        return ExitCode::from(Status::NoMemory.number());
    };
    let Ok(handle) = rt.clone() else {
        return ExitCode::from(Status::NoMemory.number());
    };
    let Ok(its) = rt.clone() else {
        return ExitCode::from(Status::NoMemory.number());
    };
    let alloc = rt.alloc();
    // Nobody joins the reader: it may stand in a read when the program ends. Without one, polls read by themselves.
    let input = match Shared::pair(alloc) {
        Ok((mine, theirs)) => thread::spawn(&rt, move || pump(&its, &theirs))
            .ok()
            .map(|_| mine),
        Err(_) => None,
    };
    let world = RealWorld::new(handle, words, input);
    let Ended {
        status,
        world: _,
        closed: _,
    } = debug_run(&rt, alloc, world, &RestingGate::new(&rt));
    ExitCode::from(status.number())
}
