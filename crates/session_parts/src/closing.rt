// What a session left is handed back; its log is put, where it is wanted, and a generated run is summed up.
ghost use Rattle.std.specs.Prelude.{◌≡◌, ◌&&◌};
ghost use Rattle.session_parts.specs.Headline.{Ends, Headline};
ghost use Rattle.session_parts.specs.OutsideInside.{play_of};
ghost use Rattle.session_parts.specs.Over.{IsHanded, IsOver, IsPlayedOut, is_logged, sums_up};
ghost use Rattle.session_parts.specs.Scene.{told_of};

use crate::ending::Ended;
use crate::logging::put_log;
use crate::outside::{Outside, Script};
use crate::puts::put_all;
use crate::status::Status;
use crate::summary::summary_text;
use dbg_traits::{NoMemory, World};
use engine_parts::ending::Closed;
use std::alloc::Global;

// Whether a run that was over with this status is summed up: memory was found, and its records are whole.
fn sums_up(status: Status) -> bool
    ensures { result ≡ sums_up status }
{
    matches!(status, Status::Done | Status::Budget | Status::History)
}

// Puts the summary of a generated run that was over with this status, and says how it ends.
fn sum_up<W: World>(
    alloc: Global,
    world: &mut W,
    script: &Script,
    closed: &Closed,
    status: Status,
) -> Status
    requires { IsPlayedOut status (play_of script.now) (W.told world.old) closed.now }
    ensures { Headline result (W.told world.new) closed.now }
{
    if !sums_up(status) {
        return Status::NoMemory;
    }
    let records = script.output.as_slice();
    let Ok(text) = summary_text(alloc, script.number, &closed.journal, records, status) else {
        return Status::NoMemory;
    };
    if !put_all(world, text.as_slice()) {
        return Status::WriteFault;
    }
    status
}

// Whether the log of a session that was over with this status is put: it is wanted, and the session's lines are whole.
fn puts_log(status: Status, has_log: bool) -> bool
    ensures { result ≡ is_logged status && has_log }
{
    match status {
        Status::Done | Status::Budget | Status::History | Status::ReadFault => has_log,
        Status::Words | Status::File(_) => false,
        Status::WriteFault | Status::NoMemory | Status::Rejected => false,
    }
}

// Puts the log of a session over a file that was over with this status, where it is wanted, and says how the session ends.
fn hand_back<W: World>(
    alloc: Global,
    world: &mut W,
    has_log: bool,
    closed: &Closed,
    status: Status,
) -> Status
    requires { IsHanded has_log status (W.told world.old) closed.now }
    ensures { Headline result (W.told world.new) closed.now }
{
    if !puts_log(status, has_log) {
        return status;
    }
    match put_log(alloc, world, closed.opening.settings, &closed.journal) {
        Ok(true) => status,
        Ok(false) => Status::WriteFault,
        Err(NoMemory) => Status::NoMemory,
    }
}

/// What is handed back of a session that is over: the world that was handed in. A session whose log is wanted puts it, and a
/// generated run its summary.
#[inline(never)]
pub fn finish<W: World>(alloc: Global, ended: Ended<Outside<W>>) -> Ended<W>
    requires { IsOver ended.status (told_of W.told ended.world) ended.closed }
    ensures { Ends result.status (W.told result.world) result.closed }
{
    let Ended {
        status,
        world: outside,
        closed,
    } = ended;
    let has_log = outside.has_log();
    let (world, script) = outside.into_parts();
    let Some(closed) = closed else { unreachable!() };
    let mut world = world;
    let status = match script {
        None => hand_back(alloc, &mut world, has_log, &closed, status),
        Some(script) => sum_up(alloc, &mut world, &script, &closed, status),
    };
    Ended {
        status,
        world,
        closed: Some(closed),
    }
}
