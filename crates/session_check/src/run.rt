//! The run of a check.

ghost use Rattle.std.specs.Prelude.{◌≡◌, ℕ, List};
ghost use Rattle.dbg_traits.specs.Names.{IsNamed};
ghost use Rattle.dbg_traits.specs.Told.{IsFresh};
ghost use Rattle.session_check.specs.Checks.{Checks};
ghost use Rattle.session_check.specs.Polling.{IsUntouched};
ghost use Rattle.session_check.specs.Stages.{IsFound, IsLoaded, IsTurnedAway, status_of};

use crate::finding::Finding;
use crate::input::{InputError, poll_all};
use crate::judging::judge;
use crate::verdict::verdict_line;
use dbg_traits::{ArgText, World};
use elf_checks::{ElfFault, ElfReadError, read_image};
use elf32_read::Image;
use session_parts::{FileError, Status, put_all, put_bad_file, read_all};
use std::alloc::Global;

// The file is refused.
fn refuse<W: World>(alloc: Global, world: &mut W, fault: ElfFault) -> Status
    ensures words { (W.told world.new).words ≡ (W.told world.old).words }
    ensures checks { (name : List ℕ) → IsTurnedAway name (W.told world.old) fault → Checks name result (W.told world.new) }
{
    match put_bad_file(alloc, world, fault) {
        Ok(_) => Status::File(fault),
        Err(_) => Status::NoMemory,
    }
}

// With what status a check ends that puts its line.
fn status_of(found: Finding) -> Status
    ensures { result ≡ status_of found }
{
    match found {
        Finding::Accepted { .. } => Status::Done,
        _ => Status::Rejected,
    }
}

// Puts the line of what was found.
fn answer<W: World>(alloc: Global, world: &mut W, found: Finding) -> Status
    ensures words { (W.told world.new).words ≡ (W.told world.old).words }
    ensures checks { (name : List ℕ) → IsFound name (W.told world.old) found → Checks name result (W.told world.new) }
{
    let mut line = Vec::new(alloc);
    let Ok(()) = verdict_line(found, &mut line) else {
        return Status::NoMemory;
    };
    if !put_all(world, line.as_slice()) {
        return Status::WriteFault;
    }
    status_of(found)
}

// The input is judged for a program.
fn check_input<W: World>(alloc: Global, world: &mut W, image: Image) -> Status
    requires { IsUntouched (W.told world.old) }
    ensures words { (W.told world.new).words ≡ (W.told world.old).words }
    ensures checks { (name : List ℕ) → IsLoaded name (W.told world.old) image → Checks name result (W.told world.new) }
{
    let input = match poll_all(alloc, world) {
        Ok(input) => input,
        Err(InputError::Failed) => return Status::ReadFault,
        Err(InputError::NoMemory) => return Status::NoMemory,
    };
    let Ok(found) = judge(alloc, image, input.as_slice()) else {
        return Status::NoMemory;
    };
    answer(alloc, world, found)
}

/// Checks the input for the program of the file of this name: whether it is the record of a lawful session of it, with its log.
///
/// The status is `Done` or `Rejected`, and the line of the verdict was put; `File`, and its line was put; `ReadFault`, `WriteFault` or
/// `NoMemory`.
pub fn check_run<W: World>(alloc: Global, world: &mut W, name: &ArgText) -> Status
    requires fresh { IsFresh (W.told world.old) }
    requires known { IsNamed (W.told world.old).words name.now }
    ensures words { (W.told world.new).words ≡ (W.told world.old).words }
    ensures checks { Checks name.now result (W.told world.new) }
{
    let bytes = match read_all(alloc, world, name) {
        Ok(bytes) => bytes,
        Err(FileError::Failed) => return Status::ReadFault,
        Err(FileError::NoMemory) => return Status::NoMemory,
    };
    match read_image(alloc, bytes) {
        Ok(image) => check_input(alloc, world, image),
        Err(ElfReadError::Fault(fault)) => refuse(alloc, world, fault),
        Err(ElfReadError::Memory) => Status::NoMemory,
    }
}
