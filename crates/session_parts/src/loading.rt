// What a session begins with: the words, the program and the lines.
ghost use Rattle.std.specs.Prelude.{◌≡◌, ◌≤◌, IfOk, MatchResult, None, Some, false};
ghost use Rattle.dbg_traits.specs.Names.{IsNamed};
ghost use Rattle.dbg_traits.specs.Settings.{AreSettings};
ghost use Rattle.dbg_traits.specs.Told.{IsFresh};
ghost use Rattle.session_parts.specs.Early.{Early};
ghost use Rattle.session_parts.specs.Scene.{told_of};
ghost use Rattle.session_parts.specs.Ties.{MayBegin};
ghost use Rattle.session_parts.specs.Words.{checked_words, served_words};

use crate::file::{FileError, Served, Source, read_all, served_words};
use crate::outside::Outside;
use crate::puts::{put_bad_file, put_usage};
use crate::status::Status;
use dbg_traits::{ArgText, Settings, World};
use elf_checks::{ElfReadError, read_image};
use elf_gen::{generate, script};
use elf32_read::Image;
use std::alloc::Global;

/// What a session may begin with.
pub struct Loaded<W: World> {
    /// What it is to talk to.
    pub outside: Outside<W>,
    /// Its program.
    pub image: Image,
    pub settings: Settings,
}

/// A run that ended before a session was begun: the world is handed back.
pub struct Unloaded<W> {
    /// Why it ended.
    pub status: Status,
    pub world: W,
}

// A run that ended before a session was begun.
fn early<W: World>(status: Status, world: W) -> Unloaded<W>
    ensures status { result.status ≡ status }
    ensures world { result.world ≡ world }
{
    Unloaded { status, world }
}

// The program of the file of this name.
fn load_file<W: World>(
    alloc: Global,
    world: W,
    name: ArgText,
    settings: Settings,
    has_log: bool,
) -> Result<Loaded<W>, Unloaded<W>>
    requires fresh { IsFresh (W.told world) }
    requires asked { served_words (W.told world).words ≡ Some (record { source = Source.File name; settings = settings; has_log = has_log }) }
    requires known { IsNamed (W.told world).words name }
    requires ranges { AreSettings settings }
    ensures ready { IfOk result (λ l. MayBegin (told_of W.told l.outside) (record { image = l.image; settings = l.settings })) }
    ensures ranges { IfOk result (λ l. AreSettings l.settings) }
    ensures early { MatchResult result (λ l. Early Status.NoMemory (W.told l.outside.world)) (λ e. Early e.status (W.told e.world)) }
{
    let mut world = world;
    let bytes = match read_all(alloc, &mut world, &name) {
        Ok(bytes) => bytes,
        Err(FileError::Failed) => return Err(early(Status::ReadFault, world)),
        Err(FileError::NoMemory) => return Err(early(Status::NoMemory, world)),
    };
    let image = match read_image(alloc, bytes) {
        Ok(image) => image,
        Err(ElfReadError::Fault(fault)) => {
            let Ok(_) = put_bad_file(alloc, &mut world, fault) else {
                return Err(early(Status::NoMemory, world));
            };
            return Err(early(Status::File(fault), world));
        }
        Err(ElfReadError::Memory) => return Err(early(Status::NoMemory, world)),
    };
    Ok(Loaded {
        outside: Outside::handed(world, has_log),
        image,
        settings,
    })
}

// The program and the lines that are generated from this number. The program is accepted, so that only memory can be wanting.
fn load_generated<W: World>(
    alloc: Global,
    world: W,
    number: u32,
    settings: Settings,
) -> Result<Loaded<W>, Unloaded<W>>
    requires fresh { IsFresh (W.told world) }
    requires asked { served_words (W.told world).words ≡ Some (record { source = Source.Generated number; settings = settings; has_log = false }) }
    requires most { number ≤ 1000000 }
    requires ranges { AreSettings settings }
    ensures ready { IfOk result (λ l. MayBegin (told_of W.told l.outside) (record { image = l.image; settings = l.settings })) }
    ensures ranges { IfOk result (λ l. AreSettings l.settings) }
    ensures early { MatchResult result (λ l. Early Status.NoMemory (W.told l.outside.world)) (λ e. Early e.status (W.told e.world)) }
{
    let Ok(bytes) = generate(alloc, number) else {
        return Err(early(Status::NoMemory, world));
    };
    let Ok(lines) = script(alloc, number) else {
        return Err(early(Status::NoMemory, world));
    };
    let Ok(image) = read_image(alloc, bytes) else {
        return Err(early(Status::NoMemory, world));
    };
    Ok(Loaded {
        outside: Outside::scripted(alloc, world, number, lines),
        image,
        settings,
    })
}

/// Reads the words and the program that they name. Refused words and a refused file are answered.
pub fn load<W: World>(alloc: Global, world: W) -> Result<Loaded<W>, Unloaded<W>>
    requires fresh { IsFresh (W.told world) }
    requires unchecked { checked_words (W.told world).words ≡ None }
    ensures ready { IfOk result (λ l. MayBegin (told_of W.told l.outside) (record { image = l.image; settings = l.settings })) }
    ensures ranges { IfOk result (λ l. AreSettings l.settings) }
    ensures early { MatchResult result (λ l. Early Status.NoMemory (W.told l.outside.world)) (λ e. Early e.status (W.told e.world)) }
{
    let mut world = world;
    let served = match served_words(alloc, world.words()) {
        Ok(Some(served)) => served,
        Ok(None) => {
            let Ok(_) = put_usage(alloc, &mut world) else {
                return Err(early(Status::NoMemory, world));
            };
            return Err(early(Status::Words, world));
        }
        Err(_) => return Err(early(Status::NoMemory, world)),
    };
    let Served {
        source,
        settings,
        has_log,
    } = served;
    match source {
        Source::File(name) => load_file(alloc, world, name, settings, has_log),
        Source::Generated(number) => load_generated(alloc, world, number, settings),
    }
}
