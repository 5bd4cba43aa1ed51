// The top call, `debug_run`: the debugger over a world, which is handed back.
ghost use Rattle.std.specs.Prelude.{◌≡◌, ◌≢◌, ◌==◌, None, Some, if◌then◌else◌, MatchResult};
ghost use Rattle.dbg_traits.specs.Told.{IsFresh};
ghost use Rattle.elf_checks.specs.declared.fault.ElfFault.{ElfFault};
ghost use Rattle.session_parts.specs.Early.{Early};
ghost use Rattle.session_parts.specs.Words.{AreRefused, checked_words};
ghost use Rattle.session_parts.specs.Headline.{Ends, Good, IsFine, IsWords, IsFile, Refused};
ghost use Rattle.session_check.specs.RunEnds.{GoodCheck, IsJudged, IsRecorded, RefusedCheck, RunEnds};

use dbg_engine::Engine;
use dbg_model::Opening;
use dbg_traits::{Gate, World};
use hart_workers::run_crew;
use mi_reports::report_opening;
use session_check::check_if_asked;
use session_loop::Session;
use session_parts::{Ended, Loaded, Outside, Status, Unloaded, finish, load};
use std::alloc::Global;
use std::sync::{Mutex, Wait};
use std::thread::Threads;

// There was no memory to begin a session.
fn unbegun<W: World>(outside: Outside<W>) -> Unloaded<W>
    ensures status { result.status ≡ Status.NoMemory }
    ensures world { result.world ≡ outside.world }
{
    let (world, _script) = outside.into_parts();
    Unloaded {
        status: Status::NoMemory,
        world,
    }
}

// Begins a session: the words, the program, the engine and the opening lines. What is moved about here takes stack only here.
#[inline(never)]
fn begin<W: World>(alloc: Global, world: W) -> Result<Session<Outside<W>>, Unloaded<W>>
    requires fresh { IsFresh (W.told world) }
    requires unchecked { checked_words (W.told world).words ≡ None }
    ensures { MatchResult result (λ _. Unit {0}) (λ e. Early e.status (W.told e.world)) }
{
    let Loaded {
        outside,
        image,
        settings,
    } = load(alloc, world)?;
    let mut lines = Vec::new(alloc);
    let Ok(()) = report_opening(settings.harts, &mut lines) else {
        return Err(unbegun(outside));
    };
    match Engine::load(alloc, Opening { image, settings }) {
        Ok(engine) => Ok(Session::open(alloc, outside, engine, lines)),
        Err(_) => Err(unbegun(outside)),
    }
}

// How many workers serve a session, if any do.
fn crew_of(workers: u32) -> Option<u32>
    ensures { result ≡ (if workers == 0 then None else Some workers) }
{
    if workers == 0 { None } else { Some(workers) }
}

// The workers of a session, if it has any, serve it until it is over.
#[inline(never)]
fn serve<R: Threads + Wait + Sync, W: World + Send, G: Gate + Sync>(
    rt: &R,
    session: Session<Outside<W>>,
    gate: &G,
) -> Session<Outside<W>> {
    let Some(workers) = crew_of(session.workers()) else {
        return session;
    };
    let crew = Mutex::new(session);
    run_crew(rt, &crew, workers, gate);
    crew.into_inner()
}

// What is left of a session that is over. What is moved about here takes no stack while it goes on.
#[inline(never)]
fn end<W: World>(alloc: Global, session: Session<Outside<W>>) -> Ended<W>
    requires { session.status ≢ None }
    ensures { Ends result.status (W.told result.world) result.closed }
{
    finish(alloc, session.close())
}

// A session goes on until it is over, and hands its world back. What is moved about here takes no stack while one begins.
#[inline(never)]
fn run_session<R: Threads + Wait + Sync, W: World + Send, G: Gate + Sync>(
    rt: &R,
    alloc: Global,
    session: Session<Outside<W>>,
    gate: &G,
) -> Ended<W>
    ensures { Ends result.status (W.told result.world) result.closed }
{
    let mut session = serve(rt, session, gate);
    session.run_serial();
    end(alloc, session)
}

/// Runs the debugger over a world, and hands the world back: a session, or the check of a log, as the words ask.
pub fn debug_run<R: Threads + Wait + Sync, W: World + Send, G: Gate + Sync>(
    rt: &R,
    alloc: Global,
    world: W,
    gate: &G,
) -> Ended<W>
    requires fresh { IsFresh (W.told world) }

    // What the status says: with the headline where a session was begun, and of a check with what is found of the input.
    ensures ends { RunEnds result.status (W.told result.world) result.closed }

    // Refused words and a refused file are answered, unless memory runs out.
    ensures words { AreRefused (W.told result.world).words → IsWords result.status }
    ensures file { (f : ElfFault) → Refused (W.told result.world) f → IsFile f result.status }
    ensures checked_file { (f : ElfFault) → RefusedCheck (W.told result.world) f → IsFile f result.status }

    // With accepted words, an accepted file and no fault it runs to its end, unless memory runs out.
    ensures complete { Good (W.told result.world) → IsFine result.status }
    ensures judged { GoodCheck (W.told result.world) → IsJudged result.status }

    // A log that was written whole is accepted, with the session's lines before it.
    ensures recorded { IsRecorded result.status (W.told result.world) result.closed }
{
    let world = match check_if_asked(alloc, world) {
        Ok(world) => world,
        Err(ended) => return ended,
    };
    match begin(alloc, world) {
        Ok(session) => run_session(rt, alloc, session, gate),
        Err(Unloaded { status, world }) => Ended {
            status,
            world,
            closed: None,
        },
    }
}
