// A session, step by step.
ghost use Rattle.std.specs.Prelude.{◌≡◌, ◌≢◌, ◌<◌, ◌&&◌, [], true, false, None, Some, if◌then◌else◌, IfSome, IsSomeAnd};
ghost use Rattle.std.specs.Bool.{OnFalse};
ghost use Rattle.session_parts.specs.Ties.{IsTied};
ghost use Rattle.session_parts.specs.Seen.{GotOn, work, no_input, no_line, is_open};
ghost use Rattle.session_parts.specs.Taking.{has_line, has_looked};
ghost use Rattle.session_parts.specs.Round.{Takes, Lines, Settles, Round, moment};
ghost use Rattle.engine_parts.specs.Steps.{NoneOut, is_out};
ghost use Rattle.session_parts.specs.Left.{IsLeft};
ghost use Rattle.session_parts.specs.Stage.{stage_of};

mod crew;
mod moving;

use crate::ending::{over, status_of};
use crate::steps::line_once;
use dbg_engine::Engine;
use dbg_model::ThreadView;
use dbg_traits::World;
use mi_input::next_line;
use session_parts::{Done, Ended, Input, Known, PIECE, Status, input_once, put_all};
use std::alloc::Global;
use std::marker::Model;

// The most harts of a machine.
const HARTS: usize = 16;

/// One program's session: its engine, and the world that it talks to.
pub struct Session<W: World> {
    alloc: Global,
    world: W,
    engine: Engine,
    buffer: Vec<u8>,
    start: usize,
    // What input comes through. It stands here, so that no round has to clear it.
    piece: [u8; PIECE],
    // What the last line saw of the harts, in memory that the next one takes over.
    threads: Vec<ThreadView>,
    // The lines that were put last, in memory that the next ones take over.
    lines: Vec<u8>,
    count: u64,
    ended: bool,
    // What is known of the rest of the input, which begins at `start`.
    known: Known,
    // The hart after the one that was picked last.
    next: usize,
    // The harts whose job is out.
    out: [bool; HARTS],
    // How many more slices of each hart are worked where the words stand.
    near: [u8; HARTS],
    status: Option<Status>,
}

impl<W: World> Model for Session<W> {
    ghost use Rattle.std.specs.Prelude.{◌≤◌, ◌<◌, ◌^◌, length, drop, vec_len};
    ghost use Rattle.session_parts.specs.Seen.{Seen};
    ghost use Rattle.session_parts.specs.Ties.{IsTied, IsCounted};
    ghost use Rattle.session_parts.specs.Taking.{IsKnown};
    ghost use Rattle.session_parts.specs.Stage.{stage_of};
    ghost use Rattle.std.specs.Coded.{codes};

    ghost Value = { Seen W };

    ghost use Rattle.data_memory.specs.Maps.{memory_code};
    ghost use Rattle.text_words.specs.Words.{words_code};
    ghost use Rattle.break_table.specs.Codes.{term_code};

    ghost coded = { Prim.hlevel (codes, memory_code, words_code, term_code, W.code) };

    ghost use Rattle.session_loop.specs.SessionInside.{seen_of, taken_of};

    ghost view = { seen_of };

    ghost use Rattle.engine_parts.specs.Facts.{Facts};

    ghost invariant = { λ s. IsTied s.status (W.told s.world) (stage_of s.engine) (taken_of s) × (s.start ≤ vec_len s.buffer) × IsCounted s.status s.count × IsKnown s.known s.ended (drop s.start s.buffer.items) × Facts s.engine };
}

impl<W: World> Session<W> {
    ghost use Rattle.session_parts.specs.Ties.{IsReady};
    ghost use Rattle.session_parts.specs.Stage.{stage_of};
    ghost use Rattle.mi_values.specs.Records.{AreRecords};
    ghost use Rattle.mi_reports.specs.Text.{opening_lines};
    ghost use Rattle.session_parts.specs.Puts.{PutsAll};
    ghost use Rattle.std.specs.Prelude.{is_none};
    ghost use Rattle.engine_parts.specs.Facts.{Facts};

    /// A session over an engine, with its opening lines.
    #[inline(never)]
    pub fn open(alloc: Global, world: W, engine: Engine, opening: Vec<u8>) -> Session<W>
        requires ready { IsReady (W.told world) (stage_of engine) }
        requires lines { AreRecords opening.items (opening_lines engine.opening.settings.harts) }
        requires facts { Facts engine }
        ensures run { result.run ≡ stage_of engine }
        ensures input { result.input ≡ record { rest = []; count = 0; ended = false } }
        ensures next { result.next ≡ 0 }
        ensures out { NoneOut result.out }
        ensures puts { PutsAll (is_none result.status) opening.items (W.told world) (W.told result.world) }
        ensures status { result.status ≡ (if is_none result.status then None else Some Status.WriteFault) }
    {
        let mut world = world;
        let status = status_of(put_all(&mut world, opening.as_slice()));
        Session {
            alloc,
            world,
            engine,
            buffer: Vec::new(alloc),
            start: 0,
            piece: [0; PIECE],
            threads: Vec::new(alloc),
            lines: opening,
            count: 0,
            ended: false,
            known: Known::Open,
            next: 0,
            out: [false; HARTS],
            near: [0; HARTS],
            status,
        }
    }

    // Whether a whole line stands in the rest of the input.
    fn has_line(&self) -> bool
        ensures { result ≡ has_line self.now.input.ended self.now.input.rest }
    {
        match self.known {
            Known::Open => next_line(&self.buffer[self.start..], self.ended).is_some(),
            Known::NoLine => false,
            Known::Waits => true,
        }
    }

    // Takes input, where no whole line is kept and the input has not ended. True where it got on.
    #[inline(never)]
    fn take_input(&mut self) -> bool
        requires { self.old.status ≡ None }
        ensures opening { self.new.run.opening ≡ self.old.run.opening }
        ensures takes { Takes (moment W.told self.old) (moment W.told self.new) }
        ensures less { GotOn result self.old self.new (no_input self.old) }
    {
        if self.ended {
            return false;
        }
        if self.has_line() {
            return false;
        }
        let wait = !self.engine.any_running();
        match input_once(&mut self.world, &mut self.buffer, &mut self.piece, wait) {
            Input::Took(n) => {
                let before = self.buffer.len() - n;
                self.known = self.known.behind(&self.buffer[before..]);
                self.count += n as u64;
                self.status = over(&self.engine, self.count);
                true
            }
            Input::Nothing => false,
            Input::End => {
                self.known = Known::Open;
                self.ended = true;
                true
            }
            Input::Failed => {
                self.status = Some(Status::ReadFault);
                true
            }
            Input::NoMemory => {
                self.status = Some(Status::NoMemory);
                true
            }
        }
    }

    // Whether it is known already that no line can be done yet.
    fn must_wait(&self) -> bool
        ensures { result ≡ (has_looked self.now.known && no_line self.now) }
    {
        match self.known {
            Known::Open => false,
            Known::NoLine => true,
            Known::Waits => self.engine.any_running(),
        }
    }

    // Does the next line that is kept, unless it waits while a hart runs. True where it got on.
    fn do_line(&mut self) -> bool
        requires { self.old.status ≡ None }
        ensures opening { self.new.run.opening ≡ self.old.run.opening }
        ensures lines { Lines (moment W.told self.old) (moment W.told self.new) }
        ensures less { GotOn result self.old self.new (no_line self.old) }
        ensures looks { OnFalse result (has_looked self.new.known ≡ true) }
    {
        if self.must_wait() {
            return false;
        }
        let done = line_once(
            self.alloc,
            &mut self.world,
            &mut self.engine,
            &self.buffer[self.start..],
            self.ended,
            &mut self.threads,
            &mut self.lines,
        );
        self.known = Known::Open;
        match done {
            Done::Nothing => {
                self.known = Known::NoLine;
                false
            }
            Done::Waits => {
                self.known = Known::Waits;
                false
            }
            Done::Done(next) => {
                self.start += next;
                self.status = over(&self.engine, self.count);
                true
            }
            Done::Unput(next) => {
                self.start += next;
                self.status = Some(Status::WriteFault);
                true
            }
            Done::Unsaid(next) => {
                self.start += next;
                self.status = Some(Status::NoMemory);
                true
            }
            Done::NoMemory => {
                self.status = Some(Status::NoMemory);
                true
            }
        }
    }

    // The session is done where the input ended, no line is left and no hart runs. True where it is.
    fn settle(&mut self) -> bool
        requires { self.old.status ≡ None }
        ensures opening { self.new.run.opening ≡ self.old.run.opening }
        ensures settles { Settles (moment W.told self.old) (moment W.told self.new) }
        ensures out { self.new.out ≡ self.old.out }
        ensures less { GotOn result self.old self.new (is_open self.old) }
    {
        if !self.ended {
            return false;
        }
        if self.engine.any_running() || self.has_line() {
            return false;
        }
        self.status = Some(Status::Done);
        true
    }

    // One round: input is taken, a line is done, a hart is picked and moved. The hart that was picked, if one was.
    #[inline(never)]
    fn go_round(&mut self) -> Option<u32>
        requires { self.old.status ≡ None }
        ensures opening { self.new.run.opening ≡ self.old.run.opening }
        ensures round { Round result (moment W.told self.old) (moment W.told self.new) }
        ensures known { IfSome result (λ h. h < self.old.run.opening.settings.harts) }
        ensures home { IfSome result (λ h. is_out self.new.out h ≡ false) }
        ensures less { NoneOut self.old.out → work self.new < work self.old }
    {
        self.take_input();
        if self.status.is_some() {
            return None;
        }
        self.do_line();
        if self.status.is_some() {
            return None;
        }
        let picked = self.move_on();
        if self.status.is_some() {
            return picked;
        }
        self.settle();
        picked
    }

    /// Ends the session, whose status is set.
    pub fn close(self) -> Ended<W>
        requires { self.status ≢ None }
        ensures status { Some result.status ≡ self.status }
        ensures world { result.world ≡ self.world }
        ensures closed { IsSomeAnd result.closed (IsLeft self.run) }
        ensures tied { IsTied self.status (W.told self.world) self.run self.input }
    {
        let Session {
            alloc: _,
            world,
            engine,
            buffer: _,
            start: _,
            piece: _,
            threads: _,
            lines: _,
            count: _,
            ended: _,
            known: _,
            next: _,
            out: _,
            near: _,
            status,
        } = self;
        let closed = Some(engine.close());
        match status {
            Some(status) => Ended {
                status,
                world,
                closed,
            },
            None => unreachable!(),
        }
    }
}
