// How a hart is picked and moved.
ghost use Rattle.std.specs.Prelude.{◌≡◌, ◌<◌, ◌≤◌, length, false, true, None, is_some, IsTrue, IfSome};
ghost use Rattle.std.specs.Bool.{OnFalse};
ghost use Rattle.engine_parts.specs.Steps.{NoneOut, is_out};
ghost use Rattle.session_parts.specs.Ties.{session_work};
ghost use Rattle.session_parts.specs.Seen.{GotOn, HasTurned, no_move};
ghost use Rattle.session_parts.specs.Round.{Moves, MovesOne, TurnsOne, Moved, moment};
ghost use Rattle.session_parts.specs.Stage.{moves_at, stands};
ghost use Rattle.session_parts.specs.Steps.{IsMove};

use super::Session;
use crate::ending::over;
use crate::steps::turn_once;
use dbg_engine::SPARE;
use dbg_traits::World;
use session_parts::{Status, Turn};

impl<W: World> Session<W> {
    // Turns a hart once. True where it moved, or a status was set.
    fn move_hart(&mut self, hart: u32) -> bool
        requires going { self.old.status ≡ None }
        requires known { hart < length self.old.run.minds }
        ensures next { self.new.next ≡ self.old.next }
        ensures same { length self.new.run.minds ≡ length self.old.run.minds }
        ensures opening { self.new.run.opening ≡ self.old.run.opening }
        ensures moves { IsTrue result → TurnsOne (IsMove hart) hart (moment W.told self.old) (moment W.told self.new) }
        ensures stands { OnFalse result ((moment W.told self.new ≡ moment W.told self.old) × (stands self.old.run hart ≡ true)) }
        ensures still { OnFalse result (moves_at self.old.run hart ≡ false) }
        ensures less { IsTrue result → session_work self.new.status self.new.run self.new.input < session_work self.old.status self.old.run self.old.input }
    {
        match turn_once(&mut self.world, &mut self.engine, hart, &mut self.lines) {
            Turn::Stood => false,
            Turn::Moved => {
                self.status = over(&self.engine, self.count);
                true
            }
            Turn::Unput => {
                self.status = Some(Status::WriteFault);
                true
            }
            Turn::NoMemory => {
                self.status = Some(Status::NoMemory);
                true
            }
        }
    }

    // Makes turns of a hart of which nothing is said, in one call: at most `limit`, and how many. None where another turn is
    // next.
    fn run_hart(&mut self, hart: u32, limit: u32) -> u32
        requires going { self.old.status ≡ None }
        requires known { hart < length self.old.run.minds }
        ensures limit { result ≤ limit }
        ensures next { self.new.next ≡ self.old.next }
        ensures same { length self.new.run.minds ≡ length self.old.run.minds }
        ensures opening { self.new.run.opening ≡ self.old.run.opening }
        ensures moved { Moved (IsMove hart) result hart (moment W.told self.old) (moment W.told self.new) }
        ensures none { result ≡ 0 → self.new ≡ self.old }
        ensures less { 0 < result → session_work self.new.status self.new.run self.new.input < session_work self.old.status self.old.run self.old.input }
    {
        if self.engine.reserve_journal(SPARE).is_err() {
            return 0;
        }
        let count = self.engine.run(hart, limit);
        if count > 0 {
            self.status = over(&self.engine, self.count);
        }
        count
    }

    // Turns a hart until it stands, at most 64 times.
    fn turn_hart(&mut self, hart: u32)
        requires going { self.old.status ≡ None }
        requires known { hart < length self.old.run.minds }
        ensures opening { self.new.run.opening ≡ self.old.run.opening }
        ensures moves { MovesOne hart (moment W.told self.old) (moment W.told self.new) }
        ensures less { HasTurned hart self.old self.new }
    {
        let mut count = 0u32;
        while count < 64 && self.status.is_none() {
            let ran = self.run_hart(hart, 64 - count);
            if ran > 0 {
                count += ran;
                continue;
            }
            if !self.move_hart(hart) {
                return;
            }
            count += 1;
        }
    }

    // Picks the next hart that runs and has no job out, in rising order round the harts from the one after that was picked
    // last, and turns it. The hart, if there is one.
    pub(super) fn move_on(&mut self) -> Option<u32>
        requires { self.old.status ≡ None }
        ensures opening { self.new.run.opening ≡ self.old.run.opening }
        ensures moves { Moves result (moment W.told self.old) (moment W.told self.new) }
        ensures known { IfSome result (λ h. h < self.old.run.opening.settings.harts) }
        ensures home { IfSome result (λ h. is_out self.new.out h ≡ false) }
        ensures less { NoneOut self.old.out → GotOn (is_some result) self.old self.new (no_move self.old) }
    {
        let Some(hart) = self.engine.next_running(self.next, &self.out) else {
            return None;
        };
        self.next = hart as usize + 1;
        self.turn_hart(hart);
        Some(hart)
    }
}
