// A session as a crew: its duties are rounds, its jobs the slices of harts.
ghost use Rattle.std.specs.Prelude.{◌≡◌, ◌≢◌, ℕ, ◌<◌, ◌≤◌, ◌↔◌, ◌&&◌, ◌-◌, true, false, None, Some, IfSome, IsTrue, is_none, is_some, nat_lt, slice_set};
ghost use Rattle.engine_parts.specs.Steps.{NoneOut, is_out};
ghost use Rattle.session_parts.specs.Crew.{Duties, Gives, IsWorkOf, Reaches, ServesAlone, ServesHart, ServesOnce, TakesBack, TakesBy, is_alone, is_idle};
ghost use Rattle.session_parts.specs.Taking.{has_looked};
ghost use Rattle.session_parts.specs.Round.{moment};
ghost use Rattle.session_parts.specs.Seen.{work};
ghost use Rattle.session_loop.specs.Asking.{Asks, Chooses, counted, in_place, is_served, near_behind, near_of};

use super::{HARTS, Session};
use crate::ending::over;
use dbg_engine::{Commit, SPARE};
use dbg_traits::World;
use hart_workers::{Asked, Crew, Duty};
use reg_slices::{Job, Slice, run_slice};
use session_parts::Status;

// Clears the mark of a hart, if it has one.
fn clear(marks: &mut [bool], hart: u32)
    ensures { marks.new ≡ slice_set marks.old hart false }
{
    if (hart as usize) < marks.len() {
        marks[hart as usize] = false;
    }
}

// A slice of fewer instructions is short: to copy a job, hand it out and take it back, while others wait for the lock, takes as
// long as some hundreds.
const LONG: u64 = 512;

// How many slices of a hart are worked where the words stand behind a short one that was handed out. Then one is handed out
// again, so that a hart that comes to long ones is found out.
const NEAR: u8 = 63;

// How many more slices of a hart are worked where the words stand, behind one of so many instructions.
fn near_behind(near: u8, count: u64) -> u8
    ensures { result ≡ near_behind near count }
{
    if count >= LONG {
        return 0;
    }
    if near == 0 {
        return NEAR;
    }
    near - 1
}

// How many more slices of this hart are.
fn near_of(near: &[u8], hart: u32) -> u8
    ensures { result ≡ near_of near.now hart }
{
    match near.get(hart as usize) {
        Some(near) => *near,
        None => 0,
    }
}

// Counts a slice of a hart.
fn count_slice(near: &mut [u8], hart: u32, count: u64)
    ensures { near.new ≡ counted near.old hart count }
{
    let behind = near_behind(near_of(near, hart), count);
    if (hart as usize) < near.len() {
        near[hart as usize] = behind;
    }
}

impl<W: World> Session<W> {
    /// The number of workers, 0 to 16.
    pub fn workers(&self) -> u32
        ensures value { result ≡ self.now.run.opening.settings.workers }
        ensures most { result ≤ 16 }
    {
        self.engine.settings().workers
    }

    // One round, and then the hart that was picked, where the session goes on.
    fn go(&mut self) -> Option<u32>
        requires { self.old.status ≡ None }
        ensures opening { self.new.run.opening ≡ self.old.run.opening }
        ensures reaches { Reaches result (moment W.told self.old) (moment W.told self.new) }
        ensures known { IfSome result (λ h. h < self.new.run.opening.settings.harts) }
        ensures home { IfSome result (λ h. is_out self.new.out h ≡ false) }
        ensures less { NoneOut self.old.out → work self.new < work self.old }
    {
        let hart = self.go_round()?;
        if self.status.is_some() {
            return None;
        }
        Some(hart)
    }

    // Commits a slice in a session that goes on, if it can be taken still.
    fn commit(&mut self, slice: &Slice)
        requires going { self.old.status ≡ None }
        requires some { 1 ≤ slice.now.count }
        ensures opening { self.new.run.opening ≡ self.old.run.opening }
        ensures takes { TakesBy true slice.now (moment W.told self.old) (moment W.told self.new) }
        ensures near { self.new.near ≡ self.old.near }
        ensures less { work self.new ≤ work self.old }
    {
        if self.engine.reserve_journal(SPARE).is_err() {
            self.status = Some(Status::NoMemory);
            return;
        }
        match self.engine.commit(slice) {
            Commit::Took => self.status = over(&self.engine, self.count),
            Commit::Stale => {}
        }
    }

    // Commits a slice of at least one instruction where the session goes on.
    fn bring(&mut self, slice: &Slice)
        ensures opening { self.new.run.opening ≡ self.old.run.opening }
        ensures takes { TakesBy (is_none self.old.status && nat_lt 0 slice.now.count) slice.now (moment W.told self.old) (moment W.told self.new) }
        ensures near { self.new.near ≡ self.old.near }
        ensures less { work self.new ≤ work self.old }
    {
        if self.status.is_some() {
            return;
        }
        if slice.count == 0 {
            return;
        }
        self.commit(slice);
    }

    // The slice's hart has no job out any more. The slice is done, or forgotten.
    fn take_back(&mut self, slice: &Slice)
        ensures opening { self.new.run.opening ≡ self.old.run.opening }
        ensures takes { TakesBack slice.now (moment W.told self.old) (moment W.told self.new) }
        ensures near { self.new.near ≡ self.old.near }
        ensures less { work self.new ≤ work self.old }
    {
        clear(&mut self.out, slice.hart);
        self.bring(slice);
    }

    // The job of a hart, if it gives one, is worked and taken at once.
    #[cold]
    #[inline(never)]
    fn serve_apart(&mut self, hart: u32)
        requires going { self.old.status ≡ None }
        requires known { hart < self.old.run.opening.settings.harts }
        ensures opening { self.new.run.opening ≡ self.old.run.opening }
        ensures serves { ServesHart hart (moment W.told self.old) (moment W.told self.new) }
        ensures near { self.new.near ≡ self.old.near }
        ensures less { work self.new ≤ work self.old }
    {
        let Some(job) = self.hand_out(hart) else {
            return;
        };
        let worked = Self::work(job);
        self.take_back(&worked);
    }

    // Does what the job of a hart asks for, if it gives one: where the words stand, and apart only where there is no room for
    // an entry, since then it depends on the slice whether any is wanted. Jobs of other harts may be out.
    fn serve(&mut self, hart: u32)
        requires going { self.old.status ≡ None }
        requires known { hart < self.old.run.opening.settings.harts }
        requires home { is_out self.old.out hart ≡ false }
        ensures opening { self.new.run.opening ≡ self.old.run.opening }
        ensures serves { ServesHart hart (moment W.told self.old) (moment W.told self.new) }
        ensures near { self.new.near ≡ self.old.near }
        ensures less { work self.new ≤ work self.old }
    {
        if self.engine.reserve_journal(SPARE).is_err() {
            self.serve_apart(hart);
            return;
        }
        self.engine.serve(hart);
        self.status = over(&self.engine, self.count);
    }

    // The same, and counts what it executed.
    fn serve_near(&mut self, hart: u32)
        requires going { self.old.status ≡ None }
        requires known { hart < self.old.run.opening.settings.harts }
        requires home { is_out self.old.out hart ≡ false }
        ensures opening { self.new.run.opening ≡ self.old.run.opening }
        ensures serves { ServesHart hart (moment W.told self.old) (moment W.told self.new) }
        ensures near { self.new.near ≡ counted self.old.near hart (self.new.run.state.retired - self.old.run.state.retired) }
    {
        let before = self.engine.retired();
        self.serve(hart);
        let count = self.engine.retired().saturating_sub(before);
        count_slice(&mut self.near, hart, count);
    }

    // One duty, and what its job asks for. It is one of `duty`, but no `Duty` is made of it: to move one through each round takes
    // longer than the rest of it.
    #[inline(always)]
    fn serve_next(&mut self)
        requires going { self.old.status ≡ None }
        requires none { NoneOut self.old.out }
        ensures opening { self.new.run.opening ≡ self.old.run.opening }
        ensures none { NoneOut self.new.out }
        ensures serves { ServesOnce (moment W.told self.old) (moment W.told self.new) }
        ensures less { work self.new < work self.old }
    {
        let Some(hart) = self.go() else { return };
        self.serve(hart);
    }

    // Whether no job is out, and none could be worked beside another: one worker serves, or at most one hart runs.
    fn is_alone(&self) -> bool
        ensures { result ≡ is_alone (moment W.told self.now) }
    {
        !self.out.contains(&true) && (self.workers() <= 1 || self.engine.running_count() <= 1)
    }

    // Whether the slice of a hart is worked where the words stand.
    fn in_place(&self, hart: u32) -> bool
        ensures { result ≡ in_place (moment W.told self.now) self.now.near hart }
    {
        near_of(&self.near, hart) > 0 || self.is_alone()
    }

    /// Forgets whose jobs are out, and does duties until the status is set. What a job asks for is done at once, where the
    /// words stand.
    pub fn run_serial(&mut self)
        ensures over { self.new.status ≢ None }
        ensures opening { self.new.run.opening ≡ self.old.run.opening }
        ensures serves { ServesAlone (moment W.told self.old) (moment W.told self.new) }
    {
        self.out = [false; HARTS];
        'duties: while self.status.is_none() {
            self.serve_next();
        }
    }
}

impl<W: World> Crew for Session<W> {
    type Job = Job;

    type Done = Slice;

    ghost is_over = { λ s. is_some s.status };

    ghost rests = { λ s. has_looked s.known && is_idle (moment W.told s) };

    ghost asks = { λ s told t. Asks (moment W.told s) told (moment W.told t) };

    ghost has = { λ s h. h < s.run.opening.settings.harts };

    ghost gives = { λ s h job t. Gives h job (moment W.told s) (moment W.told t) };

    /// A round, where the status isn't set, and then a job of the hart that was picked, if it gives one.
    fn duty(&mut self, _worker: u32) -> Duty<Job>
        ensures over { (result ≡ Duty.Over) ↔ (is_some self.old.status ≡ true) }
        ensures stays { result ≡ Duty.Over → self.new ≡ self.old }
        ensures opening { self.new.run.opening ≡ self.old.run.opening }
        ensures duties { Duties result (moment W.told self.old) (moment W.told self.new) }
        ensures less { self.old.status ≡ None → NoneOut self.old.out → work self.new < work self.old }
    {
        if self.status.is_some() {
            return Duty::Over;
        }
        let Some(hart) = self.go() else {
            return Duty::Again;
        };
        match self.hand_out(hart) {
            Some(job) => Duty::Job(job),
            None => Duty::Again,
        }
    }

    fn hart_of(job: &Job) -> u32
        ensures { result ≡ job.now.hart }
    {
        job.hart
    }

    /// The slice of the job that has the greatest count.
    fn work(job: Job) -> Slice
        ensures { IsWorkOf job result }
    {
        run_slice(job)
    }

    /// The slice's hart has no job out any more. Where the status isn't set the slice's instructions, if there are any, are done
    /// in one, and no line is put. A slice that can't be taken any more is forgotten, but for how long it was.
    fn take(&mut self, slice: Slice)
        ensures opening { self.new.run.opening ≡ self.old.run.opening }
        ensures takes { TakesBack slice (moment W.told self.old) (moment W.told self.new) }
        ensures near { self.new.near ≡ counted self.old.near slice.hart slice.count }
        ensures less { work self.new ≤ work self.old }
    {
        count_slice(&mut self.near, slice.hart, u64::from(slice.count));
        self.take_back(&slice);
    }

    /// A round, where the status isn't set; and behind it the slice of the hart that was picked, where that is worked where the
    /// words stand.
    #[inline(always)]
    fn ask(&mut self, _worker: u32) -> Asked
        ensures over { (result ≡ Asked.Over) ↔ (is_some self.old.status ≡ true) }
        ensures opening { self.new.run.opening ≡ self.old.run.opening }
        ensures asks { Asks (moment W.told self.old) result (moment W.told self.new) }
        ensures has { (h : ℕ) → result ≡ Asked.Picked h → h < self.new.run.opening.settings.harts }
        ensures chooses { self.old.status ≡ None → Chooses W.told (is_served result) self.old self.new }
    {
        if self.status.is_some() {
            return Asked::Over;
        }
        let Some(hart) = self.go() else {
            return Asked::Again;
        };
        if self.in_place(hart) {
            self.serve_near(hart);
            return Asked::Served;
        }
        Asked::Picked(hart)
    }

    /// The job of a hart, if it gives one. It is out from then on.
    fn hand_out(&mut self, hart: u32) -> Option<Job>
        requires { hart < self.old.run.opening.settings.harts }
        ensures opening { self.new.run.opening ≡ self.old.run.opening }
        ensures gives { Gives hart result (moment W.told self.old) (moment W.told self.new) }
        ensures near { self.new.near ≡ self.old.near }
        ensures work { work self.new ≡ work self.old }
    {
        let job = self.engine.check_out(hart)?;
        self.out[hart as usize] = true;
        Some(job)
    }

    /// Whether the status is set.
    fn over(&self) -> bool
        ensures { result ≡ is_some self.now.status }
    {
        self.status.is_some()
    }

    /// Whether harts run, each of which has a job out, and no line can be done meanwhile. False where it isn't known whether
    /// one can.
    fn is_idle(&self) -> bool
        ensures { result ≡ (has_looked self.now.known && is_idle (moment W.told self.now)) }
    {
        self.engine.any_running()
            && self.must_wait()
            && self.engine.next_running(self.next, &self.out).is_none()
    }
}
