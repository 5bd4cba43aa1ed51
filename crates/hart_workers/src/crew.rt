// What hands out jobs to workers.
ghost use Rattle.std.specs.Prelude.{◌≡◌, ℕ, Bool, true, Option, ◌↔◌};

/// What a worker is to do next.
#[derive(Drop)]
pub enum Duty<J> {
    /// Work this job, and hand in what is made of it.
    Job(J),
    /// Ask again.
    Again,
    /// Nothing is left to do.
    Over,
}

/// What a worker that asks is told.
#[derive(Clone, Copy, Drop)]
pub enum Asked {
    /// Its duty is done, and what its job asks for too: that was worked where it stands, since to hand it out would take longer,
    /// or no other worker could work beside.
    Served,
    /// The job of this hart is next, if it gives one.
    Picked(u32),
    /// Ask again.
    Again,
    /// Nothing is left to do.
    Over,
}

/// A value that hands out jobs. It stands under one lock, and the work of a job is done outside of it.
///
/// Neither `Job` nor `Done` need be `Drop`, so generic code can let go of neither: each job that was
/// handed out is worked, and what is made of it is taken.
pub trait Crew {
    ghost use Rattle.hart_workers.specs.declared.crew.Asked.{Asked};
    ghost use Rattle.hart_workers.specs.declared.crew.Asked.TheVariants.{Over, Picked};

    /// Work for one worker, which belongs to one hart.
    type Job;

    /// What is made of a job.
    type Done;

    /// Whether there is nothing left to do.
    ghost is_over: { Self → Bool };

    /// Whether a worker that got `Again` finds nothing to do for a while.
    ghost rests: { Self → Bool };

    /// What becomes of the crew where a worker that asks is told so.
    ghost asks: { Self → Asked → Self → Type 0 };

    /// Whether a hart is one of the crew's.
    ghost has: { Self → ℕ → Type 0 };

    /// What becomes of the crew where a hart gives this job.
    ghost gives: { Self → ℕ → Option Self.Job → Self → Type 0 };

    /// The next duty of a worker; `Over` exactly where the crew was over when the call began.
    fn duty(&mut self, worker: u32) -> Duty<Self::Job>
        ensures over { (result ≡ Duty.Over) ↔ (is_over self.old ≡ true) };

    /// The hart that a job belongs to.
    fn hart_of(job: &Self::Job) -> u32;

    /// Works a job. It sees nothing of the crew.
    fn work(job: Self::Job) -> Self::Done;

    /// Takes what was made of a job.
    fn take(&mut self, done: Self::Done);

    /// The next duty of a worker, of which the job isn't made yet.
    fn ask(&mut self, worker: u32) -> Asked
        ensures over { (result ≡ Over) ↔ (is_over self.old ≡ true) }
        ensures asks { asks self.old result self.new }
        ensures has { (h : ℕ) → result ≡ Picked h → has self.new h };

    /// The job of a hart that was picked, if it gives one.
    fn hand_out(&mut self, hart: u32) -> Option<Self::Job>
        requires has { has self.old hart }
        ensures gives { gives self.old hart result self.new };

    /// Whether there is nothing left to do.
    fn over(&self) -> bool
        ensures { result ≡ is_over self.now };

    /// Whether a worker that got `Again` finds nothing to do for a while. Else it asks again at once.
    fn is_idle(&self) -> bool
        ensures { result ≡ rests self.now };
}
