// The queue under its lock, and who waits for it.
ghost use Rattle.std.specs.Prelude.{◌≡◌, ◌<◌, ◌++◌, length, nat_le, [], false, true};
ghost use Rattle.std.specs.Sync.Mutex.{mutex_guard_value};
ghost use Rattle.system_world.specs.RealTold.{PollsWithin};
ghost use Rattle.system_world.specs.Waiting.{waiting};
ghost use Rattle.dbg_traits.specs.declared.world.Polled.TheVariants.{NotYet};

use crate::feed::{Feed, Rest, Source};
use dbg_traits::Polled;
use std::alloc::{AllocError, Global};
use std::sync::{Arc, Condvar, Mutex, MutexGuard, Wait};

/// What the reader thread and the world share.
#[derive(Drop)]
pub struct Shared {
    feed: Mutex<Feed>,
    came: Condvar,
    left: Condvar,
}

/// The queue under its lock. It may have changed, so nobody can let go of it but by waking whoever waits for a change.
pub struct Held<'a> {
    shared: &'a Shared,
    feed: MutexGuard<'a, Feed>,
}

impl Shared {
    /// Two handles of one empty queue.
    pub fn pair(alloc: Global) -> Result<(Arc<Shared, Global>, Arc<Shared, Global>), AllocError> {
        let feed = Feed::open(alloc)?;
        let mine = Arc::new(
            alloc,
            Shared {
                feed: Mutex::new(feed),
                came: Condvar::new(),
                left: Condvar::new(),
            },
        )?;
        let theirs = Arc::try_clone(&mine)?;
        Ok((mine, theirs))
    }

    /// The queue.
    pub fn hold<R: Wait>(&self, rt: &R) -> Held<'_> {
        Held {
            shared: self,
            feed: self.feed.lock(rt),
        }
    }

    /// The queue, once input is asked for.
    pub fn hold_asked<R: Wait>(&self, rt: &R) -> Held<'_>
        ensures { (mutex_guard_value result.feed).asked ≡ true }
    {
        let feed = self
            .left
            .wait_while(rt, self.feed.lock(rt), |feed| !feed.is_asked());
        Held { shared: self, feed }
    }

    /// The queue, once it has room.
    pub fn hold_roomy<R: Wait>(&self, rt: &R) -> Held<'_>
        ensures { nat_le 65536 (length (waiting (mutex_guard_value result.feed))) ≡ false }
    {
        let feed = self
            .left
            .wait_while(rt, self.feed.lock(rt), |feed| feed.is_full());
        Held { shared: self, feed }
    }

    // The queue, and input is asked for.
    fn ask<R: Wait>(&self, rt: &R) -> Held<'_>
        ensures { (mutex_guard_value result.feed).asked ≡ true }
    {
        let mut held = self.hold(rt);
        held.feed.ask();
        held
    }

    /// The oldest bytes of the queue. It waits for one where it may, and else answers at once.
    pub fn poll<R: Wait>(&self, rt: &R, wait: bool, into: &mut [u8]) -> Polled
        requires { 0 < length into.old }
        ensures within { PollsWithin (length into.new) result }
        ensures waits { wait ≡ true → result ≡ NotYet → ⊥ }
    {
        let mut held = self.ask(rt);
        if wait {
            held = held.grown(rt);
        }
        let polled = held.feed.answer(into);
        held.let_go();
        polled
    }
}

impl<'a> Held<'a> {
    /// Lets go of the queue, and wakes whoever waits for a change of it.
    pub fn let_go(self) -> &'a Shared {
        let Held { shared, feed } = self;
        drop(feed);
        shared.came.notify_all();
        shared.left.notify_all();
        shared
    }

    // The queue, once something waits in it or no more comes.
    fn grown<R: Wait>(self, rt: &R) -> Held<'a>
        requires { (mutex_guard_value self.feed).asked ≡ true }
        ensures { waiting (mutex_guard_value result.feed) ≡ [] → (mutex_guard_value result.feed).source ≡ Source.Open → ⊥ }
    {
        let shared = self.let_go();
        let feed = shared
            .came
            .wait_while(rt, shared.feed.lock(rt), |feed| feed.may_grow());
        Held { shared, feed }
    }

    /// The queue takes in the first bytes, as many as there is room for, and hands back the others.
    pub fn give<'b>(&mut self, rest: Rest<'b>) -> Rest<'b>
        ensures given { waiting (mutex_guard_value self.new.feed) ++ result.bytes.now ≡ waiting (mutex_guard_value self.old.feed) ++ rest.entry.bytes.now }
        ensures source { (mutex_guard_value self.new.feed).source ≡ (mutex_guard_value self.old.feed).source }
    {
        self.feed.give(rest)
    }

    /// No more input comes.
    pub fn end(&mut self, source: Source)
        ensures { mutex_guard_value self.new.feed ≡ record (mutex_guard_value self.old.feed) { source = source } }
    {
        self.feed.end(source);
    }
}
