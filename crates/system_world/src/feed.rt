// The queue between the reader thread and `poll`.
ghost use Rattle.std.specs.Prelude.{◌≡◌, ◌≤◌, ◌<◌, ◌↔◌, ◌+◌, ◌++◌, IfOk, IsTrue, length, min, nat_le, take, [], true, false};
ghost use Rattle.std.specs.Vec.{vec_len, vec_capacity};
ghost use Rattle.system_world.specs.Edge.{poll_of};

use dbg_traits::Polled;
use std::alloc::{AllocError, Global};

/// The greatest number of bytes that wait.
pub const ROOM: usize = 65_536;

/// How far the input has come.
#[derive(Clone, Copy)]
pub enum Source {
    Open,
    Ended,
    Failed,
}

impl Source {
    /// A poll that took so many bytes of the queue.
    pub fn poll_of(self, taken: usize) -> Polled
        ensures { result ≡ poll_of taken self }
    {
        if taken > 0 {
            return Polled::Took(taken);
        }
        match self {
            Source::Open => Polled::NotYet,
            Source::Ended => Polled::End,
            Source::Failed => Polled::Failed,
        }
    }
}

// Copies as many bytes as both have, and says how many.
fn copy_front(bytes: &[u8], into: &mut [u8]) -> usize
    ensures count { result ≡ min (length bytes.now) (length into.old) }
    ensures copied { take result into.new ≡ take result bytes.now }
    ensures length { length into.new ≡ length into.old }
{
    let n = bytes.len().min(into.len());
    into[..n].copy_from_slice(&bytes[..n]);
    n
}

/// Bytes that were read, and that the queue has yet to take: until it has, nobody can let go of them.
pub struct Rest<'a> {
    bytes: &'a [u8],
}

impl<'a> Rest<'a> {
    /// All of these.
    pub fn of(bytes: &'a [u8]) -> Rest<'a>
        ensures { result.bytes.now ≡ bytes.now }
    {
        Rest { bytes }
    }

    /// Whether the queue took them all.
    pub fn is_taken(&self) -> bool
        ensures { IsTrue result ↔ (self.now.bytes.now ≡ []) }
    {
        self.bytes.is_empty()
    }

    /// Lets go of what is left, which is nothing.
    pub fn end(self)
        requires { self.bytes.now ≡ [] }
    {
        let Rest { bytes: _ } = self;
    }
}

/// Bytes that were read and not polled yet, in one run. It has its room from the start.
#[derive(Drop)]
pub struct Feed {
    bytes: Vec<u8>,
    // How many of them were polled.
    polled: usize,
    source: Source,
    // Whether input was asked for. Nothing is read before, since the file may be standard input under another name.
    asked: bool,
    ghost within: { polled ≤ vec_len bytes },
    ghost reserved: { 65536 ≤ vec_capacity bytes },
}

impl Feed {
    ghost use Rattle.system_world.specs.Waiting.{Answers, waiting};

    /// An empty queue of an input that has not ended, and for which nobody asked.
    pub fn open(alloc: Global) -> Result<Feed, AllocError>
        ensures waiting { IfOk result (λ feed. waiting feed ≡ []) }
        ensures source { IfOk result (λ feed. feed.source ≡ Source.Open) }
        ensures asked { IfOk result (λ feed. feed.asked ≡ false) }
    {
        Ok(Feed {
            bytes: Vec::with_capacity(alloc, ROOM)?,
            polled: 0,
            source: Source::Open,
            asked: false,
        })
    }

    /// Whether it has no room.
    pub fn is_full(&self) -> bool
        ensures { result ≡ nat_le 65536 (length (waiting self.now)) }
    {
        self.bytes.len() - self.polled >= ROOM
    }

    /// Whether input was asked for.
    pub fn is_asked(&self) -> bool
        ensures { result ≡ self.now.asked }
    {
        self.asked
    }

    /// Whether nothing waits, and more may come.
    pub fn may_grow(&self) -> bool
        ensures { IsTrue result ↔ ((waiting self.now ≡ []) × (self.now.source ≡ Source.Open)) }
    {
        self.is_empty() && self.source == Source::Open
    }

    /// Input is asked for.
    pub fn ask(&mut self)
        ensures { self.new ≡ record self.old { asked = true } }
    {
        self.asked = true;
    }

    /// The input came so far, and no more of it comes.
    pub fn end(&mut self, source: Source)
        ensures { self.new ≡ record self.old { source = source } }
    {
        self.source = source;
    }

    fn is_empty(&self) -> bool
        ensures { IsTrue result ↔ (waiting self.now ≡ []) }
    {
        self.bytes[self.polled..].is_empty()
    }

    // Drops the bytes that were polled, so that there is room behind the others.
    fn make_room(&mut self)
        ensures waiting { waiting self.new ≡ waiting self.old }
        ensures dropped { self.new.polled ≡ 0 }
        ensures source { self.new.source ≡ self.old.source }
        ensures asked { self.new.asked ≡ self.old.asked }
    {
        self.bytes.drain(..self.polled);
        self.polled = 0;
    }

    /// Takes in the first bytes, as many as there is room for, and hands back the others.
    pub fn give<'a>(&mut self, rest: Rest<'a>) -> Rest<'a>
        ensures given { waiting self.new ++ result.bytes.now ≡ waiting self.old ++ rest.entry.bytes.now }
        ensures most { length (waiting self.old) < 65536 → 0 < length rest.entry.bytes.now → length result.bytes.now < length rest.entry.bytes.now }
        ensures source { self.new.source ≡ self.old.source }
        ensures asked { self.new.asked ≡ self.old.asked }
    {
        if self.bytes.len() >= ROOM {
            self.make_room();
        }
        let Rest { bytes } = rest;
        let n = bytes.len().min(ROOM.saturating_sub(self.bytes.len()));
        self.bytes.extend_from_slice(&bytes[..n]).unwrap();
        Rest { bytes: &bytes[n..] }
    }

    // Moves the oldest bytes into the slice, and says how many.
    fn take(&mut self, into: &mut [u8]) -> usize
        requires { 0 < length into.old }
        ensures within { result ≤ length into.new }
        ensures source { self.new.source ≡ self.old.source }
        ensures asked { self.new.asked ≡ self.old.asked }
        ensures none { result ≡ 0 → waiting self.old ≡ [] }
        ensures front { waiting self.old ≡ take result into.new ++ waiting self.new }
    {
        let n = copy_front(&self.bytes[self.polled..], into);
        self.polled += n;
        if self.is_empty() {
            self.bytes.clear();
            self.polled = 0;
        }
        n
    }

    /// Answers a poll, with the oldest bytes where there are any.
    pub fn answer(&mut self, into: &mut [u8]) -> Polled
        requires { 0 < length into.old }
        ensures answers { Answers result into.new self.old self.new }
        ensures source { self.new.source ≡ self.old.source }
        ensures asked { self.new.asked ≡ self.old.asked }
    {
        let taken = self.take(into);
        self.source.poll_of(taken)
    }
}
