// The real world: a file, standard input and standard output. It is the trusted edge, and tells no bytes.
ghost use Rattle.std.specs.Prelude.{◌≡◌, ◌<◌, ◌≤◌, is_some, length, true};
ghost use Rattle.system_world.specs.Edge.{PollsNext, PutAppends, ReadsNext, file_read, polled, written};
ghost use Rattle.system_world.specs.RealTold.{real_told, PollsWithin, PutsWithin, ReadsWithin};
ghost use Rattle.dbg_traits.specs.declared.world.Polled.TheVariants.{NotYet};

use crate::again;
use crate::shared::Shared;
use dbg_traits::{ArgText, FileRead, NamePlace, Polled, Put, World, place_of};
use std::alloc::Global;
use std::io::{Read, Write};
use std::rt::{Clock, Files};
use std::sync::{Arc, Wait};
use std::{fs, io};

fn file_read(read: io::Result<usize>) -> FileRead
    ensures { result ≡ file_read read }
{
    match read {
        Ok(0) => FileRead::End,
        Ok(n) => FileRead::Took(n),
        Err(_) => FileRead::Failed,
    }
}

fn polled(read: io::Result<usize>) -> Polled
    ensures { result ≡ polled read }
{
    match read {
        Ok(0) => Polled::End,
        Ok(n) => Polled::Took(n),
        Err(_) => Polled::Failed,
    }
}

// A write that takes nothing counts as failed.
fn written(put: io::Result<usize>) -> Put
    ensures { result ≡ written put }
{
    match put {
        Ok(n) if n > 0 => Put::Took(n),
        _ => Put::Failed,
    }
}

// Reads the next bytes of a file.
fn read_next<R: Wait + Clock, S: Read>(rt: &R, file: &mut S, into: &mut [u8]) -> FileRead
    ensures within { ReadsWithin (length into.new) result }
    ensures bytes { ReadsNext (S.remaining file.old) (S.remaining file.new) result into.new }
{
    file_read(again::read(rt, file, into))
}

// Polls the next bytes of the input, for which it waits.
fn poll_next<R: Wait + Clock, S: Read>(rt: &R, input: &mut S, into: &mut [u8]) -> Polled
    ensures within { PollsWithin (length into.new) result }
    ensures bytes { PollsNext (S.remaining input.old) (S.remaining input.new) result into.new }
{
    polled(again::read(rt, input, into))
}

// Writes the first bytes of a piece, as many as are taken.
fn put_to<R: Wait + Clock, S: Write>(rt: &R, sink: &mut S, piece: &[u8]) -> Put
    ensures within { PutsWithin (length piece.now) result }
    ensures bytes { PutAppends (S.contents sink.old) (S.contents sink.new) result piece.now }
{
    written(again::write(rt, sink, piece))
}

/// A world of the operating system.
#[derive(Drop)]
pub struct RealWorld<R: Files + Input + Print + Clock + Wait> {
    rt: R,
    words: Vec<ArgText>,
    input: Option<Arc<Shared, Global>>,
    name: Option<NamePlace>,
    file: Option<R::File>,
    file_length: u64,
    input_length: u64,
    polls: u64,
    file_faults: u64,
    poll_faults: u64,
    put_faults: u64,
    file_ended: bool,
    poll_ended: bool,
}

impl<R: Files + Input + Print + Clock + Wait> RealWorld<R> {
    ghost use Rattle.dbg_traits.specs.Told.{IsFresh};

    /// A world with these words, of which nothing was read, polled or put. Its input comes by the queue, where there is one.
    pub fn new(rt: R, words: Vec<ArgText>, input: Option<Arc<Shared, Global>>) -> RealWorld<R>
        ensures words { result.words ≡ words }
        ensures fresh { IsFresh (real_told result.words.items result.name result.file_length result.input_length result.polls result.file_faults result.poll_faults result.put_faults result.file_ended result.poll_ended) }
    {
        RealWorld {
            rt,
            words,
            input,
            name: None,
            file: None,
            file_length: 0,
            input_length: 0,
            polls: 0,
            file_faults: 0,
            poll_faults: 0,
            put_faults: 0,
            file_ended: false,
            poll_ended: false,
        }
    }

    // Opens the file, if that wasn't done already.
    fn open_once(&mut self, name: &ArgText)
        ensures once { is_some self.old.file ≡ true → self.new ≡ self.old }
        ensures rest { self.new ≡ record self.old { file = self.new.file } }
    {
        if self.file.is_none() {
            self.file = fs::open(&self.rt, name.as_str()).ok();
        }
    }

    // The next bytes of the input: of the queue, or else of standard input itself, which waits.
    fn next_bytes(&self, wait: bool, into: &mut [u8]) -> Polled
        requires { 0 < length into.old }
        ensures within { PollsWithin (length into.new) result }
        ensures waits { wait ≡ true → result ≡ NotYet → ⊥ }
    {
        match &self.input {
            Some(shared) => shared.poll(&self.rt, wait, into),
            None => poll_next(&self.rt, &mut self.rt.reader(), into),
        }
    }
}

impl<R: Files + Input + Print + Clock + Wait> World for RealWorld<R> {
    ghost told = { λ w. real_told w.words.items w.name w.file_length w.input_length w.polls w.file_faults w.poll_faults w.put_faults w.file_ended w.poll_ended };

    fn words(&self) -> &[ArgText] {
        self.words.as_slice()
    }

    fn read_file(&mut self, name: &ArgText, into: &mut [u8]) -> FileRead {
        self.name = Some(place_of(self.words.as_slice(), name));
        self.open_once(name);
        let read = match &mut self.file {
            Some(file) => read_next(&self.rt, file, into),
            None => FileRead::Failed,
        };
        match read {
            FileRead::Took(n) => self.file_length = self.file_length.saturating_add(n as u64),
            FileRead::End => self.file_ended = true,
            FileRead::Failed => self.file_faults = self.file_faults.saturating_add(1),
        }
        read
    }

    fn poll(&mut self, wait: bool, into: &mut [u8]) -> Polled {
        self.polls = self.polls.saturating_add(1);
        let polled = self.next_bytes(wait, into);
        match polled {
            Polled::Took(n) => self.input_length = self.input_length.saturating_add(n as u64),
            Polled::NotYet => {}
            Polled::End => self.poll_ended = true,
            Polled::Failed => self.poll_faults = self.poll_faults.saturating_add(1),
        }
        polled
    }

    fn put(&mut self, piece: &[u8]) -> Put {
        let put = put_to(&self.rt, &mut io::writer(&self.rt), piece);
        match put {
            Put::Took(_) => {}
            Put::Failed => self.put_faults = self.put_faults.saturating_add(1),
        }
        put
    }
}
