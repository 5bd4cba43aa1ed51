// A world in memory.
ghost use Rattle.std.specs.Prelude.{◌≡◌, ◌<◌, ◌≤◌, ◌+◌, ◌++◌, [], ◌∷◌, length, take, map, MatchBool, Some, vec_len};
ghost use Rattle.memory_world.specs.Script.{ask_seen};

use crate::script::{Asked, Cue, Place, next_place};
use dbg_traits::{ArgText, FileRead, NamePlace, Polled, Put, World, place_of};
use std::alloc::Global;

/// The greatest lengths of one read of the file, one poll and one put, and the numbers of the reads and puts that fail, from 1.
#[derive(Drop)]
pub struct Limits {
    pub read: usize,
    pub poll: usize,
    pub put: usize,
    pub failing_reads: Vec<u64>,
    pub failing_puts: Vec<u64>,
    ghost some_read: { 0 < read },
    ghost some_poll: { 0 < poll },
    ghost some_put: { 0 < put },
}

/// The file that is read: its name's place among the words, its number (past the end where no file has the name), and the bytes that were taken.
#[derive(Clone, Copy)]
struct Reading {
    name: NamePlace,
    file: usize,
    at: usize,
}

/// A world whose files, input and output are in memory.
#[derive(Drop)]
pub struct MemWorld {
    words: Vec<ArgText>,
    files: Vec<(ArgText, Vec<u8>)>,
    script: Vec<Cue>,
    limits: Limits,
    reading: Option<Reading>,
    reads: u64,
    file_length: u64,
    file_faults: u64,
    file_ended: bool,
    place: Place,
    asks: Vec<Asked>,
    polls: u64,
    input_length: u64,
    poll_faults: u64,
    poll_ended: bool,
    output: Vec<u8>,
    puts: u64,
    put_faults: u64,
}

impl MemWorld {
    ghost use Rattle.dbg_traits.specs.Told.{IsFresh};
    ghost use Rattle.memory_world.specs.MemWorld.{told_first, told_of};

    /// A world with these words, files (a name and its bytes) and scripted input.
    pub fn new(
        alloc: Global,
        words: Vec<ArgText>,
        files: Vec<(ArgText, Vec<u8>)>,
        script: Vec<Cue>,
        limits: Limits,
    ) -> MemWorld
        ensures words { (told_of result).words ≡ words.items }
        ensures fresh { IsFresh (told_of result) }
        ensures told { told_of result ≡ told_first words.items }
    {
        MemWorld {
            words,
            files,
            script,
            limits,
            reading: None,
            reads: 0,
            file_length: 0,
            file_faults: 0,
            file_ended: false,
            place: Place { cue: 0, byte: 0 },
            asks: Vec::new(alloc),
            polls: 0,
            input_length: 0,
            poll_faults: 0,
            poll_ended: false,
            output: Vec::new(alloc),
            puts: 0,
            put_faults: 0,
        }
    }

    /// The written bytes.
    pub fn output(&self) -> &[u8]
        ensures { (told_of self.now).written ≡ Some result.now }
    {
        self.output.as_slice()
    }
}

// The number of the file of a name, or the number of files where none has it.
fn file_of(files: &[(ArgText, Vec<u8>)], name: &ArgText) -> usize {
    for (i, file) in files.iter().enumerate() {
        if file.0.as_str() == name.as_str() {
            return i;
        }
    }
    files.len()
}

// Copies as much as both have from a place on, and says how much that is.
fn copy_from(from: &[u8], at: usize, into: &mut [u8], most: usize) -> usize
    requires some { 0 < most }
    requires from { at < length from.now }
    requires into { 0 < length into.old }
    ensures some { 0 < result }
    ensures within { result ≤ length into.new }
    ensures from { at + result ≤ length from.now }
    ensures grows { take (at + result) from.now ≡ take at from.now ++ take result into.new }
{
    let n = most.min(from.len() - at).min(into.len());
    into[..n].copy_from_slice(&from[at..at + n]);
    n
}

impl World for MemWorld {
    ghost use Rattle.memory_world.specs.MemWorld.{told_of};

    ghost told = { told_of };

    fn words(&self) -> &[ArgText] {
        self.words.as_slice()
    }

    fn read_file(&mut self, name: &ArgText, into: &mut [u8]) -> FileRead {
        let reading = match self.reading {
            Some(reading) => reading,
            None => Reading {
                name: place_of(self.words.as_slice(), name),
                file: file_of(self.files.as_slice(), name),
                at: 0,
            },
        };
        self.reading = Some(reading);
        let reads = self.reads.saturating_add(1);
        self.reads = reads;
        let fails = self.limits.failing_reads.as_slice().contains(&reads);
        if fails || reading.file >= self.files.len() {
            self.file_faults = self.file_faults.saturating_add(1);
            return FileRead::Failed;
        }
        let bytes = self.files[reading.file].1.as_slice();
        if reading.at >= bytes.len() {
            self.file_ended = true;
            return FileRead::End;
        }
        let n = copy_from(bytes, reading.at, into, self.limits.read);
        self.reading = Some(Reading {
            name: reading.name,
            file: reading.file,
            at: reading.at + n,
        });
        self.file_length = self.file_length.saturating_add(n as u64);
        FileRead::Took(n)
    }

    fn poll(&mut self, wait: bool, into: &mut [u8]) -> Polled {
        self.polls = self.polls.saturating_add(1);
        let asked = Asked {
            wait,
            place: self.place,
            written: self.output.len(),
        };
        let place = next_place(self.script.as_slice(), self.place, wait);
        if place.cue >= self.script.len() {
            if self.asks.push(asked).is_err() {
                self.poll_faults = self.poll_faults.saturating_add(1);
                return Polled::Failed;
            }
            self.poll_ended = true;
            return Polled::End;
        }
        let after = Place {
            cue: place.cue + 1,
            byte: 0,
        };
        match &self.script[place.cue] {
            Cue::Quiet => {
                self.place = after;
                Polled::NotYet
            }
            Cue::Fault => {
                self.place = after;
                self.poll_faults = self.poll_faults.saturating_add(1);
                Polled::Failed
            }
            Cue::Piece(bytes) => {
                if self.asks.push(asked).is_err() {
                    self.poll_faults = self.poll_faults.saturating_add(1);
                    return Polled::Failed;
                }
                let n = copy_from(bytes.as_slice(), place.byte, into, self.limits.poll);
                self.place = Place {
                    cue: place.cue,
                    byte: place.byte + n,
                };
                self.input_length = self.input_length.saturating_add(n as u64);
                Polled::Took(n)
            }
        }
    }

    fn put(&mut self, piece: &[u8]) -> Put {
        let puts = self.puts.saturating_add(1);
        self.puts = puts;
        let n = self.limits.put.min(piece.len());
        let fails = self.limits.failing_puts.as_slice().contains(&puts);
        if fails || self.output.extend_from_slice(&piece[..n]).is_err() {
            self.put_faults = self.put_faults.saturating_add(1);
            return Put::Failed;
        }
        Put::Took(n)
    }
}
