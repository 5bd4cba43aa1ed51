// Worlds, as rows describe them.
ghost use Rattle.std.specs.Prelude.{◌<◌, IfOk};
ghost use Rattle.dbg_traits.specs.Told.{IsFresh};
ghost use Rattle.memory_world.specs.MemWorld.{told_of};

use crate::holding::Waiting;
use crate::input;
use dbg_traits::{ArgText, NoMemory};
use elf_gen::{fits, generate, plain};
use memory_world::{Cue, Limits, MemWorld};
use std::alloc::{AllocError, Global};
use test_rows::{RowFault, arguments, hex_words, number, three};

/// The greatest length of a read, a poll and a put, where rows give none.
const WHOLE: u32 = 4096;

/// What is other than usual in a session.
#[derive(Clone, Copy)]
pub enum Trial {
    /// Nothing.
    Plain,
    /// The read of the file of this number fails, from 1 on.
    Read(u32),
    /// The put of this number fails, from 1 on.
    Put(u32),
    /// The first slice waits.
    Held(Waiting),
}

impl Trial {
    /// Nothing, `read NUMBER`, `put NUMBER`, `held hart` or `held idle`.
    pub fn read(text: &str) -> Option<Trial> {
        let (word, rest) = text.split_once(' ').unwrap_or((text, ""));
        match word {
            "" => Some(Trial::Plain),
            "read" => Some(Trial::Read(number(rest)?)),
            "put" => Some(Trial::Put(number(rest)?)),
            "held" => Some(Trial::Held(Waiting::read(rest)?)),
            _ => None,
        }
    }

    /// What the first slice waits for.
    pub fn waiting(self) -> Option<Waiting> {
        match self {
            Trial::Held(waiting) => Some(waiting),
            _ => None,
        }
    }
}

/// A world that is made anew for each session over it.
#[derive(Drop)]
pub struct Plan {
    // The words before the name of the file.
    words: Vec<ArgText>,
    // The bytes of the file `f`, whose name is the last word; without one there is no such word.
    file: Option<Vec<u8>>,
    input: Vec<Cue>,
    // The greatest lengths of one read, one poll and one put.
    most: (u32, u32, u32),
}

// The file of a program of these words, in hexadecimal, and four bytes of data.
fn words_file(alloc: Global, words: &str) -> Result<Vec<u8>, RowFault> {
    let words = hex_words(alloc, words)?;
    let data = [0; 4];
    if !fits(words.as_slice(), &data) {
        return Err(RowFault::Unknown);
    }
    Ok(plain(alloc, words.as_slice(), &data)?)
}

// The file of the generated program of a number.
fn generated(alloc: Global, text: &str) -> Result<Vec<u8>, RowFault> {
    let number = number(text).ok_or(RowFault::Unknown)?;
    Ok(generate(alloc, number)?)
}

fn file_name(alloc: Global) -> Result<ArgText, AllocError> {
    Ok(ArgText::of(String::from_str(alloc, "f")?))
}

// A file with its name.
fn named(alloc: Global, file: &[u8]) -> Result<(ArgText, Vec<u8>), AllocError> {
    let bytes = file.to_vec(alloc)?;
    Ok((file_name(alloc)?, bytes))
}

impl Plan {
    /// No words, no file and no input.
    pub fn new(alloc: Global) -> Plan {
        Plan::over(alloc, None)
    }

    // No words and no input, but this file or none.
    fn over(alloc: Global, file: Option<Vec<u8>>) -> Plan {
        Plan {
            words: Vec::new(alloc),
            file,
            input: Vec::new(alloc),
            most: (WHOLE, WHOLE, WHOLE),
        }
    }

    // Begins again, with this file or none.
    fn begin(&mut self, alloc: Global, file: Option<Vec<u8>>) {
        *self = Plan::over(alloc, file);
    }

    fn begin_program(&mut self, alloc: Global, words: &str) -> Result<(), RowFault> {
        let file = words_file(alloc, words)?;
        self.begin(alloc, Some(file));
        Ok(())
    }

    fn begin_generated(&mut self, alloc: Global, text: &str) -> Result<(), RowFault> {
        let file = generated(alloc, text)?;
        self.begin(alloc, Some(file));
        Ok(())
    }

    // Puts zeros behind the file, so that it has so many bytes.
    fn lengthen(&mut self, text: &str) -> Result<(), RowFault> {
        let length = number(text).ok_or(RowFault::Unknown)?;
        let file = self.file.as_mut().ok_or(RowFault::Unknown)?;
        Ok(file.resize(length as usize, 0)?)
    }

    fn set_options(&mut self, alloc: Global, text: &str) -> Result<(), AllocError> {
        self.words = arguments(alloc, text)?;
        Ok(())
    }

    fn set_most(&mut self, text: &str) -> Result<(), RowFault> {
        self.most = three(text).ok_or(RowFault::Unknown)?;
        Ok(())
    }

    fn push_words(&self, alloc: Global, into: &mut Vec<ArgText>) -> Result<(), NoMemory> {
        for word in &self.words {
            into.push(word.copy()?)?;
        }
        if self.file.is_some() {
            into.push(file_name(alloc)?)?;
        }
        Ok(())
    }

    // The words and the name of the file.
    fn words(&self, alloc: Global) -> Result<Vec<ArgText>, NoMemory> {
        let mut words = Vec::new(alloc);
        self.push_words(alloc, &mut words)?;
        Ok(words)
    }

    // The file with its name, if there is one.
    fn files(&self, alloc: Global) -> Result<Vec<(ArgText, Vec<u8>)>, AllocError> {
        let mut files = Vec::new(alloc);
        if let Some(file) = &self.file {
            files.push(named(alloc, file.as_slice())?)?;
        }
        Ok(files)
    }

    /// Does what a row says. `program WORDS..` begins a plan over a program of these words, in hexadecimal, at 0x10074 with four
    /// bytes of data, `generated NUMBER` over a generated program, and `fileless` over none. Behind it come `length COUNT`, by
    /// which zeros stand behind the program, so that the file has so many bytes; `options WORDS..`; `most READ POLL PUT`, the
    /// greatest lengths of one read, one poll and one put; and rows of `input`.
    pub fn set(&mut self, alloc: Global, word: &str, rest: &str) -> Result<(), RowFault> {
        match word {
            "program" => self.begin_program(alloc, rest),
            "generated" => self.begin_generated(alloc, rest),
            "fileless" => Ok(self.begin(alloc, None)),
            "length" => self.lengthen(rest),
            "options" => Ok(self.set_options(alloc, rest)?),
            "most" => self.set_most(rest),
            _ => input::add(alloc, &mut self.input, word, rest),
        }
    }

    /// Puts bytes behind the input, as a piece.
    pub fn add_piece(&mut self, bytes: Vec<u8>) -> Result<(), RowFault> {
        Ok(self.input.push(Cue::Piece(bytes))?)
    }

    fn limits(&self, alloc: Global, trial: Trial) -> Result<Limits, RowFault> {
        let (read, poll, put) = self.most;
        let (failing_read, failing_put) = match trial {
            Trial::Read(number) => (number, 0),
            Trial::Put(number) => (0, number),
            _ => (0, 0),
        };
        Ok(Limits {
            read: (read as usize).max(1),
            poll: (poll as usize).max(1),
            put: (put as usize).max(1),
            failing_reads: [u64::from(failing_read)].to_vec(alloc)?,
            failing_puts: [u64::from(failing_put)].to_vec(alloc)?,
        })
    }

    // The world of a trial, with these words and files.
    fn world_of(
        &self,
        alloc: Global,
        trial: Trial,
        words: Vec<ArgText>,
        files: Vec<(ArgText, Vec<u8>)>,
    ) -> Result<MemWorld, RowFault>
        ensures { IfOk result (λ w. IsFresh (told_of w)) }
    {
        let input = input::copied(alloc, &self.input)?;
        let limits = self.limits(alloc, trial)?;
        Ok(MemWorld::new(alloc, words, files, input, limits))
    }

    /// The world of a trial.
    pub fn world(&self, alloc: Global, trial: Trial) -> Result<MemWorld, RowFault>
        ensures { IfOk result (λ w. IsFresh (told_of w)) }
    {
        let words = self.words(alloc)?;
        let files = self.files(alloc)?;
        self.world_of(alloc, trial, words, files)
    }
}
