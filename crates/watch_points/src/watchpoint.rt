// Watches: bytes whose change stops the hart that changed them.
ghost use Rattle.std.specs.Prelude.{◌≡◌, IfOk, length};
ghost use Rattle.std.specs.Option.{option_map};
ghost use Rattle.rv_exec.specs.Memory.{IsLen};
ghost use Rattle.data_memory.specs.Ranges.{bytes_at};
ghost use Rattle.watch_points.specs.Watches.{is_one_of, unless_of, word_of, worth};

use crate::words::word_of;
use data_memory::DataMemory;
use dbg_traits::ByteList;
use std::alloc::{AllocError, Global};

/// Bytes that the user watches.
#[derive(Drop)]
pub struct Watch {
    /// From 1 on, in one series with the numbers of breakpoints.
    pub number: u32,
    /// The text by which the bytes were given.
    pub text: ByteList,
    /// Where they begin. They go on modulo 2^32.
    pub address: u32,
    /// How many they are: 1, 2 or 4.
    pub size: u32,
    /// Whether their value has a sign, as that of an `int` has.
    pub signed: bool,
    pub enabled: bool,
    /// How many arrivals it stopped, or would have but for a breakpoint.
    pub times: u64,
}

/// A watch whose bytes an instruction changed.
#[derive(Clone, Copy, Debug)]
pub struct Fired {
    /// The watch's number.
    pub number: u32,
    /// What its bytes were worth before, as a word.
    pub old: u32,
    /// What they are worth since.
    pub new: u32,
}

impl Watch {
    /// The same watch, in memory of its own.
    pub fn copied(&self, alloc: Global) -> Result<Watch, AllocError>
        ensures { IfOk result (λ w. w ≡ self.now) }
    {
        Ok(Watch {
            number: self.number,
            text: ByteList::of(Vec::from_slice(alloc, self.text.as_slice())?),
            address: self.address,
            size: self.size,
            signed: self.signed,
            enabled: self.enabled,
            times: self.times,
        })
    }

    /// What its bytes are worth, as a word; none where one of them isn't mapped.
    pub fn worth(&self, memory: &DataMemory) -> Option<u32>
        requires { IsLen self.now.size }
        ensures { result ≡ worth memory.now self.now }
    {
        match self.size {
            1 => word_at(memory, self.address, self.signed, &mut [0; 1]),
            2 => word_at(memory, self.address, self.signed, &mut [0; 2]),
            _ => word_at(memory, self.address, self.signed, &mut [0; 4]),
        }
    }
}

// The word of as many bytes as are read, where all of them are mapped.
fn word_at(memory: &DataMemory, address: u32, signed: bool, bytes: &mut [u8]) -> Option<u32>
    requires { IsLen (length bytes.old) }
    ensures { result ≡ option_map (word_of signed) (bytes_at memory.now address (length bytes.old)) }
{
    match memory.read_range(address, bytes) {
        Ok(()) => Some(word_of(signed, bytes)),
        Err(_unmapped) => None,
    }
}

/// Whether a number is one of these.
pub fn is_one_of(numbers: &[u32], number: u32) -> bool
    ensures { result ≡ is_one_of numbers.now number }
{
    numbers.iter().any(|n| *n == number)
}

/// The watch that fired, unless it has one of these numbers.
pub fn unless_of(numbers: &[u32], fired: Option<Fired>) -> Option<Fired>
    ensures { result ≡ unless_of numbers.now fired }
{
    match fired {
        None => None,
        Some(fired) => {
            if is_one_of(numbers, fired.number) {
                None
            } else {
                Some(fired)
            }
        }
    }
}
