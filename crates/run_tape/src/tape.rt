// `Tape`: what other crates keep.
ghost use Rattle.std.specs.Prelude.{◌≡◌, ◌≤◌, ◌<◌, ◌+◌, ◌^◌, ◌++◌, ◌∷◌, [], length, OnOk, OnErr};
ghost use Rattle.run_tape.specs.declared.marks.Mark.TheVariants.{Run, Note};

use crate::coder::Coder;
use crate::marks::Marks;
use std::alloc::{AllocError, Global};
use std::marker::Model;

/// Runs and other marks in order, each in 1 to 17 bytes: one for a run of the hart that last came behind the hart that ran last,
/// where it made fewer than 128 instructions. Contracts see the marks, and for how many bytes there is room.
#[derive(Drop)]
pub struct Tape {
    coder: Coder,
}

impl Model for Tape {
    ghost use Rattle.run_tape.specs.Taped.{Taped};

    ghost Value = { Taped };

    ghost use Rattle.run_tape.specs.TapeInside.{taped_of, Ended};

    ghost view = { taped_of };

    ghost invariant = { Ended };
}

impl Tape {
    /// A tape without marks.
    pub fn new(alloc: Global) -> Tape
        ensures { result.marks ≡ [] }
    {
        Tape {
            coder: Coder::new(alloc),
        }
    }

    /// Makes room for so many bytes.
    ///
    /// # Errors
    ///
    /// No memory for them.
    pub fn reserve(&mut self, bytes: usize) -> Result<(), AllocError>
        ensures ok { OnOk result (bytes ≤ self.new.room) }
        ensures marks { self.new.marks ≡ self.old.marks }
        ensures least { self.old.room ≤ self.new.room }
        ensures err { OnErr result (self.new ≡ self.old) }
    {
        self.coder.reserve(bytes)
    }

    /// Adds a run, for which there is room.
    #[inline]
    pub fn run(&mut self, hart: u32, count: u64)
        requires { 17 ≤ self.old.room }
        ensures marks { self.new.marks ≡ self.old.marks ++ Run hart count ∷ [] }
        ensures room { self.old.room ≤ self.new.room + 17 }
    {
        self.coder.turn_to(hart);
        self.coder.run(count);
    }

    /// Adds a mark that is no run, for which there is room.
    pub fn note(&mut self)
        requires { 0 < self.old.room }
        ensures marks { self.new.marks ≡ self.old.marks ++ Note ∷ [] }
        ensures room { self.new.room + 1 ≡ self.old.room }
    {
        self.coder.note();
    }

    /// The marks in order.
    pub fn marks(&self) -> Marks<'_>
        ensures marks { result ≡ self.now.marks }
        ensures few { length self.now.marks < 2 ^ 63 }
    {
        self.coder.marks()
    }
}
