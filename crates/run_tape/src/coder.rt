// `Coder`: marks are written as bytes.
ghost use Rattle.std.specs.Prelude.{◌≡◌, ◌≤◌, ◌<◌, ◌+◌, ◌*◌, ◌%◌, ◌^◌, ◌++◌, ◌∷◌, [], length, OnOk, OnErr};
ghost use Rattle.run_tape.specs.declared.marks.Mark.TheVariants.{Run, Note};

use crate::marks::Marks;
use crate::turns::Turns;
use std::alloc::{AllocError, Global};
use std::marker::Model;

// A length is small.
fn length_of(bytes: &[u8]) -> usize
    ensures value { result ≡ length bytes.now }
    ensures small { result < 2 ^ 63 }
{
    bytes.len()
}

/// In how many digits of six bits a number is told.
fn digits_of(number: u64) -> u32
    requires { number < 2 ^ 57 }
    ensures fits { number < 64 ^ result }
    ensures ten { result ≤ 10 }
    ensures five { number < 2 ^ 27 → result ≤ 5 }
{
    if number == 0 {
        0
    } else if number < 64 {
        1
    } else if number < 4096 {
        2
    } else if number < 0x0800_0000 {
        5
    } else {
        10
    }
}

/// Bytes that tell marks. Contracts see the marks, the hart that is expected, the number whose digits were told, and for how many
/// bytes there is room.
#[derive(Drop)]
pub struct Coder {
    bytes: Vec<u8>,
    turns: Turns,
}

impl Model for Coder {
    ghost use Rattle.run_tape.specs.Coded.{Coded};

    ghost Value = { Coded };

    ghost use Rattle.run_tape.specs.CoderInside.{coded_of, Sound};

    ghost view = { coded_of };

    ghost invariant = { Sound };
}

impl Coder {
    /// No bytes.
    pub fn new(alloc: Global) -> Coder
        ensures marks { result.marks ≡ [] }
        ensures number { result.number ≡ 0 }
    {
        Coder {
            bytes: Vec::new(alloc),
            turns: Turns::start(),
        }
    }

    /// Makes room for so many bytes.
    pub fn reserve(&mut self, bytes: usize) -> Result<(), AllocError>
        ensures ok { OnOk result (bytes ≤ self.new.room) }
        ensures same { self.new ≡ record self.old { room = self.new.room } }
        ensures least { self.old.room ≤ self.new.room }
        ensures err { OnErr result (self.new ≡ self.old) }
    {
        self.bytes.reserve(bytes)
    }

    // Six bits more of a number.
    fn push_digit(&mut self, digit: u8)
        requires digit { digit < 64 }
        requires room { 0 < self.old.room }
        ensures number { self.new.number ≡ self.old.number % 2 ^ 58 * 64 + digit }
        ensures marks { self.new.marks ≡ self.old.marks }
        ensures expected { self.new.expected ≡ self.old.expected }
        ensures room { self.new.room + 1 ≡ self.old.room }
    {
        self.bytes.push_reserved(128 + digit);
        self.turns.digit(128 + digit);
    }

    // A number in so many digits.
    fn push_digits(&mut self, number: u64, digits: u32)
        requires number { number < 64 ^ digits }
        requires none { self.old.number ≡ 0 }
        requires room { digits ≤ self.old.room }
        ensures number { self.new.number ≡ number }
        ensures marks { self.new.marks ≡ self.old.marks }
        ensures expected { self.new.expected ≡ self.old.expected }
        ensures room { self.new.room + digits ≡ self.old.room }
    {
        if digits > 0 {
            self.push_digits(number / 64, digits - 1);
            self.push_digit((number % 64) as u8);
        }
    }

    // A number that other bits follow; of 0 nothing is told.
    #[inline]
    fn push_number(&mut self, number: u64)
        requires number { number < 2 ^ 57 }
        requires none { self.old.number ≡ 0 }
        requires room { 10 ≤ self.old.room }
        ensures number { self.new.number ≡ number }
        ensures marks { self.new.marks ≡ self.old.marks }
        ensures expected { self.new.expected ≡ self.old.expected }
        ensures room { self.old.room ≤ self.new.room + 10 }
        ensures five { number < 2 ^ 27 → self.old.room ≤ self.new.room + 5 }
    {
        if number > 0 {
            self.push_digits(number, digits_of(number));
        }
    }

    // The last seven bits of a count, which ends a run.
    fn push_count(&mut self, low: u8)
        requires low { low < 128 }
        requires room { 0 < self.old.room }
        ensures marks { self.new.marks ≡ self.old.marks ++ Run self.old.expected (self.old.number % 2 ^ 57 * 128 + low) ∷ [] }
        ensures number { self.new.number ≡ 0 }
        ensures room { self.new.room + 1 ≡ self.old.room }
    {
        self.bytes.push_reserved(low);
        self.turns.go();
    }

    // The last five bits of the number of the hart that is expected.
    fn push_hart(&mut self, low: u8)
        requires low { low < 32 }
        requires room { 0 < self.old.room }
        ensures marks { self.new.marks ≡ self.old.marks }
        ensures expected { self.new.expected ≡ self.old.number % 2 ^ 27 * 32 + low }
        ensures number { self.new.number ≡ 0 }
        ensures room { self.new.room + 1 ≡ self.old.room }
    {
        self.bytes.push_reserved(192 + low);
        self.turns.expect(192 + low);
    }

    /// A run of the expected hart.
    pub fn run(&mut self, count: u64)
        requires none { self.old.number ≡ 0 }
        requires room { 11 ≤ self.old.room }
        ensures marks { self.new.marks ≡ self.old.marks ++ Run self.old.expected count ∷ [] }
        ensures number { self.new.number ≡ 0 }
        ensures room { self.old.room ≤ self.new.room + 11 }
    {
        self.push_number(count / 128);
        self.push_count((count % 128) as u8);
    }

    // Another hart is expected.
    fn expect(&mut self, hart: u32)
        requires none { self.old.number ≡ 0 }
        requires room { 11 ≤ self.old.room }
        ensures marks { self.new.marks ≡ self.old.marks }
        ensures expected { self.new.expected ≡ hart }
        ensures number { self.new.number ≡ 0 }
        ensures room { self.old.room ≤ self.new.room + 6 }
    {
        self.push_number(u64::from(hart / 32));
        self.push_hart((hart % 32) as u8);
    }

    /// Says which hart runs next, where it isn't the one that is expected.
    pub fn turn_to(&mut self, hart: u32)
        requires none { self.old.number ≡ 0 }
        requires room { 11 ≤ self.old.room }
        ensures marks { self.new.marks ≡ self.old.marks }
        ensures expected { self.new.expected ≡ hart }
        ensures number { self.new.number ≡ 0 }
        ensures room { self.old.room ≤ self.new.room + 6 }
    {
        if self.turns.expected != hart {
            self.expect(hart);
        }
    }

    /// Something else stands here.
    pub fn note(&mut self)
        requires room { 0 < self.old.room }
        ensures marks { self.new.marks ≡ self.old.marks ++ Note ∷ [] }
        ensures number { self.new.number ≡ self.old.number }
        ensures room { self.new.room + 1 ≡ self.old.room }
    {
        self.bytes.push_reserved(224);
    }

    /// The marks in order.
    pub fn marks(&self) -> Marks<'_>
        ensures marks { result ≡ self.now.marks }
        ensures few { length self.now.marks < 2 ^ 63 }
    {
        let bytes = self.bytes.as_slice();
        let _few = length_of(bytes);
        Marks::of(bytes)
    }
}
