// `Marks`: a tape is read, mark by mark.
ghost use Rattle.std.specs.Prelude.{◌≡◌, ◌∷◌, [], true, MatchOption};
ghost use Rattle.std.specs.Iterator.{YieldsFirst, item_count};

use crate::token::{Token, token_of};
use crate::turns::Turns;
use std::marker::Model;

/// One thing that a tape tells.
#[derive(Clone, Copy)]
pub enum Mark {
    /// A hart executed so many instructions.
    Run { hart: u32, count: u64 },
    /// Something else stands here.
    Note,
}

/// What of a tape isn't read yet.
#[derive(Clone, Copy)]
pub struct Reader<'a> {
    pub bytes: &'a [u8],
    pub turns: Turns,
}

impl<'a> Reader<'a> {
    ghost use Rattle.run_tape.specs.Reading.{ends_mark, left_of};
    ghost use Rattle.run_tape.specs.Turning.{gone, count_at};
    ghost use Rattle.run_tape.specs.declared.marks.Mark.TheVariants.{Run};

    // Takes the numbers before the byte that ends the next mark.
    fn pass(&mut self)
        ensures left { left_of self.new ≡ left_of self.old }
        ensures ends { ends_mark self.new.bytes.now ≡ true }
    {
        let [byte, bytes @ ..] = self.bytes else {
            return;
        };
        match token_of(*byte) {
            Token::Count(_) | Token::Note => {}
            Token::Digit(byte) => {
                self.bytes = bytes;
                self.turns.digit(byte);
                self.pass();
            }
            Token::Hart(byte) => {
                self.bytes = bytes;
                self.turns.expect(byte);
                self.pass();
            }
        }
    }

    // The next mark.
    fn step(&mut self) -> Option<Mark>
        ensures { MatchOption result ((left_of self.old ≡ []) × (left_of self.new ≡ [])) (λ m. left_of self.old ≡ m ∷ left_of self.new) }
    {
        self.pass();
        let [byte, bytes @ ..] = self.bytes else {
            return None;
        };
        self.bytes = bytes;
        if *byte < 128 {
            Some(self.run(*byte))
        } else {
            Some(Mark::Note)
        }
    }

    // A run of the expected hart.
    #[inline]
    fn run(&mut self, byte: u8) -> Mark
        ensures mark { result ≡ Run self.old.turns.expected (count_at self.old.turns byte) }
        ensures after { self.new ≡ record self.old { turns = gone self.old.turns } }
    {
        let hart = self.turns.expected;
        let count = self.turns.count(byte);
        self.turns.go();
        Mark::Run { hart, count }
    }
}

/// The marks of a tape in order. Contracts see the list of those that are still to come.
#[derive(Drop)]
pub struct Marks<'a> {
    reader: Reader<'a>,
}

impl<'a> Model for Marks<'a> {
    ghost use Rattle.std.specs.Prelude.{List};
    ghost use Rattle.run_tape.specs.declared.marks.Mark.{Mark};

    ghost Value = { List Mark };

    ghost use Rattle.run_tape.specs.MarksInside.{marks_left};

    ghost view = { marks_left };
}

impl<'a> Marks<'a> {
    ghost use Rattle.run_tape.specs.Telling.{decoded};
    ghost use Rattle.run_tape.specs.Turning.{start};

    // The marks that bytes tell.
    pub(crate) fn of(bytes: &'a [u8]) -> Marks<'a>
        ensures { result ≡ decoded start bytes.now }
    {
        Marks {
            reader: Reader {
                bytes,
                turns: Turns::start(),
            },
        }
    }
}

impl<'a> Iterator for Marks<'a> {
    type Item = Mark;

    ghost next_gives = { YieldsFirst (λ s. s) };

    ghost remaining = { item_count (λ s. s) };

    // Most bytes are a run, and need no more than this.
    #[inline]
    fn next(&mut self) -> Option<Mark> {
        if let [byte, bytes @ ..] = self.reader.bytes {
            if *byte < 128 {
                self.reader.bytes = bytes;
                return Some(self.reader.run(*byte));
            }
        }
        self.reader.step()
    }
}
