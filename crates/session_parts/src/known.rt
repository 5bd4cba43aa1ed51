// What a session knows of the rest of its input, so that it isn't searched again.
ghost use Rattle.std.specs.Prelude.{◌≡◌, List, ℕ, ◌++◌, false};
ghost use Rattle.mi_input.specs.Lines.{lines};
ghost use Rattle.session_parts.specs.Taking.{IsKnown, known_behind};

use mi_input::next_line;

#[derive(Clone, Copy)]
pub enum Known {
    /// Nothing.
    Open,
    /// No whole line stands in it.
    NoLine,
    /// Its first line is the command that waits until no hart runs.
    Waits,
}

impl Known {
    /// What is known once this piece came behind the rest: the rest isn't searched again for the end of its line.
    pub fn behind(self, piece: &[u8]) -> Known
        ensures known { (rest : List ℕ) → IsKnown self false rest → IsKnown result false (rest ++ piece.now) }

        // That no line has ended is forgotten only where one ends in the piece.
        ensures kept { result ≡ known_behind self (lines piece.now false) }
    {
        match self {
            Known::NoLine if next_line(piece, false).is_none() => Known::NoLine,
            _ => Known::Open,
        }
    }
}
