// Names of files among the words.
ghost use Rattle.std.specs.Prelude.{◌≡◌, ◌++◌, ℕ, List, drop, MatchOption};
ghost use Rattle.dbg_traits.specs.Names.{IsNamed, name_at};

use crate::ArgText;

/// The place of a name among the words: the number of the word, and where in it the name begins.
#[derive(Clone, Copy)]
pub struct NamePlace {
    pub word: usize,
    pub from: usize,
}

/// The first place at which a word ends with the name.
pub fn place_of(words: &[ArgText], name: &ArgText) -> NamePlace
    requires { IsNamed words.now name.now }
    ensures { name_at words.now result.word result.from ≡ name.now }
{
    for (i, word) in words.iter().enumerate() {
        if let Some(from) = end_place(word.as_str().as_bytes(), name.as_str().as_bytes()) {
            return NamePlace { word: i, from };
        }
    }
    unreachable!()
}

// Where the end of a word begins that is the name, if there is one.
#[tactic(auto, using(crate::proofs::Ends::no_end))]
pub(crate) fn end_place(word: &[u8], name: &[u8]) -> Option<usize>
    ensures { MatchOption result ((front : List ℕ) → word.now ≡ front ++ name.now → ⊥) (λ from. drop from word.now ≡ name.now) }
{
    match word.strip_suffix(name) {
        Some(front) => Some(front.len()),
        None => None,
    }
}
