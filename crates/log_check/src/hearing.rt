//! A text, compared with what is said while it is said.

ghost use Rattle.std.specs.Prelude.{◌≡◌, ℕ, List, [], true};
ghost use Rattle.log_check.specs.Agreeing.{Agrees, Hears, IsCommon, IsWithin, repeated};
ghost use Rattle.log_check.specs.Verdict.{Told};

use crate::verdict::CheckVerdict;
use std::alloc::Global;

/// How far a text agrees with what was said.
#[derive(Drop)]
pub struct Hearing<'a> {
    pub text: &'a [u8],
    /// What is said next; emptied each time.
    pub piece: Vec<u8>,
    /// So many bytes of the text are what was said.
    pub at: usize,
    /// Whether that is all that was said.
    pub same: bool,
}

// How long the longest common front is.
fn common_length(text: &[u8], piece: &[u8]) -> usize
    ensures { IsCommon text.now piece.now result }
{
    for (i, heard) in text.iter().enumerate() {
        if i == piece.len() || *heard != piece[i] {
            return i;
        }
    }
    text.len()
}

impl<'a> Hearing<'a> {
    /// Nothing was said.
    pub fn new(alloc: Global, text: &'a [u8]) -> Hearing<'a>
        ensures text { result.text.now ≡ text.now }
        ensures piece { result.piece.items ≡ [] }
        ensures at { result.at ≡ 0 }
        ensures same { result.same ≡ true }
    {
        Hearing {
            text,
            piece: Vec::new(alloc),
            at: 0,
            same: true,
        }
    }

    /// The piece was said behind what was said before.
    pub fn hear(&mut self)
        requires { IsWithin self.old }
        ensures hears { Hears self.old.piece.items self.old self.new }
        ensures piece { self.new.piece ≡ self.old.piece }
    {
        if !self.same {
            return;
        }
        let common = common_length(&self.text[self.at..], self.piece.as_slice());
        self.at += common;
        self.same = common == self.piece.len();
    }

    /// The piece was said so many times.
    pub fn hear_often(&mut self, count: u64)
        requires { IsWithin self.old }
        ensures { Hears (repeated self.old.piece.items count) self.old self.new }
    {
        if self.piece.is_empty() {
            return;
        }
        for said in 0..count {
            self.hear();
        }
    }

    /// Nothing more is said.
    pub fn verdict(&self) -> CheckVerdict
        ensures { (said : List ℕ) → Agrees said self.now → Told self.now.text.now said result }
    {
        if self.same && self.at == self.text.len() {
            CheckVerdict::Accepted
        } else {
            CheckVerdict::Differs { place: self.at }
        }
    }
}
