//! The token of a command and of its result: at most 18 digits.

ghost use Rattle.std.specs.Prelude.{◌≡◌, [], true};
ghost use Rattle.std.specs.List.{list_all};
ghost use Rattle.mi_text.specs.Digits.{is_digit};
ghost use Rattle.mi_text.specs.Token.{is_token};

use crate::digits::is_digit;
use arrayvec::ArrayVec;
use std::marker::Model;

/// A token as its digits, none where there is no token. It needs no memory beside itself. Contracts see its digits.
#[derive(Debug, Drop)]
pub struct Token {
    digits: ArrayVec<u8, 18>,
}

impl Model for Token {
    ghost use Rattle.std.specs.Prelude.{ℕ, List, ◌≡◌, true};
    ghost use Rattle.std.specs.List.{list_all};
    ghost use Rattle.mi_text.specs.Digits.{is_digit};

    ghost Value = { List ℕ };

    ghost view = { λ t. t.digits.items };

    // There is room for 18.
    ghost invariant = { λ t. list_all is_digit t.digits.items ≡ true };
}

impl Token {
    /// The most digits that a token has.
    pub const MOST: usize = 18;

    /// The token of at most 18 bytes, each a decimal digit (`is_token` tells whether they are). No bytes are no token.
    pub fn new(digits: &[u8]) -> Token
        requires { is_token digits.now ≡ true }
        ensures { result ≡ digits.now }
    {
        let mut kept = ArrayVec::new();
        kept.try_extend_from_slice(digits).unwrap();
        Token { digits: kept }
    }

    /// No token: no digits.
    pub fn none() -> Token
        ensures { result ≡ [] }
    {
        Token {
            digits: ArrayVec::new(),
        }
    }

    /// The same token once more.
    pub fn copied(&self) -> Token
        ensures { result ≡ self.now }
    {
        Token::new(self.as_bytes())
    }

    /// The digits, at most 18 bytes; none where there is no token.
    pub fn as_bytes(&self) -> &[u8]
        ensures value { result.now ≡ self.now }
        ensures token { is_token self.now ≡ true }
    {
        self.digits.as_slice()
    }
}

fn are_digits(bytes: &[u8]) -> bool
    ensures { result ≡ list_all is_digit bytes.now }
{
    bytes.iter().all(|b| is_digit(*b))
}

/// Whether these bytes are a token: at most 18 digits.
pub fn is_token(bytes: &[u8]) -> bool
    ensures { result ≡ is_token bytes.now }
{
    bytes.len() <= Token::MOST && are_digits(bytes)
}
