// Stored words.
ghost use Rattle.std.specs.Prelude.{◌≡◌};
ghost use Rattle.text_words.specs.Words.{stored_as};

use crate::fetch::Fetch;

/// EBREAK.
pub const EBREAK: u32 = 0x0010_0073;

/// The stored word where the program has a word and a hart finds this: EBREAK at a planted breakpoint.
#[inline(always)]
pub fn stored_word(word: u32, fetched: &Fetch) -> u32
    ensures { result ≡ stored_as word fetched.now }
{
    match fetched {
        Fetch::Planted => EBREAK,
        Fetch::Absent | Fetch::Illegal | Fetch::Instruction(_) => word,
    }
}
