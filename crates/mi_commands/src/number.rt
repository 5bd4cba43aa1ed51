//! Which words are numbers, and of which range.

ghost use Rattle.std.specs.Prelude.{◌≡◌};
ghost use Rattle.mi_commands.specs.Numbers.{bytes_in, first_and_others, in_range, is_bad, number, range_in};

use mi_text::number_of;

/// The numbers that a command takes at some place.
#[derive(Clone, Copy)]
pub enum Range {
    /// 0 to 2^32 - 1.
    Any,
    /// 0 to 2^31 - 1.
    Count,
    /// 0 to 32.
    Register,
    /// 1 to 4,096.
    Length,
}

/// Which parameters of a command are numbers, and of which range.
#[derive(Clone, Copy)]
pub enum Numbers {
    NoNumbers,
    /// Each is any number.
    Each,
    /// The first is any number, the others are words.
    First,
    /// The first is any number, the others are counts.
    WithCount,
    /// The first is any number, the others are lengths.
    WithLength,
    /// The first is any number, the second is bytes, and behind them stands a length.
    AroundBytes,
    /// The first is a word, the others are numbers of registers.
    Registers,
}

/// The number of a word that is one.
pub fn number(word: &[u8]) -> u32
    ensures { result ≡ number word.now }
{
    number_of(word).unwrap_or(0)
}

impl Range {
    fn holds(self, n: u32) -> bool
        ensures { result ≡ in_range self n }
    {
        match self {
            Range::Any => true,
            Range::Count => n < 1 << 31,
            Range::Register => n <= 32,
            Range::Length => 1 <= n && n <= 4096,
        }
    }
}

// The range of the first parameter, or that of the others.
fn first_and_others(first: Option<Range>, others: Option<Range>, place: usize) -> Option<Range>
    ensures { result ≡ first_and_others first others place }
{
    if place == 0 { first } else { others }
}

impl Numbers {
    /// The numbers that the parameter at this place, from 0, may be; none where it is no number.
    pub fn range_at(self, place: usize) -> Option<Range>
        ensures { result ≡ range_in self place }
    {
        match self {
            Numbers::NoNumbers => None,
            Numbers::Each => Some(Range::Any),
            Numbers::First => first_and_others(Some(Range::Any), None, place),
            Numbers::WithCount => first_and_others(Some(Range::Any), Some(Range::Count), place),
            Numbers::WithLength | Numbers::AroundBytes => {
                first_and_others(Some(Range::Any), Some(Range::Length), place)
            }
            Numbers::Registers => first_and_others(None, Some(Range::Register), place),
        }
    }

    /// Whether the parameter at this place, from 0, is bytes, each as two hexadecimal digits.
    pub fn has_bytes_at(self, place: usize) -> bool
        ensures { result ≡ bytes_in self place }
    {
        match self {
            Numbers::AroundBytes => place == 1,
            _ => false,
        }
    }
}

/// Whether the word is no number of the range that is wanted, if one is.
pub fn is_bad(range: Option<Range>, word: &[u8]) -> bool
    ensures { result ≡ is_bad range word.now }
{
    let Some(range) = range else {
        return false;
    };
    match number_of(word) {
        Some(n) => !range.holds(n),
        None => true,
    }
}
