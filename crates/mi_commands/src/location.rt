//! Where a breakpoint is wanted.

ghost use Rattle.std.specs.Prelude.{◌≡◌, ◌<◌, length, IfSome, IfOk};
ghost use Rattle.std.specs.Option.{option_map};
ghost use Rattle.mi_commands.specs.Locations.{last_colon, line_of, location_of, location_at};

use crate::bytes::copy;
use crate::command::Location;
use dbg_traits::ByteList;
use mi_text::{digits_number, number_of};
use std::alloc::{AllocError, Global};

/// A location whose texts stand in the line.
#[derive(Clone, Copy)]
pub enum Place<'a> {
    /// `*N`.
    Address(u32),
    /// `FILE:LINE`.
    Line(&'a [u8], u32),
    /// A symbol's name.
    Name(&'a [u8]),
}

// The place of the last `:`.
fn last_colon(bytes: &[u8]) -> Option<usize>
    ensures place { result ≡ last_colon bytes.now }
    ensures within { IfSome result (λ k. k < length bytes.now) }
{
    let mut place = bytes.len();
    'bytes: while place > 0 {
        place -= 1;
        if bytes[place] == b':' {
            return Some(place);
        }
    }
    None
}

fn line_of(file: &[u8], line: Option<u32>) -> Option<Place<'_>>
    ensures { option_map location_at result ≡ line_of file.now line }
{
    let n = line?;
    if file.is_empty() || !(1 <= n && n < 1 << 31) {
        return None;
    }
    Some(Place::Line(file, n))
}

/// The location that a word spells.
pub fn location_of(word: &[u8]) -> Option<Place<'_>>
    ensures { option_map location_at result ≡ location_of word.now }
{
    match word {
        [] => None,
        [b'*', digits @ ..] => Some(Place::Address(number_of(digits)?)),
        _ => match last_colon(word) {
            Some(k) => line_of(&word[..k], digits_number(10, &word[k + 1..])),
            None => Some(Place::Name(word)),
        },
    }
}

impl Place<'_> {
    /// The same location with texts of its own.
    pub fn owned(self, alloc: Global) -> Result<Location, AllocError>
        ensures { IfOk result (λ location. location ≡ location_at self.entry) }
    {
        match self {
            Place::Address(n) => Ok(Location::Address(n)),
            Place::Line(file, line) => Ok(Location::Line {
                file: copy(alloc, file)?,
                line,
            }),
            Place::Name(name) => Ok(Location::Name(copy(alloc, name)?)),
        }
    }
}
