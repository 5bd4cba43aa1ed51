//! How long the texts of `.debug_str` are, by their places.
//!
//! Texts may share their ends, so what stands behind a place is kept for each place, and is filled from the section's end on.

ghost use Rattle.std.specs.Prelude.{◌≡◌, ◌<◌, ◌≤◌, ◌+◌, ◌^◌, IfOk, drop, length, nat_lt};
ghost use Rattle.leb_read.specs.Leb.{text_from};
ghost use Rattle.debug_info.specs.TextLengths.{AreLengths};

use dbg_traits::NoMemory;
use std::alloc::Global;

/// How many bytes stand from each place of a section on before the next zero byte, or before the section's end.
#[derive(Drop)]
pub struct TextLengths {
    /// The last place's first.
    lengths: Vec<u32>,
}

// The length of the text at a place, by that of the text behind it.
#[tactic(auto, using(crate::proofs::Texts::at_zero, crate::proofs::Texts::at_byte))]
fn length_before(section: &[u8], at: usize, behind: u32) -> u32
    requires short { length section.now < 2 ^ 32 }
    requires within { at < length section.now }
    requires room { behind + at < length section.now }
    requires behind { behind ≡ length (text_from section.now (at + 1)) }
    ensures value { result ≡ length (text_from section.now at) }
    ensures room { result + at ≤ length section.now }
{
    if section[at] == 0 { 0 } else { behind + 1 }
}

/// The lengths of the texts of a section.
pub fn text_lengths_of(alloc: Global, section: &[u8]) -> Result<TextLengths, NoMemory>
    requires { length section.now < 2 ^ 32 }
    ensures { IfOk result (AreLengths section.now) }
{
    let mut lengths = Vec::with_capacity(alloc, section.len() + 1)?;
    let mut length = 0u32;
    lengths.push(length)?;
    let mut left = section.len();
    'places: while left > 0 {
        left -= 1;
        length = length_before(section, left, length);
        lengths.push(length)?;
    }
    Ok(TextLengths { lengths })
}

impl TextLengths {
    // The length of the text at a place of the section.
    fn length_at(&self, section: &[u8], at: usize) -> usize
        requires lengths { AreLengths section.now self.now }
        requires within { at ≤ length section.now }
        ensures { result ≡ length (text_from section.now at) }
    {
        self.lengths[section.len() - at] as usize
    }

    /// The bytes of the section from a place up to the first zero byte.
    pub fn text<'a>(&self, section: &'a [u8], at: usize) -> &'a [u8]
        requires { AreLengths section.now self.now }
        ensures { result.now ≡ text_from section.now at }
    {
        if section.len() < at {
            return &[];
        }
        let front = &section[at..];
        &front[..self.length_at(section, at)]
    }

    /// Whether the text at a place of the section has its zero byte.
    pub fn is_ended(&self, section: &[u8], at: usize) -> bool
        requires { AreLengths section.now self.now }
        ensures { result ≡ nat_lt (length (text_from section.now at)) (length (drop at section.now)) }
    {
        at <= section.len() && self.length_at(section, at) < section.len() - at
    }
}
