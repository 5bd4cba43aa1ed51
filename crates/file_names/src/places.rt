//! The places of texts in bytes, by the length of the text.

ghost use Rattle.std.specs.Prelude.{◌≡◌, ◌≢◌, ℕ, ◌+◌, ◌≤◌, ◌<◌, ◌^◌, IfOk, MatchOption, length, slice_index};
ghost use Rattle.file_names.specs.Homes.{AreEnds, ArePlaces};

use dbg_traits::NoMemory;
use std::alloc::Global;

/// The places where no text stands but the empty one: those of zero bytes, and the end.
pub fn ends_of(alloc: Global, bytes: &[u8]) -> Result<Vec<u32>, NoMemory>
    requires { length bytes.now < 2 ^ 32 }
    ensures { IfOk result (λ places. ArePlaces bytes.now places.items 0) }
{
    let mut places = Vec::new(alloc);
    for (place, byte) in bytes.iter().enumerate() {
        if *byte == 0 {
            places.push(place as u32)?;
        }
    }
    places.push(bytes.len() as u32)?;
    Ok(places)
}

// The place before, if a byte of a text stands there.
fn place_before(bytes: &[u8], place: u32) -> Option<u32>
    requires { place ≤ length bytes.now }
    ensures { MatchOption result ((p : ℕ) → p + 1 ≡ place → slice_index bytes.now p ≡ 0) (λ p. (p + 1 ≡ place) × (slice_index bytes.now p ≢ 0)) }
{
    if place == 0 {
        return None;
    }
    let before = place - 1;
    if bytes[before as usize] == 0 {
        return None;
    }
    Some(before)
}

/// The places where texts of one byte more stand.
pub fn places_before(
    alloc: Global,
    bytes: &[u8],
    places: &[u32],
    size: usize,
) -> Result<Vec<u32>, NoMemory>
    requires { ArePlaces bytes.now places.now size }
    ensures { IfOk result (λ before. ArePlaces bytes.now before.items (size + 1)) }
{
    let mut before = Vec::new(alloc);
    for place in places {
        if let Some(found) = place_before(bytes, *place) {
            before.push(found)?;
        }
    }
    Ok(before)
}

/// Where the text at each place ends, also at the end of the bytes.
pub fn text_ends(alloc: Global, bytes: &[u8]) -> Result<Vec<u32>, NoMemory>
    requires { length bytes.now < 2 ^ 32 }
    ensures { IfOk result (λ ends. AreEnds bytes.now ends.items) }
{
    let count = bytes.len();
    let mut ends = vec![in alloc; count as u32; count + 1]?;
    let mut place = count;
    while place > 0 {
        place -= 1;
        ends[place] = if bytes[place] == 0 {
            place as u32
        } else {
            ends[place + 1]
        };
    }
    Ok(ends)
}
