//! One place for all places where the same text stands.

ghost use Rattle.std.specs.Prelude.{◌≡◌, ◌+◌, ◌*◌, ◌<◌, ◌≤◌, ◌^◌, IfOk, length, slice_index};
ghost use Rattle.file_names.specs.Homes.{AreHomes, AreHomesTo, ArePlaces, Settles};

use crate::places::{ends_of, places_before};
use dbg_traits::NoMemory;
use std::alloc::Global;
use std::collections::BTreeMap;

/// What tells apart texts of one length: the home of what is behind the first byte, and that byte.
fn key_of(bytes: &[u8], homes: &[u32], place: usize) -> u64
    requires byte { place < length bytes.now }
    requires home { place + 1 < length homes.now }
    ensures { result ≡ 256 * slice_index homes.now (place + 1) + slice_index bytes.now place }
{
    256 * u64::from(homes[place + 1]) + u64::from(bytes[place])
}

// The home of a key, which is a new key's own place.
fn home_of(met: &mut BTreeMap<u64, u32>, key: u64, place: u32) -> Result<u32, NoMemory>
    ensures { IfOk result (λ home. Settles met.old met.new key place home) }
{
    if let Some(home) = met.get(&key) {
        return Ok(*home);
    }
    met.insert(key, place)?;
    Ok(place)
}

/// Gives the places of texts of one length their homes, by those of texts of one byte less.
fn settle(
    alloc: Global,
    bytes: &[u8],
    places: &[u32],
    size: usize,
    homes: &mut [u32],
) -> Result<(), NoMemory>
    requires homes { AreHomesTo bytes.now homes.old size }
    requires places { ArePlaces bytes.now places.now (size + 1) }
    ensures { IfOk result (λ _. AreHomesTo bytes.now homes.new (size + 1)) }
{
    let mut met = BTreeMap::new(alloc);
    for place in places {
        let key = key_of(bytes, homes, *place as usize);
        let home = home_of(&mut met, key, *place)?;
        homes[*place as usize] = home;
    }
    Ok(())
}

/// The homes of all places of bytes and of their end: a place where the same text stands, one for all of them. The texts are
/// gone over from their ends, those of one length together, so each byte is looked at once.
pub fn homes_of(alloc: Global, bytes: &[u8]) -> Result<Vec<u32>, NoMemory>
    requires { length bytes.now < 2 ^ 32 }
    ensures { IfOk result (λ homes. AreHomes bytes.now homes.items) }
{
    let mut homes = vec![in alloc; bytes.len() as u32; bytes.len() + 1]?;
    let mut places = ends_of(alloc, bytes)?;
    for size in 0..bytes.len() {
        if places.is_empty() {
            return Ok(homes);
        }
        places = places_before(alloc, bytes, &places, size)?;
        settle(alloc, bytes, &places, size, &mut homes)?;
    }
    Ok(homes)
}
