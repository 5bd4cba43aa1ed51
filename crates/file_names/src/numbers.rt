//! The numbers of names.

ghost use Rattle.std.specs.Prelude.{◌≡◌, ℕ, ◌+◌, ◌≤◌, ◌<◌, ◌^◌, [], None, All, IfOk, length, map, replicate, slice_index, slice_range};
ghost use Rattle.std.specs.List.{slice_index_or};
ghost use Rattle.file_names.specs.Homes.{AreEnds, AreHomes};
ghost use Rattle.file_names.specs.Numbers.{Numbers, distinct, names_at, number_of};

use crate::homes::homes_of;
use crate::places::text_ends;
use dbg_traits::NoMemory;
use line_rows::FileNames;
use std::alloc::Global;

/// Names by their numbers, and the number of each name that was given.
#[derive(Drop)]
pub struct NameNumbers {
    pub names: FileNames,
    pub numbers: Vec<u32>,
}

/// The next number, which has 32 bits.
fn next_number(count: usize) -> Result<u32, NoMemory>
    ensures { IfOk result (λ n. n ≡ count) }
{
    match u32::try_from(count) {
        Ok(number) => Ok(number),
        Err(_) => Err(NoMemory),
    }
}

fn none_known(alloc: Global, count: usize) -> Result<Vec<Option<u32>>, NoMemory>
    ensures { IfOk result (λ known. known.items ≡ replicate count None) }
{
    Ok(vec![in alloc; None; count]?)
}

// The number of the name at a place of the kept texts, by its home, which for a new home is the next one.
fn number_at(
    place: usize,
    homes: &[u32],
    ends: &[u32],
    known: &mut [Option<u32>],
    names: &mut FileNames,
) -> Result<u32, NoMemory>
    requires place { place < length homes.now }
    requires end { place < length ends.now }
    requires home { slice_index homes.now place < length known.old }
    requires ordered { place ≤ slice_index ends.now place }
    requires within { slice_index ends.now place ≤ length names.old.texts }
    ensures { IfOk result (λ n. Numbers known.old known.new names.old names.new (slice_index homes.now place) (slice_range names.old.texts place (slice_index ends.now place)) n) }
{
    let home = homes[place] as usize;
    if let Some(number) = known[home] {
        return Ok(number);
    }
    let number = next_number(names.count())?;
    names.push_part(place, ends[place] as usize)?;
    known[home] = Some(number);
    Ok(number)
}

// The number of the name at each place of the kept texts, where none has one yet. The names come to be.
fn number_places(
    alloc: Global,
    places: &[u32],
    homes: &[u32],
    ends: &[u32],
    known: &mut [Option<u32>],
    names: &mut FileNames,
) -> Result<Vec<u32>, NoMemory>
    requires places { All (λ p. p ≤ length names.old.texts) places.now }
    requires homes { AreHomes names.old.texts homes.now }
    requires ends { AreEnds names.old.texts ends.now }
    requires slots { length known.old ≡ length names.old.texts + 1 }
    requires none { (i : ℕ) → slice_index_or known.old i None ≡ None }
    requires no_names { names.old.names ≡ [] }
    ensures names { IfOk result (λ _. names.new.names ≡ distinct (names_at names.old.texts places.now)) }
    ensures numbers { IfOk result (λ v. v.items ≡ map (number_of (distinct (names_at names.old.texts places.now))) (names_at names.old.texts places.now)) }
{
    let mut numbers = Vec::with_capacity(alloc, places.len())?;
    for place in places {
        numbers.push(number_at(*place as usize, homes, ends, known, names)?)?;
    }
    Ok(numbers)
}

/// The names that begin at places of texts and end before the next zero byte: each once, and the number of each. The texts
/// are kept for the names.
///
/// # Errors
/// No memory for them, which texts of 2^32 bytes have never.
pub fn number_names(alloc: Global, texts: &[u8], places: &[u32]) -> Result<NameNumbers, NoMemory>
    requires { All (λ p. p ≤ length texts.now) places.now }
    ensures names { IfOk result (λ n. n.names.names ≡ distinct (names_at texts.now places.now)) }
    ensures few { IfOk result (λ n. length n.numbers.items < 2 ^ 32) }
    ensures numbers { IfOk result (λ n. n.numbers.items ≡ map (number_of (distinct (names_at texts.now places.now))) (names_at texts.now places.now)) }
{
    let _fits = next_number(texts.len())?;
    let _few = next_number(places.len())?;
    let homes = homes_of(alloc, texts)?;
    let ends = text_ends(alloc, texts)?;
    let mut known = none_known(alloc, homes.len())?;
    let mut names = FileNames::new(alloc);
    names.keep(texts)?;
    let numbers = number_places(alloc, places, &homes, &ends, &mut known, &mut names)?;
    Ok(NameNumbers { names, numbers })
}
