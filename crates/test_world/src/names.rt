// What a view and settings show, and the places of names among words.
ghost use Rattle.std.specs.Prelude.{◌≡◌, ◌==◌, ◌++◌, [], ◌∷◌, cond, IfOk, Some, None};
ghost use Rattle.dbg_traits.specs.Settings.{AreSettings};

use dbg_traits::{ArgText, Settings, View, place_of};
use std::alloc::{AllocError, Global};
use test_rows::{RowFault, number};

// A hart whose pc is 7, and memory with one byte.
struct Flat;

impl View for Flat {
    ghost registers = { λ _ n. cond (n == 32) 7 0 };

    ghost bytes = { λ _ addr. cond (addr == 16) (Some 9) None };

    fn reg(&self, n: u32) -> u32 {
        if n == 32 { 7 } else { 0 }
    }

    fn byte(&self, addr: u32) -> Option<u8> {
        if addr == 16 { Some(9) } else { None }
    }
}

fn pc_and_byte<V: View>(view: &V, addr: u32) -> (u32, Option<u8>) {
    (view.reg(32), view.byte(addr))
}

/// The least of each setting.
const LEAST: Settings = Settings {
    harts: 1,
    workers: 0,
    slots: 0,
    budget: 1,
    slice: 0,
};

/// The greatest of each setting.
const GREATEST: Settings = Settings {
    harts: 16,
    workers: 16,
    slots: 512,
    budget: 1_000_000_000_000,
    slice: 1024,
};

fn harts_of(settings: Settings) -> u32
    requires { AreSettings settings }
{
    settings.harts
}

// Two words, the second of which ends with the name, and the name.
fn named(
    alloc: Global,
    other: &str,
    front: &str,
    name: &str,
) -> Result<(Vec<ArgText>, ArgText), RowFault>
    ensures { IfOk result (λ made. made.0.items ≡ other.now ∷ ((front.now ++ made.1) ∷ [])) }
{
    let mut word = String::from_str(alloc, front)?;
    word.push_str(name)?;
    let mut words = Vec::new(alloc);
    words.push(ArgText::of(String::from_str(alloc, other)?))?;
    words.push(ArgText::of(word))?;
    Ok((words, ArgText::of(String::from_str(alloc, name)?)))
}

// The place of a name among two words, the second of which ends with it: the number of the word, and where the name begins.
fn place(alloc: Global, text: &str) -> Result<String, RowFault> {
    let (other, rest) = text.split_once(' ').ok_or(RowFault::Unknown)?;
    let (front, name) = rest.split_once('|').ok_or(RowFault::Unknown)?;
    let (words, name) = named(alloc, other, front, name)?;
    let place = place_of(&words, &name);
    let (word, from) = (place.word, place.from);
    Ok(format!(in alloc; "{word} {from}")?)
}

/// What came of a row: `view ADDRESS`, a hart's pc and the byte there, through the trait; `settings least` or `settings greatest`,
/// their harts; or `place OTHER FRONT|NAME`, where a name is found in the words OTHER and FRONT, behind which NAME stands.
pub fn answer(alloc: Global, word: &str, rest: &str) -> Result<String, RowFault> {
    match word {
        "view" => {
            let (pc, byte) = pc_and_byte(&Flat, number(rest).ok_or(RowFault::Unknown)?);
            Ok(format!(in alloc; "{pc} {byte:?}")?)
        }
        "settings" => {
            let harts = match rest {
                "least" => harts_of(LEAST),
                _ => harts_of(GREATEST),
            };
            Ok(format!(in alloc; "{harts}")?)
        }
        _ => place(alloc, rest),
    }
}
