// What the words ask for.
ghost use Rattle.std.specs.Prelude.{◌≡◌, ◌≤◌, IfSome, option_map};
ghost use Rattle.dbg_traits.specs.Settings.{AreSettings};
ghost use Rattle.dbg_words.specs.Given.{given_texts};
ghost use Rattle.dbg_words.specs.Request.{asked};
ghost use Rattle.dbg_words.specs.Words.{asked_of, session_of, generated_of, checked_of, settings_of, HasRanges};

use crate::given::{Given, number, setting};
use dbg_traits::Settings;

/// What the words of the command line ask for. A file's name is lent by the words.
#[derive(Clone, Copy)]
pub enum Request<'a> {
    /// A session over a file, and whether its log is wanted after its records.
    Session {
        file: &'a str,
        settings: Settings,
        has_log: bool,
    },
    /// A session over the file and the input that are generated from a number, 1 to 1,000,000.
    Generated {
        number: u32,
        settings: Settings,
    },
    /// A check of the log of a session over a file.
    Check {
        file: &'a str,
    },
}

fn settings(given: &Given, harts: u32, workers: u32) -> Option<Settings>
    requires harts { (1 ≤ harts) × (harts ≤ 16) }
    requires workers { workers ≤ 16 }
    ensures value { result ≡ settings_of (given_texts given.now) harts workers }
    ensures ranges { IfSome result AreSettings }
{
    let slots = setting(given.slots, 0, 512, 16)?;
    let budget = setting(given.budget, 1, 1_000_000_000_000, 100_000_000)?;
    let slice = setting(given.slice, 0, 1024, 256)?;
    Some(Settings {
        harts,
        workers,
        slots: slots as u32,
        budget,
        slice: slice as u32,
    })
}

fn session<'a>(given: &Given, file: &'a str) -> Option<Request<'a>>
    ensures value { option_map asked result ≡ session_of (given_texts given.now) file.now }
    ensures ranges { IfSome result (λ r. HasRanges (asked r)) }
{
    let harts = setting(given.harts, 1, 16, 1)?;
    let workers = setting(given.workers, 0, 16, 2)?;
    let settings = settings(given, harts as u32, workers as u32)?;
    Some(Request::Session {
        file,
        settings,
        has_log: given.has_log,
    })
}

fn generated<'a>(given: &Given, text: &str) -> Option<Request<'a>>
    ensures value { option_map asked result ≡ generated_of (given_texts given.now) text.now }
    ensures ranges { IfSome result (λ r. HasRanges (asked r)) }
{
    if given.harts.is_some() || given.workers.is_some() || given.has_log {
        return None;
    }
    let number = number(text, 1, 1_000_000)?;
    let settings = settings(given, 2, 0)?;
    Some(Request::Generated {
        number: number as u32,
        settings,
    })
}

fn check<'a>(given: &Given, file: &'a str) -> Option<Request<'a>>
    ensures value { option_map asked result ≡ checked_of (given_texts given.now) file.now }
{
    let has_session_option = given.harts.is_some() || given.workers.is_some() || given.has_log;
    if has_session_option
        || given.slots.is_some()
        || given.budget.is_some()
        || given.slice.is_some()
    {
        return None;
    }
    Some(Request::Check { file })
}

/// What is asked for by what was given, or none where it is refused.
pub fn request_of<'a>(given: &Given<'a>) -> Option<Request<'a>>
    ensures value { option_map asked result ≡ asked_of (given_texts given.now) }
    ensures ranges { IfSome result (λ r. HasRanges (asked r)) }
{
    match (given.file, given.generated, given.check) {
        (Some(file), None, None) => session(given, file),
        (None, Some(number), None) => generated(given, number),
        (None, None, Some(file)) => check(given, file),
        _ => None,
    }
}
