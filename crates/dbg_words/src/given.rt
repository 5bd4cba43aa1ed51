// What the words gave to each option.
ghost use Rattle.std.specs.Prelude.{◌≡◌, ◌≤◌, ◌<◌, ◌^◌, IfSome};
ghost use Rattle.clap.specs.Words.{found_of, rows_of};
ghost use Rattle.dbg_words.specs.Given.{FoundIn, text};
ghost use Rattle.dbg_words.specs.Number.{number_in, setting_in};

use clap::ArgMatches;

/// The value of each option, FILE, and whether the flag stands there.
#[derive(Drop)]
pub struct Given<'a> {
    pub harts: Option<&'a str>,
    pub workers: Option<&'a str>,
    pub slots: Option<&'a str>,
    pub budget: Option<&'a str>,
    pub slice: Option<&'a str>,
    pub generated: Option<&'a str>,
    pub check: Option<&'a str>,
    pub has_log: bool,
    pub file: Option<&'a str>,
}

/// What clap's matches give.
pub fn taken<'a>(matches: &ArgMatches<'a>) -> Given<'a>
    ensures { FoundIn (rows_of (found_of matches.now)) result }
{
    Given {
        harts: matches.get_str("harts"),
        workers: matches.get_str("workers"),
        slots: matches.get_str("slots"),
        budget: matches.get_str("budget"),
        slice: matches.get_str("slice"),
        generated: matches.get_str("gen"),
        check: matches.get_str("check"),
        has_log: matches.get_flag("log"),
        file: matches.get_str("FILE"),
    }
}

/// The number that the text writes, where it lies in the range.
pub fn number(text: &str, low: u64, high: u64) -> Option<u64>
    ensures value { result ≡ number_in low high text.now }
    ensures within { IfSome result (λ n. (low ≤ n) × (n ≤ high)) }
{
    let Ok(n) = text.parse::<u64>() else {
        return None;
    };
    if low <= n && n <= high { Some(n) } else { None }
}

/// The number of an option that may be left out.
pub fn setting(given: Option<&str>, low: u64, high: u64, default: u64) -> Option<u64>
    requires { (low ≤ default) × (default ≤ high) }
    ensures value { result ≡ setting_in low high default (text given.entry) }
    ensures within { IfSome result (λ n. (low ≤ n) × (n ≤ high)) }
{
    match given {
        None => Some(default),
        Some(given) => number(given, low, high),
    }
}
