// The words, read.
ghost use Rattle.std.specs.Prelude.{◌≡◌, IfOk, IfSome, IfNone, option_map};
ghost use Rattle.std.specs.List.{All};
ghost use Rattle.std.specs.Str.{IsUtf8};
ghost use Rattle.dbg_traits.specs.Names.{IsNamed};
ghost use Rattle.dbg_words.specs.Given.{IsGiven};
ghost use Rattle.dbg_words.specs.Request.{asked};
ghost use Rattle.dbg_words.specs.Uses.{uses_of, option_names};
ghost use Rattle.dbg_words.specs.Words.{Words, HasRanges, name_of};

use crate::command::parsed;
use crate::given::{Given, taken};
use crate::request::{Request, request_of};
use dbg_traits::{ArgText, NoMemory};
use std::alloc::Global;

// Each word is text.
fn check_text(words: &[ArgText])
    ensures { All IsUtf8 words.now }
{
    for word in words {
        let _text = word.as_str();
    }
}

// What clap finds in the words, or none where it refuses them.
fn given_by<'a>(alloc: Global, words: &'a [ArgText]) -> Result<Option<Given<'a>>, NoMemory>
    ensures refused { IfOk result (λ r. IfNone r (uses_of option_names words.now ≡ None)) }
    ensures accepted { IfOk result (λ r. IfSome r (IsGiven (uses_of option_names words.now))) }
{
    check_text(words);
    match parsed(alloc, words)? {
        None => Ok(None),
        Some(matches) => Ok(Some(taken(&matches))),
    }
}

/// What the words of the command line ask for, or none where they are refused; the one error is out of memory. The
/// words come without the program's name.
///
/// They are FILE with `--harts` (1 to 16, else 1), `--workers` (0 to 16, else 2), `--slots` (0 to 512, else 16),
/// `--budget` (1 to 1,000,000,000,000, else 100,000,000), `--slice` (0 to 1,024, else 256) and the flag `--log`;
/// or `--gen` (1 to 1,000,000) with `--slots`, `--budget` and `--slice`; or `--check FILE` alone. An option stands
/// at most once, in any place, as `--name N` or `--name=N`; after `--` each word is FILE. A number is decimal
/// digits, with a `+` before them or not. The form is that of POSIX.1-2017, Base Definitions, section 12.2, with
/// the long options of the GNU C Library manual, "Program Argument Syntax Conventions".
pub fn read_words<'a>(alloc: Global, words: &'a [ArgText]) -> Result<Option<Request<'a>>, NoMemory>
    ensures whole { IfOk result (λ r. option_map asked r ≡ Words words.now) }
    ensures named { IfOk result (λ r. IfSome r (λ request. IfSome (name_of (asked request)) (IsNamed words.now))) }
    ensures ranges { IfOk result (λ r. IfSome r (λ request. HasRanges (asked request))) }
{
    match given_by(alloc, words)? {
        None => Ok(None),
        Some(given) => Ok(request_of(&given)),
    }
}
