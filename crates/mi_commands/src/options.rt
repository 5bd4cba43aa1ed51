//! The options of a command, and the parameters behind them.

ghost use Rattle.std.specs.Prelude.{◌≡◌, ◌<◌, length, IfSome};
ghost use Rattle.mi_input.specs.Parts.{begins};
ghost use Rattle.mi_input.specs.Split.{word_view, words_view};
ghost use Rattle.mi_commands.specs.Steps.{text, Fronts};
ghost use Rattle.mi_commands.specs.Words.{is_end, is_option, options, parameters, behind_end, stands, value_in, option_fits, options_fit, one_target, words_fit};
ghost use Rattle.mi_commands.specs.Operations.{spelling};

use crate::counts::{Allowed, OptionName, takes_value};
use crate::operation::Operation;
use crate::print::print_fits;
use mi_input::Word;

/// The option in front.
#[derive(Clone, Copy)]
pub struct Front<'a> {
    /// How it is spelled.
    pub name: &'a [u8],
    /// Its value, where it takes one and a word follows.
    pub value: Option<&'a [u8]>,
    /// The words behind it.
    pub rest: &'a [Word],
}

#[tactic(auto, unfolding(crate::specs::Words::is_end))]
fn is_end(word: &Word) -> bool
    ensures { result ≡ is_end (word_view word.now) }
{
    !word.quoted && word.bytes.as_slice() == b"--".as_slice()
}

fn begins_with_dash(bytes: &[u8]) -> bool
    ensures { result ≡ begins 45 bytes.now }
{
    match bytes {
        [first, ..] => *first == b'-',
        [] => false,
    }
}

// Whether the word begins with `-`, is no C string and isn't `--`.
fn is_option(word: &Word) -> bool
    ensures { result ≡ is_option (word_view word.now) }
{
    (!word.quoted && begins_with_dash(&word.bytes)) && !is_end(word)
}

// The words behind the `--` that may end the options.
fn behind_end(words: &[Word]) -> &[Word]
    ensures { words_view result.now ≡ behind_end (words_view words.now) }
{
    match words {
        [first, rest @ ..] if is_end(first) => rest,
        _ => words,
    }
}

/// The option in front, if one stands there.
#[tactic(auto, unfolding(crate::specs::Words::options, crate::specs::Words::parameters))]
pub fn option_in_front(words: &[Word]) -> Option<Front<'_>>
    ensures fronts { Fronts (words_view words.now) result }
    ensures shorter { IfSome result (λ f. length f.rest.now < length words.now) }
{
    let [first, rest @ ..] = words else {
        return None;
    };
    if !is_option(first) {
        return None;
    }
    let name = first.bytes.as_slice();
    match rest {
        [value, behind @ ..] if takes_value(name) => Some(Front {
            name,
            value: Some(value.bytes.as_slice()),
            rest: behind,
        }),
        _ => Some(Front {
            name,
            value: None,
            rest,
        }),
    }
}

/// The words behind the options and behind the `--` that may end them.
pub fn parameters(words: &[Word]) -> &[Word]
    ensures { words_view result.now ≡ parameters (words_view words.now) }
{
    let mut rest = words;
    'options: while let Some(option) = option_in_front(rest) {
        rest = option.rest;
    }
    behind_end(rest)
}

/// Whether an option is so spelled.
fn stands(name: &[u8], words: &[Word]) -> bool
    ensures { result ≡ stands name.now (options (words_view words.now)) }
{
    let mut rest = words;
    'options: while let Some(option) = option_in_front(rest) {
        if option.name == name {
            return true;
        }
        rest = option.rest;
    }
    false
}

/// Whether this option stands there.
pub fn has(name: OptionName, words: &[Word]) -> bool
    ensures { result ≡ stands (spelling name) (options (words_view words.now)) }
{
    stands(name.spelled(), words)
}

/// The value of the first option of this name.
pub fn value_in(name: OptionName, words: &[Word]) -> Option<&[u8]>
    ensures { text result ≡ value_in name (options (words_view words.now)) }
{
    let mut rest = words;
    'options: while let Some(option) = option_in_front(rest) {
        if name.names(option.name) {
            return option.value;
        }
        rest = option.rest;
    }
    None
}

// Whether an option is allowed, has the value that it takes, and doesn't stand behind itself.
fn option_fits(allowed: Allowed, option: &Front<'_>) -> bool
    ensures { result ≡ option_fits allowed (option.now.name.now, text option.now.value) (options (words_view option.now.rest.now)) }
{
    let is_whole = !takes_value(option.name) || option.value.is_some();
    (allowed.allows(option.name) && is_whole) && !stands(option.name, option.rest)
}

// Whether each option fits.
fn options_fit(allowed: Allowed, words: &[Word]) -> bool
    ensures { result ≡ options_fit allowed (options (words_view words.now)) }
{
    let mut rest = words;
    'options: while let Some(option) = option_in_front(rest) {
        if !option_fits(allowed, &option) {
            return false;
        }
        rest = option.rest;
    }
    true
}

fn one_target(words: &[Word]) -> bool
    ensures { result ≡ one_target (options (words_view words.now)) }
{
    !(has(OptionName::All, words) && has(OptionName::Thread, words))
}

/// Whether the operation takes these words.
pub fn words_fit(operation: Operation, words: &[Word]) -> bool
    ensures { result ≡ words_fit operation (words_view words.now) }
{
    let (allowed, count) = operation.shape();
    let parameters = parameters(words);
    ((options_fit(allowed, words) && one_target(words)) && count.fits(parameters.len()))
        && print_fits(operation, parameters)
}
