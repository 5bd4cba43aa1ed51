//! The values that a command's words give.

ghost use Rattle.std.specs.Prelude.{◌≡◌, ◌+◌, ◌<◌, ◌^◌, ◌++◌, length, OnOk, IfOk};
ghost use Rattle.mi_input.specs.Split.{words_view};
ghost use Rattle.mi_commands.specs.Faults.{first_word, second_word, number_in};
ghost use Rattle.mi_commands.specs.Numbers.{value_range, bad_value, bad_parameter, is_bad_at, number_part};
ghost use Rattle.mi_commands.specs.Words.{options};
ghost use Rattle.mi_commands.specs.Steps.{text};
ghost use Rattle.mi_commands.specs.Commands.{first_number, second_number, rest_of, numbers, spaced, joined, joined_if_any, number_if_any, target_of};
ghost use Rattle.mi_commands.specs.Operations.{or_else};

use crate::command::Target;
use crate::counts::OptionName;
use crate::number::{Range, is_bad, number};
use crate::operation::Operation;
use crate::options::{has, option_in_front, value_in};
use crate::registers::assignment;
use dbg_traits::{ByteList, NumberList};
use mi_input::Word;
use mi_text::are_bytes;
use std::alloc::{AllocError, Global};

/// The first word, or an empty one.
pub fn first_word(words: &[Word]) -> &[u8]
    ensures { result.now ≡ first_word (words_view words.now) }
{
    match words {
        [first, ..] => &first.bytes,
        [] => b"",
    }
}

/// The second word, or an empty one.
pub fn second_word(words: &[Word]) -> &[u8]
    ensures { result.now ≡ second_word (words_view words.now) }
{
    match words {
        [_, rest @ ..] => first_word(rest),
        [] => b"",
    }
}

/// The words behind the first one.
pub fn rest_of(words: &[Word]) -> &[Word]
    ensures { words_view result.now ≡ rest_of (words_view words.now) }
{
    match words {
        [_, rest @ ..] => rest,
        [] => words,
    }
}

pub fn first_number(words: &[Word]) -> u32
    ensures { result ≡ first_number (words_view words.now) }
{
    number(first_word(words))
}

pub fn second_number(words: &[Word]) -> u32
    ensures { result ≡ second_number (words_view words.now) }
{
    number(second_word(words))
}

/// The number of the first word, if one stands there.
pub fn number_if_any(words: &[Word]) -> Option<u32>
    ensures { result ≡ number_if_any (words_view words.now) }
{
    match words {
        [first, ..] => Some(number(&first.bytes)),
        [] => None,
    }
}

/// The number that an option has as its value.
pub fn number_in(name: OptionName, words: &[Word]) -> Option<u32>
    ensures { result ≡ number_in name (words_view words.now) }
{
    match value_in(name, words) {
        Some(value) => Some(number(value)),
        None => None,
    }
}

/// The thread or threads of `--thread` or `--all`.
pub fn target_of(words: &[Word]) -> Target
    ensures { result ≡ target_of (words_view words.now) }
{
    if has(OptionName::All, words) {
        return Target::All;
    }
    match number_in(OptionName::Thread, words) {
        Some(n) => Target::Thread(n),
        None => Target::Selected,
    }
}

/// The numbers that the words are.
pub fn numbers(alloc: Global, words: &[Word]) -> Result<NumberList, AllocError>
    ensures { IfOk result (λ list. list ≡ numbers (words_view words.now)) }
{
    let mut numbers = Vec::new(alloc);
    for word in words {
        numbers.push(number(&word.bytes))?;
    }
    Ok(NumberList::of(numbers))
}

#[tactic(auto, unfolding(crate::specs::Commands::spaced))]
fn push_spaced(words: &[Word], into: &mut Vec<u8>) -> Result<(), AllocError>
    ensures { OnOk result (into.new.items ≡ into.old.items ++ spaced (words_view words.now)) }
{
    for word in words {
        into.push(b' ')?;
        into.extend_from_slice(&word.bytes)?;
    }
    Ok(())
}

/// The words joined by one space each.
pub fn joined(alloc: Global, words: &[Word]) -> Result<ByteList, AllocError>
    ensures { IfOk result (λ list. list ≡ joined (words_view words.now)) }
{
    let [first, rest @ ..] = words else {
        return Ok(ByteList::of(Vec::new(alloc)));
    };
    let mut text = Vec::from_slice(alloc, &first.bytes)?;
    push_spaced(rest, &mut text)?;
    Ok(ByteList::of(text))
}

/// The same, or none where there are no words.
pub fn joined_if_any(alloc: Global, words: &[Word]) -> Result<Option<ByteList>, AllocError>
    ensures { IfOk result (λ list. list ≡ joined_if_any (words_view words.now)) }
{
    if words.is_empty() {
        return Ok(None);
    }
    Ok(Some(joined(alloc, words)?))
}

fn value_range(name: &[u8]) -> Option<Range>
    ensures { result ≡ value_range name.now }
{
    if OptionName::Ignore.names(name) {
        Some(Range::Count)
    } else if OptionName::InThread.names(name) || OptionName::Thread.names(name) {
        Some(Range::Any)
    } else {
        None
    }
}

fn bad_value(words: &[Word]) -> Option<&[u8]>
    ensures { text result ≡ bad_value (options (words_view words.now)) }
{
    let mut rest = words;
    'options: while let Some(option) = option_in_front(rest) {
        match option.value {
            Some(value) if is_bad(value_range(option.name), value) => return Some(value),
            _ => rest = option.rest,
        }
    }
    None
}

// Whether the word is no number or no bytes, where such are wanted.
fn is_bad_at(operation: Operation, place: usize, word: &[u8]) -> bool
    ensures { result ≡ is_bad_at operation place word.now }
{
    if operation.has_bytes_at(place) {
        !are_bytes(word)
    } else {
        is_bad(operation.range_at(place), word)
    }
}

// The part of a parameter that is to be a number or bytes.
fn number_part(operation: Operation, word: &[u8]) -> &[u8]
    ensures { result.now ≡ number_part operation word.now }
{
    match operation {
        Operation::SetRegister => assignment(word).value,
        _ => word,
    }
}

#[tactic(auto, unfolding(crate::specs::Numbers::bad_parameter))]
fn bad_parameter(operation: Operation, words: &[Word]) -> Option<&[u8]>
    ensures { text result ≡ bad_parameter operation 0 (words_view words.now) }
{
    for (place, word) in words.iter().enumerate() {
        let part = number_part(operation, &word.bytes);
        if is_bad_at(operation, place, part) {
            return Some(part);
        }
    }
    None
}

/// The leftmost word that should be a number of some range, or bytes, and is none.
pub fn bad_number<'a>(
    operation: Operation,
    words: &'a [Word],
    parameters: &'a [Word],
) -> Option<&'a [u8]>
    ensures { text result ≡ or_else (bad_value (options (words_view words.now))) (bad_parameter operation 0 (words_view parameters.now)) }
{
    match bad_value(words) {
        Some(word) => Some(word),
        None => bad_parameter(operation, parameters),
    }
}
