//! Whether values are listed with the names of variables: PRINT.

ghost use Rattle.std.specs.Prelude.{◌≡◌, map};
ghost use Rattle.mi_input.specs.Split.{words_view};
ghost use Rattle.mi_commands.specs.Prints.{first_prints, is_either, parameter_word, print_fits, prints_of, words_for};

use crate::operation::Operation;
use mi_input::Word;

#[tactic(auto, unfolding(crate::specs::Prints::is_either))]
fn is_either(word: &[u8], number: &[u8], name: &[u8]) -> bool
    ensures { result ≡ is_either word.now number.now name.now }
{
    word == number || word == name
}

/// Whether values are listed, by a word that is PRINT; what is listed are simple values alone.
#[tactic(auto, unfolding(crate::specs::Prints::prints_of))]
fn prints_of(word: &[u8]) -> Option<bool>
    ensures { result ≡ prints_of word.now }
{
    if is_either(word, b"0", b"--no-values") {
        Some(false)
    } else if is_either(word, b"1", b"--all-values") || is_either(word, b"2", b"--simple-values") {
        Some(true)
    } else {
        None
    }
}

/// The same of the first parameter.
pub fn first_prints(parameters: &[Word]) -> Option<bool>
    ensures { result ≡ first_prints (words_view parameters.now) }
{
    match parameters {
        [first, ..] => prints_of(&first.bytes),
        [] => None,
    }
}

/// Whether the parameter is PRINT, where one is wanted.
pub fn print_fits(operation: Operation, parameters: &[Word]) -> bool
    ensures { result ≡ print_fits operation (words_view parameters.now) }
{
    match operation {
        Operation::VariableList => first_prints(parameters).is_some(),
        _ => true,
    }
}

fn as_parameter(word: &mut Word)
    ensures { word.new ≡ parameter_word word.old }
{
    let prints = prints_of(&word.bytes).is_some();
    word.quoted = word.quoted || prints;
}

// Each word that spells PRINT counts as a parameter, though it may begin with `-`.
fn as_parameters(words: &mut [Word])
    ensures { words.new ≡ map parameter_word words.old }
{
    for word in words.iter_mut() {
        as_parameter(word);
    }
}

/// The words as an operation takes them.
pub fn words_for(operation: Operation, words: &mut [Word])
    ensures { words_view words.new ≡ words_for operation (words_view words.old) }
{
    match operation {
        Operation::VariableList => as_parameters(words),
        _ => {}
    }
}
