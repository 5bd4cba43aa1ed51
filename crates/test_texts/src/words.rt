// Words of the command line, and what they ask for.
use dbg_traits::{ArgText, NoMemory, Settings};
use dbg_words::{Request, read_words};
use std::alloc::{AllocError, Global};
use test_rows::Piece::{Count, Number, Text};
use test_rows::{RowFault, arguments, push_told, said, told};

// What is asked for, with the settings in the order of their fields.
fn told_settings(
    alloc: Global,
    (front, behind): (&str, &str),
    name: &str,
    settings: Settings,
) -> Result<String, RowFault> {
    let mut text = String::from_str(alloc, front)?;
    text.push_str(name)?;
    push_settings(alloc, settings, behind, &mut text)?;
    Ok(text)
}

fn push_settings(
    alloc: Global,
    settings: Settings,
    front: &str,
    into: &mut String,
) -> Result<(), RowFault> {
    push_told(
        alloc,
        into,
        &[
            Text(front),
            Number(settings.harts),
            Text(" "),
            Number(settings.workers),
            Text(" "),
            Number(settings.slots),
            Text(" "),
            Count(settings.budget),
            Text(" "),
            Number(settings.slice),
        ],
    )
}

fn told_session(
    alloc: Global,
    file: &str,
    settings: Settings,
    has_log: bool,
) -> Result<String, RowFault> {
    let mut text = told_settings(alloc, ("<", "> "), file, settings)?;
    if has_log {
        text.push_str(" log")?;
    }
    Ok(text)
}

fn told_generated(alloc: Global, number: u32, settings: Settings) -> Result<String, RowFault> {
    let name = told(alloc, &[Number(number)])?;
    told_settings(alloc, ("gen ", ": "), name.as_str(), settings)
}

fn told_request(alloc: Global, request: &Request) -> Result<String, RowFault> {
    match request {
        Request::Session {
            file,
            settings,
            has_log,
        } => told_session(alloc, file, *settings, *has_log),
        Request::Generated { number, settings } => told_generated(alloc, *number, *settings),
        Request::Check { file } => told(alloc, &[Text("check <"), Text(file), Text(">")]),
    }
}

fn words_of(alloc: Global, word: &str, text: &str) -> Result<Vec<ArgText>, AllocError> {
    match word {
        "words" => arguments(alloc, text),
        _ => Ok(Vec::new(alloc)),
    }
}

fn told_words(alloc: Global, words: &[ArgText]) -> Result<String, RowFault> {
    match read_words(alloc, words) {
        Ok(Some(request)) => told_request(alloc, &request),
        Ok(None) => said(alloc, "refused"),
        Err(NoMemory) => Err(RowFault::NoMemory),
    }
}

/// What came of a row `words WORDS..`, between which is a space each, or `wordless`: what is asked for, or `refused`.
pub fn answer(alloc: Global, word: &str, text: &str) -> Result<String, RowFault> {
    let words = words_of(alloc, word, text)?;
    told_words(alloc, &words)
}
