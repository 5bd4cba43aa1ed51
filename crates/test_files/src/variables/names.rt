// Texts with names of variables.
use crate::expressions::told_fault;
use crate::variables::hart::Hart;
use cond_expr::{ParseError, value};
use debug_info::Var;
use elf_symbols::Symbols;
use std::alloc::Global;
use std::str::from_utf8;
use test_rows::Piece::{Count, Text};
use test_rows::{RowFault, push_told, said, shown};
use var_expr::{Expanded, expand};

/// A text, and what its names stand for.
#[derive(Clone, Copy)]
pub struct Given<'a> {
    pub text: &'a str,
    pub variables: &'a [Var<'a>],
    pub cfa: Option<u32>,
}

fn expanded(alloc: Global, given: Given<'_>) -> Option<Expanded> {
    expand(
        alloc,
        given.text.as_bytes(),
        given.variables,
        &Hart,
        given.cfa,
    )
    .ok()
}

fn push_names(alloc: Global, expanded: &Expanded, into: &mut String) -> Result<(), RowFault> {
    for name in expanded.names() {
        push_told(
            alloc,
            into,
            &[
                Count(name.at as u64),
                Text("+"),
                Count(name.length as u64),
                Text(" becomes "),
                Count(name.new_at as u64),
                Text("+"),
                Count(name.new_length as u64),
                Text("; "),
            ],
        )?;
    }
    Ok(())
}

fn push_places(alloc: Global, expanded: &Expanded, into: &mut String) -> Result<(), RowFault> {
    for at in 0..=expanded.text().len() {
        push_told(alloc, into, &[Text(" "), Count(expanded.place(at) as u64)])?;
    }
    Ok(())
}

fn told_places(alloc: Global, expanded: &Expanded) -> Result<String, RowFault> {
    let mut text = String::new(alloc);
    push_names(alloc, expanded, &mut text)?;
    push_told(alloc, &mut text, &[Text("places")])?;
    push_places(alloc, expanded, &mut text)?;
    Ok(text)
}

fn told_worth(alloc: Global, expanded: &Expanded, names: &Symbols) -> Result<String, RowFault> {
    match expanded.parse(alloc, names) {
        Ok(expression) => shown(alloc, &value(&expression, &Hart)),
        Err(ParseError::Fault(fault)) => told_fault(alloc, fault),
        Err(ParseError::NoMemory) => Err(RowFault::NoMemory),
    }
}

// What is asked of a new text.
fn told_expanded(
    alloc: Global,
    word: &str,
    expanded: &Expanded,
    names: &Symbols,
) -> Result<String, RowFault> {
    match word {
        "becomes" => said(alloc, from_utf8(expanded.text()).unwrap_or("no text")),
        "places" => told_places(alloc, expanded),
        _ => told_worth(alloc, expanded, names),
    }
}

/// What is asked of a text by a word: `becomes`, the new text; `places`, the places of names and of what they are replaced by, and
/// the place of the given text for each of the new one; or `worth`, the value of the new text, or its first fault.
pub fn told_given(
    alloc: Global,
    word: &str,
    given: Given<'_>,
    names: &Symbols,
) -> Result<String, RowFault> {
    match expanded(alloc, given) {
        Some(expanded) => told_expanded(alloc, word, &expanded, names),
        None => Err(RowFault::NoMemory),
    }
}
