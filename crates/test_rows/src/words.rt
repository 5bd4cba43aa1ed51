// Words of a row, which spaces part.
use crate::fault::RowFault;
use crate::numbers::number;
use dbg_traits::ArgText;
use std::alloc::{AllocError, Global};

/// Words of 32 bits, in hexadecimal.
pub fn hex_words(alloc: Global, text: &str) -> Result<Vec<u32>, RowFault> {
    let mut words = Vec::new(alloc);
    if text.is_empty() {
        return Ok(words);
    }
    for word in text.split(' ') {
        words.push(u32::from_str_radix(word, 16).ok().ok_or(RowFault::Unknown)?)?;
    }
    Ok(words)
}

/// Words of a command line.
pub fn arguments(alloc: Global, text: &str) -> Result<Vec<ArgText>, AllocError> {
    let mut words = Vec::new(alloc);
    for word in text.split(' ') {
        words.push(ArgText::of(String::from_str(alloc, word)?))?;
    }
    Ok(words)
}

/// What is behind so many words.
pub fn behind(text: &str, count: u32) -> &str {
    let mut rest = text;
    for _ in 0..count {
        rest = match rest.split_once(' ') {
            Some((_, rest)) => rest,
            None => "",
        };
    }
    rest
}

/// The word at a place, from 0 on; empty where there is none.
pub fn word_at(text: &str, place: u32) -> &str {
    let rest = behind(text, place);
    match rest.split_once(' ') {
        Some((word, _)) => word,
        None => rest,
    }
}

/// The number at a place, from 0 on; 0 where there is none.
pub fn number_at(text: &str, place: u32) -> u32 {
    number(word_at(text, place)).unwrap_or(0)
}
