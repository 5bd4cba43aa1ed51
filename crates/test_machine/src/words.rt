// How words of a program are said.
use std::alloc::Global;
use test_rows::{RowFault, said};

fn push_words(alloc: Global, words: &[u32], into: &mut String) -> Result<(), RowFault> {
    for word in words {
        let space = if into.is_empty() { "" } else { " " };
        into.push_str(format!(in alloc; "{space}{word:08x}")?.as_str())?;
    }
    Ok(())
}

/// Words in hexadecimal, with spaces between.
pub fn told_words(alloc: Global, words: &[u32]) -> Result<String, RowFault> {
    if words.is_empty() {
        return said(alloc, "no words");
    }
    let mut text = String::new(alloc);
    push_words(alloc, words, &mut text)?;
    Ok(text)
}
