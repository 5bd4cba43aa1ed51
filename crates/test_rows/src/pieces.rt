// What is told, in pieces. A call of `told` is much cheaper to prove than a `format!`.
use crate::fault::RowFault;
use std::alloc::{AllocError, Global};
use std::fmt::Debug;

/// A piece of what is told.
#[derive(Clone, Copy)]
pub enum Piece<'a> {
    Text(&'a str),
    /// In decimal.
    Number(u32),
    /// The same.
    Count(u64),
    /// In decimal, behind its sign.
    Offset(i64),
    /// In hexadecimal, behind 0x.
    Hex(u32),
    /// The same, or `none`.
    Maybe(Option<u32>),
    /// `true` or `false`.
    Whether(bool),
}

fn push_count(alloc: Global, text: &mut String, count: u64) -> Result<(), AllocError> {
    text.push_str(format!(in alloc; "{count}")?.as_str())
}

fn push_offset(alloc: Global, text: &mut String, offset: i64) -> Result<(), AllocError> {
    text.push_str(format!(in alloc; "{offset:+}")?.as_str())
}

fn push_hex(alloc: Global, text: &mut String, number: u32) -> Result<(), AllocError> {
    text.push_str(format!(in alloc; "{number:#x}")?.as_str())
}

fn push_piece(alloc: Global, text: &mut String, piece: Piece<'_>) -> Result<(), AllocError> {
    match piece {
        Piece::Text(part) => text.push_str(part),
        Piece::Number(number) => push_count(alloc, text, u64::from(number)),
        Piece::Count(count) => push_count(alloc, text, count),
        Piece::Offset(offset) => push_offset(alloc, text, offset),
        Piece::Hex(number) => push_hex(alloc, text, number),
        Piece::Maybe(Some(number)) => push_hex(alloc, text, number),
        Piece::Maybe(None) => text.push_str("none"),
        Piece::Whether(true) => text.push_str("true"),
        Piece::Whether(false) => text.push_str("false"),
    }
}

/// Puts pieces behind a text.
pub fn push_told(alloc: Global, text: &mut String, pieces: &[Piece<'_>]) -> Result<(), RowFault> {
    for piece in pieces {
        push_piece(alloc, text, *piece)?;
    }
    Ok(())
}

/// Pieces as one text.
pub fn told(alloc: Global, pieces: &[Piece<'_>]) -> Result<String, RowFault> {
    let mut text = String::new(alloc);
    push_told(alloc, &mut text, pieces)?;
    Ok(text)
}

/// A text as it stands.
pub fn said(alloc: Global, text: &str) -> Result<String, RowFault> {
    Ok(String::from_str(alloc, text)?)
}

/// A value as `{:?}` shows it.
pub fn shown<D: Debug>(alloc: Global, value: &D) -> Result<String, RowFault> {
    Ok(format!(in alloc; "{value:?}")?)
}
