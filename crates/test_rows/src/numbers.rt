// Numbers of a row.
use std::alloc::{AllocError, Global};

/// A number in decimal, or behind 0x in hexadecimal.
pub fn number(text: &str) -> Option<u32> {
    match text.strip_prefix("0x") {
        Some(digits) => u32::from_str_radix(digits, 16).ok(),
        None => text.parse().ok(),
    }
}

/// Two numbers, which a space parts.
pub fn two(text: &str) -> Option<(u32, u32)> {
    let (first, second) = text.split_once(' ')?;
    Some((number(first)?, number(second)?))
}

/// Three numbers, which spaces part.
pub fn three(text: &str) -> Option<(u32, u32, u32)> {
    let (first, rest) = text.split_once(' ')?;
    let (second, third) = two(rest)?;
    Some((number(first)?, second, third))
}

/// A number, and what is behind the space behind it, if there is one.
pub fn before(text: &str) -> Option<(u32, &str)> {
    let (first, rest) = text.split_once(' ').unwrap_or((text, ""));
    Some((number(first)?, rest))
}

/// A number in hexadecimal, or `none`.
pub fn told_number(alloc: Global, number: Option<u32>) -> Result<String, AllocError> {
    match number {
        Some(number) => format!(in alloc; "{number:#x}"),
        None => format!(in alloc; "none"),
    }
}
