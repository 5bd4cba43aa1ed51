// Bytes of a row, in hexadecimal or as a text. In a text a byte that can't stand in a line is `%` and its two hexadecimal
// digits, as in RFC 3986, section 2.1: control bytes, `%`, and the bytes above 127.
use crate::fault::RowFault;
use percent_encoding::{CONTROLS, percent_decode_str, percent_encode};
use std::alloc::{AllocError, Global};

/// The bytes that a text of a row spells.
pub fn read_bytes(alloc: Global, text: &str) -> Result<Vec<u8>, AllocError> {
    let mut bytes = Vec::new(alloc);
    percent_decode_str(text).append_to(&mut bytes)?;
    Ok(bytes)
}

/// The bytes of hexadecimal digits, two each.
pub fn read_hex(alloc: Global, digits: &str) -> Result<Vec<u8>, RowFault> {
    hex::decode(alloc, digits).ok().ok_or(RowFault::Unknown)
}

/// Bytes as a row spells them.
pub fn told_bytes(alloc: Global, bytes: &[u8]) -> Result<String, AllocError> {
    let mut text = String::new(alloc);
    percent_encode(bytes, CONTROLS.add(b'%')).append_to(&mut text)?;
    Ok(text)
}
