//! Bytes of a command's own: those of a word, and those that a write puts into memory.

ghost use Rattle.std.specs.Prelude.{◌≡◌, ◌<◌, length, IfOk};
ghost use Rattle.mi_commands.specs.Bytes.{first_of, repeated};

use dbg_traits::ByteList;
use std::alloc::{AllocError, Global};

/// These bytes.
pub fn copy(alloc: Global, bytes: &[u8]) -> Result<ByteList, AllocError>
    ensures { IfOk result (λ list. list ≡ bytes.now) }
{
    Ok(ByteList::of(Vec::from_slice(alloc, bytes)?))
}

// So many bytes: those that are given, again from the first where they end.
fn first_of(alloc: Global, bytes: &[u8], count: usize) -> Result<Vec<u8>, AllocError>
    requires { 0 < length bytes.now }
    ensures { IfOk result (λ v. v.items ≡ first_of bytes.now count) }
{
    let mut written = Vec::new(alloc);
    'repeat: for k in 0..count {
        written.push(bytes[k % bytes.len()])?;
    }
    Ok(written)
}

/// The bytes, repeated or cut to this length.
pub fn repeated(alloc: Global, bytes: &[u8], count: usize) -> Result<ByteList, AllocError>
    ensures { IfOk result (λ list. list ≡ repeated bytes.now count) }
{
    if bytes.is_empty() {
        return Ok(ByteList::of(Vec::new(alloc)));
    }
    Ok(ByteList::of(first_of(alloc, bytes, count)?))
}
