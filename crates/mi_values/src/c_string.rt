//! C strings in their one spelling, read from the front.

ghost use Rattle.mi_values.specs.Spelled.{ReadsText};

use mi_text::{ReadFault, after, read_text, write_c_string};
use std::alloc::Global;

/// The text of the C string at the front, and the bytes behind it. A spelling that isn't written is none.
pub fn read_c_string(alloc: Global, bytes: &[u8]) -> Result<(Vec<u8>, &[u8]), ReadFault>
    ensures { ReadsText bytes.now result }
{
    let Some(inner) = after(bytes, b'"') else {
        return Err(ReadFault::Text);
    };
    let (text, _end) = read_text(alloc, inner)?;
    let mut spelling = Vec::new(alloc);
    write_c_string(&text, &mut spelling)?;
    match bytes.strip_prefix(&spelling) {
        Some(rest) => Ok((text, rest)),
        None => Err(ReadFault::Text),
    }
}
