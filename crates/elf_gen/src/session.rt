// The lines of a generated session.
ghost use Rattle.std.specs.Prelude.{◌≡◌, IfOk};
ghost use Rattle.elf_gen.specs.Script.{script_text};

use dbg_traits::NoMemory;
use itoa::Buffer;
use std::alloc::Global;

/// Up to the condition's number.
const BEFORE: &[u8] = b"-break-insert count.c:12\n-exec-continue --thread 1\n-exec-wait\n\
    -exec-next --thread 1\n-exec-wait\n-break-delete 1\n-exec-finish --thread 1\n-exec-wait\n\
    -break-insert -c \"{int} &count == ";

/// Behind the condition's number.
const AFTER: &[u8] = b"\" count.c:13\n-exec-continue --all\n-exec-wait\n-thread-info\n\
    -exec-continue --all\n-exec-wait\n";

/// The lines of a session of two harts over the file of `generate`, which stops once both have added `number`. The one
/// error is out of memory.
pub fn script(alloc: Global, number: u32) -> Result<Vec<u8>, NoMemory>
    ensures { IfOk result (λ text. text.items ≡ script_text number) }
{
    let mut buffer = Buffer::new();
    let mut text = Vec::from_slice(alloc, BEFORE)?;
    text.extend_from_slice(buffer.format(2 * u64::from(number)).as_bytes())?;
    text.extend_from_slice(AFTER)?;
    Ok(text)
}
