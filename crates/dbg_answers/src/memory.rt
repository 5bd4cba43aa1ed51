// The command that reads memory.
ghost use Rattle.std.specs.Prelude.{◌≡◌, ◌++◌, ◌∷◌, [], OnOk};
ghost use Rattle.dbg_model.specs.Data.{bytes_at, read_memory};
ghost use Rattle.dbg_answers.specs.Debuggee.{seen};
ghost use Rattle.dbg_answers.specs.Answer.{Gives, GivesAs};

use crate::answer::{Answer, Failure, hindered, showing};
use crate::debuggee::Debuggee;
use dbg_model::{Content, Obstacle, shown_byte};
use dbg_traits::ByteList;
use std::alloc::{AllocError, Global};

fn push_byte(into: &mut Vec<u8>, byte: u8) -> Result<(), AllocError>
    ensures { OnOk result (into.new.items ≡ into.old.items ++ byte ∷ []) }
{
    into.push(byte)?;
    Ok(())
}

// So many bytes from an address on.
fn bytes_at(
    alloc: Global,
    debuggee: &Debuggee<'_>,
    addr: u32,
    count: u32,
) -> Result<Vec<u8>, Failure>
    ensures { GivesAs (λ v. v.items) result (bytes_at (seen debuggee.now) addr count) }
{
    let mut bytes = Vec::new(alloc);
    for k in 0..count {
        let at = addr.wrapping_add(k);
        let Some(byte) = shown_byte(debuggee.image, debuggee.memory, at) else {
            return Err(hindered(Obstacle::Unreadable(at)));
        };
        push_byte(&mut bytes, byte)?;
    }
    Ok(bytes)
}

/// `-data-read-memory-bytes ADDRESS COUNT`.
pub fn read_memory(
    alloc: Global,
    debuggee: &Debuggee<'_>,
    address: u32,
    count: u32,
) -> Result<Answer, Failure>
    ensures { Gives result (read_memory (seen debuggee.now) address count) }
{
    let bytes = bytes_at(alloc, debuggee, address, count)?;
    Ok(showing(Content::Memory {
        address,
        bytes: ByteList::of(bytes),
    }))
}
