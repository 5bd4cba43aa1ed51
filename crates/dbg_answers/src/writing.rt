// Commands that write into the program.
ghost use Rattle.std.specs.Prelude.{◌≡◌};
ghost use Rattle.dbg_model.specs.Writes.{set_register, write_memory};
ghost use Rattle.dbg_answers.specs.Debuggee.{seen};
ghost use Rattle.dbg_answers.specs.Answer.{answered};

use crate::answer::{Answer, doing};
use crate::debuggee::Debuggee;
use dbg_effects::Effect;
use dbg_model::{Obstacle, Poke, Refused, is_settable};
use dbg_traits::ByteList;

/// `-gdb-set [--thread N] $NAME=VALUE`; the register is that of the name, and 32 is pc.
pub fn set_register(
    debuggee: &Debuggee<'_>,
    thread: Option<u32>,
    name: ByteList,
    register: u32,
    value: u32,
) -> Result<Answer, Refused>
    ensures { answered result ≡ set_register (seen debuggee.now) thread name register value }
{
    let thread = thread.unwrap_or(debuggee.selected);
    debuggee.stopped(thread)?;
    if !is_settable(register) {
        return Err(Refused::FixedRegister(name));
    }
    Ok(doing(Effect::Poke(Poke::Register {
        hart: thread - 1,
        number: register,
        value,
    })))
}

/// `-data-write-memory-bytes ADDRESS CONTENTS [COUNT]`, with the bytes that are to be written.
pub fn write_memory(
    debuggee: &Debuggee<'_>,
    address: u32,
    bytes: ByteList,
) -> Result<Answer, Refused>
    ensures { answered result ≡ write_memory (seen debuggee.now) address bytes }
{
    let len = bytes.as_slice().len();
    if let Some(addr) = debuggee.memory.first_unwritable(address, len) {
        return Err(Refused::Hindered(Obstacle::Unwritable(addr)));
    }
    Ok(doing(Effect::Poke(Poke::Bytes { address, bytes })))
}
