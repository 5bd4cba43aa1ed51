// The command that watches bytes.
ghost use Rattle.std.specs.Prelude.{◌≡◌, ◌-◌, ◌<◌, ◌^◌, length};
ghost use Rattle.rv_exec.specs.Memory.{IsLen};
ghost use Rattle.data_memory.specs.Ranges.{range_at};
ghost use Rattle.dbg_model.specs.Watchpoints.{all_read, are_data, watch, watch_room, watched};
ghost use Rattle.dbg_answers.specs.Debuggee.{seen};
ghost use Rattle.dbg_answers.specs.Answer.{Gives, GivesAs};

use crate::answer::{Answer, Failure, hindered};
use crate::debuggee::Debuggee;
use data_memory::DataMemory;
use dbg_effects::Effect;
use dbg_model::{Content, Obstacle, Refused, bytes_of};
use dbg_traits::ByteList;
use elf_symbols::Symbols;
use std::alloc::Global;
use watch_points::{MOST_WATCHES, WatchError, WatchFault, Watched, watch_of};

// The bytes that a text asks to be watched.
fn watched(alloc: Global, symbols: &Symbols, text: &[u8]) -> Result<Watched, Failure>
    ensures { GivesAs (λ b. b) result (watched symbols.now text.now) }
{
    match watch_of(alloc, text, symbols) {
        Ok(watched) => Ok(watched),
        Err(WatchError::NoMemory) => Err(Failure::NoMemory),
        Err(WatchError::Fault(WatchFault::Expr(fault))) => {
            Err(hindered(Obstacle::Expression(fault)))
        }
        Err(WatchError::Fault(WatchFault::Form)) => Err(Failure::Refused(Refused::Unwatchable(
            bytes_of(alloc, text)?,
        ))),
        Err(WatchError::Fault(WatchFault::Value)) => Err(hindered(Obstacle::DivisionByZero)),
    }
}

// Each of as many bytes from an address on has to be data.
fn all_read(memory: &DataMemory, address: u32, bytes: &mut [u8]) -> Result<(), Refused>
    ensures { result ≡ all_read (range_at memory.now address (length bytes.old)) }
{
    match memory.read_range(address, bytes) {
        Ok(()) => Ok(()),
        Err(unmapped) => Err(Refused::Hindered(Obstacle::Unreadable(unmapped))),
    }
}

fn are_data(debuggee: &Debuggee<'_>, watched: Watched) -> Result<(), Refused>
    requires { IsLen watched.size }
    ensures { result ≡ are_data (seen debuggee.now) watched }
{
    match watched.size {
        1 => all_read(debuggee.memory, watched.address, &mut [0; 1]),
        2 => all_read(debuggee.memory, watched.address, &mut [0; 2]),
        _ => all_read(debuggee.memory, watched.address, &mut [0; 4]),
    }
}

// There has to be room for one more watch.
fn watch_room(debuggee: &Debuggee<'_>) -> Result<(), Refused>
    ensures { result ≡ watch_room (seen debuggee.now) }
{
    if debuggee.watches.len() < MOST_WATCHES {
        Ok(())
    } else {
        Err(Refused::Hindered(Obstacle::TooManyWatches))
    }
}

/// `-break-watch EXPR`.
pub fn watch(alloc: Global, debuggee: &Debuggee<'_>, text: ByteList) -> Result<Answer, Failure>
    requires { debuggee.now.table.now.given < 2 ^ 32 - 1 }
    ensures { Gives result (watch (seen debuggee.now) text) }
{
    let watched = watched(alloc, debuggee.sources.symbols(), text.as_slice())?;
    are_data(debuggee, watched)?;
    watch_room(debuggee)?;
    let content = Content::Watching {
        number: debuggee.table.given() + 1,
        text: bytes_of(alloc, text.as_slice())?,
    };
    Ok(Answer {
        content,
        effect: Effect::Watch { text, watched },
    })
}
