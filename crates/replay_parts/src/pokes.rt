// What the user writes into the program, where the line before asked for it.
ghost use Rattle.std.specs.Prelude.{◌≡◌, ◌<◌, length, slice_get};
ghost use Rattle.data_memory.specs.Ranges.{first_unwritable};
ghost use Rattle.dbg_model.specs.State.{is_stopped};
ghost use Rattle.dbg_model.specs.Lawful.{poked_by};
ghost use Rattle.dbg_model.specs.Pokes.{bytes_poked, is_pending, register_poked, same_poke, with_register, written};
ghost use Rattle.replay_parts.specs.Parts.{state_of};
ghost use Rattle.replay_parts.specs.Going.{Comes, Kept};

use crate::halt::Halt;
use crate::modes::find;
use crate::state::Parts;
use dbg_model::{Hart, Mode, Opening, Poke, is_settable};

fn same_poke(one: &Poke, other: &Poke) -> bool
    ensures { result ≡ same_poke one.now other.now }
{
    match (one, other) {
        (
            Poke::Register {
                hart,
                number,
                value,
            },
            Poke::Register {
                hart: h,
                number: n,
                value: v,
            },
        ) => *hart == *h && *number == *n && *value == *v,
        (
            Poke::Bytes { address, bytes },
            Poke::Bytes {
                address: a,
                bytes: b,
            },
        ) => *address == *a && bytes.as_slice() == b.as_slice(),
        _ => false,
    }
}

fn is_pending(pending: &Option<Poke>, poke: &Poke) -> bool
    ensures { result ≡ is_pending pending.now poke.now }
{
    match pending {
        None => false,
        Some(pending) => same_poke(pending, poke),
    }
}

fn is_stopped(mode: Mode) -> bool
    ensures { result ≡ is_stopped mode }
{
    matches!(mode, Mode::Stopped)
}

fn with_register(hart: Hart, number: u32, value: u32) -> Hart
    requires { number < 32 }
    ensures { result ≡ with_register hart number value }
{
    let mut regs = hart.regs;
    regs.set(number, value);
    Hart { regs, ..hart }
}

// A register from 1 to 31 of a stopped hart is set.
fn set_register(
    opening: &Opening,
    parts: &mut Parts,
    h: u32,
    number: u32,
    value: u32,
) -> Result<(), Halt>
    requires { Kept opening.now parts.old }
    ensures came { Comes opening.now result (register_poked (state_of parts.old) h number value (slice_get parts.old.harts.items h)) parts.old parts.new }
    ensures rest { parts.new ≡ record parts.old { harts = parts.new.harts } }
{
    let Some(hart) = find(parts.harts.as_slice(), h) else {
        return Err(Halt::Unlawful);
    };
    if !is_stopped(hart.mode) || !is_settable(number) {
        return Err(Halt::Unlawful);
    }
    parts.harts[h as usize] = with_register(hart, number, value);
    Ok(())
}

// Bytes that are all writable are set.
fn set_bytes(opening: &Opening, parts: &mut Parts, address: u32, bytes: &[u8]) -> Result<(), Halt>
    requires { Kept opening.now parts.old }
    ensures came { Comes opening.now result (bytes_poked (state_of parts.old) address bytes.now (first_unwritable parts.old.memory address (length bytes.now))) parts.old parts.new }
    ensures rest { parts.new ≡ record parts.old { memory = parts.new.memory } }
{
    if parts
        .memory
        .first_unwritable(address, bytes.len())
        .is_some()
    {
        return Err(Halt::Unlawful);
    }
    parts.memory.write_range(address, bytes);
    Ok(())
}

// Writes something.
fn set(opening: &Opening, parts: &mut Parts, poke: &Poke) -> Result<(), Halt>
    requires { Kept opening.now parts.old }
    ensures came { Comes opening.now result (written (state_of parts.old) poke.now) parts.old parts.new }
    ensures pending { parts.new.pending ≡ parts.old.pending }
{
    match poke {
        Poke::Register {
            hart,
            number,
            value,
        } => set_register(opening, parts, *hart, *number, *value),
        Poke::Bytes { address, bytes } => set_bytes(opening, parts, *address, bytes.as_slice()),
    }
}

/// Writes what the line before asked for.
pub fn write(opening: &Opening, parts: &mut Parts, poke: &Poke) -> Result<(), Halt>
    requires { Kept opening.now parts.old }
    ensures { Comes opening.now result (poked_by (state_of parts.old) poke.now) parts.old parts.new }
{
    if !is_pending(&parts.pending, poke) {
        return Err(Halt::Unlawful);
    }
    set(opening, parts, poke)?;
    parts.pending = None;
    parts.noted += 1;
    Ok(())
}
