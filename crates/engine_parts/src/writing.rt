// What the user writes into the machine.
ghost use Rattle.engine_parts.specs.Writing.{CanPoke, Pokes};

use dbg_model::Poke;
use hart_machine::Machine;

/// Sets a register of a hart that is in no slot, or bytes of data.
pub fn write(machine: &mut Machine, poke: &Poke)
    requires { CanPoke machine.old poke.now }
    ensures { Pokes machine.old poke.now machine.new }
{
    match poke {
        Poke::Register {
            hart,
            number,
            value,
        } => machine.poke_register(*hart, *number, *value),
        Poke::Bytes { address, bytes } => machine.poke_bytes(*address, bytes.as_slice()),
    }
}
