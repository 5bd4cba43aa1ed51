// The registers that a hart starts with.
ghost use Rattle.std.specs.Prelude.{◌≡◌, ◌<◌};
ghost use Rattle.plain_machine.specs.Plain.{first_registers};

use data_memory::stack_top;
use rv_exec::Regs;

/// The registers with which a hart of so many starts, at the entry.
pub fn first_registers(entry: u32, harts: u32, hart: u32) -> Regs
    requires { hart < 16 }
    ensures { result ≡ first_registers entry harts hart }
{
    let mut regs = Regs::new(entry);
    regs.set(10, hart);
    regs.set(11, harts);
    regs.set(2, stack_top(hart));
    regs
}
