// The harts as they start.
ghost use Rattle.std.specs.Prelude.{◌≡◌, ◌≤◌, IfOk};
ghost use Rattle.hart_machine.specs.Stepping.{first_cores};

use crate::hart::Core;
use plain_machine::first_registers;
use std::alloc::{AllocError, Global};

/// Each of so many harts at the entry, before its first step.
pub fn first_cores(alloc: Global, entry: u32, harts: u32) -> Result<Vec<Core>, AllocError>
    requires { harts ≤ 16 }
    ensures { IfOk result (λ v. v.items ≡ first_cores entry harts harts) }
{
    let mut cores = Vec::new(alloc);
    for hart in 0..harts {
        cores.push(Core {
            regs: first_registers(entry, harts, hart),
            retired: 0,
            copied: 0,
            entered: None,
        })?;
    }
    Ok(cores)
}
