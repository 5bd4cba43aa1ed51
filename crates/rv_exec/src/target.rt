// The registers that can be written.
ghost use Rattle.std.specs.Prelude.{◌≡◌, ◌<◌, ◌==◌, Some, None, if◌then◌else◌};

use rv_decode::Reg;
use std::marker::Model;

/// The number of a register that can be written, 1 to 31: x0 stays 0 (RISC-V Unprivileged ISA, "Programmers' Model for Base
/// Integer ISA"). Contracts see it as that number.
#[derive(Clone, Copy)]
pub struct Target {
    number: u8,
}

impl Model for Target {
    ghost use Rattle.std.specs.Prelude.{ℕ, ◌<◌};

    ghost Value = { ℕ };

    ghost view = { λ r. r.number };

    ghost invariant = { λ r. (0 < r.number) × (r.number < 32) };

    ghost inverse = { λ n. record { number = n } };
}

impl Target {
    /// The register, if it isn't x0.
    pub fn of(register: Reg) -> Option<Target>
        ensures { result ≡ (if register == 0 then None else Some register) }
    {
        let number = register.number();
        if number == 0 {
            None
        } else {
            Some(Target {
                number: number as u8,
            })
        }
    }

    /// The register's number, 1 to 31.
    #[inline(always)]
    pub fn number(self) -> u32
        ensures value { result ≡ self }
        ensures some { 0 < result }
        ensures range { result < 32 }
    {
        u32::from(self.number)
    }
}
