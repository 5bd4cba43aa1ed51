// Which instructions a run may execute.
ghost use Rattle.std.specs.Prelude.{◌≡◌};

use rv_exec::Operation;

/// Which instructions a run may execute.
pub trait Guard {
    ghost use Rattle.std.specs.Prelude.{ℕ, Bool};
    ghost use Rattle.rv_exec.specs.declared.operation.Operation.{Operation};

    /// Whether the operation at an address may be executed.
    ghost allows: { Self → ℕ → Operation → Bool };

    /// Whether the operation at `pc` may be executed.
    fn allows(&self, pc: u32, operation: &Operation) -> bool
        ensures { result ≡ allows self.now pc operation.now };
}
