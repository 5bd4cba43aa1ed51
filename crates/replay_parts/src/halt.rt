// Why a replay ends before its journal does.
use dbg_traits::NoMemory;
use std::alloc::AllocError;

/// Why a journal isn't gone through to its end.
#[derive(Clone, Copy)]
pub enum Halt {
    /// Memory ran out.
    NoMemory,
    /// The entry may not come.
    Unlawful,
}

impl From<AllocError> for Halt {
    ghost use Rattle.std.specs.Prelude.{◌≡◌};
    ghost use Rattle.replay_parts.specs.declared.halt.Halt.TheVariants as halt;

    ghost from_gives = { λ e r. r ≡ halt.NoMemory };

    fn from(e: AllocError) -> Halt {
        Halt::NoMemory
    }
}

impl From<NoMemory> for Halt {
    ghost use Rattle.std.specs.Prelude.{◌≡◌};
    ghost use Rattle.replay_parts.specs.declared.halt.Halt.TheVariants as halt;

    ghost from_gives = { λ e r. r ≡ halt.NoMemory };

    fn from(e: NoMemory) -> Halt {
        Halt::NoMemory
    }
}
