// A hart.
ghost use Rattle.std.specs.Prelude.{◌+◌, Some};

use dbg_traits::View;

/// Each register holds 100 and its number, and each byte 255.
pub struct Hart;

impl View for Hart {
    ghost registers = { λ _ n. 100 + n };

    ghost bytes = { λ _ _. Some 255 };

    fn reg(&self, n: u32) -> u32 {
        100 + n
    }

    fn byte(&self, _addr: u32) -> Option<u8> {
        Some(255)
    }
}
