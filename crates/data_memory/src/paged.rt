// Where the byte of an address is.
ghost use Rattle.std.specs.Prelude.{◌≡◌, ◌%◌, ◌==◌};
ghost use Rattle.rv_exec.specs.Memory.{IsLen};
ghost use Rattle.data_memory.specs.Blocks.{spot};

use crate::page_table::{BLOCK, PageTable};

/// Whether an address is a multiple of a length.
#[inline(always)]
pub fn is_aligned(addr: u32, len: u32) -> bool
    requires { IsLen len }
    ensures { result ≡ (addr % len == 0) }
{
    match len {
        1 => true,
        2 => addr % 2 == 0,
        _ => addr % 4 == 0,
    }
}

/// Where the byte of an address is: in the frame that its page has.
#[inline(always)]
#[tactic(auto, unfolding(crate::specs::Blocks::spot))]
pub fn spot(pages: &PageTable, addr: u32) -> usize
    ensures { result ≡ spot pages.now addr }
{
    pages.frame(addr / BLOCK as u32) as usize * BLOCK + (addr % BLOCK as u32) as usize
}
