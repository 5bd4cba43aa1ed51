// Loads, stores and AMOs over bytes in pages.
ghost use Rattle.std.specs.Prelude.{◌≡◌, ◌<◌, ◌*◌, ◌^◌, IfOk};
ghost use Rattle.rv_exec.specs.Memory.{load, store, amo, IsLen, without_memory, memory_or, old_word, new_memory};
ghost use Rattle.data_memory.specs.Paged.{paged, IsPaged};

use crate::frames::Frames;
use crate::page_table::PageTable;
use crate::paged::{is_aligned, spot};
use rv_exec::{AmoOp, Cause, amo_value};

/// The number in the `len` bytes at an address, as `DataPort::load` has it.
#[inline(always)]
#[tactic(auto, unfolding(rv_exec::specs::Memory::load))]
pub fn load_at(pages: &PageTable, frames: &Frames, addr: u32, len: u32) -> Result<u32, Cause>
    requires kept { IsPaged pages.now frames.now }
    requires len { IsLen len }
    ensures value { result ≡ load (paged pages.now frames.now) addr len }
    ensures range { IfOk result (λ v. v < 2 ^ (8 * len)) }
{
    if !is_aligned(addr, len) {
        return Err(Cause::LoadAlign);
    }
    frames
        .number(spot(pages, addr), len)
        .ok_or(Cause::LoadFault)
}

/// Puts the low `len` bytes of the value at an address, as `DataPort::store` does.
#[inline(always)]
#[tactic(auto, unfolding(rv_exec::specs::Memory::store))]
pub fn store_at(
    pages: &PageTable,
    frames: &mut Frames,
    addr: u32,
    len: u32,
    value: u32,
) -> Result<(), Cause>
    requires kept { IsPaged pages.now frames.old }
    requires len { IsLen len }
    ensures value { result ≡ without_memory (store (paged pages.now frames.old) addr len value) }
    ensures memory { paged pages.now frames.new ≡ memory_or (paged pages.now frames.old) (store (paged pages.now frames.old) addr len value) }
    ensures kept { IsPaged pages.now frames.new }
{
    if !is_aligned(addr, len) {
        return Err(Cause::StoreAlign);
    }
    let at = spot(pages, addr);
    if !frames.are_writable(at, len) {
        return Err(Cause::StoreFault);
    }
    frames.put(at, len, value);
    Ok(())
}

/// An AMO on the word at an address, as `DataPort::amo` does it; rare, so kept out of the path of loads and stores.
#[inline(never)]
#[tactic(auto, unfolding(rv_exec::specs::Memory::amo))]
pub fn amo_at(
    pages: &PageTable,
    frames: &mut Frames,
    op: AmoOp,
    addr: u32,
    value: u32,
) -> Result<u32, Cause>
    requires kept { IsPaged pages.now frames.old }
    ensures value { result ≡ old_word (amo (paged pages.now frames.old) op addr value) }
    ensures memory { paged pages.now frames.new ≡ new_memory (paged pages.now frames.old) (amo (paged pages.now frames.old) op addr value) }
    ensures kept { IsPaged pages.now frames.new }
{
    if !is_aligned(addr, 4) {
        return Err(Cause::StoreAlign);
    }
    let at = spot(pages, addr);
    if !frames.are_writable(at, 4) {
        return Err(Cause::StoreFault);
    }
    let Some(old) = frames.number(at, 4) else {
        return Err(Cause::StoreFault);
    };
    frames.put(at, 4, amo_value(op, old, value));
    Ok(old)
}
