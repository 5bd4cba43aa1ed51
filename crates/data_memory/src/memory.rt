// The bytes that harts load and store.
ghost use Rattle.std.specs.Prelude.{◌≡◌};

use crate::accesses::{amo_at, load_at, store_at};
use crate::frames::Frames;
use crate::loading::begin;
use crate::page_table::PageTable;
use crate::reading::{are_mapped, byte_in, read_into, writable_in};
use crate::writing::{unwritable_in, write_in};
use dbg_traits::NoMemory;
use elf32_read::Image;
use rv_exec::{AmoOp, Cause, DataPort};
use std::alloc::Global;
use std::marker::Model;

/// The bytes that the harts of a machine load and store: those of the image's segments but for its text, and a
/// stack for each hart. Contracts see it as a `Memory`, the finite map from addresses to bytes.
#[derive(Drop)]
pub struct DataMemory {
    pages: PageTable,
    frames: Frames,
}

impl Model for DataMemory {
    ghost use Rattle.rv_exec.specs.Memory.{Memory};
    ghost use Rattle.data_memory.specs.Maps.{memory_code};
    ghost use Rattle.data_memory.specs.Paged.{paged, IsPaged};

    ghost Value = { Memory };

    ghost coded = { memory_code };

    ghost view = { λ s. paged s.pages s.frames };

    ghost invariant = { λ s. IsPaged s.pages s.frames };
}

impl DataPort for DataMemory {
    ghost memory = { λ m. m };

    #[inline(always)]
    fn load(&self, addr: u32, len: u32) -> Result<u32, Cause> {
        load_at(&self.pages, &self.frames, addr, len)
    }

    #[inline(always)]
    fn store(&mut self, addr: u32, len: u32, value: u32) -> Result<(), Cause> {
        store_at(&self.pages, &mut self.frames, addr, len, value)
    }

    fn amo(&mut self, op: AmoOp, addr: u32, value: u32) -> Result<u32, Cause> {
        amo_at(&self.pages, &mut self.frames, op, addr, value)
    }
}

impl DataMemory {
    ghost use Rattle.std.specs.Prelude.{◌≤◌, IfOk};
    ghost use Rattle.data_memory.specs.Start.{start_memory};

    /// The memory of a machine before its first instruction: an image's data, and 65,536 zero bytes for the stack
    /// of each hart.
    ///
    /// Fails where memory runs out.
    pub fn load(alloc: Global, image: &Image, harts: u32) -> Result<DataMemory, NoMemory>
        requires { harts ≤ 16 }
        ensures { IfOk result (λ m. m ≡ start_memory image.now harts) }
    {
        let mut pages = PageTable::new(alloc)?;
        let mut frames = Frames::new(alloc)?;
        begin(&mut pages, &mut frames, image, harts)?;
        Ok(DataMemory { pages, frames })
    }
}

impl DataMemory {
    ghost use Rattle.std.specs.Prelude.{◌≡◌, length, MatchResult, IfErr, None, Ok, Err};
    ghost use Rattle.std.specs.FinMap as map;
    ghost use Rattle.rv_exec.specs.Memory.{is_writable};
    ghost use Rattle.std.specs.Option.{is_some};
    ghost use Rattle.data_memory.specs.Ranges.{value_at, range_at, bytes_at, first_unwritable, with_bytes};

    /// The byte at an address, if it is mapped.
    pub fn byte(&self, addr: u32) -> Option<u8>
        ensures { result ≡ value_at self.now addr }
    {
        byte_in(&self.pages, &self.frames, addr)
    }

    /// Whether the byte at an address is mapped and may be stored.
    pub fn writable(&self, addr: u32) -> bool
        ensures { result ≡ is_writable (map.get self.now addr) }
    {
        writable_in(&self.pages, &self.frames, addr)
    }

    /// Whether `len` bytes from an address on are mapped; addresses go on modulo 2^32.
    pub fn are_mapped(&self, addr: u32, len: usize) -> bool
        ensures { result ≡ is_some (bytes_at self.now addr len) }
    {
        are_mapped(&self.pages, &self.frames, addr, len)
    }

    /// Puts the bytes from `addr` on into a slice; addresses go on modulo 2^32.
    ///
    /// Fails with the first address, in the order of reading, that isn't mapped. The slice then stays as it was.
    pub fn read_range(&self, addr: u32, into: &mut [u8]) -> Result<(), u32>
        ensures range { MatchResult result (λ _. range_at self.now addr (length into.old) ≡ Ok into.new) (λ at. range_at self.now addr (length into.old) ≡ Err at) }
        ensures kept { IfErr result (λ _. into.new ≡ into.old) }
    {
        read_into(&self.pages, &self.frames, addr, into)
    }

    /// The first of `len` addresses from `addr` on, in the order of writing, whose byte isn't mapped and writable;
    /// addresses go on modulo 2^32.
    pub fn first_unwritable(&self, addr: u32, len: usize) -> Option<u32>
        ensures { result ≡ first_unwritable self.now addr len }
    {
        unwritable_in(&self.pages, &self.frames, addr, len)
    }

    /// Puts bytes from `addr` on, where all are writable; addresses go on modulo 2^32. Nothing else changes, and no memory
    /// is taken.
    pub fn write_range(&mut self, addr: u32, bytes: &[u8])
        requires { first_unwritable self.old addr (length bytes.now) ≡ None }
        ensures { self.new ≡ with_bytes self.old addr bytes.now }
    {
        write_in(&self.pages, &mut self.frames, addr, bytes);
    }
}
