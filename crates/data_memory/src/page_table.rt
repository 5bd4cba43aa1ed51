// The frame of each page.
ghost use Rattle.std.specs.Prelude.{◌≡◌, ◌≢◌, ◌<◌, ◌/◌, ℕ, length, IfOk, OnOk, OnErr, slice_index, slice_set};
ghost use Rattle.data_memory.specs.Blocks.{spot, IsBlocked, GivenBlock};

use std::alloc::{AllocError, Global};
use std::marker::Model;

/// How many bytes a page has, and how many pages a table.
pub const BLOCK: usize = 512;

/// How many tables the pages of all addresses need.
const TABLES: usize = 16384;

/// The frame of each page, by a directory of tables. Frame 0 is that of pages without bytes, and table 0 that of
/// tables without pages. Contracts see the list of the pages' frames.
#[derive(Drop)]
pub struct PageTable {
    directory: Vec<u32>,
    tables: Vec<u32>,
}

impl Model for PageTable {
    ghost use Rattle.std.specs.Prelude.{ℕ, List};
    ghost use Rattle.data_memory.specs.Blocks.{frames, IsBlocked};

    ghost Value = { List ℕ };

    ghost view = { λ s. frames s.directory.items s.tables.items };

    ghost invariant = { λ s. IsBlocked 0 16384 s.directory.items s.tables.items };
}

impl PageTable {
    /// No page has a frame of its own.
    ///
    /// Fails where memory runs out.
    pub fn new(alloc: Global) -> Result<PageTable, AllocError>
        ensures size { IfOk result (λ t. length t ≡ 8388608) }
        ensures none { IfOk result (λ t. (p : ℕ) → p < 8388608 → slice_index t p ≡ 0) }
    {
        let directory = Vec::from_elem(alloc, 0, TABLES)?;
        let tables = Vec::from_elem(alloc, 0, BLOCK)?;
        Ok(PageTable { directory, tables })
    }

    /// The frame of a page.
    #[inline(always)]
    pub fn frame(&self, page: u32) -> u32
        requires { page < 8388608 }
        ensures { result ≡ slice_index self.now page }
    {
        self.tables[spot_in(self.directory.as_slice(), page)]
    }

    /// Gives a page a frame.
    ///
    /// Fails where memory runs out.
    pub fn set_frame(&mut self, page: u32, frame: u32) -> Result<(), AllocError>
        requires { page < 8388608 }
        ensures { OnOk result (self.new ≡ slice_set self.old page frame) }
    {
        give_table(&mut self.directory, &mut self.tables, page)?;
        let at = spot_in(self.directory.as_slice(), page);
        self.tables[at] = frame;
        Ok(())
    }
}

/// Where the entry of a page is.
#[inline(always)]
#[tactic(auto, unfolding(crate::specs::Blocks::spot))]
fn spot_in(directory: &[u32], page: u32) -> usize
    requires { page / 512 < length directory.now }
    ensures { result ≡ spot directory.now page }
{
    directory[(page / BLOCK as u32) as usize] as usize * BLOCK + (page % BLOCK as u32) as usize
}

/// Gives the page's run of pages a table of its own, if it has none.
fn give_table(directory: &mut Vec<u32>, tables: &mut Vec<u32>, page: u32) -> Result<(), AllocError>
    requires kept { IsBlocked 0 16384 directory.old.items tables.old.items }
    requires page { page < 8388608 }
    ensures given { OnOk result (GivenBlock 0 16384 directory.old.items tables.old.items directory.new.items tables.new.items (page / 512)) }
    ensures directory { OnErr result (directory.new.items ≡ directory.old.items) }
    ensures tables { OnErr result (tables.new.items ≡ tables.old.items) }
{
    let run = (page / BLOCK as u32) as usize;
    if directory[run] != 0 {
        return Ok(());
    }
    let Ok(number) = u32::try_from(tables.len() / BLOCK) else {
        return Err(AllocError);
    };
    tables.resize(tables.len() + BLOCK, 0)?;
    directory[run] = number;
    Ok(())
}
