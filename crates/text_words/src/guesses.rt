// Which region to look at first for an address.
ghost use Rattle.std.specs.Prelude.{◌<◌, length};

use crate::region::Region;
use std::alloc::{AllocError, Global};

/// How many addresses a page has.
const PAGE: u32 = 2048;

/// How many pairs of words a page has. There is a gap between any two regions, so no pair has words of both.
const PAIRS: usize = 256;

/// The entry of a page with a table of its own, for the first table.
const TABLES: u32 = 0x8000_0000;

/// The entry of a page that no region reaches: there is no such table.
const NONE: u32 = u32::MAX;

/// For each page of addresses the number of the region that reaches it, or, where several do, a table of that of each pair of
/// words. It need not be right: who takes a guess sees whether the region has the address.
#[derive(Drop)]
pub struct Guesses {
    // The number of the first page.
    first: u32,
    pages: Vec<u32>,
    tables: Vec<u32>,
}

impl Guesses {
    /// For regions in the order of their addresses. One region needs no table.
    pub fn of(alloc: Global, regions: &[Region]) -> Result<Guesses, AllocError> {
        let mut guesses = Guesses {
            first: 0,
            pages: Vec::new(alloc),
            tables: Vec::new(alloc),
        };
        if regions.len() < 2 {
            return Ok(guesses);
        }
        guesses.first = regions[0].address / PAGE;
        let pages = last_page(&regions[regions.len() - 1]).saturating_sub(guesses.first) as usize
            + 1;
        guesses.pages.resize(pages, NONE)?;
        for (k, region) in regions.iter().enumerate() {
            let Ok(number) = u32::try_from(k) else {
                return Err(AllocError);
            };
            guesses.add(number, region)?;
        }
        Ok(guesses)
    }

    /// The number of the region to look at; of no region, maybe, where no word of text is.
    #[inline(always)]
    pub fn guess(&self, addr: u32) -> usize {
        let page = (addr / PAGE).wrapping_sub(self.first) as usize;
        if page >= self.pages.len() {
            return 0;
        }
        let entry = self.pages[page];
        if entry < TABLES {
            return entry as usize;
        }
        let at = (entry - TABLES) as usize * PAIRS + (addr % PAGE / 8) as usize;
        if at < self.tables.len() {
            self.tables[at] as usize
        } else {
            0
        }
    }

    // Enters a region, behind those before it.
    fn add(&mut self, number: u32, region: &Region) -> Result<(), AllocError> {
        for page in region.address / PAGE..=last_page(region) {
            let at = page.wrapping_sub(self.first) as usize;
            if at >= self.pages.len() {
                return Ok(());
            }
            if self.pages[at] == NONE {
                self.pages[at] = number;
            } else {
                self.share(at, number, region)?;
            }
        }
        Ok(())
    }

    // Enters a region in a page that others reach. What it enters too far, those behind it put right.
    fn share(&mut self, at: usize, number: u32, region: &Region) -> Result<(), AllocError>
        requires { at < length self.old.pages.items }
    {
        let table = self.table(at)?;
        let first = (region.address % PAGE / 8) as usize;
        let end = PAIRS.min(first.saturating_add(region.count / 2).saturating_add(1));
        for pair in first..end {
            if let Some(entry) = self.tables.get_mut(table.saturating_add(pair)) {
                *entry = number;
            }
        }
        Ok(())
    }

    // Where the table of a page begins. It is given one if it has none.
    fn table(&mut self, at: usize) -> Result<usize, AllocError>
        requires { at < length self.old.pages.items }
    {
        let entry = self.pages[at];
        if entry >= TABLES {
            return Ok((entry - TABLES) as usize * PAIRS);
        }
        let place = self.tables.len();
        let Ok(number) = u32::try_from(place / PAIRS) else {
            return Err(AllocError);
        };
        if number >= TABLES {
            return Err(AllocError);
        }
        self.tables.resize(place + PAIRS, entry)?;
        self.pages[at] = TABLES + number;
        Ok(place)
    }
}

// The number of the page of a region's last address.
fn last_page(region: &Region) -> u32 {
    let size = (region.count as u64).saturating_mul(4);
    let last = u64::from(region.address)
        .saturating_add(size)
        .saturating_sub(1);
    last.min(u64::from(u32::MAX)) as u32 / PAGE
}
