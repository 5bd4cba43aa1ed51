// What is listed by number: breakpoints and watches.
ghost use Rattle.std.specs.Prelude.{◌≡◌};
ghost use Rattle.dbg_model.specs.Breakpoints.{row_number};

use crate::Breakpoint;
use dbg_traits::ItemList;
use watch_points::Watch;

/// What stands under a number.
#[derive(Drop)]
pub enum Row {
    Breakpoint(Breakpoint),
    Watch(Watch),
}

impl Row {
    /// From 1 on, in one series.
    pub fn number(&self) -> u32
        ensures { result ≡ row_number self.now }
    {
        match self {
            Row::Breakpoint(breakpoint) => breakpoint.number,
            Row::Watch(watch) => watch.number,
        }
    }
}

/// Rows that contracts see as a list.
pub type RowList = ItemList<Row>;
