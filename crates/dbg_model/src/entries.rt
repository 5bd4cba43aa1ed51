// The entries of a journal, in order.
ghost use Rattle.std.specs.Prelude.{◌≡◌, ◌++◌, length};
ghost use Rattle.std.specs.Iterator.{YieldsFirstBy, item_count};
ghost use Rattle.dbg_model.specs.Keeping.{entry_of};

use crate::entry::{Entry, EntryRef};
use run_tape::{Mark, Marks};
use std::marker::Model;

/// A run that isn't on the tape yet.
#[derive(Clone, Copy)]
pub struct Run {
    pub hart: u32,
    pub count: u64,
}

/// The entries of a journal in order. Contracts see the list of those that are still to come.
#[derive(Drop)]
pub struct Entries<'a> {
    marks: Marks<'a>,
    noted: &'a [Entry],
    pending: Option<Run>,
}

impl<'a> Model for Entries<'a> {
    ghost use Rattle.std.specs.Prelude.{List};
    ghost use Rattle.dbg_model.specs.declared.entry.Entry.{Entry};

    ghost Value = { List Entry };

    ghost use Rattle.dbg_model.specs.EntriesInside.{entries_left, AreMarked};

    ghost view = { entries_left };

    ghost invariant = { AreMarked };
}

impl<'a> Entries<'a> {
    ghost use Rattle.dbg_model.specs.Keeping.{merged, notes_in, pending_entries};

    // The runs of a tape and the entries at its other marks, and a run behind them.
    pub(crate) fn of(marks: Marks<'a>, noted: &'a [Entry], pending: Option<Run>) -> Entries<'a>
        requires { notes_in marks ≡ length noted.now }
        ensures { result ≡ merged marks.entry noted.now ++ pending_entries pending }
    {
        Entries {
            marks,
            noted,
            pending,
        }
    }
}

impl<'a> Iterator for Entries<'a> {
    type Item = EntryRef<'a>;

    ghost next_gives = { YieldsFirstBy entry_of (λ s. s) };

    ghost remaining = { item_count (λ s. s) };

    #[inline]
    fn next(&mut self) -> Option<EntryRef<'a>> {
        match self.marks.next() {
            Some(Mark::Run { hart, count }) => Some(EntryRef::Ran { hart, count }),
            Some(Mark::Note) => {
                let [entry, noted @ ..] = self.noted else {
                    unreachable!()
                };
                self.noted = noted;
                Some(EntryRef::Noted(entry))
            }
            None => {
                let run = self.pending?;
                self.pending = None;
                Some(EntryRef::Ran {
                    hart: run.hart,
                    count: run.count,
                })
            }
        }
    }
}
