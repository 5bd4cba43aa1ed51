// A journal to which nothing more is added.
ghost use Rattle.std.specs.Prelude.{◌≡◌, ◌<◌, ◌^◌, length};

use crate::entries::Entries;
use crate::entry::Entry;
use run_tape::Tape;
use std::marker::Model;

/// A journal, which contracts see as the list of its entries.
#[derive(Drop)]
pub struct Journal {
    tape: Tape,
    noted: Vec<Entry>,
}

impl Model for Journal {
    ghost use Rattle.std.specs.Prelude.{List};
    ghost use Rattle.dbg_model.specs.declared.entry.Entry.{Entry};

    ghost Value = { List Entry };

    ghost use Rattle.dbg_model.specs.JournalInside.{journal_of, AreMarked};

    ghost view = { journal_of };

    ghost invariant = { AreMarked };
}

impl Journal {
    ghost use Rattle.dbg_model.specs.Keeping.{merged, notes_in};

    // The runs of a tape, and the entries that stand at its other marks.
    pub(crate) fn of(tape: Tape, noted: Vec<Entry>) -> Journal
        requires { notes_in tape.marks ≡ length noted.items }
        ensures { result ≡ merged tape.marks noted.items }
    {
        Journal { tape, noted }
    }

    /// The entries in order.
    pub fn entries(&self) -> Entries<'_>
        ensures entries { result ≡ self.now }
        ensures few { length self.now < 2 ^ 64 }
    {
        Entries::of(self.tape.marks(), self.noted.as_slice(), None)
    }
}
