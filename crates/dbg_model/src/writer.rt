// A journal to which entries are added.
ghost use Rattle.std.specs.Prelude.{◌≡◌, ◌≤◌, ◌<◌, ◌+◌, ◌*◌, ◌^◌, ◌++◌, ◌∷◌, [], length, IfSome, OnOk, OnErr};
ghost use Rattle.dbg_model.specs.declared.entry.Entry.TheVariants.{Ran};
ghost use Rattle.dbg_model.specs.Journals.{last_count, last_entries, lengthened_by, noted, noted_one};
ghost use Rattle.dbg_model.specs.Keeping.{pending_count, pending_marks};

use crate::entries::{Entries, Run};
use crate::entry::Entry;
use crate::journal::Journal;
use run_tape::Tape;
use std::alloc::{AllocError, Global};
use std::marker::Model;

// For how many entries room is made at once, so that there mostly is some.
const AT_ONCE: usize = 128;

// How many bytes of a tape so many entries take at most, beside a run that isn't on it yet.
fn bytes_for(entries: usize) -> Option<usize>
    ensures { IfSome result (λ b. b ≡ 17 * entries + 17) }
{
    entries.checked_mul(17)?.checked_add(17)
}

// Puts a run on a tape, if there is one.
fn settle(tape: &mut Tape, pending: Option<Run>)
    requires { 17 * pending_count pending ≤ tape.old.room }
    ensures marks { tape.new.marks ≡ tape.old.marks ++ pending_marks pending }
    ensures room { tape.old.room ≤ tape.new.room + 17 * pending_count pending }
{
    if let Some(run) = pending {
        tape.run(run.hart, run.count);
    }
}

/// A journal to which entries are added. Contracts see the list of its entries, and for how many more there is room.
///
/// The last run isn't on the tape yet, so that it can be lengthened.
#[derive(Drop)]
pub struct JournalWriter {
    tape: Tape,
    noted: Vec<Entry>,
    pending: Option<Run>,
    spare: usize,
}

impl Model for JournalWriter {
    ghost use Rattle.dbg_model.specs.Written.{Written};

    ghost Value = { Written };

    ghost use Rattle.dbg_model.specs.WriterInside.{written_of, Keeps};

    ghost view = { written_of };

    ghost invariant = { Keeps };
}

impl JournalWriter {
    /// A journal without entries.
    pub fn new(alloc: Global) -> JournalWriter
        ensures entries { result.entries ≡ [] }
        ensures spare { result.spare ≡ 0 }
    {
        JournalWriter {
            tape: Tape::new(alloc),
            noted: Vec::new(alloc),
            pending: None,
            spare: 0,
        }
    }

    /// Makes room for so many entries.
    ///
    /// # Errors
    ///
    /// No memory for them.
    pub fn reserve(&mut self, entries: usize) -> Result<(), AllocError>
        ensures entries { self.new.entries ≡ self.old.entries }
        ensures ok { OnOk result (entries ≤ self.new.spare) }
        ensures least { self.old.spare ≤ self.new.spare }
        ensures err { OnErr result (self.new ≡ self.old) }
    {
        if entries <= self.spare {
            return Ok(());
        }
        if entries < AT_ONCE && self.make_room(AT_ONCE).is_ok() {
            return Ok(());
        }
        self.make_room(entries)
    }

    // Makes room for so many entries, of which there isn't any yet.
    fn make_room(&mut self, entries: usize) -> Result<(), AllocError>
        requires { self.old.spare < entries }
        ensures entries { self.new.entries ≡ self.old.entries }
        ensures ok { OnOk result (entries ≤ self.new.spare) }
        ensures least { self.old.spare ≤ self.new.spare }
        ensures err { OnErr result (self.new ≡ self.old) }
    {
        let Some(bytes) = bytes_for(entries) else {
            return Err(AllocError);
        };
        self.tape.reserve(bytes)?;
        self.noted.reserve(entries)?;
        self.spare = entries;
        Ok(())
    }

    /// For how many entries there is room.
    pub fn spare(&self) -> usize
        ensures { result ≡ self.now.spare }
    {
        self.spare
    }

    // Adds a run behind the last entry.
    fn begin(&mut self, run: Run)
        requires { 0 < self.old.spare }
        ensures entries { self.new.entries ≡ self.old.entries ++ Ran run.hart run.count ∷ [] }
        ensures spare { self.old.spare ≡ self.new.spare + 1 }
    {
        settle(&mut self.tape, self.pending);
        self.pending = Some(run);
        self.spare -= 1;
    }

    // Adds an entry other than `Ran`.
    fn note(&mut self, entry: Entry)
        requires room { 0 < self.old.spare }
        requires other { noted_one entry ≡ 1 }
        ensures entries { self.new.entries ≡ self.old.entries ++ entry ∷ [] }
        ensures spare { self.old.spare ≡ self.new.spare + 1 }
    {
        settle(&mut self.tape, self.pending);
        self.pending = None;
        self.tape.note();
        self.noted.push_reserved(entry);
        self.spare -= 1;
    }

    /// Adds an entry, for which there is room.
    pub fn push(&mut self, entry: Entry)
        requires { 0 < self.old.spare }
        ensures entries { self.new.entries ≡ self.old.entries ++ entry ∷ [] }
        ensures spare { self.old.spare ≡ self.new.spare + 1 }
    {
        match entry {
            Entry::Ran { hart, count } => self.begin(Run { hart, count }),
            other => self.note(other),
        }
    }

    /// Notes so many more instructions of a hart, for which there is room: they lengthen the last entry where that is a `Ran` of this
    /// hart.
    pub fn lengthen(&mut self, hart: u32, count: u64)
        requires some { 0 < count }
        requires room { 0 < self.old.spare }
        requires last { last_count self.old.entries + count < 2 ^ 64 }
        ensures entries { self.new.entries ≡ lengthened_by count self.old.entries hart }
        ensures spare { self.old.spare ≤ self.new.spare + 1 }
    {
        if let Some(run) = self.pending {
            if run.hart == hart {
                self.pending = Some(Run {
                    hart,
                    count: run.count + count,
                });
                return;
            }
        }
        self.begin(Run { hart, count });
    }

    /// How many entries other than `Ran` there are.
    pub fn noted(&self) -> usize
        ensures { result ≡ noted self.now.entries }
    {
        self.noted.as_slice().len()
    }

    /// The last so many entries, of which none is a `Ran`.
    pub fn last_noted(&self, count: usize) -> &[Entry]
        requires many { count ≤ length self.now.entries }
        requires noted { noted (last_entries count self.now.entries) ≡ count }
        ensures { result.now ≡ last_entries count self.now.entries }
    {
        let noted = self.noted.as_slice();
        &noted[noted.len() - count..]
    }

    /// The entries in order.
    pub fn entries(&self) -> Entries<'_>
        ensures entries { result ≡ self.now.entries }
        ensures few { length self.now.entries < 2 ^ 64 }
    {
        Entries::of(self.tape.marks(), self.noted.as_slice(), self.pending)
    }

    /// The journal, when nothing more is added.
    pub fn close(self) -> Journal
        ensures { result ≡ self.entries }
    {
        let JournalWriter {
            tape,
            noted,
            pending,
            spare: _,
        } = self;
        let mut tape = tape;
        settle(&mut tape, pending);
        Journal::of(tape, noted)
    }
}
