//! The entries that a log has.

ghost use Rattle.std.specs.Prelude.{◌≡◌, [], ◌∷◌, ◌++◌, OnOk};

use dbg_model::Entry;
use std::alloc::{AllocFailed, Global};
use std::marker::Model;

/// Entries in order, of a lawful journal or not. Contracts see their list.
#[derive(Drop)]
pub struct EntryList {
    entries: Vec<Entry>,
}

impl Model for EntryList {
    ghost use Rattle.std.specs.Prelude.{List};
    ghost use Rattle.dbg_model.specs.declared.entry.Entry.{Entry};

    ghost Value = { List Entry };

    ghost view = { λ l. l.entries.items };
}

impl EntryList {
    /// No entries.
    pub fn new(alloc: Global) -> EntryList
        ensures { result ≡ [] }
    {
        EntryList {
            entries: Vec::new(alloc),
        }
    }

    /// The entries in order.
    pub fn as_slice(&self) -> &[Entry]
        ensures { result.now ≡ self.now }
    {
        self.entries.as_slice()
    }

    /// Appends an entry.
    pub fn push(&mut self, entry: Entry) -> Result<(), AllocFailed<Entry>>
        ensures { OnOk result (self.new ≡ self.old ++ entry ∷ []) }
    {
        self.entries.push(entry)
    }

    /// The entries as a vector, in their memory.
    pub fn into_vec(self) -> Vec<Entry>
        ensures { result.items ≡ self }
    {
        self.entries
    }
}
