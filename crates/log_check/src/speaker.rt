//! What says a session.

ghost use Rattle.std.specs.Prelude.{◌≡◌, ◌++◌, OnErr, OnOk};
ghost use Rattle.log_check.specs.Speech.{CanShow, Voice};

use dbg_model::{Entry, Opening, Shown};
use dbg_traits::NoMemory;

/// Appends what is said of an opening, and of each entry by what it shows. Out of memory, the one error, the buffer is as before.
pub trait Speaker {
    /// What it says.
    ghost voice: { Voice };

    fn opening(&mut self, opening: &Opening, into: &mut Vec<u8>) -> Result<(), NoMemory>
        ensures written { OnOk result (into.new.items ≡ into.old.items ++ voice.opening opening.now) }
        ensures unchanged { OnErr result (into.new.items ≡ into.old.items) };

    fn say(&mut self, entry: &Entry, shown: &Shown, into: &mut Vec<u8>) -> Result<(), NoMemory>
        requires { CanShow entry.now shown.now }
        ensures written { OnOk result (into.new.items ≡ into.old.items ++ voice.entry entry.now shown.now) }
        ensures unchanged { OnErr result (into.new.items ≡ into.old.items) };
}
