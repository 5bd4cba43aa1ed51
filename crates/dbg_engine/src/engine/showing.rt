// What the entries show that a move has noted.
ghost use Rattle.std.specs.Prelude.{◌≡◌, ◌<◌, ◌≤◌, length, IfOk};
ghost use Rattle.dbg_model.specs.Journals.{last_entries, noted};
ghost use Rattle.dbg_model.specs.Shown.{frame_at, shown_of, stopping_watch};
ghost use Rattle.dbg_model.specs.declared.shown.Shown.TheVariants.{Stop};
ghost use Rattle.engine_parts.specs.Seen.{seen};
ghost use Rattle.engine_parts.specs.Shown.{ComesIn, IsMoved, ran_shows, shown_by};

use super::Engine;
use crate::Move;
use dbg_model::{Entry, Shown, Why, shown_frame, stopping_watch};
use dbg_traits::{ByteList, NoMemory};

impl Engine {
    /// How many entries other than `Ran` the journal has.
    pub fn noted(&self) -> u64
        ensures { result ≡ self.now.noted }
    {
        self.noted
    }

    /// The last so many entries, which all are noted: none of them is a `Ran`.
    pub fn last_noted(&self, count: usize) -> &[Entry]
        requires many { count ≤ length self.now.journal }
        requires noted { noted (last_entries count self.now.journal) ≡ count }
        ensures { result.now ≡ last_entries count self.now.journal }
    {
        self.journal.last_noted(count)
    }

    // The bytes that the instruction of a move wrote.
    fn shown_output(&self, moved: Move) -> Result<Shown, NoMemory>
        ensures { IfOk result (λ s. s ≡ ran_shows self.now moved) }
    {
        let Move::Wrote { addr, len } = moved else {
            return Ok(Shown::Nothing);
        };
        let mut bytes = vec![in self.alloc; 0u8; len as usize]?;
        match self.read_range(addr, bytes.as_mut_slice()) {
            Ok(()) => Ok(Shown::Wrote {
                bytes: ByteList::of(bytes),
            }),
            Err(_) => Ok(Shown::Nothing),
        }
    }

    // What a stop shows of a hart. It is the last that stopped: `temporary` is of that one.
    fn shown_stop(&self, h: u32, why: Why) -> Result<Shown, NoMemory>
        requires { h < length self.now.minds }
        ensures { IfOk result (λ s. s ≡ Stop (frame_at self.now.sources (seen self.now).harts h) self.now.temporary (stopping_watch self.now.watches why)) }
    {
        let pc = self.pc(h);
        let Ok(watch) = stopping_watch(self.alloc, self.watches.as_slice(), why) else {
            return Err(NoMemory);
        };
        let Ok(frame) = shown_frame(self.alloc, &self.sources, pc, pc) else {
            return Err(NoMemory);
        };
        Ok(Shown::Stop {
            frame,
            temporary: self.temporary,
            watch,
        })
    }

    // What an entry of the last turn shows, had from the engine in place of a replay.
    fn shown_by(&self, moved: Move, entry: &Entry, last: bool) -> Result<Shown, NoMemory>
        requires { IsMoved (length self.now.minds) entry.now }
        ensures { IfOk result (λ s. s ≡ shown_by self.now moved entry.now last) }
    {
        match entry {
            Entry::Ran { .. } => self.shown_output(moved),
            Entry::Stopped { hart, why } => self.shown_stop(*hart, *why),
            Entry::Left { .. } => Ok(Shown::Exit {
                last: last && self.all_gone(),
            }),
            Entry::Counted { .. } | Entry::Did { .. } | Entry::Poked { .. } => Ok(Shown::Nothing),
        }
    }

    /// What an entry shows that the last turn noted, or lengthened by an instruction: what it shows in the state in which it
    /// came. The turn was this move, and nothing was done since. `last` says whether it is the journal's last entry.
    ///
    /// # Errors
    ///
    /// No memory for what is shown.
    pub fn shown(&self, moved: Move, entry: &Entry, last: bool) -> Result<Shown, NoMemory>
        requires { IsMoved (length self.now.minds) entry.now }
        ensures kept { IfOk result (λ s. s ≡ shown_by self.now moved entry.now last) }
        ensures came { IfOk result (λ s. (old : _) (before : _) → ComesIn moved old self.now entry.now last before → s ≡ shown_of self.now.opening before entry.now) }
    {
        self.shown_by(moved, entry, last)
    }
}
