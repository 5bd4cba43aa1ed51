// A line of the user, done.
ghost use Rattle.std.specs.Prelude.{◌≡◌, true, None, OnOk, MatchResult};
ghost use Rattle.dbg_model.specs.Lawful.{may_do};
ghost use Rattle.dbg_model.specs.Outcome.{pokes};
ghost use Rattle.dbg_model.specs.Reply.{displaced_after, exited_after, pending_after, selected_after};
ghost use Rattle.dbg_effects.specs.Effect.{change_of};
ghost use Rattle.engine_parts.specs.Seen.{seen};
ghost use Rattle.engine_parts.specs.Changing.{Makes};

use super::Engine;
use crate::breaking::change_table;
use crate::engine::waiting_of;
use crate::resuming::change_threads;
use dbg_effects::Effect;
use dbg_model::{Entry, Poke};
use dbg_traits::NoMemory;
use engine_parts::journal::did;
use engine_parts::waiting::{Waiting, rewait};
use engine_parts::writing::write;
use mi_commands::Displaced;

// The selected thread after a change.
fn selected_after(selected: u32, effect: &Effect) -> u32
    ensures { result ≡ selected_after selected (change_of effect.now) }
{
    match effect {
        Effect::Select(thread) => *thread,
        _ => selected,
    }
}

// The setting of displaced stepping after a change.
fn displaced_after(displaced: Displaced, effect: &Effect) -> Displaced
    ensures { result ≡ displaced_after displaced (change_of effect.now) }
{
    match effect {
        Effect::Displace(value) => *value,
        _ => displaced,
    }
}

// Whether the session is ended after a change.
fn exited_after(exited: bool, effect: &Effect) -> bool
    ensures { result ≡ exited_after exited (change_of effect.now) }
{
    match effect {
        Effect::Exit => true,
        _ => exited,
    }
}

impl Engine {
    ghost use Rattle.engine_parts.specs.Facts.{Facts};
    ghost use Rattle.engine_parts.specs.Calls.{Lines};

    // Does a line that asks for a write, and writes.
    fn write(&mut self, line: &[u8], poke: Poke) -> Result<(), NoMemory>
        requires may { may_do self.old.opening (seen self.old) line.now ≡ true }
        requires makes { Makes self.old line.now (pokes poke) }
        ensures lines { MatchResult result (λ _. Lines self.old self.new line.now) (λ _. self.new ≡ self.old) }
        ensures facts { OnOk result (Facts self.new) }
    {
        did(self.alloc, &mut self.journal, line)?;
        write(&mut self.machine, &poke);
        self.journal.push(Entry::Poked { poke });
        self.noted += 2;
        Ok(())
    }

    // Does a line that makes this change, and asks for no write.
    fn change(&mut self, line: &[u8], effect: Effect) -> Result<(), NoMemory>
        requires may { may_do self.old.opening (seen self.old) line.now ≡ true }
        requires makes { Makes self.old line.now (change_of effect) }
        requires asks { pending_after None (change_of effect) ≡ None }
        ensures lines { MatchResult result (λ _. Lines self.old self.new line.now) (λ _. self.new ≡ self.old) }
        ensures facts { OnOk result (Facts self.new) }
    {
        let Ok(()) = did(self.alloc, &mut self.journal, line) else {
            drop(effect);
            return Err(NoMemory);
        };
        change_threads(&mut self.minds, &effect);
        self.selected = selected_after(self.selected, &effect);
        self.displaced = displaced_after(self.displaced, &effect);
        self.exited = exited_after(self.exited, &effect);
        change_table(
            &mut self.machine,
            &mut self.table,
            &mut self.watches,
            self.hold,
            effect,
        );
        let waiting = waiting_of!(self);
        rewait(&mut self.machine, &mut self.table, &waiting, true);
        self.noted += 1;
        Ok(())
    }

    /// Does a line that makes this change, and writes what it asks to be written.
    ///
    /// # Errors
    ///
    /// `NoMemory` where out of memory for the journal; then nothing changed.
    pub fn do_line(&mut self, line: &[u8], effect: Effect) -> Result<(), NoMemory>
        requires may { may_do self.old.opening (seen self.old) line.now ≡ true }
        requires makes { Makes self.old line.now (change_of effect) }
        ensures lines { MatchResult result (λ _. Lines self.old self.new line.now) (λ _. self.new ≡ self.old) }
        ensures facts { OnOk result (Facts self.new) }
    {
        match effect {
            Effect::Poke(poke) => self.write(line, poke),
            other => self.change(line, other),
        }
    }
}
