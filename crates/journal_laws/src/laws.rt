//! What holds of every lawful journal.

ghost use Rattle.std.specs.Prelude.{◌≡◌, List, true};
ghost use Rattle.std.specs.List.{list_all};
ghost use Rattle.dbg_model.specs.Journals.{Leaves};
ghost use Rattle.dbg_model.specs.State.{State};
ghost use Rattle.dbg_model.specs.declared.entry.Entry.{Entry};
ghost use Rattle.dbg_model.specs.declared.opening.Opening.{Opening};
ghost use Rattle.session_log.specs.Rows.{has_bytes};
ghost use Rattle.journal_laws.specs.Triggered.{TellsChanges, StopsFirst};

/// Each stop by a watchpoint tells which bytes its hart's last instruction changed, from which value to which (GDB manual, "Setting
/// Watchpoints").
pub fn stops_tell_changes()
    ensures { (o : Opening) (j : List Entry) (s : State) → Leaves o j s → TellsChanges o j }
{}

/// A hart whose instruction made a watchpoint fire executes nothing before it was stopped, unless that watchpoint was deleted or
/// disabled first.
pub fn changes_stop_first()
    ensures { (o : Opening) (j : List Entry) (s : State) → Leaves o j s → StopsFirst o j }
{}

/// No entry writes no bytes, so each has a line in a log.
pub fn entries_have_lines()
    ensures { (o : Opening) (j : List Entry) (s : State) → Leaves o j s → list_all has_bytes j ≡ true }
{}
