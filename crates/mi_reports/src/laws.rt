// Laws of what a session says.
ghost use Rattle.std.specs.Prelude.{◌≡◌, List, true};
ghost use Rattle.dbg_model.specs.declared.entry.Entry.{Entry};
ghost use Rattle.dbg_model.specs.declared.opening.Opening.{Opening};
ghost use Rattle.dbg_model.specs.declared.shown.Shown.{Shown};
ghost use Rattle.dbg_model.specs.State.{State};
ghost use Rattle.dbg_model.specs.Journals.{Leaves};
ghost use Rattle.mi_values.specs.Records.{AreLines, streamed};
ghost use Rattle.mi_reports.specs.Fits.{shown_fits};
ghost use Rattle.mi_reports.specs.Lines.{lines_of, may_show};
ghost use Rattle.mi_reports.specs.Said.{said_lines};

/// The contents of the `@` lines of what is said, in order, are the program's output.
pub fn said_shows_output()
    ensures { (o : Opening) (j : List Entry) (s : State) → Leaves o j s → streamed (said_lines o j) ≡ s.out }
{}

/// The lines of an entry are lines of the grammar, whatever it shows that it may, where that is made of bytes.
pub fn shown_is_lines()
    ensures { (e : Entry) (s : Shown) → may_show e s ≡ true → shown_fits s ≡ true → AreLines (lines_of e s) }
{}
