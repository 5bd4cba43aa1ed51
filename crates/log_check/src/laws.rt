//! A law of verdicts.

ghost use Rattle.std.specs.Prelude.{◌≡◌, ℕ, List};
ghost use Rattle.dbg_model.specs.declared.entry.Entry.{Entry};
ghost use Rattle.dbg_model.specs.declared.opening.Opening.{Opening};
ghost use Rattle.log_check.specs.declared.verdict.CheckVerdict.{CheckVerdict};
ghost use Rattle.log_check.specs.Speech.{Voice};
ghost use Rattle.log_check.specs.Verdict.{Checked};

/// Of a journal and a text one verdict is right: so each is given exactly where it is right.
pub fn one_verdict()
    ensures { (v : Voice) (o : Opening) (j : List Entry) (text : List ℕ) (a b : CheckVerdict) → Checked v o j text a → Checked v o j text b → a ≡ b }
{}
