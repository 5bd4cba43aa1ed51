//! Laws of what is said.

ghost use Rattle.std.specs.Prelude.{◌≡◌, ℕ, List, length};
ghost use Rattle.elf32_read.specs.Program.{Program};
ghost use Rattle.dbg_model.specs.declared.entry.Entry.{Entry};
ghost use Rattle.dbg_model.specs.declared.opening.Opening.{Opening};
ghost use Rattle.dbg_traits.specs.declared.settings.Settings.{Settings};
ghost use Rattle.mi_values.specs.Records.{AreLines};
ghost use Rattle.mi_reports.specs.Said.{said, said_lines};
ghost use Rattle.session_log.specs.LogText.{Transcript};
ghost use Rattle.log_check.specs.Verdict.{IsLawful};
ghost use Rattle.log_check.specs.Speech.{speech};
ghost use Rattle.session_check.specs.Speaking.{line_voice};
ghost use Rattle.session_check.specs.Findings.{Finds, IsRecord, opened};
ghost use Rattle.session_check.specs.declared.finding.Finding.{Finding};

/// What is said in a session's lines is the text of what a session says.
pub fn lines_are_spoken()
    ensures { (o : Opening) (j : List Entry) → speech line_voice o j ≡ said o j }
{}

/// Of an input one thing is found: so each is told exactly where it is right.
pub fn one_finding()
    ensures { (p : Program) (input : List ℕ) (a b : Finding) → Finds p input a → Finds p input b → a ≡ b }
{}

/// What is written of a lawful session in lines of the grammar, with its log behind them, is its record.
pub fn written_is_record()
    ensures { (p : Program) (s : Settings) (j : List Entry) (input : List ℕ) → IsLawful (opened p s) j → AreLines (said_lines (opened p s) j)
        → Transcript (said (opened p s) j) s j input → IsRecord p input (length j) }
{}
