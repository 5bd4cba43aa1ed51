//! Laws of the text of a log.

ghost use Rattle.std.specs.Prelude.{◌≡◌, ℕ, List, map};
ghost use Rattle.dbg_model.specs.declared.entry.Entry.{Entry};
ghost use Rattle.dbg_traits.specs.declared.settings.Settings.{Settings};
ghost use Rattle.mi_values.specs.Record.{LineTree, line_bytes};
ghost use Rattle.mi_values.specs.Records.{lines_bytes, AreLines};
ghost use Rattle.session_log.specs.declared.row.LogRow.{LogRow};
ghost use Rattle.session_log.specs.Rows.{Spells};
ghost use Rattle.session_log.specs.LogText.{LogText, IsPlainText, Transcript, lines};

/// No two rows have one line.
pub fn one_row()
    ensures { (r q : LogRow) (line : List ℕ) → Spells r line → Spells q line → r ≡ q }
{}

/// No two logs have one text: settings and journal are known from it.
pub fn one_log()
    ensures { (s q : Settings) (j k : List Entry) (bytes : List ℕ) → LogText s j bytes → LogText q k bytes → (s ≡ q) × (j ≡ k) }
{}

/// A text is cut in one way into what was said and the log behind it.
pub fn one_transcript()
    ensures { (a b : List ℕ) (s q : Settings) (j k : List Entry) (bytes : List ℕ) → IsPlainText a → IsPlainText b
        → Transcript a s j bytes → Transcript b q k bytes → (a ≡ b) × (s ≡ q) × (j ≡ k) }
{}

/// Each record is one line, with one LF, at its end, and doesn't begin with `#`: so the cut before a log is the one at the
/// first line with `#`.
pub fn records_are_plain_lines()
    ensures { (trees : List LineTree) → AreLines trees → (lines (lines_bytes trees) ≡ map line_bytes trees) × IsPlainText (lines_bytes trees) }
{}
