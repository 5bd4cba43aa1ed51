//! Where a breakpoint on a function's body stands.

ghost use Rattle.std.specs.Prelude.{◌≡◌, flat_map};
ghost use Rattle.elf_symbols.specs.Views.{symbol_shown};
ghost use Rattle.line_index.specs.Lines.{body_in, function_end, kept};

use crate::marks::{Mark, least_marked};
use elf_symbols::Named;
use elf32_read::TextSpans;
use line_rows::Rows;

/// Where a function ends; one without a size at the next function or at the end of its text section.
pub fn function_end(function: &Named<'_>, text_end: u64, next: Option<u32>) -> u64
    ensures { result ≡ function_end (symbol_shown function.now) text_end next }
{
    if function.size != 0 {
        return u64::from(function.address) + u64::from(function.size);
    }
    match next {
        Some(next) => text_end.min(u64::from(next)),
        None => text_end,
    }
}

/// Where a breakpoint on the body of a range stands.
pub fn body_in(rows: &Rows, text: &TextSpans, start: u32, end: u64) -> u32
    ensures { result ≡ body_in (flat_map (λ s. s.rows) (kept text.now rows.now.sequences)) start end }
{
    let prologue_end = least_marked(rows, text, Mark::PrologueEnd, u64::from(start), end);
    if let Some(address) = prologue_end {
        return address;
    }
    least_marked(rows, text, Mark::Statement, u64::from(start) + 1, end).unwrap_or(start)
}
