//! Rows of numbers in a unit.

ghost use Rattle.std.specs.Prelude.{◌≡◌, ◌≤◌, IfOk, length};
ghost use Rattle.leb_read.specs.Leb.{IsReadTo};
ghost use Rattle.line_programs.specs.Operations.{behind_numbers};

use leb_read::uleb;
use line_rows::LineFault;

/// The place behind so many unsigned numbers.
#[tactic(auto, using(crate::proofs::Numbers::numbers_more, crate::proofs::Numbers::numbers_end, crate::proofs::Numbers::numbers_all))]
pub fn behind_numbers(unit: &[u8], at: usize, count: u8) -> Result<usize, LineFault>
    requires { at ≤ length unit.now }
    ensures value { result ≡ behind_numbers count unit.now at }
    ensures within { IfOk result (λ next. IsReadTo unit.now at next) }
{
    let mut next = at;
    for _number in 0..count {
        next = uleb(unit, next)?.1;
    }
    Ok(next)
}
