//! What becomes of a plan where a hart arrives.

ghost use Rattle.std.specs.Prelude.{◌≡◌, is_some};
ghost use Rattle.step_plans.specs.Verdicts.{begins_another, entered, judged, judged_line, judged_one, passed_over, returned, verdict};
ghost use Rattle.line_index.specs.Lines.{row_at};

use crate::arrival::{Arrival, Jump};
use crate::{After, Last, Plan, Verdict};
use dbg_traits::View;
use elf_symbols::Symbols;
use line_index::LineIndex;

/// What is known of the source.
#[derive(Clone, Copy)]
struct Source<'a> {
    lines: &'a LineIndex,
    symbols: &'a Symbols,
}

/// Whether another line begins where a hart has arrived.
fn begins_another(arrival: &Arrival, lines: &LineIndex, file: u32, line: u32) -> bool
    ensures { result ≡ begins_another file line arrival.now lines.now }
{
    lines.begins_another(arrival.pc, file, line)
}

/// A call of a line is passed over.
fn passed_over(arrival: &Arrival, back: u32, file: u32, line: u32, into: bool) -> Verdict
    ensures { result ≡ passed_over back file line into arrival.now }
{
    Verdict::Go(Plan::ToReturn {
        ret: back,
        sp: arrival.sp,
        after: After::Line { file, line, into },
    })
}

/// A function that has rows was called from a line.
fn entered(arrival: &Arrival, source: &Source<'_>, back: u32, file: u32, line: u32) -> Verdict
    ensures { result ≡ entered back file line arrival.now source.now.lines.now source.now.symbols.now }
{
    let Some(function) = source.symbols.function_at(arrival.pc) else {
        return Verdict::Stepped;
    };
    let at = source.lines.body_of(&function);
    if at == arrival.pc {
        return Verdict::Stepped;
    }
    Verdict::Go(Plan::ToBody {
        at,
        ret: back,
        sp: arrival.sp,
        file,
        line,
    })
}

/// Whether the address where a hart has arrived belongs to a row.
fn has_row(arrival: &Arrival, lines: &LineIndex) -> bool
    ensures { result ≡ is_some (row_at lines.now arrival.now.pc) }
{
    lines.row_at(arrival.pc).is_some()
}

/// An arrival with the plan of a line.
fn judged_line(arrival: &Arrival, source: &Source<'_>, file: u32, line: u32, into: bool) -> Verdict
    ensures { result ≡ judged_line file line into arrival.now source.now.lines.now source.now.symbols.now }
{
    match arrival.jump {
        Jump::Call { back } if into && has_row(arrival, source.lines) => {
            entered(arrival, source, back, file, line)
        }
        Jump::Call { back } => passed_over(arrival, back, file, line, into),
        Jump::Return if has_row(arrival, source.lines) => Verdict::Stepped,
        Jump::Other if begins_another(arrival, source.lines, file, line) => Verdict::Stepped,
        Jump::Return | Jump::Other => Verdict::Go(Plan::Line { file, line, into }),
    }
}

/// An arrival where a call that was passed over has returned.
fn returned(arrival: &Arrival, lines: &LineIndex, after: After) -> Verdict
    ensures { result ≡ returned after arrival.now lines.now }
{
    match after {
        After::Stop => Verdict::Stepped,
        After::Line { file, line, .. } if begins_another(arrival, lines, file, line) => {
            Verdict::Stepped
        }
        After::Line { file, line, into } => Verdict::Go(Plan::Line { file, line, into }),
    }
}

/// An arrival with the plan of one instruction.
fn judged_one(arrival: &Arrival, over: bool) -> Verdict
    ensures { result ≡ judged_one over arrival.now }
{
    match arrival.jump {
        Jump::Call { back } if over => Verdict::Go(Plan::ToReturn {
            ret: back,
            sp: arrival.sp,
            after: After::Stop,
        }),
        _ => Verdict::Stepped,
    }
}

/// An arrival with any plan.
fn judged(arrival: &Arrival, source: &Source<'_>, plan: Plan) -> Verdict
    ensures { result ≡ judged plan arrival.now source.now.lines.now source.now.symbols.now }
{
    match plan {
        Plan::One { over } => judged_one(arrival, over),
        Plan::Line { file, line, into } => judged_line(arrival, source, file, line, into),
        Plan::ToReturn { ret, sp, after } if arrival.is_back(ret, sp) => {
            returned(arrival, source.lines, after)
        }
        Plan::ToBody { at, .. } if arrival.pc == at => Verdict::Stepped,
        Plan::ToBody {
            ret,
            sp,
            file,
            line,
            ..
        } if arrival.is_back(ret, sp) => {
            let into = true;
            returned(arrival, source.lines, After::Line { file, line, into })
        }
        Plan::Finish { ret, sp } if arrival.is_back(ret, sp) => Verdict::Finished,
        _ => Verdict::Go(plan),
    }
}

/// What becomes of a hart's plan where it arrives, behind the instruction of its own that has just ended. That one counts
/// where the plan asks for it; without one the hart came neither by a call nor by a return.
///
/// The view shows the hart as it is now. It takes no memory, and looks up its pc at most twice, or not at all for the
/// plans Free and One.
pub fn arrive<V: View>(
    plan: Plan,
    last: Option<Last>,
    view: &V,
    lines: &LineIndex,
    symbols: &Symbols,
) -> Verdict
    ensures { result ≡ verdict plan last (V.registers view.now) lines.now symbols.now }
{
    judged(&Arrival::of(last, view), &Source { lines, symbols }, plan)
}
