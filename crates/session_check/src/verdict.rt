//! The line of a verdict.

ghost use Rattle.std.specs.Prelude.{◌≡◌, ◌++◌, OnErr, OnOk};
ghost use Rattle.mi_text.specs.Keeps.{Keeps};
ghost use Rattle.session_check.specs.VerdictLine.{accepted_text, fault_name, rejected_text, verdict_line};

use crate::finding::Finding;
use crate::input::MOST_INPUT;
use dbg_traits::NoMemory;
use mi_text::write_decimal;
use session_log::FaultKind;

fn fault_name(kind: FaultKind) -> &'static str
    ensures { result.now ≡ fault_name kind }
{
    match kind {
        FaultKind::Line => "Line",
        FaultKind::Order => "Order",
        FaultKind::End => "End",
    }
}

// Appends the line of a rejection of this kind at this place.
fn push_rejected(kind: &str, place: u64, into: &mut Vec<u8>) -> Result<(), NoMemory>
    ensures written { OnOk result (into.new.items ≡ into.old.items ++ rejected_text kind.now place) }
    ensures kept { Keeps into.old.items into.new.items }
{
    into.extend_from_slice(b"check rejected ")?;
    into.extend_from_slice(kind.as_bytes())?;
    into.extend_from_slice(b" at ")?;
    write_decimal(place, into)?;
    into.push(b'\n')?;
    Ok(())
}

// Appends the line of so many entries that were accepted.
fn push_accepted(entries: u64, into: &mut Vec<u8>) -> Result<(), NoMemory>
    ensures written { OnOk result (into.new.items ≡ into.old.items ++ accepted_text entries) }
    ensures kept { Keeps into.old.items into.new.items }
{
    into.extend_from_slice(b"check accepted ")?;
    write_decimal(entries, into)?;
    into.push(b'\n')?;
    Ok(())
}

// Appends the line of what was found.
#[tactic(auto, unfolding(crate::specs::VerdictLine::verdict_line))]
fn push_verdict(found: Finding, into: &mut Vec<u8>) -> Result<(), NoMemory>
    ensures written { OnOk result (into.new.items ≡ into.old.items ++ verdict_line found) }
    ensures kept { Keeps into.old.items into.new.items }
{
    match found {
        Finding::Accepted { entries } => push_accepted(entries, into),
        Finding::Long => push_rejected("Long", MOST_INPUT as u64, into),
        Finding::Fault(fault) => push_rejected(fault_name(fault.kind), fault.line, into),
        Finding::Unlawful { entry } => push_rejected("Unlawful", entry, into),
        Finding::Differs { place } => push_rejected("Differs", place as u64, into),
    }
}

/// Puts the line of what was found at the end. Out of memory, the one error, the buffer is as before.
#[tactic(auto, using(mi_text::proofs::Kept::keeps_front))]
pub fn verdict_line(found: Finding, into: &mut Vec<u8>) -> Result<(), NoMemory>
    ensures written { OnOk result (into.new.items ≡ into.old.items ++ verdict_line found) }
    ensures unchanged { OnErr result (into.new.items ≡ into.old.items) }
{
    let before = into.len();
    if push_verdict(found, into).is_err() {
        into.truncate(before);
        return Err(NoMemory);
    }
    Ok(())
}
