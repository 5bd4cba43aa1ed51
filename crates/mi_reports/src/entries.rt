// What is reported, and its lines.
ghost use Rattle.std.specs.Prelude.{◌≡◌, ◌++◌, ◌↔◌, take, IsOk, OnOk, OnErr, true};
ghost use Rattle.mi_values.specs.Records.{lines_bytes, AreLines};
ghost use Rattle.mi_reports.specs.Lines.{lines_of, may_show};
ghost use Rattle.mi_reports.specs.Refusals.{file_fields, refusal_lines, usage_fields};
ghost use Rattle.mi_reports.specs.Text.{opening_lines};
ghost use Rattle.mi_reports.specs.Led.{Adds};

use crate::exits::{write_left, write_opening, write_output};
use crate::known::known_shown;
use crate::refusals::{write_bad_file, write_usage};
use crate::replies::write_reply;
use crate::stops::write_stop;
use dbg_model::{Entry, Shown};
use dbg_traits::NoMemory;
use elf_checks::ElfFault;
use std::alloc::AllocError;

fn write_entry(into: &mut Vec<u8>, entry: &Entry, shown: &Shown) -> Result<(), AllocError>
    requires { may_show entry.now shown.now ≡ true }
    ensures { Adds result into.old.items into.new.items (lines_bytes (lines_of entry.now shown.now)) }
{
    match (entry, shown) {
        (Entry::Ran { .. }, Shown::Wrote { bytes }) => write_output(into, bytes.as_slice()),
        (
            Entry::Stopped { hart, why },
            Shown::Stop {
                frame,
                temporary,
                watch,
            },
        ) => write_stop(into, *hart, *why, frame, *temporary, watch),
        (Entry::Left { hart, code }, Shown::Exit { last }) => {
            write_left(into, *hart, *code, *last)
        }
        (Entry::Did { .. }, Shown::Answer { reply }) => write_reply(into, reply),
        _ => Ok(()),
    }
}

// Out of memory, the buffer is cut to its old length.
fn or_cut(
    written: Result<(), AllocError>,
    before: usize,
    into: &mut Vec<u8>,
) -> Result<(), NoMemory>
    ensures same { OnOk result (into.new.items ≡ into.old.items) }
    ensures cut { OnErr result (into.new.items ≡ take before into.old.items) }
    ensures variant { IsOk result ↔ IsOk written }
{
    if written.is_err() {
        into.truncate(before);
        return Err(NoMemory);
    }
    Ok(())
}

/// Puts the lines of an entry, which shows this, at the end. Out of memory, the one error, the buffer is as before.
#[tactic(auto, using(mi_text::proofs::Kept::keeps_front, crate::proofs::Grammar::entry_proper))]
pub fn report(entry: &Entry, shown: &Shown, into: &mut Vec<u8>) -> Result<(), NoMemory>
    requires { may_show entry.now shown.now ≡ true }
    ensures written { OnOk result (into.new.items ≡ into.old.items ++ lines_bytes (lines_of entry.now shown.now)) }
    ensures grammar { OnOk result (AreLines (lines_of entry.now shown.now)) }
    ensures unchanged { OnErr result (into.new.items ≡ into.old.items) }
{
    known_shown(shown);
    let before = into.len();
    let written = write_entry(into, entry, shown);
    or_cut(written, before, into)
}

/// Puts the lines that a session of so many harts opens with at the end. Out of memory, the one error, the buffer is as before.
#[tactic(auto, using(mi_text::proofs::Kept::keeps_front, crate::proofs::Grammar::opening_proper))]
pub fn report_opening(harts: u32, into: &mut Vec<u8>) -> Result<(), NoMemory>
    ensures written { OnOk result (into.new.items ≡ into.old.items ++ lines_bytes (opening_lines harts)) }
    ensures grammar { OnOk result (AreLines (opening_lines harts)) }
    ensures unchanged { OnErr result (into.new.items ≡ into.old.items) }
{
    let before = into.len();
    let written = write_opening(into, harts);
    or_cut(written, before, into)
}

/// Puts the line of words of the command line that are refused at the end. Out of memory, the one error, the buffer is as before.
#[tactic(auto, using(mi_text::proofs::Kept::keeps_front, crate::proofs::Grammar::usage_proper))]
pub fn report_usage(into: &mut Vec<u8>) -> Result<(), NoMemory>
    ensures written { OnOk result (into.new.items ≡ into.old.items ++ lines_bytes (refusal_lines usage_fields)) }
    ensures grammar { OnOk result (AreLines (refusal_lines usage_fields)) }
    ensures unchanged { OnErr result (into.new.items ≡ into.old.items) }
{
    let before = into.len();
    let written = write_usage(into);
    or_cut(written, before, into)
}

/// Puts the line of a file that is refused at the end. Out of memory, the one error, the buffer is as before.
#[tactic(auto, using(mi_text::proofs::Kept::keeps_front, crate::proofs::Grammar::file_proper))]
pub fn report_bad_file(fault: ElfFault, into: &mut Vec<u8>) -> Result<(), NoMemory>
    ensures written { OnOk result (into.new.items ≡ into.old.items ++ lines_bytes (refusal_lines (file_fields fault))) }
    ensures grammar { OnOk result (AreLines (refusal_lines (file_fields fault))) }
    ensures unchanged { OnErr result (into.new.items ≡ into.old.items) }
{
    let before = into.len();
    let written = write_bad_file(into, fault);
    or_cut(written, before, into)
}
