// The lines of stops.
ghost use Rattle.std.specs.Prelude.{◌≡◌, [], ◌∷◌, ◌++◌};
ghost use Rattle.dbg_model.specs.declared.entry.Entry.TheVariants.{Stopped};
ghost use Rattle.dbg_model.specs.declared.shown.Shown.TheVariants.{Stop};
ghost use Rattle.mi_values.specs.Records.{lines_bytes};
ghost use Rattle.mi_reports.specs.Led.{Adds, behind};
ghost use Rattle.mi_reports.specs.Lines.{lines_of};
ghost use Rattle.mi_reports.specs.Pieces.{frame_begun, threads_told, threads_ended};
ghost use Rattle.mi_reports.specs.Reasons.{condition_of, hit_reason, signal_reason, reason_fields};
ghost use Rattle.mi_reports.specs.Text.{place_fields, signal};

use crate::breakpoints::disposition;
use crate::conditions::write_condition;
use crate::fields::{put, write_phrase, write_word};
use crate::frames::write_rest;
use crate::lines::write_begun;
use crate::triggers::write_trigger;
use crate::words::{Key, Phrase};
use dbg_model::{ShownFrame, ShownWatch, Why};
use itoa::Buffer;
use mi_text::address_text;
use mi_values::NoticeSign;
use rv_exec::Cause;
use std::alloc::AllocError;

#[tactic(auto, unfolding(crate::specs::Pieces::frame_begun))]
fn write_frame_begun(into: &mut Vec<u8>, address: u32) -> Result<(), AllocError>
    ensures { Adds result into.old.items into.new.items (frame_begun address) }
{
    put(into, ",frame={addr=\"", &address_text(address), "\"")
}

#[tactic(auto, unfolding(crate::specs::Pieces::threads_told))]
fn write_threads_told(into: &mut Vec<u8>, number: &[u8]) -> Result<(), AllocError>
    ensures { Adds result into.old.items into.new.items (threads_told number.now) }
{
    put(into, "},thread-id=\"", number, "\",stopped-threads=[\"")
}

#[tactic(auto, unfolding(crate::specs::Pieces::threads_ended))]
fn write_threads_ended(into: &mut Vec<u8>, number: &[u8]) -> Result<(), AllocError>
    ensures { Adds result into.old.items into.new.items (threads_ended number.now) }
{
    put(into, "", number, "\"]\n")
}

// Puts where a hart stopped at the end, and LF.
#[tactic(auto, using(std::proofs::lemmas::Grind::common_steps, crate::proofs::Pieces::place_bytes))]
fn write_place(into: &mut Vec<u8>, hart: u32, frame: &ShownFrame) -> Result<(), AllocError>
    ensures { Adds result into.old.items into.new.items (behind (place_fields hart frame.now) ++ 10 ∷ []) }
{
    let mut buffer = Buffer::new();
    let number = buffer.format(u64::from(hart) + 1).as_bytes();
    write_frame_begun(into, frame.address)?;
    write_rest(into, frame)?;
    write_threads_told(into, number)?;
    write_threads_ended(into, number)
}

// A fault's signal, and what it means.
fn signal(cause: Cause) -> (Phrase, Phrase)
    ensures { result ≡ signal cause }
{
    match cause {
        Cause::FetchFault | Cause::LoadFault | Cause::StoreFault => {
            (Phrase::Sigsegv, Phrase::SegmentationFault)
        }
        Cause::FetchAlign | Cause::LoadAlign | Cause::StoreAlign => {
            (Phrase::Sigbus, Phrase::BusError)
        }
        Cause::Illegal => (Phrase::Sigill, Phrase::IllegalInstruction),
        Cause::Break => (Phrase::Sigtrap, Phrase::Trap),
    }
}

fn write_signal(into: &mut Vec<u8>, name: Phrase, meaning: Phrase) -> Result<(), AllocError>
    ensures { Adds result into.old.items into.new.items (behind (signal_reason name meaning)) }
{
    write_phrase(into, b',', Key::Reason, Phrase::SignalReceived)?;
    write_phrase(into, b',', Key::SignalName, name)?;
    write_phrase(into, b',', Key::SignalMeaning, meaning)
}

fn write_hit(into: &mut Vec<u8>, temporary: bool, number: u32) -> Result<(), AllocError>
    ensures { Adds result into.old.items into.new.items (behind (hit_reason temporary number)) }
{
    write_phrase(into, b',', Key::Reason, Phrase::BreakpointHit)?;
    write_phrase(into, b',', Key::Disp, disposition(temporary))?;
    write_word(into, b',', Key::BkptNumber, number)
}

// Puts why a hart stopped at the end.
fn write_reason(
    into: &mut Vec<u8>,
    why: Why,
    temporary: bool,
    watch: &Option<ShownWatch>,
) -> Result<(), AllocError>
    ensures { Adds result into.old.items into.new.items (behind (reason_fields why temporary watch.now)) }
{
    match why {
        Why::Break { number, .. } => write_hit(into, temporary, number),
        Why::Watch(fired) => write_trigger(into, watch, fired),
        Why::Stepped => write_phrase(into, b',', Key::Reason, Phrase::EndSteppingRange),
        Why::Finished => write_phrase(into, b',', Key::Reason, Phrase::FunctionFinished),
        Why::Interrupted => write_signal(into, Phrase::Sigint, Phrase::Interrupt),
        Why::Fault(cause) => {
            let (name, meaning) = signal(cause);
            write_signal(into, name, meaning)
        }
    }
}

// Puts the line of a condition whose value couldn't be had at the end.
fn write_why_not(into: &mut Vec<u8>, why: Why) -> Result<(), AllocError>
    ensures { Adds result into.old.items into.new.items (lines_bytes (condition_of why)) }
{
    match why {
        Why::Break { number, error } => write_condition(into, number, error),
        _ => Ok(()),
    }
}

/// Puts the lines of a stop of a hart in this frame at the end. Where the value of a breakpoint's condition couldn't be had, a
/// line that says why comes first.
#[tactic(auto, using(std::proofs::lemmas::Grind::common_steps, crate::proofs::Pieces::stop_bytes))]
pub fn write_stop(
    into: &mut Vec<u8>,
    hart: u32,
    why: Why,
    frame: &ShownFrame,
    temporary: bool,
    watch: &Option<ShownWatch>,
) -> Result<(), AllocError>
    ensures { Adds result into.old.items into.new.items (lines_bytes (lines_of (Stopped hart why) (Stop frame.now temporary watch.now))) }
{
    write_why_not(into, why)?;
    write_begun(into, NoticeSign::Exec, Key::Stopped)?;
    write_reason(into, why, temporary, watch)?;
    write_place(into, hart, frame)
}
