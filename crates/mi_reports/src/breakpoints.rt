// Breakpoints as they are listed.
ghost use Rattle.std.specs.Prelude.{◌≡◌, ◌∷◌, [], ◌++◌};
ghost use Rattle.mi_reports.specs.declared.words.Key.TheVariants as keys;
ghost use Rattle.mi_reports.specs.Words.{says};
ghost use Rattle.mi_reports.specs.Phrases.{phrase_text};
ghost use Rattle.mi_reports.specs.Led.{Adds, led, behind, opened};
ghost use Rattle.mi_reports.specs.Breakpoints.{disposition, enabled, for_thread, ignored, front_fields, place_fields, term_fields, count_fields, breakpoint_fields, breakpoint_field};

use crate::fields::{
    write_address, write_byte, write_head, write_number, write_phrase, write_some, write_text,
    write_word,
};
use crate::frames::write_source;
use crate::words::{Key, Phrase};
use dbg_model::Breakpoint;
use std::alloc::AllocError;

/// What becomes of a breakpoint that is hit.
pub fn disposition(temporary: bool) -> Phrase
    ensures { result ≡ disposition temporary }
{
    if temporary {
        Phrase::Deleted
    } else {
        Phrase::Kept
    }
}

/// Whether it stops harts.
pub fn enabled(on: bool) -> Phrase
    ensures { result ≡ enabled on }
{
    if on { Phrase::Yes } else { Phrase::No }
}

fn write_for_thread(into: &mut Vec<u8>, thread: Option<u32>) -> Result<(), AllocError>
    ensures { Adds result into.old.items into.new.items (behind (for_thread thread)) }
{
    let Some(thread) = thread else {
        return Ok(());
    };
    write_word(into, b',', Key::Thread, thread)
}

fn write_ignored(into: &mut Vec<u8>, ignore: u32) -> Result<(), AllocError>
    ensures { Adds result into.old.items into.new.items (behind (ignored ignore)) }
{
    if ignore == 0 {
        return Ok(());
    }
    write_word(into, b',', Key::Ignore, ignore)
}

/// Puts at the end what stands under a number, what becomes of it once it is hit, and whether it is enabled.
pub fn write_kind(
    into: &mut Vec<u8>,
    kind: Phrase,
    after_hit: Phrase,
    status: Phrase,
) -> Result<(), AllocError>
    ensures { Adds result into.old.items into.new.items (behind (says keys.Type (phrase_text kind) ∷ says keys.Disp (phrase_text after_hit) ∷ says keys.Enabled (phrase_text status) ∷ [])) }
{
    write_phrase(into, b',', Key::Type, kind)?;
    write_phrase(into, b',', Key::Disp, after_hit)?;
    write_phrase(into, b',', Key::Enabled, status)
}

// Whether it stays and is enabled, and where it stands.
#[tactic(auto, using(std::proofs::lemmas::Grind::common_steps), unfolding(crate::specs::Breakpoints::front_fields))]
fn write_front(into: &mut Vec<u8>, breakpoint: &Breakpoint) -> Result<(), AllocError>
    ensures { Adds result into.old.items into.new.items (behind (front_fields breakpoint.now)) }
{
    let after_hit = disposition(breakpoint.temporary);
    write_kind(
        into,
        Phrase::BreakpointType,
        after_hit,
        enabled(breakpoint.enabled),
    )?;
    write_address(into, b',', Key::Addr, breakpoint.address)
}

// The function and the line that it stands in.
#[tactic(auto, using(std::proofs::lemmas::Grind::common_steps), unfolding(crate::specs::Breakpoints::place_fields))]
fn write_place(into: &mut Vec<u8>, breakpoint: &Breakpoint) -> Result<(), AllocError>
    ensures { Adds result into.old.items into.new.items (behind (place_fields breakpoint.now)) }
{
    write_some(into, Key::Func, &breakpoint.function)?;
    write_source(into, &breakpoint.source)
}

// When it stops, and whom.
#[tactic(auto, using(std::proofs::lemmas::Grind::common_steps), unfolding(crate::specs::Breakpoints::term_fields))]
fn write_terms(into: &mut Vec<u8>, breakpoint: &Breakpoint) -> Result<(), AllocError>
    ensures { Adds result into.old.items into.new.items (behind (term_fields breakpoint.now)) }
{
    write_some(into, Key::Cond, &breakpoint.condition)?;
    write_for_thread(into, breakpoint.thread)
}

// Its arrivals, how many more are only counted, and where it was asked for.
#[tactic(auto, using(std::proofs::lemmas::Grind::common_steps), unfolding(crate::specs::Breakpoints::count_fields))]
fn write_counts(into: &mut Vec<u8>, breakpoint: &Breakpoint) -> Result<(), AllocError>
    ensures { Adds result into.old.items into.new.items (behind (count_fields breakpoint.now)) }
{
    write_number(into, b',', Key::Times, breakpoint.times)?;
    write_ignored(into, breakpoint.ignore)?;
    write_text(
        into,
        b',',
        Key::OriginalLocation,
        breakpoint.location.as_slice(),
    )
}

// What is left out where it has nothing to say, and the counts.
fn write_rest(into: &mut Vec<u8>, breakpoint: &Breakpoint) -> Result<(), AllocError>
    ensures { Adds result into.old.items into.new.items (behind (place_fields breakpoint.now ++ (term_fields breakpoint.now ++ count_fields breakpoint.now))) }
{
    write_place(into, breakpoint)?;
    write_terms(into, breakpoint)?;
    write_counts(into, breakpoint)
}

// The fields of a breakpoint behind their bracket.
#[tactic(auto, using(std::proofs::lemmas::Grind::common_steps), unfolding(crate::specs::Breakpoints::breakpoint_fields))]
fn write_fields(into: &mut Vec<u8>, breakpoint: &Breakpoint) -> Result<(), AllocError>
    ensures { Adds result into.old.items into.new.items (opened 123 (breakpoint_fields breakpoint.now)) }
{
    write_word(into, b'{', Key::Number, breakpoint.number)?;
    write_front(into, breakpoint)?;
    write_rest(into, breakpoint)
}

/// Puts a breakpoint with its fields at the end.
#[tactic(auto, using(std::proofs::lemmas::Grind::common_steps, crate::proofs::Led::tuple_led), unfolding(crate::specs::Breakpoints::breakpoint_field))]
pub fn write_breakpoint(
    into: &mut Vec<u8>,
    lead: u8,
    breakpoint: &Breakpoint,
) -> Result<(), AllocError>
    ensures { Adds result into.old.items into.new.items (led lead (breakpoint_field breakpoint.now)) }
{
    write_head(into, lead, Key::Bkpt)?;
    write_fields(into, breakpoint)?;
    write_byte(into, b'}')
}
