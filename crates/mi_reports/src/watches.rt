// Watches as they are told and listed.
ghost use Rattle.mi_reports.specs.Led.{Adds, led, opened};
ghost use Rattle.mi_reports.specs.Watches.{watch_field, listed_fields, listed_field};

use crate::breakpoints::{enabled, write_kind};
use crate::fields::{write_byte, write_head, write_number, write_text, write_word};
use crate::words::{Key, Phrase};
use std::alloc::AllocError;
use watch_points::Watch;

/// Puts a watch by its number at the end, with the text by which its bytes were given.
#[tactic(auto, using(std::proofs::lemmas::Grind::common_steps, crate::proofs::Led::tuple_led), unfolding(crate::specs::Watches::told_fields, crate::specs::Watches::watch_field))]
pub fn write_watch(into: &mut Vec<u8>, number: u32, expression: &[u8]) -> Result<(), AllocError>
    ensures { Adds result into.old.items into.new.items (led 44 (watch_field number expression.now)) }
{
    write_head(into, b',', Key::Wpt)?;
    write_word(into, b'{', Key::Number, number)?;
    write_text(into, b',', Key::Exp, expression)?;
    write_byte(into, b'}')
}

// The fields of a watch of the table behind their bracket.
fn write_fields(into: &mut Vec<u8>, watch: &Watch) -> Result<(), AllocError>
    ensures { Adds result into.old.items into.new.items (opened 123 (listed_fields watch.now)) }
{
    write_word(into, b'{', Key::Number, watch.number)?;
    write_kind(
        into,
        Phrase::WatchpointType,
        Phrase::Kept,
        enabled(watch.enabled),
    )?;
    write_text(into, b',', Key::What, watch.text.as_slice())?;
    write_number(into, b',', Key::Times, watch.times)
}

/// Puts a watch of the table of breakpoints at the end.
#[tactic(auto, using(std::proofs::lemmas::Grind::common_steps, crate::proofs::Led::tuple_led), unfolding(crate::specs::Watches::listed_field))]
pub fn write_listed(into: &mut Vec<u8>, lead: u8, watch: &Watch) -> Result<(), AllocError>
    ensures { Adds result into.old.items into.new.items (led lead (listed_field watch.now)) }
{
    write_head(into, lead, Key::Bkpt)?;
    write_fields(into, watch)?;
    write_byte(into, b'}')
}
