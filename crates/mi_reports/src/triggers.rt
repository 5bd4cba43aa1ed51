// The line of a stop by a watch.
ghost use Rattle.std.specs.Prelude.{◌≡◌, false};
ghost use Rattle.mi_values.specs.FieldLists.{tuple_of};
ghost use Rattle.dbg_model.specs.declared.entry.Why.TheVariants.{Watch};
ghost use Rattle.mi_reports.specs.declared.words.Key.TheVariants as keys;
ghost use Rattle.mi_reports.specs.Led.{Adds, led, behind};
ghost use Rattle.mi_reports.specs.Words.{key_text};
ghost use Rattle.mi_reports.specs.Reasons.{reason_fields};
ghost use Rattle.mi_reports.specs.Triggers.{expression, is_unsigned, worth_fields};

use crate::fields::{write_byte, write_head, write_phrase, write_worth};
use crate::watches::write_watch;
use crate::words::{Key, Phrase};
use dbg_model::ShownWatch;
use std::alloc::AllocError;
use watch_points::Fired;

// The text by which its bytes were given.
fn expression(watch: &Option<ShownWatch>) -> &[u8]
    ensures { result.now ≡ expression watch.now }
{
    match watch {
        Some(watch) => watch.text.as_slice(),
        None => b"",
    }
}

fn is_unsigned(watch: &Option<ShownWatch>) -> bool
    ensures { result ≡ is_unsigned watch.now }
{
    match watch {
        Some(watch) => !watch.signed,
        None => true,
    }
}

// What its bytes were worth before, and are since.
#[tactic(auto, using(std::proofs::lemmas::Grind::common_steps, crate::proofs::Led::tuple_led), unfolding(crate::specs::Triggers::worth_fields))]
fn write_worths(into: &mut Vec<u8>, unsigned: bool, fired: Fired) -> Result<(), AllocError>
    ensures { Adds result into.old.items into.new.items (led 44 (key_text keys.Value, tuple_of (worth_fields unsigned fired))) }
{
    write_head(into, b',', Key::Value)?;
    write_worth(into, b'{', Key::Old, fired.old, unsigned)?;
    write_worth(into, b',', Key::New, fired.new, unsigned)?;
    write_byte(into, b'}')
}

/// Puts the watch that stopped a hart, and what became of its bytes, at the end.
#[tactic(auto, using(std::proofs::lemmas::Grind::common_steps), unfolding(crate::specs::Triggers::change_fields))]
pub fn write_trigger(
    into: &mut Vec<u8>,
    watch: &Option<ShownWatch>,
    fired: Fired,
) -> Result<(), AllocError>
    ensures { Adds result into.old.items into.new.items (behind (reason_fields (Watch fired) false watch.now)) }
{
    write_phrase(into, b',', Key::Reason, Phrase::WatchpointTrigger)?;
    write_watch(into, fired.number, expression(watch))?;
    write_worths(into, is_unsigned(watch), fired)
}
