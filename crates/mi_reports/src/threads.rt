// Threads as they are listed.
ghost use Rattle.std.specs.Prelude.{◌≡◌, ◌-◌, ◌++◌, map, decimal, IfOk};
ghost use Rattle.mi_reports.specs.declared.words.Phrase.TheVariants as phrases;
ghost use Rattle.mi_reports.specs.declared.words.Key.TheVariants as keys;
ghost use Rattle.mi_values.specs.FieldLists.{tuple_of};
ghost use Rattle.mi_reports.specs.Led.{Adds, led, behind, opened, item_led, items_behind, items_opened};
ghost use Rattle.mi_reports.specs.Words.{key_text};
ghost use Rattle.mi_reports.specs.Phrases.{phrase_text};
ghost use Rattle.mi_reports.specs.Replies.{state_fields, thread_fields, thread_tree, threads_fields, number_field, numbers_fields};

use crate::fields::{write_byte, write_head, write_number, write_phrase, write_text, write_word};
use crate::frames::write_frame;
use crate::words::{Key, Phrase, wording};
use dbg_model::{ShownFrame, Thread};
use mi_text::write_decimal;
use std::alloc::{AllocError, Global};

// The name of a hart, by the number of its thread.
fn hart_name(alloc: Global, number: u32) -> Result<Vec<u8>, AllocError>
    ensures { IfOk result (λ v. v.items ≡ phrase_text phrases.Hart ++ decimal (number - 1)) }
{
    let mut text = Vec::from_slice(alloc, wording(Phrase::Hart))?;
    write_decimal(u64::from(number.saturating_sub(1)), &mut text)?;
    Ok(text)
}

// What a thread is at.
fn write_state(into: &mut Vec<u8>, stopped_at: &Option<ShownFrame>) -> Result<(), AllocError>
    ensures { Adds result into.old.items into.new.items (behind (state_fields stopped_at.now)) }
{
    match stopped_at {
        None => write_phrase(into, b',', Key::State, Phrase::Running),
        Some(frame) => {
            write_frame(into, b',', Some(0), frame)?;
            write_phrase(into, b',', Key::State, Phrase::Stopped)
        }
    }
}

#[tactic(auto, using(std::proofs::lemmas::Grind::common_steps), unfolding(crate::specs::Replies::thread_fields))]
fn write_fields(into: &mut Vec<u8>, thread: &Thread) -> Result<(), AllocError>
    ensures { Adds result into.old.items into.new.items (opened 123 (thread_fields thread.now)) }
{
    let name = hart_name(*into.allocator(), thread.number)?;
    write_word(into, b'{', Key::Id, thread.number)?;
    write_text(into, b',', Key::TargetId, name.as_slice())?;
    write_state(into, &thread.stopped_at)
}

#[tactic(auto, using(std::proofs::lemmas::Grind::common_steps, crate::proofs::Led::tuple_item_led), unfolding(crate::specs::Replies::thread_tree))]
fn write_thread(into: &mut Vec<u8>, lead: u8, thread: &Thread) -> Result<(), AllocError>
    ensures { Adds result into.old.items into.new.items (item_led lead (thread_tree thread.now)) }
{
    write_byte(into, lead)?;
    write_fields(into, thread)?;
    write_byte(into, b'}')
}

// Threads behind a first one.
fn write_more(into: &mut Vec<u8>, threads: &[Thread]) -> Result<(), AllocError>
    ensures { Adds result into.old.items into.new.items (items_behind (map thread_tree threads.now)) }
{
    for thread in threads {
        write_thread(into, b',', thread)?;
    }
    Ok(())
}

// Threads behind their bracket.
fn write_list(into: &mut Vec<u8>, threads: &[Thread]) -> Result<(), AllocError>
    ensures { Adds result into.old.items into.new.items (items_opened 91 (map thread_tree threads.now)) }
{
    let [thread, rest @ ..] = threads else {
        return write_byte(into, b'[');
    };
    write_thread(into, b'[', thread)?;
    write_more(into, rest)
}

/// Puts threads, and which of them is selected, at the end.
#[tactic(auto, using(std::proofs::lemmas::Grind::common_steps, crate::proofs::Led::list_led), unfolding(crate::specs::Replies::threads_fields))]
pub fn write_threads(
    into: &mut Vec<u8>,
    threads: &[Thread],
    selected: u32,
) -> Result<(), AllocError>
    ensures { Adds result into.old.items into.new.items (behind (threads_fields threads.now selected)) }
{
    write_head(into, b',', Key::Threads)?;
    write_list(into, threads)?;
    write_byte(into, b']')?;
    write_word(into, b',', Key::CurrentThreadId, selected)
}

// The numbers of threads behind a first one.
fn write_more_numbers(into: &mut Vec<u8>, numbers: &[u32]) -> Result<(), AllocError>
    ensures { Adds result into.old.items into.new.items (behind (map number_field numbers.now)) }
{
    for number in numbers {
        write_word(into, b',', Key::ThreadId, *number)?;
    }
    Ok(())
}

// The numbers of threads behind their bracket.
fn write_number_list(into: &mut Vec<u8>, numbers: &[u32]) -> Result<(), AllocError>
    ensures { Adds result into.old.items into.new.items (opened 123 (map number_field numbers.now)) }
{
    let [number, rest @ ..] = numbers else {
        return write_byte(into, b'{');
    };
    write_word(into, b'{', Key::ThreadId, *number)?;
    write_more_numbers(into, rest)
}

// The numbers of threads as a field.
#[tactic(auto, using(std::proofs::lemmas::Grind::common_steps, crate::proofs::Led::tuple_led))]
fn write_ids(into: &mut Vec<u8>, numbers: &[u32]) -> Result<(), AllocError>
    ensures { Adds result into.old.items into.new.items (led 44 (key_text keys.ThreadIds, tuple_of (map number_field numbers.now))) }
{
    write_head(into, b',', Key::ThreadIds)?;
    write_number_list(into, numbers)?;
    write_byte(into, b'}')
}

/// Puts the numbers of threads, which of them is selected, and how many there are, at the end.
#[tactic(auto, using(std::proofs::lemmas::Grind::common_steps), unfolding(crate::specs::Replies::numbers_fields))]
pub fn write_numbers(into: &mut Vec<u8>, numbers: &[u32], selected: u32) -> Result<(), AllocError>
    ensures { Adds result into.old.items into.new.items (behind (numbers_fields numbers.now selected)) }
{
    write_ids(into, numbers)?;
    write_word(into, b',', Key::CurrentThreadId, selected)?;
    write_number(into, b',', Key::NumberOfThreads, numbers.len() as u64)
}
