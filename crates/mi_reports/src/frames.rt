// Frames and lines of the source.
ghost use Rattle.std.specs.Prelude.{◌+◌, ◌^◌, ◌<◌, length};
ghost use Rattle.mi_reports.specs.Led.{Adds, led, behind, opened};
ghost use Rattle.mi_reports.specs.declared.words.Key.TheVariants as keys;
ghost use Rattle.mi_reports.specs.Words.{key_text};
ghost use Rattle.mi_reports.specs.Frames.{source_fields, frame_rest, frame_fields, frame_field, stack_fields, stack_tree};

use crate::fields::{
    write_address, write_byte, write_empty, write_head, write_number, write_some, write_text,
    write_word,
};
use crate::words::Key;
use dbg_model::{ShownFrame, SourceLine};
use std::alloc::AllocError;

/// Puts the fields of a line of a source file at the end; none where none is known.
pub fn write_source(into: &mut Vec<u8>, source: &Option<SourceLine>) -> Result<(), AllocError>
    ensures { Adds result into.old.items into.new.items (behind (source_fields source.now)) }
{
    let Some(source) = source else {
        return Ok(());
    };
    write_text(into, b',', Key::File, source.file.as_slice())?;
    write_word(into, b',', Key::Line, source.line)
}

/// Puts what stands behind the address of a frame at the end.
#[tactic(auto, using(std::proofs::lemmas::Grind::common_steps), unfolding(crate::specs::Frames::frame_rest))]
pub fn write_rest(into: &mut Vec<u8>, frame: &ShownFrame) -> Result<(), AllocError>
    ensures { Adds result into.old.items into.new.items (behind (frame_rest frame.now)) }
{
    write_some(into, Key::Func, &frame.function)?;
    write_empty(into, b',', Key::Args)?;
    write_source(into, &frame.source)
}

// The fields of a frame behind their bracket.
#[tactic(auto, using(std::proofs::lemmas::Grind::common_steps), unfolding(crate::specs::Frames::frame_fields))]
fn write_fields(
    into: &mut Vec<u8>,
    level: Option<u64>,
    frame: &ShownFrame,
) -> Result<(), AllocError>
    ensures { Adds result into.old.items into.new.items (opened 123 (frame_fields level frame.now)) }
{
    match level {
        None => {
            write_address(into, b'{', Key::Addr, frame.address)?;
            write_rest(into, frame)
        }
        Some(level) => {
            write_number(into, b'{', Key::Level, level)?;
            write_address(into, b',', Key::Addr, frame.address)?;
            write_rest(into, frame)
        }
    }
}

/// Puts a frame at the end, with its place in the stack where that is told.
#[tactic(auto, using(std::proofs::lemmas::Grind::common_steps, crate::proofs::Led::tuple_led), unfolding(crate::specs::Frames::frame_field))]
pub fn write_frame(
    into: &mut Vec<u8>,
    lead: u8,
    level: Option<u64>,
    frame: &ShownFrame,
) -> Result<(), AllocError>
    ensures { Adds result into.old.items into.new.items (led lead (frame_field level frame.now)) }
{
    write_head(into, lead, Key::Frame)?;
    write_fields(into, level, frame)?;
    write_byte(into, b'}')
}

// Frames behind a first one, of which the first has this level.
fn write_more(into: &mut Vec<u8>, level: u64, frames: &[ShownFrame]) -> Result<(), AllocError>
    requires { level + length frames.now < 2 ^ 64 }
    ensures { Adds result into.old.items into.new.items (behind (stack_fields level frames.now)) }
{
    let [frame, rest @ ..] = frames else {
        return Ok(());
    };
    write_frame(into, b',', Some(level), frame)?;
    write_more(into, level + 1, rest)
}

// The frames of a stack behind their bracket.
fn write_frames(into: &mut Vec<u8>, frames: &[ShownFrame]) -> Result<(), AllocError>
    ensures { Adds result into.old.items into.new.items (opened 91 (stack_fields 0 frames.now)) }
{
    let [frame, rest @ ..] = frames else {
        return write_byte(into, b'[');
    };
    write_frame(into, b'[', Some(0), frame)?;
    write_more(into, 1, rest)
}

/// Puts the frames of a stack, counted from 0, at the end as a field.
#[tactic(auto, using(std::proofs::lemmas::Grind::common_steps, crate::proofs::Led::brackets_led))]
pub fn write_stack(into: &mut Vec<u8>, lead: u8, frames: &[ShownFrame]) -> Result<(), AllocError>
    ensures { Adds result into.old.items into.new.items (led lead (key_text keys.Stack, stack_tree frames.now)) }
{
    write_head(into, lead, Key::Stack)?;
    write_frames(into, frames)?;
    write_byte(into, b']')
}
