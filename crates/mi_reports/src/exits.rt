// The lines of threads that begin and end, and of what the program writes.
ghost use Rattle.mi_text.specs.Numeral.{exit_code};
ghost use Rattle.mi_values.specs.Record.{line_bytes};
ghost use Rattle.mi_values.specs.Records.{lines_bytes};
ghost use Rattle.mi_reports.specs.declared.words.Key.TheVariants as keys;
ghost use Rattle.mi_reports.specs.Led.{Adds, led, behind};
ghost use Rattle.mi_reports.specs.Words.{says};
ghost use Rattle.mi_reports.specs.Text.{thread_line, created_lines, opening_lines, exit_fields, stopped_line, left_lines, stream_lines};

use crate::fields::{write_byte, write_number, write_phrase, write_text};
use crate::lines::{write_begun, write_prompt, write_stream};
use crate::words::{Key, Phrase};
use mi_text::write_exit_code;
use mi_values::{NoticeSign, StreamSign};
use std::alloc::AllocError;

// A thread was created, or has exited.
#[tactic(auto, using(std::proofs::lemmas::Grind::common_steps, crate::proofs::Led::notice_led), unfolding(crate::specs::Text::thread_line, crate::specs::Text::thread_fields))]
fn write_thread(into: &mut Vec<u8>, class: Key, hart: u32) -> Result<(), AllocError>
    ensures { Adds result into.old.items into.new.items (line_bytes (thread_line class hart)) }
{
    write_begun(into, NoticeSign::Notify, class)?;
    write_number(into, b',', Key::Id, u64::from(hart) + 1)?;
    write_phrase(into, b',', Key::GroupId, Phrase::Group)?;
    write_byte(into, b'\n')
}

fn write_created(into: &mut Vec<u8>, harts: u32) -> Result<(), AllocError>
    ensures { Adds result into.old.items into.new.items (lines_bytes (created_lines harts)) }
{
    for hart in 0..harts {
        write_thread(into, Key::ThreadCreated, hart)?;
    }
    Ok(())
}

/// Puts the lines that a session of so many harts opens with at the end.
pub fn write_opening(into: &mut Vec<u8>, harts: u32) -> Result<(), AllocError>
    ensures { Adds result into.old.items into.new.items (lines_bytes (opening_lines harts)) }
{
    write_created(into, harts)?;
    write_prompt(into)
}

fn write_code(into: &mut Vec<u8>, code: u8) -> Result<(), AllocError>
    ensures { Adds result into.old.items into.new.items (led 44 (says keys.ExitCode (exit_code code))) }
{
    let mut text = Vec::new(*into.allocator());
    write_exit_code(code, &mut text)?;
    write_text(into, b',', Key::ExitCode, text.as_slice())
}

#[tactic(auto, using(std::proofs::lemmas::Grind::common_steps), unfolding(crate::specs::Text::exit_fields))]
fn write_exit_fields(into: &mut Vec<u8>, code: u8) -> Result<(), AllocError>
    ensures { Adds result into.old.items into.new.items (behind (exit_fields code)) }
{
    if code == 0 {
        return write_phrase(into, b',', Key::Reason, Phrase::ExitedNormally);
    }
    write_phrase(into, b',', Key::Reason, Phrase::Exited)?;
    write_code(into, code)
}

// The program has exited.
#[tactic(auto, using(std::proofs::lemmas::Grind::common_steps, crate::proofs::Led::notice_led), unfolding(crate::specs::Text::stopped_line))]
fn write_exit(into: &mut Vec<u8>, code: u8) -> Result<(), AllocError>
    ensures { Adds result into.old.items into.new.items (line_bytes (stopped_line (exit_fields code))) }
{
    write_begun(into, NoticeSign::Exec, Key::Stopped)?;
    write_exit_fields(into, code)?;
    write_byte(into, b'\n')
}

/// Puts the line of a hart that has exited with a code, and that of the program where it was the last live one, at the end.
pub fn write_left(into: &mut Vec<u8>, hart: u32, code: u32, last: bool) -> Result<(), AllocError>
    ensures { Adds result into.old.items into.new.items (lines_bytes (left_lines hart code last)) }
{
    write_thread(into, Key::ThreadExited, hart)?;
    if last {
        write_exit(into, (code % 256) as u8)?;
    }
    Ok(())
}

/// Puts the line of the bytes that an instruction wrote at the end; none where it wrote none.
pub fn write_output(into: &mut Vec<u8>, bytes: &[u8]) -> Result<(), AllocError>
    ensures { Adds result into.old.items into.new.items (lines_bytes (stream_lines bytes.now)) }
{
    if bytes.is_empty() {
        return Ok(());
    }
    write_stream(into, StreamSign::Target, bytes)
}
