// The lines of replies.
ghost use Rattle.std.specs.Prelude.{◌≡◌, [], map};
ghost use Rattle.mi_values.specs.FieldLists.{result_of};
ghost use Rattle.mi_values.specs.Record.{line_bytes};
ghost use Rattle.mi_values.specs.Records.{lines_bytes};
ghost use Rattle.mi_reports.specs.Led.{Adds, behind};
ghost use Rattle.mi_reports.specs.declared.words.Key.TheVariants as keys;
ghost use Rattle.mi_reports.specs.Words.{key_text};
ghost use Rattle.mi_reports.specs.Replies.{running_line, setting, content_lines, done_fields, done_lines, reply_lines};

use crate::breakpoints::write_breakpoint;
use crate::errors::write_error;
use crate::fields::{put, write_byte, write_phrase, write_word, write_worth};
use crate::frames::{write_frame, write_stack};
use crate::lines::{write_answered, write_prompt};
use crate::registers::{write_memory, write_names, write_registers};
use crate::table::write_table;
use crate::threads::{write_numbers, write_threads};
use crate::variables::write_variables;
use crate::watches::write_watch;
use crate::words::{Key, Phrase};
use dbg_model::{Content, Refused, Reply};
use itoa::Buffer;
use mi_commands::Displaced;
use mi_values::Token;
use std::alloc::AllocError;

// A thread goes on.
fn write_running_line(into: &mut Vec<u8>, thread: u32) -> Result<(), AllocError>
    ensures { Adds result into.old.items into.new.items (line_bytes (running_line thread)) }
{
    let mut buffer = Buffer::new();
    let number = buffer.format(u64::from(thread)).as_bytes();
    put(into, "*running,thread-id=\"", number, "\"\n")
}

// The lines of threads that go on.
fn write_running(into: &mut Vec<u8>, threads: &[u32]) -> Result<(), AllocError>
    ensures { Adds result into.old.items into.new.items (lines_bytes (map running_line threads.now)) }
{
    for thread in threads {
        write_running_line(into, *thread)?;
    }
    Ok(())
}

#[tactic(auto, using(crate::proofs::Pieces::going_bytes))]
fn write_goes(into: &mut Vec<u8>, token: &Token) -> Result<(), AllocError>
    ensures { Adds result into.old.items into.new.items (line_bytes (result_of token.now (key_text keys.Running) [])) }
{
    put(into, "", token.as_bytes(), "^running\n")
}

#[tactic(auto, using(crate::proofs::Pieces::exit_bytes))]
fn write_exit(into: &mut Vec<u8>, token: &Token) -> Result<(), AllocError>
    ensures { Adds result into.old.items into.new.items (lines_bytes (content_lines token.now Content.Exit)) }
{
    put(into, "", token.as_bytes(), "^exit\n")
}

fn write_plain(into: &mut Vec<u8>, token: &Token) -> Result<(), AllocError>
    ensures { Adds result into.old.items into.new.items (lines_bytes (content_lines token.now Content.Done)) }
{
    put(into, "", token.as_bytes(), "^done\n(gdb)\n")
}

fn write_going_on(into: &mut Vec<u8>, token: &Token, threads: &[u32]) -> Result<(), AllocError>
    ensures { Adds result into.old.items into.new.items (lines_bytes (content_lines token.now (Content.Running threads.now))) }
{
    write_goes(into, token)?;
    write_running(into, threads)?;
    write_prompt(into)
}

#[tactic(auto, using(std::proofs::lemmas::Grind::common_steps, crate::proofs::Led::result_led))]
fn write_refused(into: &mut Vec<u8>, token: &Token, refused: &Refused) -> Result<(), AllocError>
    ensures { Adds result into.old.items into.new.items (lines_bytes (content_lines token.now (Content.Refused refused.now))) }
{
    write_answered(into, token, Key::Error)?;
    write_error(into, refused)?;
    write_byte(into, b'\n')?;
    write_prompt(into)
}

fn setting(value: Displaced) -> Phrase
    ensures { result ≡ setting value }
{
    match value {
        Displaced::On => Phrase::On,
        Displaced::Off => Phrase::Off,
        Displaced::Auto => Phrase::Auto,
    }
}

// The fields of what was done.
fn write_done(into: &mut Vec<u8>, content: &Content) -> Result<(), AllocError>
    ensures { Adds result into.old.items into.new.items (behind (done_fields content.now)) }
{
    match content {
        Content::Inserted(breakpoint) => write_breakpoint(into, b',', breakpoint),
        Content::Breakpoints(rows) => write_table(into, rows.as_slice()),
        Content::Watching { number, text } => write_watch(into, *number, text.as_slice()),
        Content::Selected(thread) => write_word(into, b',', Key::NewThreadId, *thread),
        Content::Threads { threads, selected } => write_threads(
            into,
            threads.as_slice(),
            *selected,
        ),
        Content::ThreadNumbers { numbers, selected } => write_numbers(
            into,
            numbers.as_slice(),
            *selected,
        ),
        Content::Frames(frames) => write_stack(into, b',', frames.as_slice()),
        Content::Depth(depth) => write_word(into, b',', Key::Depth, *depth),
        Content::Frame(frame) => write_frame(into, b',', Some(0), frame),
        Content::Variables(variables) => write_variables(into, variables.as_slice()),
        Content::RegisterNames => write_names(into),
        Content::Registers { format, registers } => write_registers(
            into,
            *format,
            registers.as_slice(),
        ),
        Content::Memory { address, bytes } => write_memory(into, *address, bytes.as_slice()),
        Content::Value { word, unsigned } => write_worth(into, b',', Key::Value, *word, *unsigned),
        Content::Setting(value) => write_phrase(into, b',', Key::Value, setting(*value)),
        _ => Ok(()),
    }
}

#[tactic(auto, using(std::proofs::lemmas::Grind::common_steps, crate::proofs::Led::result_led))]
fn write_answer(into: &mut Vec<u8>, token: &Token, content: &Content) -> Result<(), AllocError>
    ensures { Adds result into.old.items into.new.items (lines_bytes (done_lines token.now (done_fields content.now))) }
{
    write_answered(into, token, Key::Done)?;
    write_done(into, content)?;
    write_byte(into, b'\n')?;
    write_prompt(into)
}

fn write_content(into: &mut Vec<u8>, token: &Token, content: &Content) -> Result<(), AllocError>
    ensures { Adds result into.old.items into.new.items (lines_bytes (content_lines token.now content.now)) }
{
    match content {
        Content::Blank => write_prompt(into),
        Content::Running(threads) => write_going_on(into, token, threads.as_slice()),
        Content::Exit => write_exit(into, token),
        Content::Done => write_plain(into, token),
        Content::Refused(refused) => write_refused(into, token, refused),
        _ => write_answer(into, token, content),
    }
}

/// Puts the lines of a reply at the end.
pub fn write_reply(into: &mut Vec<u8>, reply: &Reply) -> Result<(), AllocError>
    ensures { Adds result into.old.items into.new.items (lines_bytes (reply_lines reply.now)) }
{
    write_content(into, &reply.token, &reply.content)
}
