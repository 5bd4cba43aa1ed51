// What is shown is made of bytes: facts for callers.
ghost use Rattle.std.specs.Prelude.{◌≡◌, true};
ghost use Rattle.mi_values.specs.Testing.{are_bytes};
ghost use Rattle.mi_reports.specs.Triggers.{expression};
ghost use Rattle.mi_reports.specs.Fits.{text_fits, source_fits, frame_fits, frames_fit, place_fits, threads_fit, breakpoint_fits, row_fits, rows_fit, variables_fit, faulty, quoted, content_fits, reply_fits, shown_fits};

use dbg_model::{
    Breakpoint, Content, Refused, Reply, Row, Shown, ShownFrame, ShownVariable, ShownWatch,
    SourceLine, Thread,
};
use dbg_traits::ByteList;
use mi_commands::Fault;
use mi_values::known_bytes;

fn known_text(bytes: &Option<ByteList>)
    ensures { text_fits bytes.now ≡ true }
{
    if let Some(bytes) = bytes {
        known_bytes(bytes.as_slice());
    }
}

fn known_source(source: &Option<SourceLine>)
    ensures { source_fits source.now ≡ true }
{
    if let Some(source) = source {
        known_bytes(source.file.as_slice());
    }
}

#[tactic(auto, unfolding(crate::specs::Fits::frame_fits))]
fn known_frame(frame: &ShownFrame)
    ensures { frame_fits frame.now ≡ true }
{
    known_text(&frame.function);
    known_source(&frame.source);
}

fn known_watch(watch: &Option<ShownWatch>)
    ensures { are_bytes (expression watch.now) ≡ true }
{
    match watch {
        Some(watch) => known_bytes(watch.text.as_slice()),
        None => (),
    }
}

fn known_frames(frames: &[ShownFrame])
    ensures { frames_fit frames.now ≡ true }
{
    for frame in frames {
        known_frame(frame);
    }
}

fn known_place(stopped_at: &Option<ShownFrame>)
    ensures { place_fits stopped_at.now ≡ true }
{
    if let Some(frame) = stopped_at {
        known_frame(frame);
    }
}

fn known_threads(threads: &[Thread])
    ensures { threads_fit threads.now ≡ true }
{
    for thread in threads {
        known_place(&thread.stopped_at);
    }
}

#[tactic(auto, unfolding(crate::specs::Fits::breakpoint_fits))]
fn known_breakpoint(breakpoint: &Breakpoint)
    ensures { breakpoint_fits breakpoint.now ≡ true }
{
    known_text(&breakpoint.function);
    known_source(&breakpoint.source);
    known_text(&breakpoint.condition);
    known_bytes(breakpoint.location.as_slice());
}

fn known_row(row: &Row)
    ensures { row_fits row.now ≡ true }
{
    match row {
        Row::Breakpoint(breakpoint) => known_breakpoint(breakpoint),
        Row::Watch(watch) => known_bytes(watch.text.as_slice()),
    }
}

fn known_rows(rows: &[Row])
    ensures { rows_fit rows.now ≡ true }
{
    for row in rows {
        known_row(row);
    }
}

fn known_variables(variables: &[ShownVariable])
    ensures { variables_fit variables.now ≡ true }
{
    for variable in variables {
        known_bytes(variable.name.as_slice());
    }
}

fn known_fault(fault: &Fault)
    ensures { are_bytes (faulty fault.now) ≡ true }
{
    match fault {
        Fault::Undefined(name) | Fault::Parameters(name) => known_bytes(name.as_slice()),
        Fault::Number(word) | Fault::Location { word, .. } => known_bytes(word.as_slice()),
        Fault::Setting => (),
    }
}

fn known_refused(refused: &Refused)
    ensures { are_bytes (quoted refused.now) ≡ true }
{
    match refused {
        Refused::Faulty(fault) => known_fault(fault),
        Refused::UnknownName(text)
        | Refused::UnknownLine { file: text, .. }
        | Refused::FixedRegister(text)
        | Refused::Unwatchable(text) => known_bytes(text.as_slice()),
        _ => (),
    }
}

fn known_content(content: &Content)
    ensures { content_fits content.now ≡ true }
{
    match content {
        Content::Inserted(breakpoint) => known_breakpoint(breakpoint),
        Content::Breakpoints(rows) => known_rows(rows.as_slice()),
        Content::Watching { text, .. } => known_bytes(text.as_slice()),
        Content::Threads { threads, .. } => known_threads(threads.as_slice()),
        Content::Frames(frames) => known_frames(frames.as_slice()),
        Content::Frame(frame) => known_frame(frame),
        Content::Variables(variables) => known_variables(variables.as_slice()),
        Content::Refused(refused) => known_refused(refused),
        _ => (),
    }
}

fn known_reply(reply: &Reply)
    ensures { reply_fits reply.now ≡ true }
{
    let _digits = reply.token.as_bytes();
    known_content(&reply.content);
}

/// What an entry shows is made of bytes: a step for each thing of a list.
pub fn known_shown(shown: &Shown)
    ensures { shown_fits shown.now ≡ true }
{
    match shown {
        Shown::Wrote { bytes } => known_bytes(bytes.as_slice()),
        Shown::Stop { frame, watch, .. } => {
            known_frame(frame);
            known_watch(watch);
        }
        Shown::Answer { reply } => known_reply(reply),
        _ => (),
    }
}
