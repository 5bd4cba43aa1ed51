// The frames of a thread.
ghost use Rattle.std.specs.Prelude.{◌≡◌, IfOk, map};
ghost use Rattle.frame_walk.specs.Frames.{frames_of};
ghost use Rattle.dbg_model.specs.Views.{register, shown_byte};
ghost use Rattle.dbg_model.specs.Frames.{frame_depth, frame_info, frame_list, frame_shown};
ghost use Rattle.dbg_answers.specs.Debuggee.{seen};
ghost use Rattle.dbg_answers.specs.Answer.{Gives, answered};

use crate::answer::{Answer, Failure, showing};
use crate::debuggee::Debuggee;
use arrayvec::ArrayVec;
use dbg_model::{Content, FrameList, Refused, SeenHart, ShownFrame, SourceIndex, shown_frame};
use frame_walk::{Frame, walk};
use rv_exec::Regs;
use std::alloc::{AllocError, Global};

// The frames of a hart, the innermost first.
fn frames_of(debuggee: &Debuggee<'_>, regs: &Regs) -> ArrayVec<Frame, 64>
    ensures { result.items ≡ frames_of (seen debuggee.now).sources.frames (seen debuggee.now).image (register regs.now) (shown_byte (seen debuggee.now).image (seen debuggee.now).memory) }
{
    let view = SeenHart {
        regs,
        pc: None,
        image: debuggee.image,
        memory: debuggee.memory,
    };
    let mut frames = ArrayVec::new();
    walk(
        debuggee.sources.frames(),
        debuggee.image,
        &view,
        &mut frames,
    );
    frames
}

fn show_frames(
    alloc: Global,
    sources: &SourceIndex,
    frames: &[Frame],
) -> Result<FrameList, AllocError>
    ensures { IfOk result (λ list. list ≡ map (frame_shown sources.now) frames.now) }
{
    let mut shown = Vec::new(alloc);
    for frame in frames {
        shown.push(shown_frame(alloc, sources, frame.pc, frame.lookup)?)?;
    }
    Ok(FrameList::of(shown))
}

/// `-stack-list-frames [--thread N]`.
pub fn frame_list(
    alloc: Global,
    debuggee: &Debuggee<'_>,
    thread: Option<u32>,
) -> Result<Answer, Failure>
    ensures { Gives result (frame_list (seen debuggee.now) thread) }
{
    let regs = debuggee.stopped(thread.unwrap_or(debuggee.selected))?;
    let frames = frames_of(debuggee, &regs);
    let shown = show_frames(alloc, debuggee.sources, frames.as_slice())?;
    Ok(showing(Content::Frames(shown)))
}

/// `-stack-info-depth [--thread N]`.
pub fn frame_depth(debuggee: &Debuggee<'_>, thread: Option<u32>) -> Result<Answer, Refused>
    ensures { answered result ≡ frame_depth (seen debuggee.now) thread }
{
    let regs = debuggee.stopped(thread.unwrap_or(debuggee.selected))?;
    let frames = frames_of(debuggee, &regs);
    Ok(showing(Content::Depth(frames.len() as u32)))
}

/// `-stack-info-frame [--thread N]`.
pub fn frame_info(
    alloc: Global,
    debuggee: &Debuggee<'_>,
    thread: Option<u32>,
) -> Result<Answer, Failure>
    ensures { Gives result (frame_info (seen debuggee.now) thread) }
{
    let pc = debuggee.stopped(thread.unwrap_or(debuggee.selected))?.pc();
    let frame = shown_frame(alloc, debuggee.sources, pc, pc)?;
    Ok(showing(Content::Frame(frame)))
}
