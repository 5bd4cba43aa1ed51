//! The walk over the frames of a hart.

ghost use Rattle.std.specs.Prelude.{◌≡◌, is_ok, is_some, slice_get};
ghost use Rattle.arrayvec.specs.ArrayVec.{array_vec_len};
ghost use Rattle.dwarf_frames.specs.Rules.{rules_of};
ghost use Rattle.frame_walk.specs.Caller.{AreCovered, cfa_by};
ghost use Rattle.frame_walk.specs.Frames.{Frames, caller_of, frame_of, frames_of, innermost, integer_registers, own_caller, own_cfa};

use crate::context::Context;
use crate::unwinding::{caller_by, cfa_by};
use crate::{Caller, Frame};
use arrayvec::ArrayVec;
use dbg_traits::View;
use dwarf_frames::{FrameFault, FrameIndex, Rules};
use elf32_read::Image;

/// The number of pc among the registers of a view.
const PC: u32 = 32;

/// How many frames there are at most beside the innermost one.
const MOST_OUTER: usize = 63;

/// x0 to x31.
fn integer_registers<V: View>(view: &V) -> [u32; 32]
    ensures { result ≡ integer_registers (V.registers view.now) }
{
    let mut registers = [0; 32];
    for n in 0..32 {
        registers[n] = view.reg(n as u32);
    }
    registers
}

/// The frame that the hart is in.
fn innermost<V: View>(view: &V) -> Context
    ensures { result ≡ innermost (V.registers view.now) }
{
    let pc = view.reg(PC);
    Context {
        pc,
        lookup: pc,
        registers: integer_registers(view),
        inner_cfa: None,
    }
}

/// What is told of a frame that this covers.
fn told(frame: &Context, found: &Result<Option<Rules>, FrameFault>) -> Frame
    requires { AreCovered found.now }
    ensures { result ≡ record { pc = frame.now.pc; lookup = frame.now.lookup; cfa = cfa_by frame.now.registers found.now } }
{
    Frame {
        pc: frame.pc,
        lookup: frame.lookup,
        cfa: cfa_by(&frame.registers, found),
    }
}

/// The CFA of the frame that a hart is in, by the index of a section `.debug_frame`; none exactly where its rules have a fault.
#[tactic(auto, unfolding(crate::specs::Frames::frame_of))]
pub fn cfa<V: View>(index: &FrameIndex, _image: &Image, view: &V) -> Option<u32>
    ensures value { result ≡ own_cfa index.now (V.registers view.now) }
    ensures some { is_some result ≡ is_ok (rules_of index.now (V.registers view.now 32)) }
{
    cfa_by(&integer_registers(view), &index.rules_at(view.reg(PC)))
}

/// Where the frame that a hart is in goes on, by the index of a section `.debug_frame`; none exactly where no other frame is above it.
#[tactic(auto, unfolding(crate::specs::Frames::own_caller, crate::specs::Frames::caller_of, crate::specs::Frames::frame_of))]
pub fn caller<V: View>(index: &FrameIndex, image: &Image, view: &V) -> Option<Caller>
    ensures value { result ≡ own_caller index.now image.now (V.registers view.now) (V.bytes view.now) }
    ensures some { is_some result ≡ is_some (slice_get (frames_of index.now image.now (V.registers view.now) (V.bytes view.now)) 1) }
{
    let frame = innermost(view);
    let found = index.rules_at(frame.lookup);
    let outer = caller_by(image, view, &frame, &found)?;
    Some(Caller {
        cfa: cfa_by(&frame.registers, &found)?,
        return_address: outer.pc,
    })
}

/// Fills an empty list with the frames of a hart, by the index of a section `.debug_frame`: the hart's own first, each other one
/// after the one that it called, and 64 at most.
pub fn walk<V: View>(index: &FrameIndex, image: &Image, view: &V, into: &mut ArrayVec<Frame, 64>)
    requires { array_vec_len into.old ≡ 0 }
    ensures frames { Frames index.now image.now (V.registers view.now) (V.bytes view.now) into.new.items }
    ensures value { into.new.items ≡ frames_of index.now image.now (V.registers view.now) (V.bytes view.now) }
{
    let mut frame = innermost(view);
    for _number in 0..MOST_OUTER {
        let found = index.rules_at(frame.lookup);
        into.push(told(&frame, &found));
        match caller_by(image, view, &frame, &found) {
            Some(outer) => frame = outer,
            None => return,
        }
    }
    let found = index.rules_at(frame.lookup);
    into.push(told(&frame, &found));
}
