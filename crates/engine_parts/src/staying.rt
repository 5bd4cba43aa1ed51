// A hart that goes on within a line, over the parts of an engine.
ghost use Rattle.std.specs.Prelude.{◌≡◌, ◌<◌, ◌≤◌, ◌⊎◌, ℕ, length, not, option_and_then, true};
ghost use Rattle.std.specs.Option.{option_map_or};
ghost use Rattle.rv_decode.specs.Decode.{decode};
ghost use Rattle.elf32_read.specs.Program.{text_word};
ghost use Rattle.hart_machine.specs.Running.{HasStopped};
ghost use Rattle.hart_machine.specs.Within.{HasEnded, calls_or_returns};
ghost use Rattle.engine_parts.specs.Staying.{AllStay, EndsLine, came_within, line_view, stays_at};
ghost use Rattle.engine_parts.specs.Watching.{WritesNear};

use crate::watching::is_near;
use elf32_read::Image;
use hart_machine::{Bounds, Machine, Stayed, calls_or_returns};
use line_index::LineIndex;
use rv_decode::decode;
use watch_points::WatchList;

/// A hart on a line, and what it meets there.
#[derive(Clone, Copy)]
pub struct OnLine<'a> {
    pub hart: u32,
    pub lines: &'a LineIndex,
    pub watches: &'a WatchList,
    /// The file of the line, by the number of its name.
    pub file: u32,
    pub line: u32,
}

// The lowest seven bits of the words of JAL and JALR.
const JAL: u32 = 0x6F;

const JALR: u32 = 0x67;

// The word of the instruction that was noted by its address.
fn noted_word(image: &Image, noted: Option<u32>) -> Option<u32>
    ensures { result ≡ option_and_then (text_word image.now) noted }
{
    image.text_word(noted?)
}

// Whether a word neither calls nor returns, if it is an instruction. Only one with the opcode of a jump is decoded.
#[tactic(auto, using(crate::proofs::Jumps::other_word))]
fn is_inner(word: u32) -> bool
    ensures { result ≡ option_map_or (λ i. not (calls_or_returns i)) (decode word) true }
{
    let opcode = word % 128;
    if opcode != JAL && opcode != JALR {
        return true;
    }
    match decode(word) {
        Some(instruction) => !calls_or_returns(&instruction),
        None => true,
    }
}

/// Whether a hart came to its pc neither by a call nor by a return, by the address that was noted of its instruction.
pub fn came_within(image: &Image, noted: Option<u32>) -> bool
    ensures { result ≡ came_within image.now noted }
{
    match noted_word(image, noted) {
        Some(word) => is_inner(word),
        None => true,
    }
}

// Some instructions within bounds in which no other line begins. None only where the hart goes no further there.
fn stay_within(machine: &mut Machine, on: &OnLine<'_>, limit: u32, bounds: Bounds) -> Stayed
    requires hart { on.now.hart < length machine.old.cores }
    requires some { 0 < limit }
    requires none { (a : ℕ) → bounds.start ≤ a → a < bounds.end → stays_at (line_view on.now) a ≡ true }
    ensures limit { result.count ≤ limit }
    ensures stays { AllStay (line_view on.now) result.count result.last machine.old machine.new }
    ensures rests { result.count ≡ 0 → HasEnded bounds.start bounds.end machine.new on.now.hart ⊎ WritesNear machine.new on.now.hart on.now.watches.now }
    ensures harts { length machine.new.cores ≡ length machine.old.cores }
{
    if on.watches.is_empty() {
        return machine.run_within(on.hart, limit, bounds);
    }
    if is_near(machine, on.hart, on.watches) {
        return Stayed { count: 0, last: 0 };
    }
    machine.run_within(on.hart, 1, bounds)
}

/// Takes a hart on by at most `limit` instructions that neither call nor return, at addresses where no other line begins.
/// They are fewer only where it has come to where it doesn't go on by itself, writes where a watch has its bytes, or the
/// line ends.
pub fn stay(machine: &mut Machine, on: &OnLine<'_>, limit: u32) -> Stayed
    requires { on.now.hart < length machine.old.cores }
    ensures limit { result.count ≤ limit }
    ensures stays { AllStay (line_view on.now) result.count result.last machine.old machine.new }
    ensures far { result.count < limit → HasStopped machine.new on.now.hart ⊎ (WritesNear machine.new on.now.hart on.now.watches.now ⊎ EndsLine (line_view on.now) machine.new) }
{
    let mut count = 0;
    let mut last = 0;
    while count < limit {
        let pc = machine.pc(on.hart);
        let Some(around) = on.lines.around(pc, on.file, on.line) else {
            return Stayed { count, last };
        };
        let bounds = Bounds {
            start: around.start,
            end: around.end,
        };
        let stayed = stay_within(machine, on, limit - count, bounds);
        if stayed.count == 0 {
            return Stayed { count, last };
        }
        count += stayed.count;
        last = stayed.last;
    }
    Stayed { count, last }
}
