// One instruction of a hart.
ghost use Rattle.std.specs.Prelude.{◌≡◌, ◌<◌, ◌-◌, ◌^◌, length, slice_index};
ghost use Rattle.rv_exec.specs.declared.effect.Stepped.TheVariants.{Wrote};
ghost use Rattle.plain_machine.specs.Answers.{StepGives};
ghost use Rattle.plain_machine.specs.Plain.{plain};
ghost use Rattle.unpatched_machine.specs.Instruction.{OnOutput};
ghost use Rattle.dbg_model.specs.Lawful.{one, one_more_at, one_out, passes, with_leavers};
ghost use Rattle.dbg_model.specs.Shown.{written};
ghost use Rattle.watch_points.specs.Watches.{fired_by};
ghost use Rattle.replay_parts.specs.Parts.{state_of};
ghost use Rattle.replay_parts.specs.Going.{Enters, Kept, PutsOut, leave_of};

use crate::changes::is_off;
use crate::halt::Halt;
use crate::modes::{leave_all, leave_alone, set_out, stepped};
use crate::movers::runner;
use crate::state::Parts;
use data_memory::DataMemory;
use dbg_model::{Hart, Opening, Shown};
use dbg_traits::ByteList;
use elf32_read::Image;
use rv_exec::{Regs, Stepped};
use std::alloc::Global;
use unpatched_machine::execute_plain;
use watch_points::{Fired, WatchList};

// Executes the word at pc, and tells which watch it makes fire.
fn execute_watched(
    image: &Image,
    regs: &mut Regs,
    memory: &mut DataMemory,
    watches: &WatchList,
) -> (Stepped, Option<Fired>)
    ensures step { StepGives result.0 (plain image.now regs.old memory.old) regs.old regs.new memory.old memory.new }
    ensures output { OnOutput result.0 (memory.new ≡ memory.old) }
    ensures fired { result.1 ≡ fired_by watches.now memory.old memory.new }
{
    let before = watches.worths(memory);
    let stepped = execute_plain(image, regs, memory);
    let fired = watches.fired(&before, memory);
    (stepped, fired)
}

// The bytes of a range, which can be read, are put out.
fn write_out(
    alloc: Global,
    memory: &DataMemory,
    out: &mut Vec<u8>,
    addr: u32,
    len: u32,
) -> Result<Shown, Halt>
    ensures { PutsOut result (Wrote addr len) memory.now out.old.items out.new.items }
{
    let mut bytes = vec![in alloc; 0u8; len as usize]?;
    if memory.read_range(addr, bytes.as_mut_slice()).is_err() {
        return Ok(Shown::Nothing);
    }
    out.extend_from_slice(bytes.as_slice())?;
    Ok(Shown::Wrote {
        bytes: ByteList::of(bytes),
    })
}

// What an instruction wrote is put out.
fn put_out(
    alloc: Global,
    memory: &DataMemory,
    out: &mut Vec<u8>,
    stepped: Stepped,
) -> Result<Shown, Halt>
    ensures { PutsOut result stepped memory.now out.old.items out.new.items }
{
    match stepped {
        Stepped::Ran | Stepped::HartExit(_) | Stepped::AllExit(_) => Ok(Shown::Nothing),
        Stepped::Wrote { addr, len } => write_out(alloc, memory, out, addr, len),
        Stepped::Hit | Stepped::Trap(_) => Err(Halt::Unlawful),
    }
}

// The harts that an instruction of hart h makes exit leave.
fn leave(harts: &mut [Hart], h: u32, stepped: Stepped)
    requires { h < length harts.old }
    ensures { harts.new ≡ with_leavers (leave_of stepped) harts.old h }
{
    match stepped {
        Stepped::HartExit(code) => leave_alone(harts, h, code),
        Stepped::AllExit(code) => leave_all(harts, code),
        Stepped::Ran | Stepped::Wrote { .. } | Stepped::Hit | Stepped::Trap(_) => {}
    }
}

// Whether an enabled breakpoint stands where the hart is, and displaced stepping isn't off.
fn passes(parts: &Parts, hart: &Hart) -> bool
    ensures { result ≡ passes (state_of parts.now) hart.now }
{
    !is_off(parts.displaced) && parts.table.stands(hart.regs.pc())
}

// One more instruction of a hart that passed a breakpoint, if it did.
fn count_pass(passed: &mut Vec<u64>, h: usize, passes: bool)
    requires hart { h < length passed.old.items }
    requires room { slice_index passed.old.items h < 2 ^ 64 - 1 }
    ensures { passed.new.items ≡ one_more_at passed.old.items h passes }
{
    if passes {
        passed[h] += 1;
    }
}

/// One instruction of a hart that may execute, and what it shows.
pub fn step(alloc: Global, opening: &Opening, parts: &mut Parts, h: u32) -> Result<Shown, Halt>
    requires { Kept opening.now parts.old }
    ensures { Enters opening.now result (one opening.now h (state_of parts.old)) (written (one_out opening.now h (state_of parts.old))) parts.old parts.new }
{
    let (hart, judgement) = runner(opening, parts, h)?;
    let hart = set_out(judgement, hart);
    let passes = passes(parts, &hart);
    let mut regs = hart.regs;
    let (answer, fired) = execute_watched(
        &opening.image,
        &mut regs,
        &mut parts.memory,
        &parts.watches,
    );
    let shown = put_out(alloc, &parts.memory, &mut parts.out, answer)?;
    parts.harts[h as usize] = stepped(hart, regs, fired);
    leave(parts.harts.as_mut_slice(), h, answer);
    count_pass(&mut parts.passed, h as usize, passes);
    parts.retired += 1;
    Ok(shown)
}
