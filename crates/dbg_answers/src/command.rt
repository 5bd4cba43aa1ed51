// The answer to a command, by the function that answers it.
ghost use Rattle.std.specs.Prelude.{◌≡◌, true, false, ◌<◌, ◌≤◌, ◌-◌, ◌^◌, IfOk, length};
ghost use Rattle.dbg_model.specs.Outcome.{told};
ghost use Rattle.dbg_model.specs.Command.{reply};
ghost use Rattle.dbg_model.specs.Refusals.{Judges, against};
ghost use Rattle.dbg_answers.specs.Debuggee.{seen};
ghost use Rattle.dbg_answers.specs.Answer.{Gives, answered, outcome_of};
ghost use Rattle.dbg_answers.specs.Subjects.{is_break, is_move, is_setting};

use crate::answer::{Answer, Failure, answer_of, doing, showing, told};
use crate::breakpoints::{after, change_condition, delete, enable, insert, list};
use crate::debuggee::Debuggee;
use crate::expressions::evaluate;
use crate::frames::{frame_depth, frame_info, frame_list};
use crate::memory::read_memory;
use crate::registers::register_values;
use crate::resuming::{go_on, interrupt};
use crate::settings::{exit, show_setting};
use crate::stepping::{FINISH, NEXT, NEXT_INSTRUCTION, STEP, STEP_INSTRUCTION, take_step};
use crate::threads::{thread_info, thread_list, thread_select};
use crate::variables::variable_list;
use crate::watchpoints::watch;
use crate::writing::{set_register, write_memory};
use dbg_effects::Effect;
use dbg_model::{Content, Refused};
use dbg_traits::NoMemory;
use mi_commands::Command;
use std::alloc::Global;

// What is answered to a command of settings, of registers or of the session.
#[tactic(auto, unfolding(dbg_model::specs::Command::reply))]
fn set(debuggee: &Debuggee<'_>, command: Command) -> Result<Answer, Refused>
    requires setting { is_setting command ≡ true }
    requires few { length debuggee.now.threads.now ≤ 16 }
    ensures { answered result ≡ reply (seen debuggee.now) command }
{
    match command {
        Command::SetDisplaced(value) => Ok(doing(Effect::Displace(value))),
        Command::SetRegister {
            thread,
            name,
            register,
            value,
        } => set_register(debuggee, thread, name, register, value),
        Command::Show(setting) => Ok(show_setting(debuggee, setting)),
        Command::Exit => Ok(exit()),
        _ => Ok(doing(Effect::Nothing)),
    }
}

// What is answered to a command of threads that go on, or further ones.
#[tactic(auto, unfolding(dbg_model::specs::Command::reply))]
fn go(alloc: Global, debuggee: &Debuggee<'_>, command: Command) -> Result<Answer, Failure>
    requires subject { is_move command ≡ true }
    requires few { length debuggee.now.threads.now ≤ 16 }
    ensures { Gives result (reply (seen debuggee.now) command) }
{
    match command {
        Command::Continue(target) => go_on(alloc, debuggee, target),
        Command::Interrupt(target) => interrupt(alloc, debuggee, target),
        Command::Step { thread } => take_step(alloc, debuggee, thread, STEP),
        Command::Next { thread } => take_step(alloc, debuggee, thread, NEXT),
        Command::StepInstruction { thread } => take_step(alloc, debuggee, thread, STEP_INSTRUCTION),
        Command::NextInstruction { thread } => take_step(alloc, debuggee, thread, NEXT_INSTRUCTION),
        Command::Finish { thread } => take_step(alloc, debuggee, thread, FINISH),
        other => answer_of(set(debuggee, other)),
    }
}

// What is answered to a command that looks at threads, registers and memory, or to further ones.
#[tactic(auto, unfolding(dbg_model::specs::Command::reply))]
fn look(alloc: Global, debuggee: &Debuggee<'_>, command: Command) -> Result<Answer, Failure>
    requires subject { is_break command ≡ false }
    requires few { length debuggee.now.threads.now ≤ 16 }
    ensures { Gives result (reply (seen debuggee.now) command) }
{
    match command {
        Command::ThreadInfo { thread } => thread_info(alloc, debuggee, thread),
        Command::ThreadSelect { thread } => answer_of(thread_select(debuggee, thread)),
        Command::ThreadList => thread_list(alloc, debuggee),
        Command::FrameList { thread } => frame_list(alloc, debuggee, thread),
        Command::FrameDepth { thread } => answer_of(frame_depth(debuggee, thread)),
        Command::FrameInfo { thread } => frame_info(alloc, debuggee, thread),
        Command::VariableList {
            thread,
            with_values,
        } => variable_list(alloc, debuggee, thread, with_values),
        Command::RegisterNames => Ok(showing(Content::RegisterNames)),
        Command::RegisterValues {
            thread,
            format,
            numbers,
        } => register_values(alloc, debuggee, thread, format, &numbers),
        Command::ReadMemory { address, count } => read_memory(alloc, debuggee, address, count),
        Command::WriteMemory { address, bytes } => {
            answer_of(write_memory(debuggee, address, bytes))
        }
        Command::Evaluate { thread, expression } => evaluate(alloc, debuggee, thread, &expression),
        other => go(alloc, debuggee, other),
    }
}

#[tactic(auto, unfolding(dbg_model::specs::Command::reply))]
fn reply(alloc: Global, debuggee: &Debuggee<'_>, command: Command) -> Result<Answer, Failure>
    requires few { length debuggee.now.threads.now ≤ 16 }
    requires given { debuggee.now.table.now.given < 2 ^ 32 - 1 }
    ensures { Gives result (reply (seen debuggee.now) command) }
{
    match command {
        Command::Blank => Ok(showing(Content::Blank)),
        Command::BreakInsert(insertion) => insert(alloc, debuggee, &insertion),
        Command::BreakDelete(numbers) => answer_of(delete(debuggee, numbers)),
        Command::BreakEnable(numbers) => answer_of(enable(debuggee, numbers, true)),
        Command::BreakDisable(numbers) => answer_of(enable(debuggee, numbers, false)),
        Command::BreakCondition { number, condition } => change_condition(
            alloc, debuggee, number, &condition,
        ),
        Command::BreakAfter { number, count } => answer_of(after(debuggee, number, count)),
        Command::BreakList => list(alloc, debuggee),
        Command::BreakWatch { expression } => watch(alloc, debuggee, expression),
        other => look(alloc, debuggee, other),
    }
}

/// What is answered to a command, and what it changes.
pub fn answer_command(
    alloc: Global,
    debuggee: &Debuggee<'_>,
    command: Command,
) -> Result<Answer, NoMemory>
    requires few { length debuggee.now.threads.now ≤ 16 }
    requires given { debuggee.now.table.now.given < 2 ^ 32 - 1 }
    ensures gives { IfOk result (λ a. outcome_of a ≡ told (reply (seen debuggee.now) command)) }
    ensures least { Judges (reply (seen debuggee.now) command) (against (seen debuggee.now) command) }
{
    told(reply(alloc, debuggee, command))
}
