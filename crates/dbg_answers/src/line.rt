// Lines: each is read once, and answered by what was read of it.
ghost use Rattle.std.specs.Prelude.{◌≡◌, ◌<◌, ◌≤◌, ◌-◌, ◌^◌, ℕ, List, IfOk, Ok, Err, length};
ghost use Rattle.mi_commands.specs.Gives.{Commands};
ghost use Rattle.dbg_model.specs.Outcome.{told};
ghost use Rattle.dbg_model.specs.Command.{asked_reply};
ghost use Rattle.dbg_model.specs.Refusals.{Judges, against_asked};
ghost use Rattle.dbg_answers.specs.LineRefusals.{IsAnswered, against_line, refused_in};
ghost use Rattle.dbg_model.specs.Sight.{Sight};
ghost use Rattle.dbg_model.specs.Reply.{answer_to, answering, is_wait, waits};
ghost use Rattle.dbg_answers.specs.Debuggee.{seen};
ghost use Rattle.dbg_answers.specs.Answer.{answered, line_answer_of, outcome_of};
ghost use Rattle.dbg_answers.specs.Reading.{AnswersRead, IsRead, RefusesInput};

use crate::answer::{Answer, settled, showing};
use crate::breakpoints::known_thread;
use crate::command::answer_command;
use crate::debuggee::Debuggee;
use dbg_model::{Content, Refused};
use dbg_traits::NoMemory;
use mi_commands::{Command, CommandLine, Fault, Refusal, command_of};
use mi_input::InputFault;
use mi_text::Token;
use std::alloc::Global;

/// What is answered to a line, with its token, and what it changes.
#[derive(Drop)]
pub struct LineAnswer {
    pub token: Token,
    pub answer: Answer,
}

/// Reads a line, once, for `waits` and `answer_line`: the command that it asks for, or why it is refused.
///
/// # Errors
///
/// `NoMemory` where out of memory.
pub fn read_line(alloc: Global, line: &[u8]) -> Result<Result<CommandLine, Refusal>, NoMemory>
    ensures commands { IfOk result (λ read. Commands line.now read) }
    ensures read { IfOk result (λ read. IsRead read) }
{
    match command_of(alloc, line) {
        Ok(command) => Ok(Ok(command)),
        Err(Refusal::Input(InputFault::NoMemory)) => Err(NoMemory),
        Err(refusal) => Ok(Err(refusal)),
    }
}

fn tokened(token: Token, answer: Result<Answer, NoMemory>) -> Result<LineAnswer, NoMemory>
    ensures token { IfOk result (λ l. l.token ≡ token) }
    ensures answer { IfOk result (λ l. answer ≡ Ok l.answer) }
{
    match answer {
        Ok(answer) => Ok(LineAnswer { token, answer }),
        Err(NoMemory) => Err(NoMemory),
    }
}

fn refusing(token: Token, refused: Refused) -> LineAnswer
    ensures { line_answer_of result ≡ answering token (Err refused) }
{
    LineAnswer {
        token,
        answer: showing(Content::Refused(refused)),
    }
}

// An unknown thread comes before a bad location.
#[tactic(auto, unfolding(dbg_model::specs::Command::asked_reply))]
fn refuse(debuggee: &Debuggee<'_>, fault: Fault) -> Result<Answer, Refused>
    ensures { answered result ≡ asked_reply (seen debuggee.now) (Err fault) }
{
    if let Fault::Location { word: _, thread } = &fault {
        known_thread(debuggee, *thread)?;
    }
    Err(Refused::Faulty(fault))
}

/// What is answered to a line that has parts and a fault. Of several errors the one with the least number is answered.
pub fn answer_fault(debuggee: &Debuggee<'_>, fault: Fault) -> Answer
    ensures gives { outcome_of result ≡ told (asked_reply (seen debuggee.now) (Err fault)) }
    ensures least { Judges (asked_reply (seen debuggee.now) (Err fault)) (against_asked (seen debuggee.now) (Err fault)) }
{
    settled(refuse(debuggee, fault))
}

// What is answered to a line that has no parts.
fn refuse_input(fault: InputFault) -> Result<LineAnswer, NoMemory>
    ensures { IfOk result (λ a. RefusesInput fault (line_answer_of a)) }
{
    match fault {
        InputFault::NoMemory => Err(NoMemory),
        InputFault::Long => Ok(refusing(Token::none(), Refused::Long)),
        InputFault::Syntax => Ok(refusing(Token::none(), Refused::Syntax)),
        InputFault::Cli(token) => Ok(refusing(token, Refused::Cli)),
    }
}

#[tactic(auto, unfolding(dbg_model::specs::Command::asked_reply))]
fn answer_read(
    alloc: Global,
    debuggee: &Debuggee<'_>,
    read: Result<CommandLine, Refusal>,
) -> Result<LineAnswer, NoMemory>
    requires few { length debuggee.now.threads.now ≤ 16 }
    requires given { debuggee.now.table.now.given < 2 ^ 32 - 1 }
    ensures { IfOk result (λ a. AnswersRead (seen debuggee.now) read (line_answer_of a)) }
{
    match read {
        Ok(CommandLine { token, command }) => {
            tokened(token, answer_command(alloc, debuggee, command))
        }
        Err(Refusal::Input(fault)) => refuse_input(fault),
        Err(Refusal::Faulty { token, fault }) => Ok(LineAnswer {
            token,
            answer: answer_fault(debuggee, fault),
        }),
    }
}

/// What is answered to a line and what it changes, from what was read of it.
pub fn answer_line(
    alloc: Global,
    debuggee: &Debuggee<'_>,
    read: Result<CommandLine, Refusal>,
) -> Result<LineAnswer, NoMemory>
    requires few { length debuggee.now.threads.now ≤ 16 }
    requires given { debuggee.now.table.now.given < 2 ^ 32 - 1 }
    ensures gives { (line : List ℕ) → Commands line read → IfOk result (λ a. line_answer_of a ≡ answer_to (seen debuggee.now) line) }

    // Refused with the least number of all that stands against the line, and done where nothing does.
    ensures least { (line : List ℕ) → Commands line read → IfOk result (λ a. IsAnswered (refused_in a.answer.content) (against_line (seen debuggee.now) line)) }
{
    answer_read(alloc, debuggee, read)
}

/// Each line is refused with the least number of all that stands against it, and done where nothing does: so is one that is
/// answered as the model answers it.
pub fn least_is_answered()
    ensures { (s : Sight) (line : List ℕ) → IsAnswered (refused_in (answer_to s line).outcome.content) (against_line s line) }
{}

fn is_wait(command: &Command) -> bool
    ensures { result ≡ waits (Ok command.now) }
{
    matches!(command, Command::Wait)
}

/// Whether a line is the command that waits until no hart runs, from what was read of it.
pub fn waits(read: &Result<CommandLine, Refusal>) -> bool
    requires { IsRead read.now }
    ensures { (line : List ℕ) → Commands line read.now → result ≡ is_wait line }
{
    match read {
        Ok(line) => is_wait(&line.command),
        Err(_refusal) => false,
    }
}
