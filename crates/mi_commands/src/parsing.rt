//! What a line asks for, or why it is refused.

ghost use Rattle.std.specs.Prelude.{◌≡◌, ◌≤◌, length, IfOk, Err, Some};
ghost use Rattle.std.specs.Option.{ok_or, option_map};
ghost use Rattle.mi_input.specs.Parts.{PartsView, HasParts};
ghost use Rattle.mi_input.specs.Split.{words_view};
ghost use Rattle.mi_commands.specs.Operations.{operation_of};
ghost use Rattle.mi_commands.specs.Words.{options, value_in};
ghost use Rattle.mi_commands.specs.Steps.{text};
ghost use Rattle.mi_commands.specs.Faults.{first_word, misfit, words_fault};
ghost use Rattle.mi_commands.specs.Locations.{location_at};
ghost use Rattle.mi_commands.specs.Prints.{first_prints};
ghost use Rattle.mi_commands.specs.Settings.{setting_of};
ghost use Rattle.mi_commands.specs.Commands.{insertion, set_register, register_values, write_memory, command_for, answer_of};
ghost use Rattle.mi_commands.specs.declared.operation.Operation.TheVariants as op;
ghost use Rattle.mi_commands.specs.declared.refusal.Fault.TheVariants.{Undefined};
ghost use Rattle.mi_commands.specs.declared.command.Command.TheVariants.{VariableList, Show};
ghost use Rattle.mi_commands.specs.Registers.{assignment};
ghost use Rattle.mi_commands.specs.Gives.{Answers, Commands, GivesAnswer};

use crate::bytes::{copy, repeated};
use crate::command::{Command, CommandLine, Insertion};
use crate::counts::OptionName;
use crate::location::{Place, location_of};
use crate::number::number;
use crate::operation::Operation;
use crate::options::{has, parameters, value_in, words_fit};
use crate::print::{first_prints, words_for};
use crate::reading::{
    bad_number, first_number, first_word, joined, joined_if_any, number_if_any, number_in, numbers,
    rest_of, second_number, second_word, target_of,
};
use crate::refusal::{Failure, Fault, Refusal};
use crate::registers::assignment;
use crate::setting::{format_of, set_command, setting_of};
use dbg_traits::ByteList;
use mi_input::{InputFault, Word, split};
use mi_text::bytes_of;
use rv_decode::register_of;
use std::alloc::{AllocError, Global};

fn copy_if_any(alloc: Global, bytes: Option<&[u8]>) -> Result<Option<ByteList>, AllocError>
    ensures { IfOk result (λ list. list ≡ text bytes.entry) }
{
    match bytes {
        Some(bytes) => Ok(Some(copy(alloc, bytes)?)),
        None => Ok(None),
    }
}

// The least fault that the words of an operation have before they are read.
fn words_fault(
    alloc: Global,
    operation: Operation,
    name: &[u8],
    words: &[Word],
) -> Result<Option<Fault>, AllocError>
    ensures { IfOk result (λ fault. fault ≡ words_fault operation name.now (words_view words.now)) }
{
    if !words_fit(operation, words) {
        return Ok(Some(Fault::Parameters(copy(alloc, name)?)));
    }
    if let Some(word) = bad_number(operation, words, parameters(words)) {
        return Ok(Some(Fault::Number(copy(alloc, word)?)));
    }
    Ok(None)
}

fn bad_location(alloc: Global, words: &[Word]) -> Failure
    ensures { Answers (Err result) (Err (misfit op.BreakInsert (words_view words.now))) }
{
    let thread = number_in(OptionName::InThread, words);
    match copy(alloc, first_word(parameters(words))) {
        Ok(word) => Failure::Faulty(Fault::Location { word, thread }),
        Err(_) => Failure::NoMemory,
    }
}

// What is wrong with words that ask for nothing.
fn misfit(alloc: Global, operation: Operation, words: &[Word]) -> Failure
    ensures { Answers (Err result) (Err (misfit operation (words_view words.now))) }
{
    match operation {
        Operation::BreakInsert => bad_location(alloc, words),
        _ => Failure::Faulty(Fault::Setting),
    }
}

fn undefined(alloc: Global, name: &[u8]) -> Failure
    ensures { Answers (Err result) (Err (Undefined name.now)) }
{
    match copy(alloc, name) {
        Ok(name) => Failure::Faulty(Fault::Undefined(name)),
        Err(_) => Failure::NoMemory,
    }
}

// A breakpoint at this place.
fn insertion(alloc: Global, words: &[Word], place: Place<'_>) -> Result<Insertion, AllocError>
    ensures { IfOk result (λ i. i ≡ insertion (words_view words.now) (location_at place.entry)) }
{
    Ok(Insertion {
        temporary: has(OptionName::Temporary, words),
        disabled: has(OptionName::Disabled, words),
        ignore: number_in(OptionName::Ignore, words).unwrap_or(0),
        condition: copy_if_any(alloc, value_in(OptionName::Condition, words))?,
        thread: number_in(OptionName::InThread, words),
        location: place.owned(alloc)?,
        text: copy(alloc, first_word(parameters(words)))?,
    })
}

fn insert(alloc: Global, words: &[Word]) -> Result<Option<Command>, AllocError>
    ensures { IfOk result (λ c. c ≡ command_for op.BreakInsert (words_view words.now)) }
{
    match location_of(first_word(parameters(words))) {
        Some(place) => Ok(Some(Command::BreakInsert(insertion(alloc, words, place)?))),
        None => Ok(None),
    }
}

// `$NAME=VALUE`, of a thread.
fn set_register(
    alloc: Global,
    thread: Option<u32>,
    word: &[u8],
) -> Result<Option<Command>, AllocError>
    ensures { IfOk result (λ c. c ≡ set_register thread (assignment word.now)) }
{
    let assignment = assignment(word);
    match register_of(assignment.name) {
        Some(register) => Ok(Some(Command::SetRegister {
            thread,
            name: copy(alloc, assignment.name)?,
            register: register.number(),
            value: number(assignment.value),
        })),
        None => Ok(None),
    }
}

// FORMAT and the numbers of registers, of a thread.
fn register_values(
    alloc: Global,
    thread: Option<u32>,
    parameters: &[Word],
) -> Result<Option<Command>, AllocError>
    ensures { IfOk result (λ c. c ≡ register_values thread (words_view parameters.now)) }
{
    match format_of(first_word(parameters)) {
        Some(format) => Ok(Some(Command::RegisterValues {
            thread,
            format,
            numbers: numbers(alloc, rest_of(parameters))?,
        })),
        None => Ok(None),
    }
}

// ADDRESS CONTENTS [COUNT]; without COUNT as many bytes are written as are given.
fn write_memory(alloc: Global, parameters: &[Word]) -> Result<Option<Command>, AllocError>
    ensures { IfOk result (λ c. c ≡ Some (write_memory (words_view parameters.now))) }
{
    let bytes = bytes_of(alloc, second_word(parameters))?;
    let count = match number_if_any(rest_of(rest_of(parameters))) {
        Some(count) => count as usize,
        None => bytes.len(),
    };
    Ok(Some(Command::WriteMemory {
        address: first_number(parameters),
        bytes: repeated(alloc, &bytes, count)?,
    }))
}

// The variables of a thread, with their values or without.
fn variables(thread: Option<u32>, parameters: &[Word]) -> Option<Command>
    ensures { result ≡ option_map (VariableList thread) (first_prints (words_view parameters.now)) }
{
    let with_values = first_prints(parameters)?;
    Some(Command::VariableList {
        thread,
        with_values,
    })
}

fn show(parameters: &[Word]) -> Option<Command>
    ensures { result ≡ option_map Show (setting_of (first_word (words_view parameters.now))) }
{
    Some(Command::Show(setting_of(first_word(parameters))?))
}

// What the words of an operation ask for; none where they spell no location, setting, value, format or register.
fn command(
    alloc: Global,
    operation: Operation,
    words: &[Word],
) -> Result<Option<Command>, AllocError>
    ensures { IfOk result (λ c. c ≡ command_for operation (words_view words.now)) }
{
    let thread = number_in(OptionName::Thread, words);
    let parameters = parameters(words);
    let command = match operation {
        Operation::BreakInsert => return insert(alloc, words),
        Operation::BreakDelete => Command::BreakDelete(numbers(alloc, parameters)?),
        Operation::BreakEnable => Command::BreakEnable(numbers(alloc, parameters)?),
        Operation::BreakDisable => Command::BreakDisable(numbers(alloc, parameters)?),
        Operation::BreakCondition => Command::BreakCondition {
            number: first_number(parameters),
            condition: joined_if_any(alloc, rest_of(parameters))?,
        },
        Operation::BreakAfter => Command::BreakAfter {
            number: first_number(parameters),
            count: second_number(parameters),
        },
        Operation::BreakList => Command::BreakList,
        Operation::BreakWatch => Command::BreakWatch {
            expression: joined(alloc, parameters)?,
        },
        Operation::Continue => Command::Continue(target_of(words)),
        Operation::Interrupt => Command::Interrupt(target_of(words)),
        Operation::Step => Command::Step { thread },
        Operation::Next => Command::Next { thread },
        Operation::StepInstruction => Command::StepInstruction { thread },
        Operation::NextInstruction => Command::NextInstruction { thread },
        Operation::Finish => Command::Finish { thread },
        Operation::Wait => Command::Wait,
        Operation::ThreadInfo => Command::ThreadInfo {
            thread: number_if_any(parameters),
        },
        Operation::ThreadSelect => Command::ThreadSelect {
            thread: first_number(parameters),
        },
        Operation::ThreadList => Command::ThreadList,
        Operation::FrameList => Command::FrameList { thread },
        Operation::FrameDepth => Command::FrameDepth { thread },
        Operation::FrameInfo => Command::FrameInfo { thread },
        Operation::VariableList => return Ok(variables(thread, parameters)),
        Operation::RegisterNames => Command::RegisterNames,
        Operation::RegisterValues => return register_values(alloc, thread, parameters),
        Operation::ReadMemory => Command::ReadMemory {
            address: first_number(parameters),
            count: second_number(parameters),
        },
        Operation::WriteMemory => return write_memory(alloc, parameters),
        Operation::Evaluate => Command::Evaluate {
            thread,
            expression: joined(alloc, parameters)?,
        },
        Operation::Set => {
            return Ok(set_command(first_word(parameters), second_word(parameters)));
        }
        Operation::SetRegister => return set_register(alloc, thread, first_word(parameters)),
        Operation::Show => return Ok(show(parameters)),
        Operation::Exit => Command::Exit,
    };
    Ok(Some(command))
}

// The command of words without a fault, or why they ask for nothing.
fn read(alloc: Global, operation: Operation, words: &[Word]) -> Result<Command, Failure>
    ensures { Answers result (ok_or (command_for operation (words_view words.now)) (misfit operation (words_view words.now))) }
{
    match command(alloc, operation, words) {
        Ok(Some(command)) => Ok(command),
        Ok(None) => Err(misfit(alloc, operation, words)),
        Err(_) => Err(Failure::NoMemory),
    }
}

// What the parts of a line ask for.
#[tactic(auto, unfolding(crate::specs::Commands::answer_of))]
fn answer(alloc: Global, operation: Option<&[u8]>, words: &mut [Word]) -> Result<Command, Failure>
    ensures { Answers result (answer_of (option_map (λ v. v.now) operation.entry) (words_view words.old)) }
{
    let Some(name) = operation else {
        return Ok(Command::Blank);
    };
    let Some(operation) = Operation::named(name) else {
        return Err(undefined(alloc, name));
    };
    words_for(operation, words);
    let operation = operation.form(parameters(words));
    match words_fault(alloc, operation, name, words) {
        Ok(None) => read(alloc, operation, words),
        Ok(Some(fault)) => Err(Failure::Faulty(fault)),
        Err(_) => Err(Failure::NoMemory),
    }
}

/// What one line of input, without its end, asks for.
///
/// # Errors
/// `Input` where the line has no parts, as `mi_input::split` says; else `Faulty`, with the token and the least fault in
/// the order of `Fault`, where the operation isn't in the table or its words don't fit.
pub fn command_of(alloc: Global, line: &[u8]) -> Result<CommandLine, Refusal>
    ensures commands { Commands line.now result }

    // Whatever parts the line has, the answer is the answer to them.
    ensures only { (p : PartsView) → length line.now ≤ 4096 → HasParts line.now p → GivesAnswer p result }
{
    let mut parts = split(alloc, line)?;
    let token = parts.token;
    match answer(alloc, parts.operation, &mut parts.words) {
        Ok(command) => Ok(CommandLine { token, command }),
        Err(Failure::NoMemory) => Err(Refusal::Input(InputFault::NoMemory)),
        Err(Failure::Faulty(fault)) => Err(Refusal::Faulty { token, fault }),
    }
}
