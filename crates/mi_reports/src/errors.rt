// Why a line is refused.
ghost use Rattle.std.specs.Prelude.{◌≡◌, ◌++◌, decimal, OnOk};
ghost use Rattle.mi_reports.specs.declared.words.Phrase.TheVariants as phrases;
ghost use Rattle.mi_reports.specs.Led.{Adds, behind};
ghost use Rattle.mi_reports.specs.Phrases.{phrase_text};
ghost use Rattle.mi_reports.specs.Errors.{fault_message, expression_message, obstacle_message, message, error_code, error_fields};

use crate::fields::{write_phrase, write_text};
use crate::texts::{push, push_at, push_counted, push_named};
use crate::words::{Key, Phrase};
use cond_expr::{ExprFault, FaultKind};
use dbg_model::{Obstacle, Refused};
use mi_commands::Fault;
use std::alloc::AllocError;

fn push_fault(into: &mut Vec<u8>, fault: &Fault) -> Result<(), AllocError>
    ensures { OnOk result (into.new.items ≡ into.old.items ++ fault_message fault.now) }
{
    match fault {
        Fault::Undefined(name) => push_named(into, Phrase::Undefined, name),
        Fault::Parameters(name) => push_named(into, Phrase::Parameters, name),
        Fault::Number(word) => push_named(into, Phrase::BadNumber, word),
        Fault::Setting => push(into, Phrase::Setting),
        Fault::Location { word, .. } => push_named(into, Phrase::BadLocation, word),
    }
}

// What is said of a thread.
fn push_thread(into: &mut Vec<u8>, thread: u32, told: Phrase) -> Result<(), AllocError>
    ensures { OnOk result (into.new.items ≡ into.old.items ++ (phrase_text phrases.Thread ++ decimal thread ++ phrase_text told)) }
{
    push_counted(into, Phrase::Thread, thread)?;
    push(into, told)
}

fn push_expression(into: &mut Vec<u8>, fault: ExprFault) -> Result<(), AllocError>
    ensures { OnOk result (into.new.items ≡ into.old.items ++ expression_message fault.kind fault.at) }
{
    match fault.kind {
        FaultKind::Long => push(into, Phrase::LongExpression),
        FaultKind::Text => push_counted(into, Phrase::ExpressionSyntax, fault.at),
        FaultKind::Number => push_counted(into, Phrase::ExpressionNumber, fault.at),
        FaultKind::Deep => push_counted(into, Phrase::ExpressionDeep, fault.at),
        FaultKind::Name => push_counted(into, Phrase::ExpressionName, fault.at),
    }
}

fn push_obstacle(into: &mut Vec<u8>, obstacle: Obstacle) -> Result<(), AllocError>
    ensures { OnOk result (into.new.items ≡ into.old.items ++ obstacle_message obstacle) }
{
    match obstacle {
        Obstacle::UnknownThread(thread) => push_counted(into, Phrase::UnknownThread, thread),
        Obstacle::HasExited(thread) => push_thread(into, thread, Phrase::HasExited),
        Obstacle::IsRunning(thread) => push_thread(into, thread, Phrase::IsRunning),
        Obstacle::NotRunning(thread) => push_thread(into, thread, Phrase::NotRunning),
        Obstacle::NoBreakpoint(number) => push_counted(into, Phrase::NoBreakpoint, number),
        Obstacle::NoInstruction(address) => push_at(into, Phrase::NoInstruction, address),
        Obstacle::TooManyBreakpoints => push(into, Phrase::TooManyBreakpoints),
        Obstacle::Expression(fault) => push_expression(into, fault),
        Obstacle::DivisionByZero => push(into, Phrase::DivisionByZero),
        Obstacle::Unreadable(address) => push_at(into, Phrase::Unreadable, address),
        Obstacle::NoLine(address) => push_at(into, Phrase::NoLineInformation, address),
        Obstacle::NoCaller => push(into, Phrase::NoCaller),
        Obstacle::Unwritable(address) => push_at(into, Phrase::Unwritable, address),
        Obstacle::TooManyWatches => push(into, Phrase::TooManyWatches),
    }
}

// The text of an error, before its bytes are written as a C string.
fn push_message(into: &mut Vec<u8>, refused: &Refused) -> Result<(), AllocError>
    ensures { OnOk result (into.new.items ≡ into.old.items ++ message refused.now) }
{
    match refused {
        Refused::Long => push(into, Phrase::LongLine),
        Refused::Syntax => push(into, Phrase::Syntax),
        Refused::Cli => push(into, Phrase::Cli),
        Refused::Faulty(fault) => push_fault(into, fault),
        Refused::Hindered(obstacle) => push_obstacle(into, *obstacle),
        Refused::UnknownName(name) => {
            push_named(into, Phrase::Function, name)?;
            push(into, Phrase::NotDefined)
        }
        Refused::UnknownLine { file, line } => {
            push_counted(into, Phrase::NoLine, *line)?;
            push_named(into, Phrase::InFile, file)
        }
        Refused::FixedRegister(name) => push_named(into, Phrase::FixedRegister, name),
        Refused::Unwatchable(expression) => push_named(into, Phrase::CannotWatch, expression),
    }
}

// An operation that isn't known has a code.
fn write_code(into: &mut Vec<u8>, refused: &Refused) -> Result<(), AllocError>
    ensures { Adds result into.old.items into.new.items (behind (error_code refused.now)) }
{
    match refused {
        Refused::Faulty(Fault::Undefined(_)) => {
            write_phrase(into, b',', Key::Code, Phrase::UndefinedCommand)
        }
        _ => Ok(()),
    }
}

/// Puts the fields of the error that is answered to a line that is refused at the end.
#[tactic(auto, using(std::proofs::lemmas::Grind::common_steps), unfolding(crate::specs::Errors::error_fields))]
pub fn write_error(into: &mut Vec<u8>, refused: &Refused) -> Result<(), AllocError>
    ensures { Adds result into.old.items into.new.items (behind (error_fields refused.now)) }
{
    let mut message = Vec::new(*into.allocator());
    push_message(&mut message, refused)?;
    write_text(into, b',', Key::Message, message.as_slice())?;
    write_code(into, refused)
}
