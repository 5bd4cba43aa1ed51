// Expressions and conditions read from their texts, and the command that evaluates one.
ghost use Rattle.std.specs.Prelude.{◌≡◌, Result, Ok};
ghost use Rattle.std.specs.Option.{option_map};
ghost use Rattle.break_table.specs.Entry.{condition_of};
ghost use Rattle.cond_expr.specs.Reader.{parsed};
ghost use Rattle.dbg_model.specs.Breakpoints.{condition, expression};
ghost use Rattle.cond_expr.specs.Condition.{tree_of};
ghost use Rattle.cond_expr.specs.Term.{Term};
ghost use Rattle.dbg_model.specs.declared.reply.Refused.{Refused};
ghost use Rattle.dbg_model.specs.Outcome.{and_then, showing};
ghost use Rattle.dbg_model.specs.Data.{evaluate, worth_as, worth_of};
ghost use Rattle.dbg_answers.specs.Debuggee.{seen};
ghost use Rattle.dbg_answers.specs.Answer.{Gives, GivesAs, answered};
ghost use Rattle.dbg_answers.specs.Reading.{ReadsAs};

use crate::answer::{Answer, Failure, answer_of, hindered, showing};
use crate::debuggee::Debuggee;
use crate::variables::read_in;
use cond_expr::{Expr, ParseError, Value, parse, value};
use dbg_model::{Content, Obstacle, Refused, SeenHart};
use dbg_traits::ByteList;
use elf_symbols::Symbols;
use rv_exec::Regs;
use std::alloc::Global;

/// What a text spells, or its first fault.
pub fn read_text(alloc: Global, symbols: &Symbols, text: &[u8]) -> Result<Expr, ParseError>
    ensures { ReadsAs result (parsed symbols.now text.now) text.now }
{
    parse(alloc, text, symbols)
}

/// The expression that a text spells.
pub fn read(alloc: Global, symbols: &Symbols, text: &[u8]) -> Result<Expr, Failure>
    ensures { GivesAs condition_of result (expression symbols.now text.now) }
{
    match read_text(alloc, symbols, text) {
        Ok(expression) => Ok(expression),
        Err(ParseError::Fault(fault)) => Err(hindered(Obstacle::Expression(fault))),
        Err(ParseError::NoMemory) => Err(Failure::NoMemory),
    }
}

/// The condition that a text spells, if there is one.
pub fn condition(
    alloc: Global,
    symbols: &Symbols,
    text: &Option<ByteList>,
) -> Result<Option<Expr>, Failure>
    ensures { GivesAs (option_map condition_of) result (condition symbols.now text.now) }
{
    match text {
        None => Ok(None),
        Some(text) => Ok(Some(read(alloc, symbols, text.as_slice())?)),
    }
}

fn worth(value: Value) -> Result<Answer, Refused>
    ensures { answered result ≡ and_then (worth_as value) (λ v. Ok (showing v)) }
{
    match value {
        Value::Word(word, unsigned) => Ok(showing(Content::Value { word, unsigned })),
        Value::DivZero => Err(Refused::Hindered(Obstacle::DivisionByZero)),
        Value::Unread(addr) => Err(Refused::Hindered(Obstacle::Unreadable(addr))),
    }
}

// The value of an expression for a hart with these registers, where it was read.
fn told_value(
    debuggee: &Debuggee<'_>,
    regs: &Regs,
    read: Result<Expr, Failure>,
) -> Result<Answer, Failure>
    ensures { (want : Result Term Refused) → GivesAs tree_of read want → Gives result (and_then want (λ tree. and_then (worth_of (seen debuggee.now) regs.now tree) (λ v. Ok (showing v)))) }
{
    let expression = read?;
    let view = SeenHart {
        regs,
        pc: None,
        image: debuggee.image,
        memory: debuggee.memory,
    };
    answer_of(worth(value(&expression, &view)))
}

/// `-data-evaluate-expression [--thread N] EXPR`.
pub fn evaluate(
    alloc: Global,
    debuggee: &Debuggee<'_>,
    thread: Option<u32>,
    text: &ByteList,
) -> Result<Answer, Failure>
    ensures { Gives result (evaluate (seen debuggee.now) thread text.now) }
{
    let regs = debuggee.stopped(thread.unwrap_or(debuggee.selected))?;
    let read = read_in(alloc, debuggee, &regs, text.as_slice());
    told_value(debuggee, &regs, read)
}
