// The variables of a thread's innermost frame, and expressions in which their names stand.
ghost use Rattle.std.specs.Prelude.{◌≡◌, IfOk, Result};
ghost use Rattle.cond_expr.specs.Condition.{tree_of};
ghost use Rattle.cond_expr.specs.Reader.{parsed};
ghost use Rattle.cond_expr.specs.Term.{Term};
ghost use Rattle.cond_expr.specs.declared.fault.ExprFault.{ExprFault};
ghost use Rattle.var_expr.specs.Parsed.{GivesParsed};
ghost use Rattle.debug_info.specs.Shown.{shown_variable, shown_variables};
ghost use Rattle.dbg_model.specs.Variables.{expression_in, text_value, tree_as, value_as, value_listed, variable_list, variable_listed, variable_value, variables_listed};
ghost use Rattle.dbg_answers.specs.Debuggee.{seen};
ghost use Rattle.dbg_answers.specs.Answer.{Gives, GivesAs};

use crate::answer::{Answer, Failure, hindered, showing};
use crate::debuggee::Debuggee;
use crate::expressions::read_text;
use cond_expr::{Expr, ParseError, Value, value};
use dbg_model::{Content, Obstacle, SeenHart, ShownVariable, VariableList, VariableValue};
use dbg_traits::{ByteList, NoMemory, View};
use debug_info::Var;
use elf_symbols::Symbols;
use frame_walk::cfa;
use rv_exec::Regs;
use std::alloc::Global;
use var_expr::{Standing, has_names, parse_in, standing_of};

// The value of a text that stands for a variable; no such text divides.
fn value_as(value: Value) -> VariableValue
    ensures { result ≡ value_as value }
{
    match value {
        Value::Word(word, unsigned) => VariableValue::Word { word, unsigned },
        Value::Unread(address) => VariableValue::Unreadable(address),
        Value::DivZero => VariableValue::NotRead,
    }
}

// The value of a variable by the text that stands for it, which is an expression.
fn text_value<V: View>(
    alloc: Global,
    symbols: &Symbols,
    view: &V,
    text: &[u8],
) -> Result<VariableValue, NoMemory>
    ensures { IfOk result (λ v. v ≡ text_value (V.registers view.now) (V.bytes view.now) (parsed symbols.now text.now)) }
{
    match read_text(alloc, symbols, text) {
        Ok(expression) => Ok(value_as(value(&expression, view))),
        Err(ParseError::Fault(_)) => Ok(VariableValue::NotRead),
        Err(ParseError::NoMemory) => Err(NoMemory),
    }
}

#[tactic(auto, unfolding(dbg_model::specs::Variables::variable_value))]
fn variable_value<V: View>(
    alloc: Global,
    symbols: &Symbols,
    view: &V,
    cfa: Option<u32>,
    variable: &Var<'_>,
) -> Result<VariableValue, NoMemory>
    ensures { IfOk result (λ v. v ≡ variable_value symbols.now (V.registers view.now) (V.bytes view.now) cfa (shown_variable variable.now)) }
{
    match standing_of(alloc, variable, view, cfa)? {
        Standing::Text(text) => text_value(alloc, symbols, view, &text),
        Standing::OptimizedOut => Ok(VariableValue::OptimizedOut),
        Standing::NotRead => Ok(VariableValue::NotRead),
    }
}

// The value of a variable where values are asked for; where they aren't, none.
fn value_listed<V: View>(
    alloc: Global,
    symbols: &Symbols,
    view: &V,
    cfa: Option<u32>,
    with_values: bool,
    variable: &Var<'_>,
) -> Result<Option<VariableValue>, NoMemory>
    ensures { IfOk result (λ v. v ≡ value_listed symbols.now (V.registers view.now) (V.bytes view.now) cfa with_values (shown_variable variable.now)) }
{
    if !with_values {
        return Ok(None);
    }
    Ok(Some(variable_value(alloc, symbols, view, cfa, variable)?))
}

#[tactic(auto, unfolding(dbg_model::specs::Variables::variable_listed))]
fn variable_listed<V: View>(
    alloc: Global,
    symbols: &Symbols,
    view: &V,
    cfa: Option<u32>,
    with_values: bool,
    variable: &Var<'_>,
) -> Result<ShownVariable, NoMemory>
    ensures { IfOk result (λ v. v ≡ variable_listed symbols.now (V.registers view.now) (V.bytes view.now) cfa with_values (shown_variable variable.now)) }
{
    let value = value_listed(alloc, symbols, view, cfa, with_values, variable)?;
    Ok(ShownVariable {
        name: ByteList::of(Vec::from_slice(alloc, variable.name)?),
        argument: variable.argument,
        value,
    })
}

// Those that are listed, in their order.
#[tactic(auto, using(std::proofs::lemmas::Grind::common_steps), unfolding(dbg_model::specs::Variables::variables_listed))]
fn variables_listed<V: View>(
    alloc: Global,
    symbols: &Symbols,
    view: &V,
    cfa: Option<u32>,
    with_values: bool,
    variables: &[Var<'_>],
) -> Result<VariableList, NoMemory>
    ensures { IfOk result (λ list. list ≡ variables_listed symbols.now (V.registers view.now) (V.bytes view.now) cfa with_values (shown_variables variables.now)) }
{
    let mut listed = Vec::new(alloc);
    for variable in variables {
        if variable.listed {
            listed.push(variable_listed(alloc, symbols, view, cfa, with_values, variable)?)?;
        }
    }
    Ok(VariableList::of(listed))
}

/// `-stack-list-variables [--thread N] PRINT`.
pub fn variable_list(
    alloc: Global,
    debuggee: &Debuggee<'_>,
    thread: Option<u32>,
    with_values: bool,
) -> Result<Answer, Failure>
    ensures { Gives result (variable_list (seen debuggee.now) thread with_values) }
{
    let regs = debuggee.stopped(thread.unwrap_or(debuggee.selected))?;
    let view = SeenHart {
        regs: &regs,
        pc: None,
        image: debuggee.image,
        memory: debuggee.memory,
    };
    let sources = debuggee.sources;
    let variables = sources.info().variables_at(alloc, regs.pc())?;
    let cfa = cfa(sources.frames(), debuggee.image, &view);
    let listed = variables_listed(
        alloc,
        sources.symbols(),
        &view,
        cfa,
        with_values,
        &variables,
    )?;
    Ok(showing(Content::Variables(listed)))
}

fn tree_as(parsed: Result<Expr, ParseError>) -> Result<Expr, Failure>
    ensures { (want : Result Term ExprFault) → GivesParsed parsed want → GivesAs tree_of result (tree_as want) }
{
    match parsed {
        Ok(expression) => Ok(expression),
        Err(ParseError::Fault(fault)) => Err(hindered(Obstacle::Expression(fault))),
        Err(ParseError::NoMemory) => Err(Failure::NoMemory),
    }
}

// The expression that a text spells for a thread, with each name of a variable replaced by what stands for it.
fn read_with_variables(
    alloc: Global,
    debuggee: &Debuggee<'_>,
    regs: &Regs,
    text: &[u8],
) -> Result<Expr, Failure>
    ensures { GivesAs tree_of result (expression_in (seen debuggee.now) regs.now text.now) }
{
    let view = SeenHart {
        regs,
        pc: None,
        image: debuggee.image,
        memory: debuggee.memory,
    };
    let sources = debuggee.sources;
    let variables = sources.info().variables_at(alloc, regs.pc())?;
    let cfa = cfa(sources.frames(), debuggee.image, &view);
    tree_as(parse_in(alloc, text, &variables, &view, cfa, sources.symbols()))
}

/// The expression that a text spells for a thread, with each name of a variable replaced by what stands for it. Variables are
/// looked for only where a name stands in the text.
pub fn read_in(
    alloc: Global,
    debuggee: &Debuggee<'_>,
    regs: &Regs,
    text: &[u8],
) -> Result<Expr, Failure>
    ensures { GivesAs tree_of result (expression_in (seen debuggee.now) regs.now text.now) }
{
    if has_names(alloc, text)? {
        return read_with_variables(alloc, debuggee, regs, text);
    }
    let view = SeenHart {
        regs,
        pc: None,
        image: debuggee.image,
        memory: debuggee.memory,
    };
    let symbols = debuggee.sources.symbols();
    tree_as(parse_in(alloc, text, &[], &view, None, symbols))
}
