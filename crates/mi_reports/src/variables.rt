// Variables as they are listed.
ghost use Rattle.std.specs.Prelude.{◌≡◌, ◌++◌, map, OnOk};
ghost use Rattle.mi_reports.specs.Led.{Adds, led, behind, opened, item_led, items_behind, items_opened};
ghost use Rattle.mi_reports.specs.Variables.{argument_fields, shown_fields, shown_text, variable_fields, variable_tree, variables_field};

use crate::fields::{write_byte, write_head, write_text, write_word};
use crate::texts::{push, push_at};
use crate::words::{Key, Phrase};
use dbg_model::{ShownVariable, VariableValue};
use mi_text::write_worth;
use std::alloc::AllocError;

// A value in decimal, or in its place why there is none.
fn push_text(into: &mut Vec<u8>, value: VariableValue) -> Result<(), AllocError>
    ensures { OnOk result (into.new.items ≡ into.old.items ++ shown_text value) }
{
    match value {
        VariableValue::Word { word, unsigned } => write_worth(word, unsigned, into),
        VariableValue::OptimizedOut => push(into, Phrase::OptimizedOut),
        VariableValue::NotRead => push(into, Phrase::TypeNotRead),
        VariableValue::Unreadable(address) => {
            push(into, Phrase::ErrorBegin)?;
            push_at(into, Phrase::Unreadable, address)?;
            push(into, Phrase::ErrorEnd)
        }
    }
}

fn write_value(into: &mut Vec<u8>, value: Option<VariableValue>) -> Result<(), AllocError>
    ensures { Adds result into.old.items into.new.items (behind (shown_fields value)) }
{
    let Some(value) = value else {
        return Ok(());
    };
    let mut text = Vec::new(*into.allocator());
    push_text(&mut text, value)?;
    write_text(into, b',', Key::Value, text.as_slice())
}

// That a variable is a parameter.
fn write_argument(into: &mut Vec<u8>, argument: bool) -> Result<(), AllocError>
    ensures { Adds result into.old.items into.new.items (behind (argument_fields argument)) }
{
    if argument {
        write_word(into, b',', Key::Arg, 1)
    } else {
        Ok(())
    }
}

// The fields of a variable behind their bracket.
#[tactic(auto, using(std::proofs::lemmas::Grind::common_steps), unfolding(crate::specs::Variables::variable_fields))]
fn write_fields(into: &mut Vec<u8>, variable: &ShownVariable) -> Result<(), AllocError>
    ensures { Adds result into.old.items into.new.items (opened 123 (variable_fields variable.now)) }
{
    write_text(into, b'{', Key::Name, variable.name.as_slice())?;
    write_argument(into, variable.argument)?;
    write_value(into, variable.value)
}

#[tactic(auto, using(std::proofs::lemmas::Grind::common_steps, crate::proofs::Led::tuple_item_led), unfolding(crate::specs::Variables::variable_tree))]
fn write_variable(into: &mut Vec<u8>, lead: u8, variable: &ShownVariable) -> Result<(), AllocError>
    ensures { Adds result into.old.items into.new.items (item_led lead (variable_tree variable.now)) }
{
    write_byte(into, lead)?;
    write_fields(into, variable)?;
    write_byte(into, b'}')
}

// Variables behind a first one.
fn write_more(into: &mut Vec<u8>, variables: &[ShownVariable]) -> Result<(), AllocError>
    ensures { Adds result into.old.items into.new.items (items_behind (map variable_tree variables.now)) }
{
    for variable in variables {
        write_variable(into, b',', variable)?;
    }
    Ok(())
}

// Variables behind their bracket.
fn write_list(into: &mut Vec<u8>, variables: &[ShownVariable]) -> Result<(), AllocError>
    ensures { Adds result into.old.items into.new.items (items_opened 91 (map variable_tree variables.now)) }
{
    let [variable, rest @ ..] = variables else {
        return write_byte(into, b'[');
    };
    write_variable(into, b'[', variable)?;
    write_more(into, rest)
}

/// Puts the variables of a frame at the end.
#[tactic(auto, using(std::proofs::lemmas::Grind::common_steps, crate::proofs::Led::list_led), unfolding(crate::specs::Variables::variables_field))]
pub fn write_variables(into: &mut Vec<u8>, variables: &[ShownVariable]) -> Result<(), AllocError>
    ensures { Adds result into.old.items into.new.items (led 44 (variables_field variables.now)) }
{
    write_head(into, b',', Key::Variables)?;
    write_list(into, variables)?;
    write_byte(into, b']')
}
