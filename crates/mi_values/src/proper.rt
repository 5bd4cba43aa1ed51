//! Whether fields may stand in a line, told before they are made.

ghost use Rattle.std.specs.Prelude.{◌≡◌, MatchBool};
ghost use Rattle.mi_values.specs.Tree.{value_view, items_view, fields_view};
ghost use Rattle.mi_values.specs.Proper.{AreProperFields};
ghost use Rattle.mi_values.specs.Testing.{is_proper, are_proper_items, are_proper_fields};

use crate::bytes::known_bytes;
use crate::name::Name;
use crate::value::Value;

/// How deep the values of a line nest.
pub const DEPTH: u32 = 16;

#[cycle(proper)]
fn is_proper(value: &Value, depth: u32) -> bool
    ensures { result ≡ is_proper (value_view value.now) depth }
{
    if depth == 0 {
        return false;
    }
    match value {
        Value::Text(text) => {
            known_bytes(text);
            true
        }
        Value::Tuple(fields) => are_proper_fields(fields, depth - 1),
        Value::Items(values) => are_proper_items(values, depth - 1),
        Value::Named(fields) => !fields.is_empty() && are_proper_fields(fields, depth - 1),
    }
}

#[cycle(proper)]
fn are_proper_items(values: &[Value], depth: u32) -> bool
    ensures { result ≡ are_proper_items (items_view values.now) depth }
{
    for value in values {
        if !is_proper(value, depth) {
            return false;
        }
    }
    true
}

#[cycle(proper)]
fn are_proper_fields(fields: &[(Name, Value)], depth: u32) -> bool
    ensures { result ≡ are_proper_fields (fields_view fields.now) depth }
{
    for field in fields {
        // What a `Name` holds is a name.
        let _name = field.0.as_bytes();
        if !is_proper(&field.1, depth) {
            return false;
        }
    }
    true
}

/// Whether a line takes these fields (`Fields::new`): values nest at most 16 deep, and no list of fields in brackets is empty.
#[tactic(auto, using(crate::proofs::Tested::tells))]
pub fn are_proper(fields: &[(Name, Value)]) -> bool
    ensures { MatchBool result (AreProperFields (fields_view fields.now) 16) (AreProperFields (fields_view fields.now) 16 → ⊥) }
{
    are_proper_fields(fields, DEPTH)
}
