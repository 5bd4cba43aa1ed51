//! The formats of the tables of version 5.

ghost use Rattle.std.specs.Prelude.{◌≡◌, IfOk};
ghost use Rattle.leb_read.specs.Leb.{IsBehind};
ghost use Rattle.line_headers.specs.Gives.{Gives};
ghost use Rattle.line_headers.specs.Entries.{field_at, field_of, fields_at, format_at, is_entry_form, is_text_form};

use leb_read::{Form, Width, form_of, u8_at, uleb};
use line_rows::{LineError, LineFault};
use std::alloc::Global;

/// A value that each entry of a table has.
#[derive(Clone, Copy)]
pub struct Field {
    /// Whether it is the entry's name.
    pub is_path: bool,
    pub form: Form,
}

// Whether entries may have values of a form.
fn is_entry_form(form: Form) -> bool
    ensures { result ≡ is_entry_form form }
{
    match form {
        Form::Constant(_) | Form::LongConstant | Form::Block(Width::Variable) => true,
        _ => is_text_form(form),
    }
}

fn is_text_form(form: Form) -> bool
    ensures { result ≡ is_text_form form }
{
    matches!(form, Form::Inline | Form::LineShared | Form::Shared)
}

// The content types of DWARF 5 begin with the path.
const PATH: u64 = 1;

#[tactic(auto, unfolding(crate::specs::Entries::field_of))]
fn field_of(content: u64, code: u64) -> Option<Field>
    ensures { result ≡ field_of content code }
{
    let form = form_of(code)?;
    let is_path = content == PATH;
    if is_entry_form(form) && (!is_path || is_text_form(form)) {
        Some(Field { is_path, form })
    } else {
        None
    }
}

#[tactic(auto, unfolding(crate::specs::Entries::field_at))]
fn field_at(bytes: &[u8], at: usize) -> Result<(Field, usize), LineFault>
    ensures { result ≡ field_at bytes.now at }
{
    let (content, next) = uleb(bytes, at)?;
    let (code, next) = uleb(bytes, next)?;
    match field_of(content, code) {
        Some(field) => Ok((field, next)),
        None => Err(LineFault::Form),
    }
}

fn fields_at(
    alloc: Global,
    bytes: &[u8],
    at: usize,
    count: u8,
) -> Result<(Vec<Field>, usize), LineError>
    ensures { Gives result (fields_at count bytes.now at) }
{
    let mut fields = Vec::new(alloc);
    let mut place = at;
    for _ in 0..count {
        let (field, next) = field_at(bytes, place)?;
        fields.push(field)?;
        place = next;
    }
    Ok((fields, place))
}

/// The values that each entry of a table has, and the place behind the format.
#[tactic(auto, unfolding(crate::specs::Entries::format_at))]
pub fn format_at(alloc: Global, bytes: &[u8], at: usize) -> Result<(Vec<Field>, usize), LineError>
    ensures { Gives result (format_at bytes.now at) }
{
    let (count, next) = u8_at(bytes, at)?;
    fields_at(alloc, bytes, next, count)
}
