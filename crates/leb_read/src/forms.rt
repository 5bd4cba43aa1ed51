//! The forms of values (DWARF 4 and 5, sections 7.5.4 to 7.5.6), by their codes, for addresses and offsets of 32 bits.

ghost use Rattle.std.specs.Prelude.{◌≡◌, IfOk};
ghost use Rattle.leb_read.specs.Leb.{IsBehind};
ghost use Rattle.leb_read.specs.Forms.{behind_block, behind_form, form_of, number_by};

use crate::fault::Leb;
use crate::fixed::{behind_run, text_at, u8_at, u16_at, u32_at, u64_at};
use crate::leb::{sleb, uleb};

/// How an unsigned number is written.
#[derive(Clone, Copy)]
pub enum Width {
    One,
    Two,
    Four,
    Eight,
    Variable,
}

/// How a value is written.
#[derive(Clone, Copy)]
pub enum Form {
    Address,
    Constant(Width),
    SignedConstant,
    /// A constant of 16 bytes.
    LongConstant,
    /// A length of that width, and so many bytes.
    Block(Width),
    /// A block of variable length that holds an expression.
    Expression,
    /// A text in place, up to its zero byte.
    Inline,
    /// An offset into `.debug_str`.
    Shared,
    /// An offset into `.debug_line_str`.
    LineShared,
    /// An offset from the unit's beginning.
    Reference(Width),
    /// So many bytes: flags, references out of the unit, and offsets into other sections.
    Opaque(u64),
}

/// The form of a code.
pub fn form_of(code: u64) -> Option<Form>
    ensures { result ≡ form_of code }
{
    match code {
        0x01 => Some(Form::Address),
        0x03 => Some(Form::Block(Width::Two)),
        0x04 => Some(Form::Block(Width::Four)),
        0x05 => Some(Form::Constant(Width::Two)),
        0x06 => Some(Form::Constant(Width::Four)),
        0x07 => Some(Form::Constant(Width::Eight)),
        0x08 => Some(Form::Inline),
        0x09 => Some(Form::Block(Width::Variable)),
        0x0A => Some(Form::Block(Width::One)),
        0x0B => Some(Form::Constant(Width::One)),
        0x0C => Some(Form::Opaque(1)),
        0x0D => Some(Form::SignedConstant),
        0x0E => Some(Form::Shared),
        0x0F => Some(Form::Constant(Width::Variable)),
        0x10 | 0x17 => Some(Form::Opaque(4)),
        0x11 => Some(Form::Reference(Width::One)),
        0x12 => Some(Form::Reference(Width::Two)),
        0x13 => Some(Form::Reference(Width::Four)),
        0x14 | 0x20 => Some(Form::Opaque(8)),
        0x15 => Some(Form::Reference(Width::Variable)),
        0x18 => Some(Form::Expression),
        0x19 => Some(Form::Opaque(0)),
        0x1E => Some(Form::LongConstant),
        0x1F => Some(Form::LineShared),
        _ => None,
    }
}

/// The unsigned number of a width at a place, and the place behind it.
///
/// # Errors
///
/// As those of `u8_at` and `uleb`.
#[tactic(auto, unfolding(crate::specs::Forms::number_by))]
pub fn number_by(width: Width, bytes: &[u8], at: usize) -> Result<(u64, usize), Leb>
    ensures value { result ≡ number_by width bytes.now at }
    ensures within { IfOk result (λ r. IsBehind bytes.now at r.1) }
{
    match width {
        Width::One => {
            let (number, next) = u8_at(bytes, at)?;
            Ok((u64::from(number), next))
        }
        Width::Two => {
            let (number, next) = u16_at(bytes, at)?;
            Ok((u64::from(number), next))
        }
        Width::Four => {
            let (number, next) = u32_at(bytes, at)?;
            Ok((u64::from(number), next))
        }
        Width::Eight => u64_at(bytes, at),
        Width::Variable => uleb(bytes, at),
    }
}

// The place behind a length and so many bytes.
#[tactic(auto, unfolding(crate::specs::Forms::behind_block))]
fn behind_block(width: Width, bytes: &[u8], at: usize) -> Result<usize, Leb>
    ensures { result ≡ behind_block width bytes.now at }
{
    let (length, start) = number_by(width, bytes, at)?;
    behind_run(length, bytes, start)
}

/// The place behind the value of a form.
///
/// # Errors
///
/// As those of `number_by`, `sleb`, `behind_run` and `text_at`.
#[tactic(auto, unfolding(crate::specs::Forms::behind_form))]
pub fn behind_form(form: Form, bytes: &[u8], at: usize) -> Result<usize, Leb>
    ensures { result ≡ behind_form form bytes.now at }
{
    match form {
        Form::Address | Form::Shared | Form::LineShared => behind_run(4, bytes, at),
        Form::Constant(width) | Form::Reference(width) => {
            let (_, next) = number_by(width, bytes, at)?;
            Ok(next)
        }
        Form::SignedConstant => {
            let (_, next) = sleb(bytes, at)?;
            Ok(next)
        }
        Form::LongConstant => behind_run(16, bytes, at),
        Form::Block(width) => behind_block(width, bytes, at),
        Form::Expression => behind_block(Width::Variable, bytes, at),
        Form::Inline => {
            let (_, next) = text_at(bytes, at)?;
            Ok(next)
        }
        Form::Opaque(size) => behind_run(size, bytes, at),
    }
}
