//! The text that stands for a variable.

ghost use Rattle.std.specs.Prelude.{◌≡◌, ◌<◌, ◌++◌, ℕ, IfOk, List, Ok, OnOk, Option, Some, decimal};
ghost use Rattle.std.specs.Option.{option_map};
ghost use Rattle.elf_symbols.specs.Names.{Names};
ghost use Rattle.cond_expr.specs.Reader.{parsed};
ghost use Rattle.cond_expr.specs.Term.{Term};
ghost use Rattle.cond_expr.specs.Value.{value_of};
ghost use Rattle.debug_info.specs.Scope.{Variable};
ghost use Rattle.debug_info.specs.Shown.{shown_variable};
ghost use Rattle.var_expr.specs.Stands.{IsWorth, address_text, around_address, around_register, around_shown, bytes_of, memory_text, register_text, standing_of, standing_shown, stands};

use crate::holder::{Holder, holder_of};
use dbg_traits::{NoMemory, View};
use debug_info::{Kind, Var};
use itoa::Buffer;
use std::alloc::Global;

/// What stands for a variable in an expression.
#[derive(Drop)]
pub enum Standing {
    /// A text that reads it.
    Text(Vec<u8>),
    /// Nothing, since it isn't known to be anywhere.
    OptimizedOut,
    /// Nothing, since its type isn't read, or not where it is.
    NotRead,
}

/// What stands before and behind an address or the number of a register.
#[derive(Clone, Copy)]
struct Around {
    front: &'static str,
    behind: &'static str,
}

// The read of a kind, without its address; `char` is unsigned.
fn around_address(kind: Kind) -> Option<Around>
    ensures { option_map around_shown result ≡ around_address kind }
{
    let (front, behind) = match kind {
        Kind::Signed(4) => ("({int} ", ")"),
        Kind::Unsigned(4) | Kind::Pointer => ("({unsigned int} ", ")"),
        Kind::Signed(2) => ("({short} ", ")"),
        Kind::Unsigned(2) => ("({unsigned short} ", ")"),
        Kind::Signed(1) => ("(({char} ", " ^ 128) - 128)"),
        Kind::Unsigned(1) => ("({char} ", ")"),
        _ => return None,
    };
    Some(Around { front, behind })
}

// The read of a register as a kind, without its number; an operation with a number from 2^31 on is unsigned.
fn around_register(kind: Kind) -> Option<Around>
    ensures { option_map around_shown result ≡ around_register kind }
{
    let (front, behind) = match kind {
        Kind::Signed(4) => ("($x", ")"),
        Kind::Unsigned(4) | Kind::Pointer => ("(($x", " ^ 4294967295) ^ 4294967295)"),
        _ => return None,
    };
    Some(Around { front, behind })
}

// `0x` and eight digits.
fn push_address(into: &mut Vec<u8>, address: u32) -> Result<(), NoMemory>
    ensures { OnOk result (into.new.items ≡ into.old.items ++ address_text address) }
{
    let mut digits = [0; 8];
    let _ = hex::encode_to_slice(address.to_be_bytes(), &mut digits);
    into.extend_from_slice(b"0x")?;
    into.extend_from_slice(&digits)?;
    Ok(())
}

// The text of a variable at an address.
fn memory_text(alloc: Global, kind: Kind, address: u32) -> Result<Option<Vec<u8>>, NoMemory>
    ensures { IfOk result (λ text. option_map bytes_of text ≡ memory_text kind address) }
{
    let Some(around) = around_address(kind) else {
        return Ok(None);
    };
    let mut text = Vec::from_slice(alloc, around.front.as_bytes())?;
    push_address(&mut text, address)?;
    text.extend_from_slice(around.behind.as_bytes())?;
    Ok(Some(text))
}

// The text of a variable in a register.
fn register_text(alloc: Global, kind: Kind, n: u8) -> Result<Option<Vec<u8>>, NoMemory>
    ensures { IfOk result (λ text. option_map bytes_of text ≡ register_text kind n) }
{
    let Some(around) = around_register(kind) else {
        return Ok(None);
    };
    let mut digits = Buffer::new();
    let mut text = Vec::from_slice(alloc, around.front.as_bytes())?;
    text.extend_from_slice(digits.format(n).as_bytes())?;
    text.extend_from_slice(around.behind.as_bytes())?;
    Ok(Some(text))
}

/// What stands for a variable over the registers of a view and the CFA of its frame: a text that reads it, or that it isn't
/// known to be anywhere, or else that its type isn't read, or not in a register.
pub fn standing_of<V: View>(
    alloc: Global,
    var: &Var<'_>,
    view: &V,
    cfa: Option<u32>,
) -> Result<Standing, NoMemory>
    ensures { IfOk result (λ standing. standing_shown standing ≡ standing_of (V.registers view.now) cfa (shown_variable var.now)) }
{
    let text = match holder_of(var, view, cfa) {
        None => return Ok(Standing::OptimizedOut),
        Some(Holder::Memory(address)) => memory_text(alloc, var.kind, address)?,
        Some(Holder::Register(n)) => register_text(alloc, var.kind, n)?,
    };
    match text {
        None => Ok(Standing::NotRead),
        Some(text) => Ok(Standing::Text(text)),
    }
}

/// The text that stands for a variable, or none.
pub fn stands<V: View>(
    alloc: Global,
    var: &Var<'_>,
    view: &V,
    cfa: Option<u32>,
) -> Result<Option<Vec<u8>>, NoMemory>
    ensures { IfOk result (λ text. option_map bytes_of text ≡ stands (V.registers view.now) cfa (shown_variable var.now)) }
{
    match standing_of(alloc, var, view, cfa)? {
        Standing::Text(text) => Ok(Some(text)),
        Standing::OptimizedOut | Standing::NotRead => Ok(None),
    }
}

/// A text that stands for a variable is an expression, whatever symbols there are, and its value is a word or an address
/// that can't be read: it divides nothing.
pub fn stands_is_parsed()
    ensures parsed { (symbols : Names) (registers : ℕ → ℕ) (cfa : Option ℕ) (v : Variable) (text : List ℕ) → stands registers cfa v ≡ Some text → (x : Term) × (parsed symbols text ≡ Ok x) }
    ensures worth { (symbols : Names) (registers : ℕ → ℕ) (bytes : ℕ → Option ℕ) (cfa : Option ℕ) (v : Variable) (text : List ℕ) (x : Term) → stands registers cfa v ≡ Some text → parsed symbols text ≡ Ok x → IsWorth (value_of registers bytes x) }
{}
