//! What a text asks to be watched.

ghost use Rattle.std.specs.Prelude.{◌≡◌, Ok, Err, Some};
ghost use Rattle.cond_expr.specs.declared.token.Prefix.TheVariants.{Read};
ghost use Rattle.cond_expr.specs.Term.{term_of, prefix};
ghost use Rattle.watch_points.specs.Reading.{GivesWatch, watching};
ghost use Rattle.watch_points.specs.Watching.{size_of, is_signed, IsWatch, IsWatchable, HasNoAddress, Suits, SpellsTree, ExactlyWhere, expression_fault};
ghost use Rattle.cond_expr.specs.declared.fault.ExprFault.{ExprFault};

use crate::constant::{Nothing, is_constant};
use crate::fault::{WatchError, WatchFault};
use cond_expr::{Node, Prefix, ReadType, Value, node_value, parse};
use elf_symbols::Symbols;
use std::alloc::Global;

/// The bytes that are watched, and how they are shown.
#[derive(Clone, Copy)]
pub struct Watched {
    /// Where they begin. They go on modulo 2^32.
    pub address: u32,
    /// How many they are: 1, 2 or 4.
    pub size: u32,
    /// Whether they are shown with a sign, as `int` and `short` are.
    pub signed: bool,
}

fn size_of(kind: ReadType) -> u32
    ensures { result ≡ size_of kind }
{
    match kind {
        ReadType::Int | ReadType::UnsignedInt => 4,
        ReadType::Short | ReadType::UnsignedShort => 2,
        ReadType::Char | ReadType::UnsignedChar => 1,
    }
}

fn is_signed(kind: ReadType) -> bool
    ensures { result ≡ is_signed kind }
{
    matches!(kind, ReadType::Int | ReadType::Short)
}

/// The bytes of a read, if its address is constant and has a value.
fn read_of(kind: ReadType, address: &Node) -> Result<Watched, WatchFault>
    ensures { Suits (prefix (Read kind) (term_of address.now)) result }
{
    if !is_constant(address) {
        return Err(WatchFault::Form);
    }
    match node_value(address, &Nothing) {
        Value::Word(address, _) => Ok(Watched {
            address,
            size: size_of(kind),
            signed: is_signed(kind),
        }),
        Value::DivZero => Err(WatchFault::Value),
        Value::Unread(_) => unreachable!(),
    }
}

/// What a tree asks to be watched.
fn tree_watch(root: &Node) -> Result<Watched, WatchFault>
    ensures { Suits (term_of root.now) result }
{
    match root {
        Node::Prefix(Prefix::Read(kind), address) => read_of(*kind, address),
        _ => Err(WatchFault::Form),
    }
}

/// What a text asks to be watched, with the names of these symbols: it is a type in braces and an address with neither
/// a register nor a read, within any parentheses. Of its faults the first one of `WatchFault`.
pub fn watch_of(alloc: Global, text: &[u8], symbols: &Symbols) -> Result<Watched, WatchError>
    // Each answer comes exactly where its fact holds; out of memory may come in place of any.
    ensures watched { (w : Watched) → ExactlyWhere result (Ok w) (SpellsTree text.now symbols.now (λ x. IsWatch x w)) }
    ensures expr { (f : ExprFault) → ExactlyWhere result (Err (WatchError.Fault (WatchFault.Expr f))) (expression_fault symbols.now text.now ≡ Some f) }
    ensures form { ExactlyWhere result (Err (WatchError.Fault WatchFault.Form)) (SpellsTree text.now symbols.now (λ x. ¬ (IsWatchable x))) }
    ensures value { ExactlyWhere result (Err (WatchError.Fault WatchFault.Value)) (SpellsTree text.now symbols.now HasNoAddress) }
    ensures told { GivesWatch result (watching symbols.now text.now) }
{
    let e = parse(alloc, text, symbols)?;
    Ok(tree_watch(e.root())?)
}
