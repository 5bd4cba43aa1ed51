//! What an expression is worth.

ghost use Rattle.std.specs.Prelude.{◌≡◌, ◌<◌, ◌^◌, ◌||◌, ◌==◌, false, IfOk};
ghost use Rattle.cond_expr.specs.Term.{term_of};
ghost use Rattle.cond_expr.specs.Value.{flag, leaf_value, extended, read_word, read_short, read_value, prefix_value, less, quotient, remainder, shifted_right, words_value, divided, decided, value_of};

use crate::token::{Binary, Leaf, Prefix, ReadType};
use crate::tree::Node;
use dbg_traits::{View, number_at};

/// The value of an expression.
#[derive(Clone, Copy, Debug)]
pub enum Value {
    /// A word, and whether it is unsigned.
    Word(u32, bool),
    /// A divisor was 0.
    DivZero,
    /// No byte is mapped at this address.
    Unread(u32),
}

fn flag(b: bool) -> Value
    ensures { result ≡ flag b }
{
    Value::Word(u32::from(b), false)
}

fn leaf_value<V: View>(leaf: Leaf, view: &V) -> Value
    ensures { result ≡ leaf_value (V.registers view.now) leaf }
{
    match leaf {
        Leaf::Number(n) => Value::Word(n, n > 0x7FFF_FFFF),
        Leaf::Register(register) => Value::Word(view.reg(register.number()), false),
        Leaf::Address(address) => Value::Word(address, true),
    }
}

/// 16 bits with their sign.
fn extended(n: u32) -> u32
    requires { n < 2 ^ 16 }
    ensures { result ≡ extended n }
{
    if n < 0x8000 { n } else { n + 0xFFFF_0000 }
}

/// The word that was read, or the address of its first byte that isn't mapped.
fn read_word(read: Result<u32, u32>, unsigned: bool) -> Value
    ensures { result ≡ read_word unsigned read }
{
    match read {
        Ok(n) => Value::Word(n, unsigned),
        Err(addr) => Value::Unread(addr),
    }
}

/// The same of 16 bits, with their sign.
fn read_short(read: Result<u32, u32>) -> Value
    requires { IfOk read (λ n. n < 2 ^ 16) }
    ensures { result ≡ read_short read }
{
    match read {
        Ok(n) => Value::Word(extended(n), false),
        Err(addr) => Value::Unread(addr),
    }
}

/// What memory holds at an address, as a type.
fn read_value<V: View>(kind: ReadType, addr: u32, view: &V) -> Value
    ensures { result ≡ read_value (V.bytes view.now) kind addr }
{
    match kind {
        ReadType::Int => read_word(number_at(view, addr, 4), false),
        ReadType::UnsignedInt => read_word(number_at(view, addr, 4), true),
        ReadType::Short => read_short(number_at(view, addr, 2)),
        ReadType::UnsignedShort => read_word(number_at(view, addr, 2), false),
        ReadType::Char | ReadType::UnsignedChar => read_word(number_at(view, addr, 1), false),
    }
}

fn prefix_value<V: View>(op: Prefix, n: u32, unsigned: bool, view: &V) -> Value
    ensures { result ≡ prefix_value (V.bytes view.now) op n unsigned }
{
    match op {
        Prefix::Negate => Value::Word(n.wrapping_neg(), unsigned),
        Prefix::Complement => Value::Word(u32::MAX - n, unsigned),
        Prefix::Not => flag(n == 0),
        Prefix::Read(kind) => read_value(kind, n, view),
    }
}

fn is_less(unsigned: bool, n: u32, m: u32) -> bool
    ensures { result ≡ less unsigned n m }
{
    if unsigned {
        n < m
    } else {
        n.cast_signed() < m.cast_signed()
    }
}

/// The quotient, rounded toward zero.
fn quotient(unsigned: bool, n: u32, m: u32) -> u32
    requires { 0 < m }
    ensures { result ≡ quotient unsigned n m }
{
    if unsigned {
        return n / m;
    }
    n.cast_signed()
        .wrapping_div(m.cast_signed())
        .cast_unsigned()
}

/// What the quotient leaves; of ints it has the sign of `n`.
fn remainder(unsigned: bool, n: u32, m: u32) -> u32
    requires { 0 < m }
    ensures { result ≡ remainder unsigned n m }
{
    if unsigned {
        return n % m;
    }
    n.cast_signed()
        .wrapping_rem(m.cast_signed())
        .cast_unsigned()
}

/// A shift to the right by `k` modulo 32; of an int it keeps the sign.
fn shifted_right(unsigned: bool, n: u32, k: u32) -> u32
    ensures { result ≡ shifted_right unsigned n k }
{
    if unsigned {
        return n.wrapping_shr(k);
    }
    n.cast_signed().wrapping_shr(k).cast_unsigned()
}

/// A division of two words, as unsigned or as ints.
fn divided(op: Binary, unsigned: bool, n: u32, m: u32) -> Value
    ensures { result ≡ divided op unsigned n m }
{
    if m == 0 {
        return Value::DivZero;
    }
    match op {
        Binary::Divide => Value::Word(quotient(unsigned, n, m), unsigned),
        _ => Value::Word(remainder(unsigned, n, m), unsigned),
    }
}

/// The value of an operation; `left` tells whether its left side is unsigned, `either` whether one side is.
fn words_value(op: Binary, left: bool, either: bool, n: u32, m: u32) -> Value
    ensures { result ≡ words_value op left either n m }
{
    match op {
        Binary::OrElse | Binary::AndThen => flag(m != 0),
        Binary::Or => Value::Word(n | m, either),
        Binary::Xor => Value::Word(n ^ m, either),
        Binary::And => Value::Word(n & m, either),
        Binary::Equal => flag(n == m),
        Binary::NotEqual => flag(n != m),
        Binary::Less => flag(is_less(either, n, m)),
        Binary::LessEqual => flag(!is_less(either, m, n)),
        Binary::Greater => flag(is_less(either, m, n)),
        Binary::GreaterEqual => flag(!is_less(either, n, m)),
        Binary::ShiftLeft => Value::Word(n.wrapping_shl(m), left),
        Binary::ShiftRight => Value::Word(shifted_right(left, n, m), left),
        Binary::Add => Value::Word(n.wrapping_add(m), either),
        Binary::Subtract => Value::Word(n.wrapping_sub(m), either),
        Binary::Multiply => Value::Word(n.wrapping_mul(m), either),
        Binary::Divide | Binary::Remainder => divided(op, either, n, m),
    }
}

/// The value of `&&` and `||` where their left side decides it.
fn decided(op: Binary, n: u32) -> Option<Value>
    ensures { result ≡ decided op n }
{
    match op {
        Binary::AndThen if n == 0 => Some(flag(false)),
        Binary::OrElse if n != 0 => Some(flag(true)),
        _ => None,
    }
}

/// The value of a tree over the registers and the bytes of a view.
pub fn node_value<V: View>(node: &Node, view: &V) -> Value
    ensures { result ≡ value_of (V.registers view.now) (V.bytes view.now) (term_of node.now) }
{
    match node {
        Node::Leaf(leaf) => leaf_value(*leaf, view),
        Node::Prefix(op, x) => match node_value(x, view) {
            Value::Word(n, unsigned) => prefix_value(*op, n, unsigned, view),
            fault => fault,
        },
        Node::Binary(op, x, y) => match node_value(x, view) {
            Value::Word(n, left) => match decided(*op, n) {
                Some(value) => value,
                None => match node_value(y, view) {
                    Value::Word(m, right) => words_value(*op, left, left || right, n, m),
                    fault => fault,
                },
            },
            fault => fault,
        },
    }
}
