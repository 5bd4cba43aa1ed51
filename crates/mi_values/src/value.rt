//! `Value`: the tree of a value.

use crate::name::Name;

/// A value of an output line.
#[derive(Drop)]
pub enum Value {
    /// The bytes of a C string.
    Text(Vec<u8>),
    /// Fields in braces, none among them.
    Tuple(Vec<(Name, Value)>),
    /// Values in brackets; `[]` is the list without values.
    Items(Vec<Value>),
    /// Fields in brackets, at least one.
    Named(Vec<(Name, Value)>),
}
