// Variables as they are shown.

use dbg_traits::{ByteList, ItemList};
/// What is shown as the value of a variable.
#[derive(Clone, Copy)]
pub enum VariableValue {
    /// A word, and whether it is unsigned.
    Word { word: u32, unsigned: bool },
    /// None, since the variable isn't known to be anywhere.
    OptimizedOut,
    /// None, since its type isn't read, or not where it is.
    NotRead,
    /// None, since the byte at this address can't be read.
    Unreadable(u32),
}

/// A variable, with its value where values are asked for.
#[derive(Drop)]
pub struct ShownVariable {
    pub name: ByteList,
    /// Whether it is a parameter.
    pub argument: bool,
    pub value: Option<VariableValue>,
}

/// Variables that contracts see as a list.
pub type VariableList = ItemList<ShownVariable>;
