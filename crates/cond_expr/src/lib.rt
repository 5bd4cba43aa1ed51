//! Expressions, which conditions of breakpoints are too: the tree that a text spells, and its value over one hart's registers
//! and memory.
#![tactic(auto)]

mod bare;
mod climbing;
mod evaluating;
mod expr;
mod fault;
mod lex;
mod token;
mod tree;
mod word;

pub use bare::{BareName, bare_names};
pub use climbing::accepted_is_tree;
pub use evaluating::{Value, node_value};
pub use expr::{Expr, parse, parsed_is_tree, value};
pub use fault::{ExprFault, FaultKind, ParseError};
pub use token::{Binary, Leaf, Prefix, ReadType};
pub use tree::Node;
