//! The tree of an expression.

ghost use Rattle.std.specs.Prelude.{◌≡◌, IfOk};
ghost use Rattle.cond_expr.specs.Term.{term_of};
ghost use Rattle.cond_expr.specs.Term as term;

use crate::token::{Binary, Leaf, Prefix};
use std::alloc::{AllocError, Global};

/// An expression's tree. Contracts see it as a `Term`, by `term_of`.
#[derive(Drop)]
pub enum Node {
    Leaf(Leaf),
    Prefix(Prefix, Box<Node>),
    Binary(Binary, Box<Node>, Box<Node>),
}

pub fn prefixed(alloc: Global, op: Prefix, x: Node) -> Result<Node, AllocError>
    ensures { IfOk result (λ e. term_of e ≡ term.prefix op (term_of x)) }
{
    Ok(Node::Prefix(op, Box::new(alloc, x)?))
}

pub fn joined(alloc: Global, op: Binary, x: Node, y: Node) -> Result<Node, AllocError>
    ensures { IfOk result (λ e. term_of e ≡ term.binary op (term_of x) (term_of y)) }
{
    Ok(Node::Binary(op, Box::new(alloc, x)?, Box::new(alloc, y)?))
}
