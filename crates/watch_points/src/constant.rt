//! Trees whose value is the same whatever registers and memory hold.

ghost use Rattle.std.specs.Prelude.{◌≡◌, None};
ghost use Rattle.cond_expr.specs.Term.{term_of};
ghost use Rattle.watch_points.specs.Constant.{is_constant};

use cond_expr::{Leaf, Node, Prefix};
use dbg_traits::View;

/// No registers and no memory.
pub struct Nothing;

impl View for Nothing {
    ghost registers = { λ _ n. 0 };

    ghost bytes = { λ _ addr. None };

    fn reg(&self, _n: u32) -> u32 {
        0
    }

    fn byte(&self, _addr: u32) -> Option<u8> {
        None
    }
}

/// Whether a tree has neither a register nor a read.
pub fn is_constant(node: &Node) -> bool
    ensures { result ≡ is_constant (term_of node.now) }
{
    match node {
        Node::Leaf(Leaf::Register(_)) | Node::Prefix(Prefix::Read(_), _) => false,
        Node::Leaf(_) => true,
        Node::Prefix(_, x) => is_constant(x),
        Node::Binary(_, x, y) => is_constant(x) && is_constant(y),
    }
}
