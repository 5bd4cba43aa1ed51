//! An expression: its text, and the tree that it spells.

ghost use Rattle.std.specs.Prelude.{◌≡◌, ℕ, ◌<◌, ◌≤◌, List, length, Some, Ok, Err, IfOk};
ghost use Rattle.elf_symbols.specs.Names.{Names};
ghost use Rattle.cond_expr.specs.Term.{Term, term_of};
ghost use Rattle.cond_expr.specs.Fault.{first_fault, MeetsFault};
ghost use Rattle.cond_expr.specs.Lex.{tokens_of};
ghost use Rattle.cond_expr.specs.Condition.{Tree, GivesTerm, text_of, tree_of};
ghost use Rattle.cond_expr.specs.Reader.{parsed};
ghost use Rattle.cond_expr.specs.Value.{value_of};

use crate::climbing::parse_tokens;
use crate::evaluating::{Value, node_value};
use crate::fault::{ExprFault, FaultKind, ParseError};
use crate::lex::tokens;
use crate::tree::Node;
use dbg_traits::View;
use elf_symbols::Symbols;
use std::alloc::Global;

/// The greatest length of an expression's text, in bytes.
const MAX_LENGTH: usize = 256;

/// An expression that was parsed. Contracts see its text as `text_of`, its tree as `tree_of`.
#[derive(Drop)]
pub struct Expr {
    text: Vec<u8>,
    root: Node,
}

impl Expr {
    /// The text that was parsed.
    pub fn text(&self) -> &[u8]
        ensures { result.now ≡ text_of self.now }
    {
        self.text.as_slice()
    }

    /// The tree that the text spells.
    pub fn root(&self) -> &Node
        ensures { term_of result.now ≡ tree_of self.now }
    {
        &self.root
    }
}

/// The expression that a text spells, with the names of these symbols; of its faults the one at the least place,
/// and at one place the least kind. A text of more than 256 bytes is `Long`, at 256.
pub fn parse(alloc: Global, text: &[u8], symbols: &Symbols) -> Result<Expr, ParseError>
    ensures long { 256 < length text.now → result ≡ Err (ParseError.Fault (record { kind = FaultKind.Long; at = 256 })) }
    // What is read is the text, with a tree that it spells.
    ensures found { IfOk result (λ e. Tree text.now symbols.now (tree_of e)) }
    ensures text { IfOk result (λ e. text_of e ≡ text.now) }
    // What the text spells is read, unless memory runs out.
    ensures only { (x : Term) → Tree text.now symbols.now x → GivesTerm result x }
    // Which fault it is.
    ensures fault { length text.now ≤ 256 → MeetsFault result (first_fault (length text.now) (tokens_of symbols.now text.now)) }
{
    if text.len() > MAX_LENGTH {
        return Err(ParseError::Fault(ExprFault {
            kind: FaultKind::Long,
            at: 256,
        }));
    }
    let tokens = tokens(alloc, symbols, text)?;
    let root = parse_tokens(alloc, &tokens, text.len() as u32)?;
    let text = Vec::from_slice(alloc, text)?;
    Ok(Expr { text, root })
}

/// The value of an expression over the registers and the bytes of a view: `DivZero` where a divisor is 0, `Unread` with the first
/// address of a read that isn't mapped; of several the first in the order of evaluation.
pub fn value<V: View>(e: &Expr, view: &V) -> Value
    ensures { result ≡ value_of (V.registers view.now) (V.bytes view.now) (tree_of e.now) }
{
    node_value(&e.root, view)
}

/// The reader by strengths gives the tree that a text spells, or the text's first fault.
pub fn parsed_is_tree()
    ensures tree { (names : Names) (text : List ℕ) (x : Term) → Tree text names x → parsed names text ≡ Ok x }
    ensures fault { (names : Names) (text : List ℕ) (f : ExprFault) → length text ≤ 256 → first_fault (length text) (tokens_of names text) ≡ Some f → parsed names text ≡ Err f }
    ensures long { (names : Names) (text : List ℕ) → 256 < length text → parsed names text ≡ Err (record { kind = FaultKind.Long; at = 256 }) }
{}
