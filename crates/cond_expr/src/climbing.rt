//! Precedence climbing over tokens.

ghost use Rattle.std.specs.Prelude.{◌≡◌, ℕ, ◌≤◌, ◌<◌, List, [], ◌∷◌, length, None, IfOk, MatchOption};
ghost use Rattle.cond_expr.specs.Token.{strength, start_of, follow_of};
ghost use Rattle.cond_expr.specs.Term.{Term, term_of};
ghost use Rattle.cond_expr.specs.Grammar.{Spells, IsTree};
ghost use Rattle.cond_expr.specs.Fault.{wanting, behind, first_fault, Meets, MeetsFault};
ghost use Rattle.cond_expr.specs.Gives.{GivesTree};
ghost use Rattle.cond_expr.specs.Stops.{Stops};

use crate::fault::{ExprFault, FaultKind, ParseError};
use crate::token::{Follow, Spot, Start};
use crate::tree::{Node, joined, prefixed};
use std::alloc::Global;

const MAX_OPEN: u32 = 32;

fn fault(kind: FaultKind, at: u32) -> ParseError
    ensures { result ≡ ParseError.Fault (record { kind = kind; at = at }) }
{
    ParseError::Fault(ExprFault { kind, at })
}

fn front(tokens: &[Spot]) -> Option<(Spot, &[Spot])>
    ensures { MatchOption result (tokens.now ≡ []) (λ p. tokens.now ≡ p.0 ∷ p.1.now) }
{
    match tokens {
        [] => None,
        [first, rest @ ..] => Some((*first, rest)),
    }
}

#[cycle(parser)]
fn operand(
    alloc: Global,
    tokens: &[Spot],
    end: u32,
    depth: u32,
) -> Result<(Node, &[Spot]), ParseError>
    requires { depth ≤ 32 }
    ensures spelled { IfOk result (λ r. Spells depth 11 tokens.now r.1.now (term_of r.0)) }
    ensures shorter { IfOk result (λ r. length r.1.now < length tokens.now) }
    ensures met { (parens : List ℕ) (outer : ℕ) → Meets result (wanting end parens outer depth tokens.now) (λ r. behind end parens outer r.1.now) }
{
    let Some((first, rest)) = front(tokens) else {
        return Err(fault(FaultKind::Text, end));
    };
    match first.token.start() {
        Start::Operand(leaf) => Ok((Node::Leaf(leaf), rest)),
        Start::Before(op) => {
            if depth >= MAX_OPEN {
                return Err(fault(FaultKind::Deep, first.at));
            }
            let (x, rest) = operand(alloc, rest, end, depth + 1)?;
            Ok((prefixed(alloc, op, x)?, rest))
        }
        Start::Opens => {
            if depth >= MAX_OPEN {
                return Err(fault(FaultKind::Deep, first.at));
            }
            let (x, rest) = expression(alloc, rest, end, depth + 1, 1)?;
            let Some((last, rest)) = front(rest) else {
                return Err(fault(FaultKind::Text, end));
            };
            let Follow::Closes = last.token.follow() else {
                return Err(fault(FaultKind::Text, last.at));
            };
            Ok((x, rest))
        }
        Start::CutOff(place) => {
            if depth >= MAX_OPEN {
                return Err(fault(FaultKind::Deep, first.at));
            }
            Err(fault(FaultKind::Text, place))
        }
        Start::Refused(kind) => Err(fault(kind, first.at)),
    }
}

#[cycle(parser)]
fn expression(
    alloc: Global,
    tokens: &[Spot],
    end: u32,
    depth: u32,
    least: u8,
) -> Result<(Node, &[Spot]), ParseError>
    requires room { depth ≤ 32 }
    requires level { least ≤ 11 }
    ensures spelled { IfOk result (λ r. Spells depth least tokens.now r.1.now (term_of r.0)) }
    ensures stops { IfOk result (λ r. Stops least r.1.now) }
    ensures shorter { IfOk result (λ r. length r.1.now < length tokens.now) }
    ensures met { (parens : List ℕ) → Meets result (wanting end parens depth depth tokens.now) (λ r. behind end parens depth r.1.now) }
{
    let (mut x, mut rest) = operand(alloc, tokens, end, depth)?;
    'turns: loop {
        let Some((first, more)) = front(rest) else {
            return Ok((x, rest));
        };
        let Follow::Joins(op) = first.token.follow() else {
            return Ok((x, rest));
        };
        let strength = op.strength();
        if strength < least {
            return Ok((x, rest));
        }
        let (y, after) = expression(alloc, more, end, depth, strength + 1)?;
        x = joined(alloc, op, x, y)?;
        rest = after;
    }
}

fn whole(alloc: Global, tokens: &[Spot], end: u32) -> Result<Node, ParseError>
    ensures found { IfOk result (λ e. IsTree tokens.now (term_of e)) }
    ensures fault { MeetsFault result (first_fault end tokens.now) }
{
    let (x, rest) = expression(alloc, tokens, end, 0, 1)?;
    match front(rest) {
        None => Ok(x),
        Some((first, _)) => Err(fault(FaultKind::Text, first.at)),
    }
}

/// The tree of the tokens; `end` is the place behind the text.
pub fn parse_tokens(alloc: Global, tokens: &[Spot], end: u32) -> Result<Node, ParseError>
    // What is read is what the tokens spell.
    ensures found { IfOk result (λ e. IsTree tokens.now (term_of e)) }
    // What the tokens spell is read, unless memory runs out.
    ensures only { (x : Term) → IsTree tokens.now x → GivesTree result x }
    // Which fault it is.
    ensures fault { MeetsFault result (first_fault end tokens.now) }
{
    whole(alloc, tokens, end)
}

/// Tokens are a tree exactly where they have no fault.
pub fn accepted_is_tree()
    ensures tree { (end : ℕ) (tokens : List Spot) → first_fault end tokens ≡ None → (x : Term) × IsTree tokens x }
    ensures accepted { (end : ℕ) (tokens : List Spot) (x : Term) → IsTree tokens x → first_fault end tokens ≡ None }
    ensures unique { (tokens : List Spot) (x y : Term) → IsTree tokens x → IsTree tokens y → x ≡ y }
{}
