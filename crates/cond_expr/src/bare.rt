//! The bare names in a text.

ghost use Rattle.std.specs.Prelude.{◌≡◌, ◌<◌, ◌≤◌, ◌^◌, length, IfOk, OnOk, ◌++◌};
ghost use Rattle.cond_expr.specs.Lex.{spot_at};
ghost use Rattle.cond_expr.specs.Token.{wants_behind};
ghost use Rattle.cond_expr.specs.Bare.{bare_at, bare_names, no_names, IsRow};

use crate::lex::{begins_with, token};
use crate::word::{after_blanks, front, is_blank, is_name_start, word};
use std::alloc::{AllocError, Global};

/// A name with neither `$` nor, where an operand is wanted, `&` before it.
#[derive(Clone, Copy)]
pub struct BareName {
    /// The bytes of the text before it.
    pub at: usize,
    /// Its bytes.
    pub length: usize,
}

// Whether an operand is wanted behind the token that begins with this byte, and what stands there.
fn behind_token(end: u32, wants: bool, first: u8, rest: &[u8]) -> (bool, &[u8])
    requires { length rest.now ≤ end }
    ensures wants { result.0 ≡ wants_behind (spot_at no_names end wants first rest.now).0.token }
    ensures behind { result.1.now ≡ (spot_at no_names end wants first rest.now).1 }
    ensures shorter { length result.1.now ≤ length rest.now }
{
    if wants && first == b'&' && !begins_with(b'&', rest) {
        let (_, behind) = word(after_blanks(rest));
        return (false, behind);
    }
    let (token, behind) = token(end, first, rest);
    (token.wants_operand(), behind)
}

// Adds the name that a token is, which begins with this byte.
fn push_name(names: &mut Vec<BareName>, first: u8, name: BareName) -> Result<(), AllocError>
    ensures { OnOk result (names.new.items ≡ names.old.items ++ bare_at first name) }
{
    if is_name_start(first) {
        names.push(name)?;
    }
    Ok(())
}

/// The bare names of a text, in its order, by the tokens that it has as an expression; symbols play no part.
pub fn bare_names(alloc: Global, text: &[u8]) -> Result<Vec<BareName>, AllocError>
    requires { length text.now < 2 ^ 32 }
    ensures names { IfOk result (λ v. v.items ≡ bare_names text.now) }
    // They stand in the text one behind the other.
    ensures row { IfOk result (λ v. IsRow 0 (length text.now) v.items) }
{
    let mut names = Vec::new(alloc);
    let mut wants = true;
    let mut rest = text;
    'turns: while let Some((first, more)) = front(rest) {
        if is_blank(first) {
            rest = more;
        } else {
            let (next_wants, behind) = behind_token(text.len() as u32, wants, first, more);
            let name = BareName {
                at: text.len() - rest.len(),
                length: rest.len() - behind.len(),
            };
            push_name(&mut names, first, name)?;
            wants = next_wants;
            rest = behind;
        }
    }
    Ok(names)
}
