//! The replacing of names.

ghost use Rattle.std.specs.Prelude.{◌≡◌, ◌+◌, ◌-◌, ◌≤◌, ◌++◌, ◌∷◌, [], drop, false, find, length, map, take, IfOk, MatchOption, OnOk};
ghost use Rattle.std.specs.List.{list_any};
ghost use Rattle.std.specs.Option.{option_map};
ghost use Rattle.cond_expr.specs.Bare.{IsRow};
ghost use Rattle.debug_info.specs.Shown.{shown_variable, shown_variables};
ghost use Rattle.var_expr.specs.Expanded.{expanded_text, has_names, is_named, is_open, is_outside, names_in, places, replacements, standing};
ghost use Rattle.var_expr.specs.Parsed.{IsWithoutNames};
ghost use Rattle.var_expr.specs.Places.{length_of, names_of, text_of};
ghost use Rattle.var_expr.specs.Stands.{bytes_of};

use crate::expanded::{Expanded, Replaced};
use crate::standing::stands;
use cond_expr::{BareName, bare_names};
use dbg_traits::{NoMemory, View};
use debug_info::Var;
use std::alloc::Global;

// The first variable of a name.
fn named<'a>(vars: &[Var<'a>], name: &[u8]) -> Option<Var<'a>>
    ensures { option_map shown_variable result ≡ find (is_named name.now) (shown_variables vars.now) }
{
    for var in vars {
        if var.name == name {
            return Some(*var);
        }
    }
    None
}

// What a name is replaced by, if it is.
fn standing<V: View>(
    alloc: Global,
    vars: &[Var<'_>],
    view: &V,
    cfa: Option<u32>,
    name: &[u8],
) -> Result<Option<Vec<u8>>, NoMemory>
    ensures { IfOk result (λ text. option_map bytes_of text ≡ standing (V.registers view.now) cfa (shown_variables vars.now) name.now) }
{
    match named(vars, name) {
        None => Ok(None),
        Some(var) => stands(alloc, &var, view, cfa),
    }
}

// Whether a brace is open behind these bytes.
fn is_open(bytes: &[u8]) -> bool
    ensures { result ≡ is_open bytes.now }
{
    let mut inside = false;
    for b in bytes {
        inside = match *b {
            b'{' => true,
            b'}' => false,
            _ => inside,
        };
    }
    inside
}

// The first name, and the others.
fn first_name(names: &[BareName]) -> Option<(BareName, &[BareName])>
    ensures { MatchOption result (names.now ≡ []) (λ p. names.now ≡ p.0 ∷ p.1.now) }
{
    match names {
        [] => None,
        [name, others @ ..] => Some((*name, others)),
    }
}

// What stands before a name, and the name.
fn parts_of(text: &[u8], name: BareName) -> (&[u8], &[u8])
    requires { name.at + name.length ≤ length text.now }
    ensures front { result.0.now ≡ take name.at text.now }
    ensures bytes { result.1.now ≡ take name.length (drop name.at text.now) }
{
    let (front, behind) = text.split_at(name.at);
    (front, &behind[..name.length])
}

// Adds the text from a place up to a name, and what the name is replaced by.
fn push_replaced(
    expanded: &mut Expanded,
    text: &[u8],
    from: usize,
    name: BareName,
    standing: &[u8],
) -> Result<(), NoMemory>
    requires order { from ≤ name.at }
    requires within { name.at ≤ length text.now }
    ensures text { OnOk result (text_of expanded.new ≡ (text_of expanded.old ++ take (name.at - from) (drop from text.now)) ++ standing.now) }
    ensures names { OnOk result (names_of expanded.new ≡ names_of expanded.old ++ record { at = name.at; length = name.length; new_at = length (text_of expanded.old) + (name.at - from); new_length = length standing.now } ∷ []) }
    ensures given { OnOk result (length_of expanded.new ≡ length_of expanded.old) }
{
    let new_at = expanded.text.len() + (name.at - from);
    expanded.text.extend_from_slice(&text[from..name.at])?;
    expanded.text.extend_from_slice(standing)?;
    expanded.names.push(Replaced {
        at: name.at,
        length: name.length,
        new_at,
        new_length: standing.len(),
    })?;
    Ok(())
}

// The bare names of a text, if its places are numbers of 32 bits.
fn names_in(alloc: Global, text: &[u8]) -> Result<Vec<BareName>, NoMemory>
    ensures names { IfOk result (λ v. v.items ≡ names_in text.now) }
    ensures row { IfOk result (λ v. IsRow 0 (length text.now) v.items) }
{
    if text.len() < 1 << 32 {
        Ok(bare_names(alloc, text)?)
    } else {
        Ok(Vec::new(alloc))
    }
}

// Whether a name stands outside of braces.
fn is_outside(text: &[u8], name: &BareName) -> bool
    ensures { result ≡ is_outside text.now name.now }
{
    !is_open(&text[..name.at.min(text.len())])
}

fn is_one_outside(text: &[u8], names: &[BareName]) -> bool
    ensures { result ≡ list_any (is_outside text.now) names.now }
{
    names.iter().any(|name| is_outside(text, name))
}

/// Whether a text has a bare name outside of braces. Without one, what stands for names plays no part in it.
pub fn has_names(alloc: Global, text: &[u8]) -> Result<bool, NoMemory>
    ensures value { IfOk result (λ some. some ≡ has_names text.now) }
    ensures without { IfOk result (λ some. some ≡ false → IsWithoutNames text.now) }
{
    let names = names_in(alloc, text)?;
    Ok(is_one_outside(text, &names))
}

/// A text with each bare name outside of braces replaced by what stands for the variable of that name, over the registers
/// of a view and the CFA of its frame. Of equal names the first variable counts; where nothing stands for it the name stays.
/// In a text of 2^32 bytes or more no name is replaced.
pub fn expand<V: View>(
    alloc: Global,
    text: &[u8],
    vars: &[Var<'_>],
    view: &V,
    cfa: Option<u32>,
) -> Result<Expanded, NoMemory>
    ensures text { IfOk result (λ e. text_of e ≡ expanded_text (standing (V.registers view.now) cfa (shown_variables vars.now)) text.now) }
    ensures names { IfOk result (λ e. names_of e ≡ places (standing (V.registers view.now) cfa (shown_variables vars.now)) text.now) }
    ensures given { IfOk result (λ e. length_of e ≡ length text.now) }
{
    let names = names_in(alloc, text)?;
    let mut expanded = Expanded {
        given_length: text.len(),
        text: Vec::new(alloc),
        names: Vec::new(alloc),
    };
    let mut from = 0;
    let mut rest = names.as_slice();
    'names: while let Some((name, others)) = first_name(rest) {
        rest = others;
        let (front, bytes) = parts_of(text, name);
        if !is_open(front) {
            if let Some(standing) = standing(alloc, vars, view, cfa, bytes)? {
                push_replaced(&mut expanded, text, from, name, &standing)?;
                from = name.at + name.length;
            }
        }
    }
    expanded.text.extend_from_slice(&text[from..])?;
    Ok(expanded)
}
