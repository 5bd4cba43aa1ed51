//! The expression that a text with its names replaced spells.

ghost use Rattle.std.specs.Prelude.{◌≡◌, ◌<◌, ◌≤◌, length, Err};
ghost use Rattle.debug_info.specs.Shown.{shown_variables};
ghost use Rattle.var_expr.specs.Expanded.{standing};
ghost use Rattle.var_expr.specs.Parsed.{GivesParsed, moved_back, parsed_by, parsed_in, too_long};
ghost use Rattle.var_expr.specs.Places.{length_of, names_of, text_of};

use crate::expanded::Expanded;
use crate::replacing::expand;
use cond_expr::{Expr, ExprFault, FaultKind, ParseError, parse};
use dbg_traits::{NoMemory, View};
use debug_info::Var;
use elf_symbols::Symbols;
use std::alloc::Global;

/// The greatest length of an expression's text, in bytes.
const MAX_LENGTH: usize = 256;

impl Expanded {
    // A fault of the new text, at its place in the given one.
    fn moved_back(&self, fault: ExprFault) -> ExprFault
        requires { length_of self.now ≤ 256 }
        ensures { result ≡ moved_back (length_of self.now) (names_of self.now) fault }
    {
        ExprFault {
            at: self.place(fault.at as usize) as u32,
            ..fault
        }
    }

    /// The expression that the new text spells, with the names of these symbols, or its first fault, which has its place in
    /// the given text. It is `Long`, at 256, where the given text or the new one has more than 256 bytes, whatever else is
    /// wrong.
    pub fn parse(&self, alloc: Global, symbols: &Symbols) -> Result<Expr, ParseError>
        ensures given_long { 256 < length_of self.now → result ≡ Err (ParseError.Fault too_long) }
        ensures new_long { 256 < length (text_of self.now) → result ≡ Err (ParseError.Fault too_long) }
        ensures told { GivesParsed result (parsed_by symbols.now (length_of self.now) (names_of self.now) (text_of self.now)) }
    {
        if self.given_length > MAX_LENGTH || self.text.len() > MAX_LENGTH {
            return Err(ParseError::Fault(ExprFault {
                kind: FaultKind::Long,
                at: 256,
            }));
        }
        match parse(alloc, &self.text, symbols) {
            Ok(expression) => Ok(expression),
            Err(ParseError::NoMemory) => Err(ParseError::NoMemory),
            Err(ParseError::Fault(fault)) => Err(ParseError::Fault(self.moved_back(fault))),
        }
    }
}

/// The expression that a text spells with each name of a variable replaced by what stands for it, over the registers of a view
/// and the CFA of its frame, and with the names of these symbols; or the first fault, at its place in the given text.
pub fn parse_in<V: View>(
    alloc: Global,
    text: &[u8],
    vars: &[Var<'_>],
    view: &V,
    cfa: Option<u32>,
    symbols: &Symbols,
) -> Result<Expr, ParseError>
    ensures { GivesParsed result (parsed_in symbols.now (standing (V.registers view.now) cfa (shown_variables vars.now)) text.now) }
{
    match expand(alloc, text, vars, view, cfa) {
        Ok(expanded) => expanded.parse(alloc, symbols),
        Err(NoMemory) => Err(ParseError::NoMemory),
    }
}
