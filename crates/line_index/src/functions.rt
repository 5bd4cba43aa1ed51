//! Where the functions in text begin.

ghost use Rattle.std.specs.Prelude.{◌≡◌, IfOk, map};
ghost use Rattle.line_index.specs.Order.{IsInOrder};

use crate::addresses::in_order;
use elf_symbols::Symbols;
use std::alloc::{AllocError, Global};

/// Where the functions in text begin.
#[derive(Drop)]
pub struct FunctionStarts {
    /// In the symbol table's order.
    pub functions: Vec<u32>,
    /// In the order of the addresses.
    pub starts: Vec<u32>,
}

/// Where the functions of a program begin.
pub fn function_starts(alloc: Global, symbols: &Symbols) -> Result<FunctionStarts, AllocError>
    ensures functions { IfOk result (λ t. t.functions.items ≡ map (λ s. s.address) symbols.now.functions) }
    ensures starts { IfOk result (λ t. IsInOrder t.functions.items t.starts.items) }
{
    let functions = symbols.function_addresses(alloc)?;
    let starts = in_order(Vec::from_slice(alloc, &functions)?);
    Ok(FunctionStarts { functions, starts })
}
