// Expressions, and what they are worth.
ghost use Rattle.std.specs.Prelude.{◌+◌, ◌%◌, ◌==◌, ◌&&◌, ◌||◌, nat_le, nat_lt, Some, None, if◌then◌else◌};

use cond_expr::{Expr, ExprFault, ParseError, parse, value};
use dbg_traits::View;
use elf_symbols::Symbols;
use std::alloc::Global;
use test_rows::RowFault;

/// Each register holds 100 and its number; the bytes from 4096 to 4103, and the last of all, are 128 and the low four bits of the address.
struct Numbered;

impl View for Numbered {
    ghost registers = { λ _ n. 100 + n };

    ghost bytes = { λ _ addr. if nat_le 4096 addr && (nat_lt addr 4104 || addr == 4294967295) then Some (128 + addr % 16) else None };

    fn reg(&self, n: u32) -> u32 {
        100 + n
    }

    fn byte(&self, addr: u32) -> Option<u8> {
        if addr >= 4096 && (addr < 4104 || addr == 0xFFFF_FFFF) {
            Some(128 + (addr % 16) as u8)
        } else {
            None
        }
    }
}

/// The value of a text, or its first fault and the fault's place.
pub fn worth(alloc: Global, names: &Symbols, text: &[u8]) -> Result<String, RowFault> {
    match parse(alloc, text, names) {
        Ok(e) => told_value(alloc, &e, text),
        Err(ParseError::Fault(fault)) => told_fault(alloc, fault),
        Err(ParseError::NoMemory) => Err(RowFault::NoMemory),
    }
}

fn told_value(alloc: Global, e: &Expr, text: &[u8]) -> Result<String, RowFault> {
    let value = value(e, &Numbered);
    let which = if e.text() == text {
        ""
    } else {
        " of another text"
    };
    Ok(format!(in alloc; "{value:?}{which}")?)
}

/// A fault and its place.
pub fn told_fault(alloc: Global, fault: ExprFault) -> Result<String, RowFault> {
    let (kind, at) = (fault.kind, fault.at);
    Ok(format!(in alloc; "{kind:?} at {at}")?)
}
