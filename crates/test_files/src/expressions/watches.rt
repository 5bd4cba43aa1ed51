// Texts that ask for bytes to be watched.
use cond_expr::ExprFault;
use elf_symbols::Symbols;
use std::alloc::Global;
use test_rows::Piece::{Hex, Number, Text, Whether};
use test_rows::{RowFault, told};
use watch_points::{WatchError, WatchFault, watch_of};

fn told_fault(alloc: Global, fault: WatchFault) -> Result<String, RowFault> {
    match fault {
        WatchFault::Expr(ExprFault { kind, at }) => {
            Ok(format!(in alloc; "{kind:?} at {at}: {fault}")?)
        }
        WatchFault::Form | WatchFault::Value => Ok(format!(in alloc; "{fault:?}: {fault}")?),
    }
}

/// The address, the size and whether there is a sign, of what a text asks for; or why nothing is watched.
pub fn watched(alloc: Global, names: &Symbols, text: &[u8]) -> Result<String, RowFault> {
    match watch_of(alloc, text, names) {
        Ok(found) => told(
            alloc,
            &[
                Hex(found.address),
                Text(" "),
                Number(found.size),
                Text(" "),
                Whether(found.signed),
            ],
        ),
        Err(WatchError::Fault(fault)) => told_fault(alloc, fault),
        Err(WatchError::NoMemory) => Err(RowFault::NoMemory),
    }
}

/// What is told where memory runs out.
pub fn told_want(alloc: Global) -> Result<String, RowFault> {
    Ok(format!(in alloc; "{}", WatchError::NoMemory)?)
}
