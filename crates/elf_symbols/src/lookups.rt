// The tables of the look-ups.
ghost use Rattle.std.specs.Prelude.{◌≡◌, OnOk, IfOk, Some};
ghost use Rattle.elf32_read.specs.Fields.{zero_end};
ghost use Rattle.elf_symbols.specs.Entries.{entry_preferred};
ghost use Rattle.elf_symbols.specs.Lookups.{AddsAddress, AddsName, IsAddressTable, IsNameTable};
ghost use Rattle.elf_symbols.specs.Names.{better};

use crate::entry::SymbolEntry;
use crate::names::{is_nearer, is_preferred, short_name};
use std::alloc::{AllocError, Global};
use std::collections::BTreeMap;

/// The entry that is preferred to the one that was there, or that one.
fn preferred(entry: SymbolEntry, kept: SymbolEntry) -> SymbolEntry
    ensures { Some result ≡ better entry_preferred (Some kept) entry }
{
    if is_preferred(&entry, &kept) {
        entry
    } else {
        kept
    }
}

/// Puts an entry at its name, unless the one that is there is preferred or equal, or the name isn't kept.
fn put_name(
    alloc: Global,
    table: &mut BTreeMap<Vec<u8>, SymbolEntry>,
    strings: &[u8],
    entry: &SymbolEntry,
) -> Result<(), AllocError>
    ensures { OnOk result (AddsName strings.now entry.now table.old table.new) }
{
    let Some(name) = short_name(strings, entry) else {
        return Ok(());
    };
    let kept = table
        .entry(Vec::from_slice(alloc, name)?)?
        .or_insert(*entry);
    *kept = preferred(*entry, *kept);
    Ok(())
}

/// Puts a function at its address, unless what is compared of the name of the one that is there is less or the same.
/// The strings end their last name at `end`.
fn put_address(
    table: &mut BTreeMap<u32, SymbolEntry>,
    strings: &[u8],
    end: usize,
    entry: &SymbolEntry,
) -> Result<(), AllocError>
    requires { end ≡ zero_end strings.now }
    ensures { OnOk result (AddsAddress strings.now entry.now table.old table.new) }
{
    match table.get(&entry.address) {
        Some(other) if !is_nearer(strings, end, entry, other) => Ok(()),
        _ => {
            table.insert(entry.address, *entry)?;
            Ok(())
        }
    }
}

/// The preferred entry of each name of at most 40 bytes.
pub fn name_table(
    alloc: Global,
    strings: &[u8],
    symbols: &[SymbolEntry],
) -> Result<BTreeMap<Vec<u8>, SymbolEntry>, AllocError>
    ensures { IfOk result (λ table. IsNameTable strings.now symbols.now table) }
{
    let mut table = BTreeMap::new(alloc);
    for entry in symbols {
        put_name(alloc, &mut table, strings, entry)?;
    }
    Ok(table)
}

/// The function of the least name at each address.
pub fn address_table(
    alloc: Global,
    strings: &[u8],
    end: usize,
    functions: &[SymbolEntry],
) -> Result<BTreeMap<u32, SymbolEntry>, AllocError>
    requires { end ≡ zero_end strings.now }
    ensures { IfOk result (λ table. IsAddressTable strings.now functions.now table) }
{
    let mut table = BTreeMap::new(alloc);
    for entry in functions {
        put_address(&mut table, strings, end, entry)?;
    }
    Ok(table)
}
