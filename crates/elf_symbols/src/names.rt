// Symbols by their names and by addresses.
ghost use Rattle.std.specs.Prelude.{◌≡◌, ◌+◌, ◌&&◌, IfOk, IfNone, IfSome, None, Some, [], true, false, filter, is_some, length, map, nat_le, nat_lt, option_and_then, slice_get, unwrap_or};
ghost use Rattle.std.specs.Option.{option_map, option_map_or};
ghost use Rattle.elf32_read.specs.Fields.{name_at, name_from, zero_end};
ghost use Rattle.elf_symbols.specs.Entries.{begins_by, entry_named, entry_nearer, entry_preferred, names_by, symbol_of};
ghost use Rattle.elf_symbols.specs.Lookups.{FindsBefore, IsAddressTable, IsLong, IsNameTable};
ghost use Rattle.elf_symbols.specs.Names.{address_of, best, bytes_before, covering, function_at, leading};
ghost use Rattle.elf_symbols.specs.Views.{symbol_shown};

use crate::entry::{STT_FUNC, SymbolEntry};
use elf32_read::fields::begins_with_name;
use memchr::memchr;
use std::alloc::{AllocError, Global};
use std::collections::BTreeMap;
use std::marker::Model;

/// Longer names aren't kept in the table by name, since a string table can have many long ones in one.
pub const MOST_KEPT: usize = 40;

/// So many bytes of a name are compared, since a line of input has no more.
const COMPARED: usize = 4096;

/// A symbol that was found.
#[derive(Clone, Copy)]
pub struct Named<'a> {
    /// Without its zero byte.
    pub name: &'a [u8],
    /// `st_value`.
    pub address: u32,
    /// `st_size`, in bytes; 0 says nothing.
    pub size: u32,
    /// Whether its type is `STT_FUNC`.
    pub is_function: bool,
}

/// The symbols of an image. Contracts see them as `Names`.
#[derive(Drop)]
pub struct Symbols {
    strings: Vec<u8>,
    /// In the symbol table's order.
    symbols: Vec<SymbolEntry>,
    functions: Vec<SymbolEntry>,
    /// The preferred entry of each name of at most 40 bytes.
    by_name: BTreeMap<Vec<u8>, SymbolEntry>,
    /// The function of the least name at each address.
    by_address: BTreeMap<u32, SymbolEntry>,
}

impl Model for Symbols {
    ghost use Rattle.elf_symbols.specs.Names.{Names};

    ghost Value = { Names };

    ghost use Rattle.elf_symbols.specs.Inside.{seen, IsKept};

    ghost view = { seen };

    ghost invariant = { IsKept };
}

/// The bytes up to the first zero byte, or none where there is no zero byte.
fn first_name(bytes: &[u8]) -> &[u8]
    ensures { result.now ≡ unwrap_or (name_from bytes.now) [] }
{
    match memchr(0, bytes) {
        Some(end) => &bytes[..end],
        None => &[],
    }
}

/// The bytes up to the first zero byte, where those are at most 40.
fn short_front(bytes: &[u8]) -> Option<&[u8]>
    ensures kept { IfSome result (λ name. name_from bytes.now ≡ Some name.now) }
    ensures passed { IfNone result (IsLong (name_from bytes.now)) }
{
    let searched = bytes.len().min(MOST_KEPT + 1);
    match memchr(0, &bytes[..searched]) {
        Some(end) => Some(&bytes[..end]),
        None => None,
    }
}

/// The name of an entry, where it has at most 40 bytes.
#[tactic(auto, unfolding(elf32_read::specs::Fields::name_at))]
pub fn short_name<'a>(strings: &'a [u8], entry: &SymbolEntry) -> Option<&'a [u8]>
    ensures kept { IfSome result (λ name. name_at strings.now entry.now.name ≡ Some name.now) }
    ensures passed { IfNone result (IsLong (name_at strings.now entry.now.name)) }
{
    let start = entry.name as usize;
    if start > strings.len() {
        return None;
    }
    short_front(&strings[start..])
}

#[tactic(auto, unfolding(elf32_read::specs::Fields::name_at))]
pub fn symbol_name<'a>(strings: &'a [u8], entry: &SymbolEntry) -> &'a [u8]
    ensures { result.now ≡ unwrap_or (name_at strings.now entry.now.name) [] }
{
    let start = entry.name as usize;
    if start < strings.len() {
        first_name(&strings[start..])
    } else {
        &[]
    }
}

/// The bytes up to the first zero byte, which must be there, but no more than are compared. No others are read.
fn leading_front(bytes: &[u8]) -> &[u8]
    requires { is_some (name_from bytes.now) ≡ true }
    ensures { result.now ≡ leading (unwrap_or (name_from bytes.now) []) }
{
    let searched = bytes.len().min(COMPARED);
    match memchr(0, &bytes[..searched]) {
        Some(end) => &bytes[..end],
        None => &bytes[..searched],
    }
}

/// What is compared of the name of an entry. The strings end their last name at `end`.
#[tactic(auto, using(crate::proofs::Proper::proper_names), unfolding(elf32_read::specs::Fields::name_at))]
fn leading_name<'a>(strings: &'a [u8], end: usize, entry: &SymbolEntry) -> &'a [u8]
    requires { end ≡ zero_end strings.now }
    ensures { result.now ≡ leading (unwrap_or (name_at strings.now entry.now.name) []) }
{
    let start = entry.name as usize;
    if start < end {
        leading_front(&strings[start..])
    } else {
        &[]
    }
}

/// Whether bytes come before others in their order.
fn comes_before(left: &[u8], right: &[u8]) -> bool
    ensures { result ≡ bytes_before left.now right.now }
{
    left.cmp(&right).is_lt()
}

pub fn is_preferred(a: &SymbolEntry, b: &SymbolEntry) -> bool
    ensures { result ≡ entry_preferred a.now b.now }
{
    a.address < b.address
        || (a.address == b.address && (a.kind == STT_FUNC && !(b.kind == STT_FUNC)))
}

pub fn is_nearer(strings: &[u8], end: usize, a: &SymbolEntry, b: &SymbolEntry) -> bool
    requires { end ≡ zero_end strings.now }
    ensures { result ≡ entry_nearer strings.now a.now b.now }
{
    b.address < a.address
        || (a.address == b.address
            && comes_before(leading_name(strings, end, a), leading_name(strings, end, b)))
}

#[tactic(auto, unfolding(elf32_read::specs::Fields::name_at))]
fn is_named(strings: &[u8], name: &[u8], entry: &SymbolEntry) -> bool
    ensures { result ≡ entry_named strings.now name.now entry.now }
{
    let start = entry.name as usize;
    start <= strings.len() && begins_with_name(&strings[start..], name)
}

/// The entry of a name: of the least address, and of equal ones a function. It goes over all symbols.
fn entry_of(strings: &[u8], symbols: &[SymbolEntry], name: &[u8]) -> Option<SymbolEntry>
    ensures { result ≡ best entry_preferred (filter (entry_named strings.now name.now) symbols.now) }
{
    let mut found: Option<SymbolEntry> = None;
    for entry in symbols {
        if is_named(strings, name, entry) {
            found = match found {
                Some(other) if !is_preferred(entry, &other) => Some(other),
                _ => Some(*entry),
            };
        }
    }
    found
}

/// The function that begins at an address or before it, nearest.
fn nearest(table: &BTreeMap<u32, SymbolEntry>, addr: u32) -> Option<SymbolEntry>
    ensures { FindsBefore table.now addr result }
{
    match table.range(..=addr).next_back() {
        Some((_, entry)) => Some(*entry),
        None => None,
    }
}

fn shown<'a>(strings: &'a [u8], entry: &SymbolEntry) -> Named<'a>
    ensures { symbol_shown result ≡ symbol_of strings.now entry.now }
{
    Named {
        name: symbol_name(strings, entry),
        address: entry.address,
        size: entry.size,
        is_function: entry.kind == STT_FUNC,
    }
}

/// The symbol of a name, by a search through all symbols.
fn look_up<'a>(strings: &'a [u8], symbols: &[SymbolEntry], name: &[u8]) -> Option<Named<'a>>
    ensures { option_map symbol_shown result ≡ option_map (symbol_of strings.now) (best entry_preferred (filter (entry_named strings.now name.now) symbols.now)) }
{
    match entry_of(strings, symbols, name) {
        Some(entry) => Some(shown(strings, &entry)),
        None => None,
    }
}

/// Whether an entry has a size and the address lies past it.
fn is_past(entry: &SymbolEntry, addr: u32) -> bool
    ensures { result ≡ (nat_lt 0 entry.now.size && nat_le (entry.now.address + entry.now.size) addr) }
{
    entry.size > 0 && entry.address as u64 + entry.size as u64 <= addr as u64
}

fn covering<'a>(strings: &'a [u8], found: Option<SymbolEntry>, addr: u32) -> Option<Named<'a>>
    ensures { option_map symbol_shown result ≡ option_and_then (covering addr) (option_map (symbol_of strings.now) found) }
{
    match found {
        Some(entry) if !is_past(&entry, addr) => Some(shown(strings, &entry)),
        _ => None,
    }
}

fn addresses(alloc: Global, entries: &[SymbolEntry]) -> Result<Vec<u32>, AllocError>
    ensures { IfOk result (λ v. v.items ≡ map (λ e. e.address) entries.now) }
{
    entries.iter().map(|e| e.address).collect(alloc)
}

impl Symbols {
    pub(crate) fn of(
        strings: Vec<u8>,
        symbols: Vec<SymbolEntry>,
        functions: Vec<SymbolEntry>,
        by_name: BTreeMap<Vec<u8>, SymbolEntry>,
        by_address: BTreeMap<u32, SymbolEntry>,
    ) -> Symbols
        requires by_name { IsNameTable strings.items symbols.items by_name }
        requires by_address { IsAddressTable strings.items functions.items by_address }
        ensures { result ≡ names_by strings.items symbols.items functions.items }
    {
        Symbols {
            strings,
            symbols,
            functions,
            by_name,
            by_address,
        }
    }

    /// The function that an address lies in: the nearest one that begins in text at the address or before it,
    /// unless it has a size and the address lies past it.
    pub fn function_at(&self, addr: u32) -> Option<Named<'_>>
        ensures { option_map symbol_shown result ≡ function_at self.now addr }
    {
        covering(&self.strings, nearest(&self.by_address, addr), addr)
    }

    /// The symbol of a name: of the least address, and of equal ones a function.
    pub fn address_of(&self, name: &[u8]) -> Option<Named<'_>>
        ensures { option_map symbol_shown result ≡ address_of self.now name.now }
    {
        if name.is_empty() {
            return None;
        }
        if name.len() > MOST_KEPT {
            return look_up(&self.strings, &self.symbols, name);
        }
        match self.by_name.get(name) {
            Some(entry) => Some(shown(&self.strings, entry)),
            None => None,
        }
    }

    /// Where the functions in text begin, in the symbol table's order. Its one error is out of memory.
    pub fn function_addresses(&self, alloc: Global) -> Result<Vec<u32>, AllocError>
        ensures { IfOk result (λ v. v.items ≡ map (λ s. s.address) self.now.functions) }
    {
        addresses(alloc, &self.functions)
    }
}
