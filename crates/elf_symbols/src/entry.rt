// An entry of a symbol table.
ghost use Rattle.std.specs.Prelude.{◌≡◌, ◌+◌, ◌*◌, ◌<◌, ◌≤◌, ◌&&◌, ◌==◌, IfOk, length, filter};
ghost use Rattle.elf32_read.specs.Fields.{name_at, zero_end};
ghost use Rattle.elf_symbols.specs.Entries.{all_entries, is_counted, is_proper, symbol_entry};

use elf32_read::fields::{u16_at, u32_at};
use std::alloc::{AllocError, Global};

/// The size of an entry of a symbol table.
pub const ENTRY_SIZE: usize = 16;

/// The type of a function in `st_info`, and the greatest of the types that count: nothing said, an object, a function
/// (gABI, Symbol Table).
pub const STT_FUNC: u8 = 2;

/// The number of no section, in `st_shndx`.
const SHN_UNDEF: u16 = 0;

/// An entry of a symbol table (gABI, Symbol Table).
#[derive(Clone, Copy)]
pub struct SymbolEntry {
    /// `st_name`: where the name begins in the string table.
    pub name: u32,
    /// `st_value`.
    pub address: u32,
    /// `st_size`, in bytes.
    pub size: u32,
    /// The type in `st_info`: 0 nothing said, 1 an object, 2 a function.
    pub kind: u8,
    /// `st_shndx`: the number of its section; 0 is none.
    pub section: u16,
}

impl SymbolEntry {
    pub fn read(bytes: &[u8], at: usize) -> SymbolEntry
        requires { at + ENTRY_SIZE ≤ length bytes.now }
        ensures { result ≡ symbol_entry bytes.now at }
    {
        SymbolEntry {
            name: u32_at(bytes, at),
            address: u32_at(bytes, at + 4),
            size: u32_at(bytes, at + 8),
            kind: bytes[at + 12] % 16,
            section: u16_at(bytes, at + 14),
        }
    }
}

/// Whether a name in the strings, which end their last name at `end`, is neither empty nor begins with `$`.
#[tactic(auto, using(crate::proofs::Proper::proper_names))]
fn is_proper(strings: &[u8], end: usize, at: u32) -> bool
    requires { end ≡ zero_end strings.now }
    ensures { result ≡ is_proper (name_at strings.now at) }
{
    let start = at as usize;
    if start >= end {
        return false;
    }
    let first = strings[start];
    first != 0 && first != b'$'
}

fn is_counted(strings: &[u8], end: usize, entry: &SymbolEntry) -> bool
    requires { end ≡ zero_end strings.now }
    ensures { result ≡ is_counted strings.now entry.now }
{
    (entry.kind <= STT_FUNC && entry.section != SHN_UNDEF) && is_proper(strings, end, entry.name)
}

/// The entries of a table that count, in its order.
pub fn counted_entries(
    alloc: Global,
    table: &[u8],
    strings: &[u8],
    end: usize,
) -> Result<Vec<SymbolEntry>, AllocError>
    requires { end ≡ zero_end strings.now }
    ensures { IfOk result (λ v. v.items ≡ filter (is_counted strings.now) (all_entries table.now)) }
{
    let mut counted = Vec::new(alloc);
    for k in 0..table.len() / ENTRY_SIZE {
        let entry = SymbolEntry::read(table, ENTRY_SIZE * k);
        if is_counted(strings, end, &entry) {
            counted.push(entry)?;
        }
    }
    Ok(counted)
}
