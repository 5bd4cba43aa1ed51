// The symbol table of an image, and its names.
ghost use Rattle.std.specs.Prelude.{◌≡◌, IfOk, [], filter, slice_get};
ghost use Rattle.std.specs.Option.{option_map, option_map_or};
ghost use Rattle.elf32_read.specs.Views.{section_shown, unnamed};
ghost use Rattle.elf_symbols.specs.Entries.{is_code, names_of, strings_of, symbol_bytes, symbol_names, symbol_table};

use crate::entry::{STT_FUNC, SymbolEntry, counted_entries};
use crate::lookups::{address_table, name_table};
use crate::names::Symbols;
use dbg_traits::NoMemory;
use elf32_read::fields::zero_end;
use elf32_read::{Image, SectionView};
use std::alloc::{AllocError, Global};

/// `sh_type` of a symbol table and of a string table (gABI, Section Header).
const SHT_SYMTAB: u32 = 2;

const SHT_STRTAB: u32 = 3;

/// The first symbol table of an image.
fn table_of(image: &Image) -> Option<SectionView<'_>>
    ensures { option_map section_shown result ≡ option_map unnamed (symbol_table image.now) }
{
    for k in 0..image.section_count() {
        let section = image.section_at(k);
        if section.kind == SHT_SYMTAB {
            return Some(section);
        }
    }
    None
}

/// The bytes of a string table by its number, and nothing in place of another section.
fn strings_at(image: &Image, number: u32) -> &[u8]
    ensures { result.now ≡ option_map_or strings_of (slice_get image.now.sections number) [] }
{
    let k = number as usize;
    if k >= image.section_count() {
        return &[];
    }
    let section = image.section_at(k);
    if section.kind == SHT_STRTAB {
        section.bytes
    } else {
        &[]
    }
}

fn symbol_bytes(image: &Image) -> &[u8]
    ensures { result.now ≡ symbol_bytes image.now }
{
    match table_of(image) {
        Some(table) => table.bytes,
        None => &[],
    }
}

fn symbol_strings(image: &Image) -> &[u8]
    ensures { result.now ≡ symbol_names image.now }
{
    match table_of(image) {
        Some(table) => strings_at(image, table.link),
        None => &[],
    }
}

/// The functions whose address is in text.
fn code_entries(
    alloc: Global,
    image: &Image,
    counted: &[SymbolEntry],
) -> Result<Vec<SymbolEntry>, AllocError>
    ensures { IfOk result (λ v. v.items ≡ filter (is_code image.now) counted.now) }
{
    counted
        .iter()
        .filter(|e| is_code(image, e))
        .copied()
        .collect(alloc)
}

fn is_code(image: &Image, entry: &SymbolEntry) -> bool
    ensures { result ≡ is_code image.now entry.now }
{
    entry.kind == STT_FUNC && image.in_text(entry.address)
}

/// The symbols of an image: those of its first symbol table that have a section and a name, and none without a table.
/// Its one error is out of memory.
pub fn symbols(alloc: Global, image: &Image) -> Result<Symbols, NoMemory>
    ensures { IfOk result (λ s. s ≡ names_of image.now) }
{
    let strings = symbol_strings(image);
    let end = zero_end(strings);
    let symbols = counted_entries(alloc, symbol_bytes(image), strings, end)?;
    let functions = code_entries(alloc, image, &symbols)?;
    let by_name = name_table(alloc, strings, &symbols)?;
    let by_address = address_table(alloc, strings, end, &functions)?;
    let strings = Vec::from_slice(alloc, strings)?;
    Ok(Symbols::of(strings, symbols, functions, by_name, by_address))
}
