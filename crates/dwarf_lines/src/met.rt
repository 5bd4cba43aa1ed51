//! The names of the files of all units, in the order of the tables.

ghost use Rattle.std.specs.Prelude.{◌≡◌, ℕ, ◌+◌, [], ◌∷◌, Some, IfOk, length, map, min};
ghost use Rattle.leb_read.specs.Leb.{text_from};
ghost use Rattle.line_rows.specs.Sections.{Sections, sections_shown};
ghost use Rattle.dwarf_lines.specs.Met.{AreEnded, AreMet, Finds, Hold, Keeps, Meets, Opens, names_met};
ghost use Rattle.dwarf_lines.specs.Names.{name_in};

use dbg_traits::NoMemory;
use leb_read::text_from;
use line_headers::NamePlace;
use line_rows::{LineSections, RowsBuilder};
use std::alloc::Global;

/// Names as places in texts.
#[derive(Drop)]
pub struct MetNames {
    /// Texts one after another, each with a zero byte behind it: names, and the sections that have names.
    pub texts: Vec<u8>,
    /// Where each name begins, up to a zero byte.
    pub places: Vec<u32>,
    /// Where `.debug_line_str` begins in the texts, if a name stands in it.
    pub line_str: Option<u32>,
    /// Where `.debug_str` begins in the texts, if a name stands in it.
    pub strs: Option<u32>,
}

/// No names yet.
pub fn no_names(alloc: Global) -> MetNames
    ensures names { names_met result ≡ [] }
    ensures texts { result.texts.items ≡ [] }
    ensures met { (s : Sections) → AreMet s result }
{
    MetNames {
        texts: Vec::new(alloc),
        places: Vec::new(alloc),
        line_str: None,
        strs: None,
    }
}

/// A place or a count as a number of 32 bits, or want of memory.
pub fn narrow(place: usize) -> Result<u32, NoMemory>
    ensures { IfOk result (λ n. n ≡ place) }
{
    match u32::try_from(place) {
        Ok(place) => Ok(place),
        Err(_) => Err(NoMemory),
    }
}

// Keeps a text, and says where it begins.
fn keep(texts: &mut Vec<u8>, text: &[u8]) -> Result<u32, NoMemory>
    ensures { IfOk result (λ start. Keeps texts.old.items texts.new.items text.now start) }
{
    let start = narrow(texts.len())?;
    texts.extend_from_slice(text)?;
    texts.push(0)?;
    Ok(start)
}

// Where a section begins in the texts, which it does from the first time on.
fn open(texts: &mut Vec<u8>, start: Option<u32>, section: &[u8]) -> Result<u32, NoMemory>
    requires ended { AreEnded texts.old.items }
    requires known { (at : ℕ) → start ≡ Some at → Hold texts.old.items section.now at }
    ensures { IfOk result (λ start. Opens texts.old.items texts.new.items section.now start) }
{
    match start {
        Some(start) => Ok(start),
        None => keep(texts, section),
    }
}

// A place within a section or at its end, where the same text stands.
fn place_in(start: u32, at: usize, size: usize) -> Result<u32, NoMemory>
    ensures { IfOk result (λ place. place ≡ start + min at size) }
{
    narrow((start as usize).saturating_add(at.min(size)))
}

// Where a name in `.debug_line_str` stands in the texts.
fn find_line_str(
    sections: &LineSections<'_>,
    at: usize,
    met: &mut MetNames,
) -> Result<u32, NoMemory>
    requires { AreMet (sections_shown sections.now) met.old }
    ensures { IfOk result (λ found. Finds (sections_shown sections.now) met.old met.new (text_from sections.now.line_str.now at) found) }
{
    let start = open(&mut met.texts, met.line_str, sections.line_str)?;
    met.line_str = Some(start);
    place_in(start, at, sections.line_str.len())
}

// Where a name in `.debug_str` stands in the texts.
fn find_str(sections: &LineSections<'_>, at: usize, met: &mut MetNames) -> Result<u32, NoMemory>
    requires { AreMet (sections_shown sections.now) met.old }
    ensures { IfOk result (λ found. Finds (sections_shown sections.now) met.old met.new (text_from sections.now.strs.now at) found) }
{
    let start = open(&mut met.texts, met.strs, sections.strs)?;
    met.strs = Some(start);
    place_in(start, at, sections.strs.len())
}

// Where a text stands that is a name up to its first zero byte. An empty one costs nothing: it stands at the last zero byte.
fn find_text(sections: &LineSections<'_>, text: &[u8], met: &mut MetNames) -> Result<u32, NoMemory>
    requires { AreMet (sections_shown sections.now) met.old }
    ensures { IfOk result (λ found. Finds (sections_shown sections.now) met.old met.new (text_from text.now 0) found) }
{
    if text.is_empty() && !met.texts.is_empty() {
        return narrow(met.texts.len() - 1);
    }
    keep(&mut met.texts, text)
}

// Where the name at a place stands in the texts.
fn find(sections: &LineSections<'_>, place: NamePlace, met: &mut MetNames) -> Result<u32, NoMemory>
    requires { AreMet (sections_shown sections.now) met.old }
    ensures { IfOk result (λ found. Finds (sections_shown sections.now) met.old met.new (name_in (sections_shown sections.now) place) found) }
{
    match place {
        NamePlace::Empty => find_text(sections, &[], met),
        NamePlace::Line(at) => find_text(sections, text_from(sections.line, at as usize), met),
        NamePlace::LineStr(at) => find_line_str(sections, at as usize, met),
        NamePlace::Str(at) => find_str(sections, at as usize, met),
    }
}

// The name at a place comes behind the others.
fn push(sections: &LineSections<'_>, place: NamePlace, met: &mut MetNames) -> Result<(), NoMemory>
    requires { AreMet (sections_shown sections.now) met.old }
    ensures { IfOk result (λ _. Meets (sections_shown sections.now) met.old met.new (name_in (sections_shown sections.now) place ∷ [])) }
{
    let found = find(sections, place, met)?;
    met.places.push(found)?;
    Ok(())
}

/// The names of the files of a header come behind the others.
pub fn push_files(
    sections: &LineSections<'_>,
    files: &[NamePlace],
    met: &mut MetNames,
) -> Result<(), NoMemory>
    requires { AreMet (sections_shown sections.now) met.old }
    ensures { IfOk result (λ _. Meets (sections_shown sections.now) met.old met.new (map (name_in (sections_shown sections.now)) files.now)) }
{
    for place in files {
        push(sections, *place, met)?;
    }
    Ok(())
}

// A name up to its first zero byte comes behind the others.
fn push_name(sections: &LineSections<'_>, name: &[u8], met: &mut MetNames) -> Result<(), NoMemory>
    requires { AreMet (sections_shown sections.now) met.old }
    ensures { IfOk result (λ _. Meets (sections_shown sections.now) met.old met.new (text_from name.now 0 ∷ [])) }
{
    let found = find_text(sections, text_from(name, 0), met)?;
    met.places.push(found)?;
    Ok(())
}

/// The names of the files that the program of the unit that is being read defines come behind the others.
pub fn push_defined(
    sections: &LineSections<'_>,
    rows: &RowsBuilder,
    met: &mut MetNames,
) -> Result<(), NoMemory>
    requires { AreMet (sections_shown sections.now) met.old }
    ensures { IfOk result (λ _. Meets (sections_shown sections.now) met.old met.new (map (λ name. text_from name 0) rows.now.unit.names)) }
{
    for k in 0..rows.name_count() {
        push_name(sections, rows.name(k), met)?;
    }
    Ok(())
}
