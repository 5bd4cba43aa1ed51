//! The variables that can be seen at an address.

ghost use Rattle.std.specs.Prelude.{◌≡◌, ◌<◌, ◌+◌, ◌==◌, ◌++◌, ◌∷◌, [], IfOk, None, OnOk, Some, true, false, drop, filter, find, if◌then◌else◌, length, map};
ghost use Rattle.debug_info.specs.Entries.{entry_list};
ghost use Rattle.debug_info.specs.Marks.{IsMarkSplit, IsUnit, all_reread, entries_in, is_entered_mark, is_in_unit, is_outer, is_own_mark, mark_of, outer_marks, reread_in};
ghost use Rattle.debug_info.specs.Rising.{IsCount, RisesFrom};
ghost use Rattle.debug_info.specs.Scope.{from_offset, is_fixed, is_modifier, is_within, kind_of, name_of, own_entries, own_kind, place_in, type_entry, variable_of, variables_in};
ghost use Rattle.debug_info.specs.Shown.{AreTexts, is_below, seen_texts, shown_variable, shown_variables};

use crate::entry::{Entry, Kind, LEVELS, Range, Tag};
use crate::expression::{Base, Place};
use crate::form::TextPlace;
use crate::mark::{Mark, Unit};
use crate::text_lengths::TextLengths;
use dbg_traits::NoMemory;
use leb_read::text_from;
use std::alloc::Global;

/// A variable that can be seen.
#[derive(Clone, Copy)]
pub struct Var<'a> {
    pub name: &'a [u8],
    pub place: Place,
    /// What a place in the frame is relative to.
    pub base: Base,
    pub kind: Kind,
    /// Whether it is a parameter.
    pub argument: bool,
    /// Whether it is the function's; the unit's own variables are there for names alone.
    pub listed: bool,
}

/// The sections that names stand in.
#[derive(Clone, Copy)]
pub struct Texts<'a> {
    pub info: &'a [u8],
    pub strs: &'a [u8],
    pub lengths: &'a TextLengths,
}

/// How many typedefs, consts and volatiles are followed.
const LINKS: usize = 16;

fn name_of<'a>(texts: &Texts<'a>, place: Option<TextPlace>) -> &'a [u8]
    requires { AreTexts texts.now }
    ensures { result.now ≡ name_of (seen_texts texts.now) place }
{
    match place {
        None => &[],
        Some(TextPlace::Inline(offset)) => text_from(texts.info, offset.at as usize),
        Some(TextPlace::Shared(offset)) => texts.lengths.text(texts.strs, offset.at as usize),
    }
}

// How many marks stand before an offset.
fn count_before(marks: &[Mark], offset: u32) -> usize
    requires { RisesFrom 0 marks.now }
    ensures { IsCount marks.now offset result }
{
    marks.partition_point(|mark| mark.offset < offset)
}

// The mark with an offset.
fn mark_with(marks: &[Mark], offset: u32) -> Option<Mark>
    requires { RisesFrom 0 marks.now }
    ensures { result ≡ find (λ m. m.offset == offset) marks.now }
{
    let count = count_before(marks, offset);
    if count < marks.len() && marks[count].offset == offset {
        Some(marks[count])
    } else {
        None
    }
}

// The entry at an offset from the unit's beginning.
fn type_entry(unit: &Unit<'_>, offset: Option<u32>) -> Option<Entry>
    requires { IsUnit unit.now }
    ensures { result ≡ type_entry (entries_in unit.now) offset }
{
    match offset {
        None => None,
        Some(offset) => match mark_with(unit.marks, offset) {
            None => None,
            Some(mark) => unit.entry(mark),
        },
    }
}

fn is_modifier(tag: Tag) -> bool
    ensures { result ≡ is_modifier tag }
{
    matches!(tag, Tag::Typedef | Tag::Const | Tag::Volatile)
}

fn own_kind(tag: Tag, basic: Kind) -> Kind
    ensures { result ≡ own_kind tag basic }
{
    match tag {
        Tag::BaseType => basic,
        Tag::Pointer => Kind::Pointer,
        _ => Kind::Other,
    }
}

// The kind of a type.
fn kind_of(unit: &Unit<'_>, entry: Option<Entry>) -> Kind
    requires { IsUnit unit.now }
    ensures { result ≡ kind_of 16 (entries_in unit.now) entry }
{
    let mut links = LINKS;
    let mut entry = entry;
    'links: while let Some(found) = entry {
        if links == 0 || !is_modifier(found.tag) {
            return own_kind(found.tag, found.basic);
        }
        links -= 1;
        entry = type_entry(unit, found.type_of);
    }
    Kind::Other
}

fn place_in(base: Base, place: Place) -> Place
    ensures { result ≡ place_in base place }
{
    match (base, place) {
        (Base::Other, Place::Frame(_)) => Place::Absent,
        _ => place,
    }
}

fn variable_of<'a>(
    texts: &Texts<'a>,
    unit: &Unit<'_>,
    base: Base,
    listed: bool,
    entry: &Entry,
) -> Var<'a>
    requires texts { AreTexts texts.now }
    requires unit { IsUnit unit.now }
    ensures { shown_variable result ≡ variable_of (seen_texts texts.now) (entries_in unit.now) base listed entry.now }
{
    Var {
        name: name_of(texts, entry.name),
        kind: kind_of(unit, type_entry(unit, entry.type_of)),
        place: place_in(base, entry.place),
        base,
        argument: entry.tag == Tag::Parameter,
        listed,
    }
}

fn is_within(pc: u32, range: Option<Range>) -> bool
    ensures { result ≡ is_within pc range }
{
    match range {
        None => false,
        Some(range) => range.low <= pc && u64::from(pc) < range.end,
    }
}

// Whether a mark is that of a block that covers pc.
fn is_entered(unit: &Unit<'_>, pc: u32, mark: &Mark) -> bool
    requires { IsUnit unit.now }
    ensures { result ≡ is_entered_mark unit.now pc mark.now }
{
    if mark.tag != Tag::Block {
        return false;
    }
    match unit.entry(*mark) {
        Some(entry) => is_within(pc, entry.range),
        None => false,
    }
}

// The parameters and variables of a function and of its blocks that cover pc, in the section's order. The marks behind the
// function's begin with a number.
fn own_marks(
    alloc: Global,
    unit: &Unit<'_>,
    pc: u32,
    function: u8,
    number: usize,
    behind: &[Mark],
) -> Result<Vec<Mark>, NoMemory>
    requires unit { IsUnit unit.now }
    requires behind { behind.now ≡ drop number unit.now.marks.now }
    ensures { IfOk result (λ found. found.items ≡ map mark_of (own_entries pc function (drop number (entries_in unit.now)))) }
{
    let _number = number;
    let mut found = Vec::new(alloc);
    let mut shut = None;
    for mark in behind {
        if mark.level <= function {
            return Ok(found);
        }
        if !is_below(shut, mark.level) {
            let entered = is_entered(unit, pc, mark);
            shut = shut_by(entered, mark.level);
            push_named(&mut found, entered, mark)?;
        }
    }
    Ok(found)
}

// Whether what stands at a level is in the entry that is shut, if there is one.
fn is_below(shut: Option<u8>, level: u8) -> bool
    ensures { result ≡ is_below shut level }
{
    match shut {
        None => false,
        Some(shut) => shut < level,
    }
}

// The level of an entry that isn't entered.
fn shut_by(entered: bool, level: u8) -> Option<u8>
    ensures { result ≡ (if entered then None else Some level) }
{
    if entered { None } else { Some(level) }
}

// Adds a parameter or variable that has a name.
fn push_named(found: &mut Vec<Mark>, entered: bool, mark: &Mark) -> Result<(), NoMemory>
    ensures { OnOk result (found.new.items ≡ found.old.items ++ filter (is_own_mark entered) (mark.now ∷ [])) }
{
    if !entered && mark.is_named && matches!(mark.tag, Tag::Parameter | Tag::Variable) {
        found.push(*mark)?;
    }
    Ok(())
}

// Adds the variable of a mark.
fn push_variable<'a>(
    variables: &mut Vec<Var<'a>>,
    texts: &Texts<'a>,
    unit: &Unit<'_>,
    base: Base,
    mark: &Mark,
) -> Result<(), NoMemory>
    requires texts { AreTexts texts.now }
    requires unit { IsUnit unit.now }
    ensures { OnOk result (shown_variables variables.new.items ≡ shown_variables variables.old.items ++ map (variable_of (seen_texts texts.now) (entries_in unit.now) base true) (entry_list (reread_in unit.now mark.now))) }
{
    if let Some(entry) = unit.entry(*mark) {
        variables.push(variable_of(texts, unit, base, true, &entry))?;
    }
    Ok(())
}

// Adds the variables of a level.
fn push_level<'a>(
    variables: &mut Vec<Var<'a>>,
    texts: &Texts<'a>,
    unit: &Unit<'_>,
    base: Base,
    own: &[Mark],
    level: u8,
) -> Result<(), NoMemory>
    requires texts { AreTexts texts.now }
    requires unit { IsUnit unit.now }
    ensures { OnOk result (shown_variables variables.new.items ≡ shown_variables variables.old.items ++ map (variable_of (seen_texts texts.now) (entries_in unit.now) base true) (all_reread unit.now (filter (λ m. m.level == level) own.now))) }
{
    for mark in own {
        if mark.level == level {
            push_variable(variables, texts, unit, base, mark)?;
        }
    }
    Ok(())
}

// Whether a mark may be that of a variable of the unit.
fn is_outer(in_unit: bool, mark: &Mark) -> bool
    ensures { result ≡ is_outer in_unit mark.now }
{
    in_unit && mark.level == 2 && mark.is_named && mark.tag == Tag::Variable
}

// Whether the entry of a unit is the parent of what stands at level 2 behind a mark, by whether it was before.
fn is_in_unit(before: bool, mark: &Mark) -> bool
    ensures { result ≡ is_in_unit before mark.now }
{
    if mark.level < 2 {
        mark.tag == Tag::Unit
    } else {
        before
    }
}

// Adds the variable of a mark, where it has a fixed place.
fn push_fixed<'a>(
    variables: &mut Vec<Var<'a>>,
    texts: &Texts<'a>,
    unit: &Unit<'_>,
    base: Base,
    mark: &Mark,
) -> Result<(), NoMemory>
    requires texts { AreTexts texts.now }
    requires unit { IsUnit unit.now }
    ensures { OnOk result (shown_variables variables.new.items ≡ shown_variables variables.old.items ++ map (variable_of (seen_texts texts.now) (entries_in unit.now) base false) (filter (λ e. is_fixed e.place) (entry_list (reread_in unit.now mark.now)))) }
{
    if let Some(entry) = unit.entry(*mark) {
        if matches!(entry.place, Place::Fixed(_)) {
            variables.push(variable_of(texts, unit, base, false, &entry))?;
        }
    }
    Ok(())
}

// Adds the unit's own variables with a fixed place.
fn push_unit<'a>(
    variables: &mut Vec<Var<'a>>,
    texts: &Texts<'a>,
    unit: &Unit<'_>,
    base: Base,
) -> Result<(), NoMemory>
    requires texts { AreTexts texts.now }
    requires unit { IsUnit unit.now }
    ensures { OnOk result (shown_variables variables.new.items ≡ shown_variables variables.old.items ++ map (variable_of (seen_texts texts.now) (entries_in unit.now) base false) (filter (λ e. is_fixed e.place) (all_reread unit.now (outer_marks false unit.now.marks.now)))) }
{
    let mut in_unit = false;
    for mark in unit.marks {
        in_unit = is_in_unit(in_unit, mark);
        if is_outer(in_unit, mark) {
            push_fixed(variables, texts, unit, base, mark)?;
        }
    }
    Ok(())
}

// The first mark from a number on, and those behind it.
fn split(marks: &[Mark], number: usize) -> Option<(Mark, &[Mark])>
    ensures { IsMarkSplit marks.now number result }
{
    if marks.len() <= number {
        return None;
    }
    Some((marks[number], &marks[number + 1..]))
}

// The variables at pc of a function, whose mark has a number.
fn variables_of<'a>(
    alloc: Global,
    texts: &Texts<'a>,
    unit: &Unit<'_>,
    pc: u32,
    number: usize,
    function: &Entry,
    behind: &[Mark],
) -> Result<Vec<Var<'a>>, NoMemory>
    requires texts { AreTexts texts.now }
    requires unit { IsUnit unit.now }
    requires number { number < length unit.now.marks.now }
    requires behind { behind.now ≡ drop (number + 1) unit.now.marks.now }
    ensures { IfOk result (λ v. shown_variables v.items ≡ variables_in (seen_texts texts.now) pc (entries_in unit.now) (function.now ∷ drop (number + 1) (entries_in unit.now))) }
{
    let own = own_marks(alloc, unit, pc, function.level, number + 1, behind)?;
    let mut variables = Vec::with_capacity(alloc, own.len())?;
    let mut level = LEVELS;
    'levels: while level > 0 {
        push_level(&mut variables, texts, unit, function.base, &own, level)?;
        level -= 1;
    }
    push_unit(&mut variables, texts, unit, function.base)?;
    Ok(variables)
}

/// The variables at pc by the unit's entries, of which the function's stands at an offset.
pub fn variables_in<'a>(
    alloc: Global,
    texts: &Texts<'a>,
    unit: &Unit<'_>,
    pc: u32,
    offset: u32,
) -> Result<Vec<Var<'a>>, NoMemory>
    requires texts { AreTexts texts.now }
    requires unit { IsUnit unit.now }
    ensures { IfOk result (λ v. shown_variables v.items ≡ variables_in (seen_texts texts.now) pc (entries_in unit.now) (from_offset offset (entries_in unit.now))) }
{
    let number = count_before(unit.marks, offset);
    let Some((mark, behind)) = split(unit.marks, number) else {
        return Ok(Vec::new(alloc));
    };
    match unit.entry(mark) {
        Some(function) => variables_of(alloc, texts, unit, pc, number, &function, behind),
        None => Ok(Vec::new(alloc)),
    }
}
