//! What the units of a section give (DWARF 4, section 7.5.1.1).

ghost use Rattle.std.specs.Prelude.{◌≡◌, ◌≤◌, ◌+◌, ◌-◌, ◌++◌, All, IfOk, OnOk, find, length, map, nat_lt};
ghost use Rattle.std.specs.List.{flat_map};
ghost use Rattle.debug_info.specs.Contents.{IsSpan, all_faults, entries_given, fault_list, spans_of};
ghost use Rattle.debug_info.specs.Entries.{Gives, IfRead};
ghost use Rattle.debug_info.specs.Functions.{all_functions, functions_read};
ghost use Rattle.debug_info.specs.Info.{info_of, texts_of, variables_at};
ghost use Rattle.debug_info.specs.Marks.{GivesMarks};
ghost use Rattle.debug_info.specs.Order.{AreTurns};
ghost use Rattle.debug_info.specs.Rising.{RisesFrom};
ghost use Rattle.debug_info.specs.Scope.{from_offset, variables_in};
ghost use Rattle.debug_info.specs.Shown.{AreTexts, given, reading_shown, seen_texts, shown_variables};
ghost use Rattle.debug_info.specs.Sources.{IsSource};
ghost use Rattle.debug_info.specs.Tables.{IsTable};
ghost use Rattle.debug_info.specs.Units.{unit_entries};

use crate::fault::{InfoError, UnitFault};
use crate::functions::functions_at;
use crate::header::{Span, Spans, fault_at, header_at, spans_of};
use crate::mark::{Mark, Unit, marks_at};
use crate::offset::Source;
use crate::order::{Turn, turns_of};
use crate::scope::{Texts, Var, variables_in};
use crate::tables::Table;
use address_tables::AddressRange;
use dbg_traits::NoMemory;
use std::alloc::Global;

/// What was read of a unit: its functions, or its fault.
#[derive(Drop)]
pub struct Reading {
    pub functions: Vec<AddressRange<u32>>,
    pub fault: Option<UnitFault>,
}

/// What the units of a section give: where they stand, their functions and their faults, each in the section's order.
#[derive(Drop)]
pub struct Contents {
    pub units: Vec<Span>,
    pub functions: Vec<AddressRange<u32>>,
    pub faults: Vec<UnitFault>,
}

// The marks of the unit at a place, whose bytes end with the section's. The table moves to its abbreviations.
#[tactic(auto, unfolding(crate::specs::Units::unit_entries))]
fn unit_marks(
    alloc: Global,
    source: &Source<'_>,
    at: usize,
    table: &mut Table,
) -> Result<Vec<Mark>, InfoError>
    requires source { IsSource source.now }
    requires within { at + 4 ≤ length source.now.info.now }
    requires table { IsTable source.now.abbrevs.now table.old }
    ensures table { IfRead result (IsTable source.now.abbrevs.now table.new) }
    ensures rising { IfOk result (λ v. RisesFrom 0 v.items) }
    ensures value { GivesMarks source.now.abbrevs.now source.now.strs.now source.now.info.now table.new.at at result (unit_entries source.now.abbrevs.now source.now.strs.now source.now.info.now at) }
{
    let (abbrevs, next) = header_at(source, at + 4)?;
    table.move_to(alloc, source.abbrevs, source.index, abbrevs)?;
    marks_at(alloc, source, table, at, next)
}

// The functions of the unit at a place, whose bytes end with the section's. The table moves to its abbreviations.
#[tactic(auto, unfolding(crate::specs::Units::unit_entries))]
fn unit_functions(
    alloc: Global,
    source: &Source<'_>,
    at: usize,
    table: &mut Table,
) -> Result<Vec<AddressRange<u32>>, InfoError>
    requires source { IsSource source.now }
    requires within { at + 4 ≤ length source.now.info.now }
    requires table { IsTable source.now.abbrevs.now table.old }
    ensures table { IfRead result (IsTable source.now.abbrevs.now table.new) }
    ensures value { Gives result (functions_read at (unit_entries source.now.abbrevs.now source.now.strs.now source.now.info.now at)) }
{
    let (abbrevs, next) = header_at(source, at + 4)?;
    table.move_to(alloc, source.abbrevs, source.index, abbrevs)?;
    functions_at(alloc, source, table, at, next)
}

// What is kept of a unit.
#[tactic(auto, using(crate::proofs::Listed::given_functions, crate::proofs::Listed::given_fault))]
fn reading_of(
    alloc: Global,
    source: &Source<'_>,
    span: &Span,
    table: &mut Table,
) -> Result<Reading, NoMemory>
    requires source { IsSource source.now }
    requires span { IsSpan source.now.info.now span.now }
    requires table { IsTable source.now.abbrevs.now table.old }
    ensures table { OnOk result (IsTable source.now.abbrevs.now table.new) }
    ensures value { IfOk result (λ reading. reading_shown reading ≡ given source.now.abbrevs.now source.now.strs.now source.now.info.now span.now) }
{
    let unit = Source {
        info: &source.info[..span.end],
        ..*source
    };
    match unit_functions(alloc, &unit, span.at, table) {
        Ok(functions) => Ok(Reading {
            functions,
            fault: None,
        }),
        Err(InfoError::Fault(fault)) => Ok(Reading {
            functions: Vec::new(alloc),
            fault: Some(fault_at(span.at, fault)),
        }),
        Err(InfoError::Memory) => Err(NoMemory),
    }
}

// The variables at pc of a function, by its unit, which is read again, and the place of its entry.
fn variables_of<'a>(
    alloc: Global,
    source: &Source<'_>,
    texts: &Texts<'a>,
    span: &Span,
    pc: u32,
    place: u32,
) -> Result<Vec<Var<'a>>, NoMemory>
    requires source { IsSource source.now }
    requires texts { AreTexts texts.now }
    requires span { IsSpan source.now.info.now span.now }
    ensures { IfOk result (λ v. shown_variables v.items ≡ variables_in (seen_texts texts.now) pc (entries_given source.now.abbrevs.now source.now.strs.now source.now.info.now span.now) (from_offset (place - span.now.at) (entries_given source.now.abbrevs.now source.now.strs.now source.now.info.now span.now))) }
{
    let mut table = Table::new(alloc, source.abbrevs);
    let unit = Source {
        info: &source.info[..span.end],
        ..*source
    };
    match unit_marks(alloc, &unit, span.at, &mut table) {
        Ok(marks) => {
            let unit = Unit {
                source: unit,
                table: &table,
                at: span.at,
                marks: &marks,
            };
            variables_in(
                alloc,
                texts,
                &unit,
                pc,
                place.saturating_sub(span.at as u32),
            )
        }
        Err(InfoError::Fault(_)) => Ok(Vec::new(alloc)),
        Err(InfoError::Memory) => Err(NoMemory),
    }
}

// The first unit that ends behind a place.
fn unit_with(units: &[Span], place: u32) -> Option<Span>
    ensures { result ≡ find (λ s. nat_lt place s.end) units.now }
{
    for span in units {
        if (place as usize) < span.end {
            return Some(*span);
        }
    }
    None
}

/// The variables at pc of the function whose entry stands at a place, by where the units stand.
pub fn variables_at<'a>(
    alloc: Global,
    source: &Source<'_>,
    texts: &Texts<'a>,
    units: &[Span],
    place: u32,
    pc: u32,
) -> Result<Vec<Var<'a>>, NoMemory>
    requires source { IsSource source.now }
    requires texts { AreTexts texts.now }
    requires units { All (IsSpan source.now.info.now) units.now }
    requires seen { seen_texts texts.now ≡ texts_of (info_of source.now.abbrevs.now source.now.strs.now source.now.info.now) }
    ensures { IfOk result (λ v. shown_variables v.items ≡ variables_at (info_of source.now.abbrevs.now source.now.strs.now source.now.info.now) pc place (find (λ s. nat_lt place s.end) units.now)) }
{
    match unit_with(units, place) {
        Some(span) => variables_of(alloc, source, texts, &span, pc, place),
        None => Ok(Vec::new(alloc)),
    }
}

// Places for what will be read of so many units.
fn unread(alloc: Global, count: usize) -> Result<Vec<Reading>, NoMemory>
    ensures { IfOk result (λ readings. length readings.items ≡ count) }
{
    let mut readings = Vec::with_capacity(alloc, count)?;
    'places: while readings.len() < count {
        readings.push(Reading {
            functions: Vec::new(alloc),
            fault: None,
        })?;
    }
    Ok(readings)
}

// Reads units in the order of their turns.
fn read_turns(
    alloc: Global,
    source: &Source<'_>,
    spans: &[Span],
    turns: &[Turn],
) -> Result<Vec<Reading>, NoMemory>
    requires source { IsSource source.now }
    requires spans { All (IsSpan source.now.info.now) spans.now }
    requires turns { AreTurns (length spans.now) turns.now }
    ensures { IfOk result (λ readings. map reading_shown readings.items ≡ map (given source.now.abbrevs.now source.now.strs.now source.now.info.now) spans.now) }
{
    let mut readings = unread(alloc, spans.len())?;
    let mut table = Table::new(alloc, source.abbrevs);
    for turn in turns {
        let number = turn.number;
        readings[number] = reading_of(alloc, source, &spans[number], &mut table)?;
    }
    Ok(readings)
}

// What is read of each unit. They are read in another order than theirs, so that tables of abbreviations which share
// their ends are read once.
fn readings_of(alloc: Global, source: &Source<'_>, spans: &[Span]) -> Result<Vec<Reading>, NoMemory>
    requires source { IsSource source.now }
    requires spans { All (IsSpan source.now.info.now) spans.now }
    ensures { IfOk result (λ readings. map reading_shown readings.items ≡ map (given source.now.abbrevs.now source.now.strs.now source.now.info.now) spans.now) }
{
    let turns = turns_of(alloc, source, spans)?;
    read_turns(alloc, source, spans, &turns)
}

// Adds the fault of a unit, if it has one.
fn push_fault(faults: &mut Vec<UnitFault>, fault: Option<UnitFault>) -> Result<(), NoMemory>
    ensures { OnOk result (faults.new.items ≡ faults.old.items ++ fault_list fault) }
{
    if let Some(fault) = fault {
        faults.push(fault)?;
    }
    Ok(())
}

// Adds what was read of units.
fn push_readings(
    functions: &mut Vec<AddressRange<u32>>,
    faults: &mut Vec<UnitFault>,
    readings: &[Reading],
) -> Result<(), NoMemory>
    ensures functions { OnOk result (functions.new.items ≡ functions.old.items ++ flat_map (λ r. r.functions.items) readings.now) }
    ensures faults { OnOk result (faults.new.items ≡ faults.old.items ++ flat_map (λ r. fault_list r.fault) readings.now) }
{
    for reading in readings {
        functions.extend_from_slice(&reading.functions)?;
        push_fault(faults, reading.fault)?;
    }
    Ok(())
}

/// What the units of the section give, each with its own fault or none.
pub fn contents_of(alloc: Global, source: &Source<'_>) -> Result<Contents, NoMemory>
    requires { IsSource source.now }
    ensures spans { IfOk result (λ contents. All (IsSpan source.now.info.now) contents.units.items) }
    ensures units { IfOk result (λ contents. contents.units.items ≡ (spans_of source.now.info.now).0) }
    ensures functions { IfOk result (λ contents. contents.functions.items ≡ all_functions source.now.abbrevs.now source.now.strs.now source.now.info.now) }
    ensures faults { IfOk result (λ contents. contents.faults.items ≡ all_faults source.now.abbrevs.now source.now.strs.now source.now.info.now) }
{
    let Spans { units, fault } = spans_of(alloc, source.info)?;
    let readings = readings_of(alloc, source, &units)?;
    let mut contents = Contents {
        units,
        functions: Vec::new(alloc),
        faults: Vec::new(alloc),
    };
    push_readings(&mut contents.functions, &mut contents.faults, &readings)?;
    push_fault(&mut contents.faults, fault)?;
    Ok(contents)
}
