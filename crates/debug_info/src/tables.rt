//! The table of abbreviations that units are read by (DWARF 4, section 7.5.3).
//!
//! Tables at several places may share their ends. So there is one table that moves, and what the tables at the old place
//! and the new one share stays.

ghost use Rattle.std.specs.Prelude.{◌≡◌, ◌<◌, ◌≤◌, ◌+◌, ◌==◌, ℕ, IfOk, OnOk, Some, length, reverse, if◌then◌else◌};
ghost use Rattle.std.specs.BTreeMap.{get};
ghost use Rattle.std.specs.Ordering.{nat_cmp};
ghost use Rattle.std.specs.Vec.{vec_len};
ghost use Rattle.debug_info.specs.Abbreviations.{abbreviation_of, declaration_at};
ghost use Rattle.debug_info.specs.Index.{IsIndex};
ghost use Rattle.debug_info.specs.Tables.{IsBefore, IsTable, LeadTo, code_in, declaration_in, end_of};

use crate::abbreviation::{Declaration, declaration_at};
use crate::fault::InfoFault;
use crate::index::Index;
use crate::offset::AbbrevOffset;
use dbg_traits::NoMemory;
use std::alloc::Global;
use std::collections::BTreeMap;

/// A declaration of a table, which is read again where it is needed.
#[derive(Clone, Copy)]
pub struct Listed {
    pub at: u32,
    /// The place of the first one of its code among those behind it.
    pub hidden: Option<u32>,
}

/// The table of abbreviations at a place, by their codes.
#[derive(Drop)]
pub struct Table {
    /// Where it begins.
    pub at: usize,
    /// Its declarations, the last one first.
    listed: Vec<Listed>,
    /// The place of the first one of each code.
    places: BTreeMap<u64, u32>,
    /// Why another code isn't found.
    end: InfoFault,
}

// Sets what is found of a code.
fn set(places: &mut BTreeMap<u64, u32>, code: u64, place: Option<u32>) -> Result<(), NoMemory>
    ensures { OnOk result ((other : ℕ) → get nat_cmp places.new other ≡ (if code == other then place else get nat_cmp places.old other)) }
{
    match place {
        Some(place) => {
            places.insert(code, place)?;
            Ok(())
        }
        None => {
            places.remove(&code);
            Ok(())
        }
    }
}

// The code that a place declares, and the next place.
fn code_in(abbrevs: &[u8], index: &Index, at: u32) -> Option<(u64, usize)>
    requires { IsIndex abbrevs.now index.now }
    ensures { result ≡ code_in (declaration_at abbrevs.now at) }
{
    match declaration_at(abbrevs, index, at as usize) {
        Ok((Some((code, _)), next)) => Some((code, next)),
        Ok((None, _)) => None,
        Err(_) => None,
    }
}

// The declaration at a place.
fn declaration_in(abbrevs: &[u8], index: &Index, at: u32) -> Result<Declaration, InfoFault>
    requires { IsIndex abbrevs.now index.now }
    ensures { result ≡ declaration_in (declaration_at abbrevs.now at) }
{
    match declaration_at(abbrevs, index, at as usize) {
        Ok((Some((_, declaration)), _)) => Ok(declaration),
        Ok((None, _)) => Err(InfoFault::Abbrev),
        Err(fault) => Err(fault),
    }
}

impl Table {
    /// The table at the section's end, which has nothing.
    pub fn new(alloc: Global, abbrevs: &[u8]) -> Table
        ensures { IsTable abbrevs.now result }
    {
        Table {
            at: abbrevs.len(),
            listed: Vec::new(alloc),
            places: BTreeMap::new(alloc),
            end: InfoFault::Short,
        }
    }

    // Makes it the table at a place where no declaration stands.
    fn end_at(&mut self, alloc: Global, abbrevs: &[u8], at: usize, end: InfoFault)
        requires within { at ≤ length abbrevs.now }
        requires end { end_of (declaration_at abbrevs.now at) ≡ Some end }
        ensures table { IsTable abbrevs.now self.new }
        ensures place { self.new.at ≡ at }
    {
        let _abbrevs = abbrevs;
        self.at = at;
        self.listed = Vec::new(alloc);
        self.places = BTreeMap::new(alloc);
        self.end = end;
    }

    // Takes its first declaration away.
    fn drop_first(&mut self, abbrevs: &[u8], index: &Index) -> Result<(), NoMemory>
        requires index { IsIndex abbrevs.now index.now }
        requires table { IsTable abbrevs.now self.old }
        requires some { 0 < vec_len self.old.listed }
        ensures table { OnOk result (IsTable abbrevs.now self.new) }
        ensures fewer { OnOk result (vec_len self.new.listed + 1 ≡ vec_len self.old.listed) }
    {
        let Some(first) = self.listed.pop() else {
            return Ok(());
        };
        match code_in(abbrevs, index, first.at) {
            Some((code, next)) => {
                set(&mut self.places, code, first.hidden)?;
                self.at = next;
                Ok(())
            }
            None => Ok(()),
        }
    }

    // Puts the declaration at a place in front.
    fn put_first(&mut self, abbrevs: &[u8], index: &Index, at: u32) -> Result<(), NoMemory>
        requires index { IsIndex abbrevs.now index.now }
        requires table { IsTable abbrevs.now self.old }
        requires before { IsBefore abbrevs.now at self.old.at }
        ensures table { OnOk result (IsTable abbrevs.now self.new) }
        ensures place { OnOk result (self.new.at ≡ at) }
    {
        match code_in(abbrevs, index, at) {
            Some((code, _)) => {
                let hidden = self.places.insert(code, at)?;
                self.listed.push(Listed { at, hidden })?;
                self.at = at as usize;
                Ok(())
            }
            None => Ok(()),
        }
    }

    // Takes the declarations before a place away.
    fn drop_before(&mut self, abbrevs: &[u8], index: &Index, place: usize) -> Result<(), NoMemory>
        requires index { IsIndex abbrevs.now index.now }
        requires table { IsTable abbrevs.now self.old }
        ensures table { OnOk result (IsTable abbrevs.now self.new) }
        ensures past { OnOk result (0 < vec_len self.new.listed → place ≤ self.new.at) }
    {
        'declarations: while self.at < place && !self.listed.is_empty() {
            self.drop_first(abbrevs, index)?;
        }
        Ok(())
    }

    // Moves to the first place behind which the table at another place is the same, and gives the places before it.
    fn meet(
        &mut self,
        alloc: Global,
        abbrevs: &[u8],
        index: &Index,
        at: usize,
    ) -> Result<Vec<u32>, NoMemory>
        requires index { IsIndex abbrevs.now index.now }
        requires table { IsTable abbrevs.now self.old }
        requires within { at ≤ length abbrevs.now }
        ensures table { OnOk result (IsTable abbrevs.now self.new) }
        ensures before { IfOk result (λ before. LeadTo abbrevs.now at self.new.at (reverse before.items)) }
    {
        let mut before = Vec::new(alloc);
        let mut place = at;
        'places: loop {
            self.drop_before(abbrevs, index, place)?;
            if self.at == place {
                return Ok(before);
            }
            match declaration_at(abbrevs, index, place) {
                Ok((Some(_), next)) => {
                    before.push(place as u32)?;
                    place = next;
                }
                Ok((None, _)) => {
                    self.end_at(alloc, abbrevs, place, InfoFault::Abbrev);
                    return Ok(before);
                }
                Err(fault) => {
                    self.end_at(alloc, abbrevs, place, fault);
                    return Ok(before);
                }
            }
        }
    }

    /// Makes it the table at another place. From one place to the next in the order of `ranks`, all moves together take a
    /// step for each declaration.
    pub fn move_to(
        &mut self,
        alloc: Global,
        abbrevs: &[u8],
        index: &Index,
        place: AbbrevOffset,
    ) -> Result<(), NoMemory>
        requires index { IsIndex abbrevs.now index.now }
        requires table { IsTable abbrevs.now self.old }
        requires within { place.at ≤ length abbrevs.now }
        ensures table { OnOk result (IsTable abbrevs.now self.new) }
        ensures place { OnOk result (self.new.at ≡ place.at) }
    {
        let mut before = self.meet(alloc, abbrevs, index, place.at as usize)?;
        'declarations: while let Some(first) = before.pop() {
            self.put_first(abbrevs, index, first)?;
        }
        Ok(())
    }

    /// The declaration of a code.
    pub fn find(&self, abbrevs: &[u8], index: &Index, code: u64) -> Result<Declaration, InfoFault>
        requires index { IsIndex abbrevs.now index.now }
        requires table { IsTable abbrevs.now self.now }
        ensures value { result ≡ abbreviation_of (length abbrevs.now + 1) abbrevs.now code self.now.at }
        ensures within { IfOk result (λ d. d.attributes.at ≤ length abbrevs.now) }
    {
        match self.places.get(&code) {
            Some(place) => declaration_in(abbrevs, index, *place),
            None => Err(self.end),
        }
    }
}
