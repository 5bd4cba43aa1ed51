//! The specifications of attributes, by the places of `.debug_abbrev`.
//!
//! Lists of specifications may share their ends, so what stands behind a place is kept for each place, and is filled from
//! the section's end on.

ghost use Rattle.std.specs.Prelude.{◌≡◌, ◌<◌, ◌≤◌, ◌+◌, ◌*◌, ◌^◌, IfOk, length};
ghost use Rattle.leb_read.specs.Leb.{IsBehind};
ghost use Rattle.debug_info.specs.Abbreviations.{specifications_end};
ghost use Rattle.debug_info.specs.Index.{AreRuns, IsIndex, IsRun, bit_of, lone_run, packed, unpacked, with_flag};

use crate::abbreviation::specification_at;
use crate::fault::InfoFault;
use dbg_traits::NoMemory;
use std::alloc::Global;

/// `DW_FORM_flag_present`, which has no bytes.
const FLAG_PRESENT: u64 = 0x19;

/// The attributes that flags name.
#[derive(Clone, Copy)]
pub struct Flags {
    pub location: bool,
    pub name: bool,
    pub byte_size: bool,
    pub low_pc: bool,
    pub high_pc: bool,
    pub encoding: bool,
    pub frame_base: bool,
    pub type_of: bool,
}

/// The specifications from a place on.
#[derive(Clone, Copy)]
pub struct Run {
    /// What those in front name that have no bytes in an entry, a bit each.
    pub flags: u8,
    /// The place of the first other one, or of their end.
    pub behind: u32,
    /// The place of their end, or of the first that can't be read.
    pub last: u32,
}

/// The specifications from each place on.
#[derive(Drop)]
pub struct Index {
    /// The last place's first.
    runs: Vec<Run>,
}

// A bit in front of others.
fn bit_of(flag: bool, others: u8) -> u8
    requires { others < 128 }
    ensures value { result ≡ bit_of flag others }
    ensures most { result ≤ 2 * others + 1 }
{
    if flag { 2 * others + 1 } else { 2 * others }
}

// A bit for each flag.
fn packed(flags: Flags) -> u8
    ensures { result ≡ packed flags }
{
    let bits = bit_of(flags.frame_base, bit_of(flags.type_of, 0));
    let bits = bit_of(flags.high_pc, bit_of(flags.encoding, bits));
    let bits = bit_of(flags.byte_size, bit_of(flags.low_pc, bits));
    bit_of(flags.location, bit_of(flags.name, bits))
}

/// The flags whose bits are set.
pub fn unpacked(bits: u8) -> Flags
    ensures { result ≡ unpacked bits }
{
    Flags {
        location: bits % 2 == 1,
        name: bits / 2 % 2 == 1,
        byte_size: bits / 2 / 2 % 2 == 1,
        low_pc: bits / 2 / 2 / 2 % 2 == 1,
        high_pc: bits / 2 / 2 / 2 / 2 % 2 == 1,
        encoding: bits / 2 / 2 / 2 / 2 / 2 % 2 == 1,
        frame_base: bits / 2 / 2 / 2 / 2 / 2 / 2 % 2 == 1,
        type_of: bits / 2 / 2 / 2 / 2 / 2 / 2 / 2 % 2 == 1,
    }
}

// The flags with one more.
fn with_flag(flags: Flags, name: u64) -> Flags
    ensures { result ≡ with_flag flags name }
{
    Flags {
        location: flags.location || name == 0x02,
        name: flags.name || name == 0x03,
        byte_size: flags.byte_size || name == 0x0B,
        low_pc: flags.low_pc || name == 0x11,
        high_pc: flags.high_pc || name == 0x12,
        encoding: flags.encoding || name == 0x3E,
        frame_base: flags.frame_base || name == 0x40,
        type_of: flags.type_of || name == 0x49,
    }
}

// The run at a place, by those of the places behind it.
fn run_at(abbrevs: &[u8], later: &[Run], at: usize) -> Run
    requires runs { AreRuns abbrevs.now later.now }
    requires count { length later.now + at ≡ length abbrevs.now }
    requires short { length abbrevs.now < 2 ^ 32 }
    ensures { IsRun abbrevs.now at result }
{
    match specification_at(abbrevs, at) {
        Ok((Some(specification), next)) => {
            let rest = later[abbrevs.len() - next];
            if specification.form == FLAG_PRESENT {
                let flags = packed(with_flag(unpacked(rest.flags), specification.name));
                Run { flags, ..rest }
            } else {
                lone_run(at, rest.last)
            }
        }
        Ok((None, _)) => lone_run(at, at as u32),
        Err(_) => lone_run(at, at as u32),
    }
}

// A run without flags.
fn lone_run(at: usize, last: u32) -> Run
    requires { at < 2 ^ 32 }
    ensures { result ≡ lone_run at last }
{
    Run {
        flags: 0,
        behind: at as u32,
        last,
    }
}

/// The specifications from each place of the section on.
pub fn index_of(alloc: Global, abbrevs: &[u8]) -> Result<Index, NoMemory>
    requires { length abbrevs.now < 2 ^ 32 }
    ensures { IfOk result (IsIndex abbrevs.now) }
{
    let mut runs = Vec::with_capacity(alloc, abbrevs.len() + 1)?;
    let mut left = abbrevs.len() + 1;
    'places: while left > 0 {
        left -= 1;
        let run = run_at(abbrevs, &runs, left);
        runs.push(run)?;
    }
    Ok(Index { runs })
}

impl Index {
    /// The specifications from a place on.
    pub fn run(&self, abbrevs: &[u8], at: usize) -> Run
        requires index { IsIndex abbrevs.now self.now }
        requires within { at ≤ length abbrevs.now }
        ensures { IsRun abbrevs.now at result }
    {
        self.runs[abbrevs.len() - at]
    }

    /// The place behind the specifications from a place on.
    pub fn end(&self, abbrevs: &[u8], at: usize) -> Result<usize, InfoFault>
        requires index { IsIndex abbrevs.now self.now }
        requires within { at ≤ length abbrevs.now }
        ensures value { result ≡ specifications_end (length abbrevs.now + 1) abbrevs.now at }
        ensures within { IfOk result (λ end. IsBehind abbrevs.now at end) }
    {
        let last = self.run(abbrevs, at).last;
        let (_, end) = specification_at(abbrevs, last as usize)?;
        Ok(end)
    }
}
