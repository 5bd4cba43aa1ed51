// The bytes of pages, in frames.
ghost use Rattle.std.specs.Prelude.{◌≡◌, ◌<◌, ◌≤◌, ◌+◌, ◌-◌, ◌*◌, ◌^◌, ℕ, length, true, IfSome, IfOk, OnOk, None, slice_index, slice_index_or, slice_set, if◌then◌else◌};
ghost use Rattle.rv_exec.specs.Memory.{IsLen};
ghost use Rattle.elf32_read.specs.Fields.{spans};
ghost use Rattle.data_memory.specs.Paged.{number_of, with_values};
ghost use Rattle.data_memory.specs.declared.access.Access.TheVariants.{Absent};

use crate::access::{Access, all_mapped, all_writable};
use crate::page_table::BLOCK;
use std::alloc::{AllocError, Global};
use std::marker::Model;

/// Frames of bytes. Contracts see the list of these bytes, None where one is absent.
#[derive(Drop)]
pub struct Frames {
    accesses: Vec<Access>,
    values: Vec<u8>,
}

impl Model for Frames {
    ghost use Rattle.std.specs.Prelude.{◌≡◌, List, Option, length};
    ghost use Rattle.std.specs.Coded.{coded_list, coded_option};
    ghost use Rattle.rv_exec.specs.Memory.{Byte};
    ghost use Rattle.data_memory.specs.Maps.{byte_code};
    ghost use Rattle.data_memory.specs.Paged.{bytes_of};

    ghost Value = { List (Option Byte) };

    ghost coded = { coded_list (coded_option byte_code) };

    ghost view = { λ s. bytes_of s.accesses.items s.values.items };

    ghost invariant = { λ s. length s.accesses.items ≡ length s.values.items };
}

impl Frames {
    ghost use Rattle.std.specs.Option.{option_map};
    ghost use Rattle.rv_exec.specs.Memory.{is_writable};
    ghost use Rattle.data_memory.specs.Paged.{byte, byte_of, replaced, spelled, are_writable, with_number_at, GrowsByFrame};

    /// One frame of absent bytes.
    pub fn new(alloc: Global) -> Result<Frames, AllocError>
        ensures size { IfOk result (λ f. length f ≡ 512) }
        ensures absent { IfOk result (λ f. (i : ℕ) → byte f i ≡ None) }
    {
        let accesses = Vec::from_elem(alloc, Access::Absent, BLOCK)?;
        let values = Vec::from_elem(alloc, 0, BLOCK)?;
        Ok(Frames { accesses, values })
    }

    /// How many bytes there are.
    pub fn len(&self) -> usize
        ensures { result ≡ length self.now }
    {
        self.values.len()
    }

    /// Adds a frame of absent bytes.
    ///
    /// Fails where memory runs out.
    pub fn add(&mut self) -> Result<(), AllocError>
        ensures { OnOk result (GrowsByFrame self.old self.new) }
    {
        let len = self.values.len();
        self.values.resize(len + BLOCK, 0)?;
        if let Err(error) = self.accesses.resize(len + BLOCK, Access::Absent) {
            self.values.truncate(len);
            return Err(error);
        }
        Ok(())
    }

    /// The value of a byte, if it is mapped.
    pub fn value(&self, at: usize) -> Option<u8>
        requires { at < length self.now }
        ensures { result ≡ option_map (λ b. b.value) (byte self.now at) }
    {
        if self.accesses[at].may_load() {
            Some(self.values[at])
        } else {
            None
        }
    }

    /// Whether a byte may be stored.
    pub fn is_writable(&self, at: usize) -> bool
        requires { at < length self.now }
        ensures { result ≡ is_writable (byte self.now at) }
    {
        self.accesses[at].may_store()
    }

    /// Puts a byte, and how it may be accessed.
    pub fn set(&mut self, at: usize, access: Access, value: u8)
        requires { at < length self.old }
        ensures { self.new ≡ slice_set self.old at (byte_of access value) }
    {
        self.accesses[at] = access;
        self.values[at] = value;
    }

    /// Puts `len` bytes from a place on, zeros behind the values that are given, and how they may be accessed.
    pub fn fill(&mut self, at: usize, len: usize, values: &[u8], access: Access)
        requires within { at + len ≤ length self.old }
        requires values { length values.now ≤ len }
        ensures size { length self.new ≡ length self.old }
        ensures each { (i : ℕ) → byte self.new i ≡ replaced (byte self.old) at len (λ j. byte_of access (slice_index values.now (j - at))) i }
    {
        fill_accesses(self.accesses.as_mut_slice(), at, len, access);
        fill_values(self.values.as_mut_slice(), at, len, values);
    }

    /// The number that the `len` bytes from a place on spell, if all are mapped.
    #[inline(always)]
    pub fn number(&self, at: usize, len: u32) -> Option<u32>
        requires len { IsLen len }
        requires within { at + len ≤ length self.now }
        ensures value { result ≡ spelled self.now at len }
        ensures range { IfSome result (λ n. n < 2 ^ (8 * len)) }
    {
        if all_mapped(self.accesses.as_slice(), at, len) {
            Some(number_of(self.values.as_slice(), at, len))
        } else {
            None
        }
    }

    /// Whether the `len` bytes from a place on are writable.
    #[inline(always)]
    pub fn are_writable(&self, at: usize, len: u32) -> bool
        requires len { IsLen len }
        requires within { at + len ≤ length self.now }
        ensures { result ≡ are_writable self.now at len }
    {
        all_writable(self.accesses.as_slice(), at, len)
    }

    /// Puts the low `len` bytes of the value where the bytes are writable.
    #[inline(always)]
    pub fn put(&mut self, at: usize, len: u32, value: u32)
        requires len { IsLen len }
        requires within { at + len ≤ length self.old }
        requires writable { are_writable self.old at len ≡ true }
        ensures { self.new ≡ with_number_at self.old at len value }
    {
        put_values(self.values.as_mut_slice(), at, len, value);
    }
}

/// The number that `len` values spell, lowest first.
#[inline(always)]
fn number_of(values: &[u8], at: usize, len: u32) -> u32
    requires len { IsLen len }
    requires within { at + len ≤ length values.now }
    ensures value { result ≡ number_of values.now at len }
    ensures range { result < 2 ^ (8 * len) }
{
    let low = u32::from(values[at]);
    if len == 1 {
        return low;
    }
    let low = low + (u32::from(values[at + 1]) << 8);
    if len == 2 {
        return low;
    }
    low + (u32::from(values[at + 2]) << 16) + (u32::from(values[at + 3]) << 24)
}

/// Puts the low `len` bytes of the value, lowest first.
#[inline(always)]
fn put_values(values: &mut [u8], at: usize, len: u32, value: u32)
    requires len { IsLen len }
    requires within { at + len ≤ length values.old }
    ensures { values.new ≡ with_values values.old at len value }
{
    let [a, b, c, d] = value.to_le_bytes();
    if len == 1 {
        values[at] = a;
    } else if len == 2 {
        values[at + 1] = b;
        values[at] = a;
    } else {
        values[at + 3] = d;
        values[at + 2] = c;
        values[at + 1] = b;
        values[at] = a;
    }
}

/// Puts one way of access to `len` bytes.
fn fill_accesses(accesses: &mut [Access], at: usize, len: usize, access: Access)
    requires { at + len ≤ length accesses.old }
    ensures size { length accesses.new ≡ length accesses.old }
    ensures each { (i : ℕ) → slice_index_or accesses.new i Absent ≡ (if spans at len i then access else slice_index_or accesses.old i Absent) }
{
    accesses[at..at + len].fill(access);
}

/// Puts `len` values: those that are given, and zeros behind them.
fn fill_values(values: &mut [u8], at: usize, len: usize, given: &[u8])
    requires within { at + len ≤ length values.old }
    requires given { length given.now ≤ len }
    ensures size { length values.new ≡ length values.old }
    ensures each { (i : ℕ) → slice_index values.new i ≡ (if spans at len i then slice_index given.now (i - at) else slice_index values.old i) }
{
    values[at..at + len].fill(0);
    values[at..at + given.len()].copy_from_slice(given);
}
