// Regions of text: words side by side in memory, up to a gap on either side.
ghost use Rattle.std.specs.Prelude.{◌≡◌, ◌<◌, ◌≤◌, ℕ, ◌+◌, ◌-◌, ◌*◌, ◌/◌, ◌%◌, ◌^◌, IfOk, IfSome, Some, None, find, length};
ghost use Rattle.text_words.specs.Layout.{AreApart, AreSpans, IsLayout, IsSpan, IsWholeSpan, has, index};

use rv_exec::Operation;
use std::alloc::{AllocError, Global};

/// Where the words of a region are: of one text section, or of several that join.
#[derive(Clone, Copy)]
pub struct Region {
    /// The address of its first word, a multiple of 4.
    pub address: u32,
    /// The number of its words.
    pub count: usize,
    /// The place of its first word.
    pub first: usize,
}

// The region that has an address, by their order.
#[inline(never)]
fn find_region(regions: &[Region], addr: u32) -> Option<Region>
    requires { AreApart regions.now }
    ensures { result ≡ find (has addr) regions.now }
{
    let after = regions.partition_point(|region| region.address <= addr);
    if after == 0 {
        return None;
    }
    let region = regions[after - 1];
    let i = ((addr - region.address) / 4) as usize;
    if i < region.count { Some(region) } else { None }
}

// The region that has an address. That of the guess is looked at first.
#[inline(always)]
fn region_at(regions: &[Region], guess: usize, addr: u32) -> Option<Region>
    requires { AreApart regions.now }
    ensures { result ≡ find (has addr) regions.now }
{
    if guess < regions.len() {
        let region = regions[guess];
        if region.address <= addr && (((addr - region.address) / 4) as usize) < region.count {
            return Some(region);
        }
    }
    find_region(regions, addr)
}

/// The place of the word at an address.
#[inline(always)]
pub fn place_of(regions: &[Region], guess: usize, addr: u32, len: usize) -> Option<usize>
    requires { IsLayout regions.now len }
    ensures value { result ≡ index regions.now addr }
    ensures range { IfSome result (λ i. i < len) }
{
    if addr % 4 != 0 {
        return None;
    }
    match region_at(regions, guess, addr) {
        Some(region) => Some(region.first + ((addr - region.address) / 4) as usize),
        None => None,
    }
}

/// Words side by side.
#[derive(Clone, Copy)]
pub struct Span {
    /// The address of the first one.
    pub address: u32,
    /// Its place.
    pub first: usize,
    /// How many there are. None of them is past the last address.
    pub count: usize,
}

// The words of a region from an address on.
#[inline(always)]
fn span_in(regions: &[Region], region: Region, addr: u32, len: usize) -> Span
    requires layout { IsLayout regions.now len }
    requires there { find (has addr) regions.now ≡ Some region }
    requires aligned { addr % 4 ≡ 0 }
    ensures address { result.address ≡ addr }
    ensures within { result.first + result.count ≤ len }
    ensures low { (k : ℕ) → k < result.count → addr + 4 * k < 2 ^ 32 }
    ensures found { (k : ℕ) → k < result.count → index regions.now (addr + 4 * k) ≡ Some (result.first + k) }
    ensures ends { addr + 4 * result.count < 2 ^ 32 → index regions.now (addr + 4 * result.count) ≡ None }
{
    let i = ((addr - region.address) / 4) as usize;
    let most = (u32::MAX - addr) / 4 + 1;
    Span {
        address: addr,
        first: region.first + i,
        count: (region.count - i).min(most as usize),
    }
}

/// The words from an address on, up to a gap; none where no word is.
#[inline(always)]
pub fn span_from(regions: &[Region], guess: usize, addr: u32, len: usize) -> Span
    requires { IsLayout regions.now len }
    ensures address { result.address ≡ addr }
    ensures within { result.first + result.count ≤ len }
    ensures low { (k : ℕ) → k < result.count → addr + 4 * k < 2 ^ 32 }
    ensures found { (k : ℕ) → k < result.count → index regions.now (addr + 4 * k) ≡ Some (result.first + k) }
    ensures ends { addr + 4 * result.count < 2 ^ 32 → index regions.now (addr + 4 * result.count) ≡ None }
{
    if addr % 4 == 0 {
        if let Some(region) = region_at(regions, guess, addr) {
            return span_in(regions, region, addr, len);
        }
    }
    Span {
        address: addr,
        first: 0,
        count: 0,
    }
}

/// The words of the region that has an address, from its beginning on; none where no word is there.
#[inline(always)]
pub fn span_around(regions: &[Region], guess: usize, addr: u32, len: usize) -> Span
    requires { IsLayout regions.now len }
    ensures { IsWholeSpan regions.now len addr result }
{
    match region_at(regions, guess, addr) {
        Some(region) => span_in(regions, region, region.address, len),
        None => span_from(regions, guess, 0, len),
    }
}

/// The words of each region.
pub fn spans_of(alloc: Global, regions: &[Region], len: usize) -> Result<Vec<Span>, AllocError>
    requires { IsLayout regions.now len }
    ensures { IfOk result (λ v. AreSpans regions.now len v.items) }
{
    let mut spans = Vec::with_capacity(alloc, regions.len())?;
    for (k, region) in regions.iter().enumerate() {
        spans.push(span_around(regions, k, region.address, len))?;
    }
    Ok(spans)
}

/// The words of the region of a guess, which may be another than that of an address; none where the guess is of no region.
#[inline(always)]
pub fn guessed_span(_regions: &[Region], spans: &[Span], guess: usize, _len: usize) -> Span
    requires { AreSpans _regions.now _len spans.now }
    ensures { IsSpan _regions.now _len result }
{
    if guess < spans.len() {
        return spans[guess];
    }
    Span {
        address: 0,
        first: 0,
        count: 0,
    }
}

/// A region of text, laid open for a hart that runs in it.
#[derive(Clone, Copy)]
pub struct OpenRegion<'a> {
    /// The address of the first word, a multiple of 4.
    pub address: u32,
    /// The operation of each word: that of EBREAK where a breakpoint is planted, and where the word is no instruction.
    pub operations: &'a [Operation],
}

impl<'a> OpenRegion<'a> {
    /// The place of the word at an address; more than any place where the region has none there.
    #[inline(always)]
    pub fn place(&self, addr: u32) -> usize
        ensures here { self.now.address + 4 * result < 2 ^ 32 → addr ≡ self.now.address + 4 * result }
        ensures found { self.now.address ≤ addr → (addr - self.now.address) % 4 ≡ 0 → result ≡ (addr - self.now.address) / 4 }
    {
        // Where the distance is no multiple of 4, its lowest bits become the highest.
        addr.wrapping_sub(self.address).rotate_right(2) as usize
    }
}
