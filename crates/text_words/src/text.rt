// The text of a program, as a type.
ghost use Rattle.std.specs.Prelude.{◌≡◌, ◌<◌, ◌+◌, ◌*◌, length, true, false, IfOk, IsSome, None, if◌then◌else◌};
ghost use Rattle.std.specs.FinSet as set;
ghost use Rattle.text_words.specs.Words.{AreStored, IsAmong, IsStoredAt, unpatched, shown, stored, is_planted, fetched, operation_of};
ghost use Rattle.text_words.specs.Runs.{AreOperations, IsRun};

use crate::fetch::Fetch;
use crate::guesses::Guesses;
use crate::layout::{
    collect, entry_of, fetch_in, operation_in, operations_of, planted_in, shown_in,
};
use crate::region::{
    OpenRegion, Region, Span, guessed_span, place_of, span_around, span_from, spans_of,
};
use crate::run::{EBREAK, stored_word};
use dbg_traits::NoMemory;
use elf32_read::Image;
use rv_exec::Operation;
use std::alloc::Global;
use std::marker::Model;

/// The words of a program's text, with breakpoints planted in them. Contracts see it as `Words`: the program's
/// words by their addresses, and the set of the addresses at which a breakpoint is planted.
#[derive(Drop)]
pub struct TextWords {
    // By their addresses.
    regions: Vec<Region>,
    words: Vec<u32>,
    // Whether a breakpoint is planted at each word.
    planted: Vec<bool>,
    // The words with the patches, so that many are copied and compared at once.
    stored: Vec<u32>,
    // The operation of each, that of EBREAK where there is no instruction: a hart that runs looks at nothing else.
    operations: Vec<Operation>,
    // The words of each region, by its number, for a hart that comes to one.
    spans: Vec<Span>,
    guesses: Guesses,
}

impl Model for TextWords {
    ghost use Rattle.text_words.specs.Words.{Words, words_code};

    ghost Value = { Words };

    ghost coded = { words_code };

    ghost use Rattle.text_words.specs.Layout.{seen, IsLaid};

    ghost view = { seen };

    ghost invariant = { IsLaid };
}

impl TextWords {
    /// The text of an image, with no breakpoint. It has room for one at each word.
    ///
    /// Fails where memory runs out.
    pub fn load(alloc: Global, image: &Image) -> Result<TextWords, NoMemory>
        ensures { IfOk result (λ t. t ≡ unpatched image.now) }
    {
        let sections = image.text_spans(alloc)?;
        let mut regions = Vec::new(alloc);
        let mut words = Vec::new(alloc);
        collect(image, sections.as_slice(), &mut regions, &mut words)?;
        let planted = vec![in alloc; false; words.len()]?;
        let stored = words.as_slice().to_vec(alloc)?;
        let operations = operations_of(alloc, words.as_slice())?;
        let spans = spans_of(alloc, regions.as_slice(), words.len())?;
        let guesses = Guesses::of(alloc, regions.as_slice())?;
        Ok(TextWords {
            regions,
            words,
            planted,
            stored,
            operations,
            spans,
            guesses,
        })
    }

    /// The stored word at an address, EBREAK where a breakpoint is planted; none where no word of text is.
    pub fn word(&self, addr: u32) -> Option<u32>
        ensures { result ≡ stored self.now addr }
    {
        match self.shown(addr) {
            Some(word) => Some(if self.planted(addr) { EBREAK } else { word }),
            None => None,
        }
    }

    /// The stored words that stand side by side from an address on, up to a gap: none where no word of text is.
    pub fn run_at(&self, addr: u32) -> &[u32]
        ensures run { IsRun self.now addr result.now }
        ensures found { IsSome (shown self.now addr) → 0 < length result.now }
        ensures ends { shown self.now (addr + 4 * length result.now) ≡ None }
    {
        let span = span_from(
            self.regions.as_slice(),
            self.guesses.guess(addr),
            addr,
            self.words.len(),
        );
        &self.stored.as_slice()[span.first..span.first + span.count]
    }

    /// The operations of the words that stand side by side from an address on, up to a gap: that of EBREAK where a breakpoint is
    /// planted, and where a word is no instruction.
    #[inline(always)]
    pub fn operations_at(&self, addr: u32) -> &[Operation]
        ensures operations { AreOperations self.now addr result.now }
        ensures ends { shown self.now (addr + 4 * length result.now) ≡ None }
    {
        let span = span_from(
            self.regions.as_slice(),
            self.guesses.guess(addr),
            addr,
            self.words.len(),
        );
        &self.operations.as_slice()[span.first..span.first + span.count]
    }

    /// The operations of all words that stand side by side around an address, from gap to gap; an empty region where no word of
    /// text is there.
    #[inline(always)]
    pub fn region_at(&self, addr: u32) -> OpenRegion<'_>
        ensures operations { AreOperations self.now result.address result.operations.now }
        ensures here { IsSome (shown self.now addr) → IsAmong addr result.address (length result.operations.now) }
    {
        let span = guessed_span(
            self.regions.as_slice(),
            self.spans.as_slice(),
            self.guesses.guess(addr),
            self.words.len(),
        );
        let region = OpenRegion {
            address: span.address,
            operations: &self.operations.as_slice()[span.first..span.first + span.count],
        };
        if region.place(addr) < region.operations.len() {
            return region;
        }
        self.find_region(addr)
    }

    // The same, where the guess is of another region.
    #[cold]
    #[inline(never)]
    fn find_region(&self, addr: u32) -> OpenRegion<'_>
        ensures operations { AreOperations self.now result.address result.operations.now }
        ensures here { IsSome (shown self.now addr) → IsAmong addr result.address (length result.operations.now) }
    {
        let span = span_around(
            self.regions.as_slice(),
            self.guesses.guess(addr),
            addr,
            self.words.len(),
        );
        OpenRegion {
            address: span.address,
            operations: &self.operations.as_slice()[span.first..span.first + span.count],
        }
    }

    // Whether the word is stored `i` words after an address.
    fn stores_at(&self, addr: u32, i: usize, word: u32) -> bool
        ensures yes { result ≡ true → IsStoredAt self.now addr i word }
        ensures no { IsStoredAt self.now addr i word → result ≡ true }
    {
        if i > ((u32::MAX - addr) / 4) as usize {
            return false;
        }
        self.word(addr + 4 * i as u32) == Some(word)
    }

    /// Whether these words are stored one after another from an address on: EBREAK where a breakpoint is planted. Nothing
    /// is stored past the last address, and no words are stored anywhere.
    pub fn stores(&self, addr: u32, words: &[u32]) -> bool
        ensures yes { result ≡ true → AreStored self.now addr words.now }
        ensures no { AreStored self.now addr words.now → result ≡ true }
    {
        let run = self.run_at(addr);
        let near = words.len().min(run.len());
        if run[..near] != words[..near] {
            return false;
        }
        for i in near..words.len() {
            if !self.stores_at(addr, i, words[i]) {
                return false;
            }
        }
        true
    }

    /// The program's word at an address; none where no word of text is.
    pub fn shown(&self, addr: u32) -> Option<u32>
        ensures { result ≡ shown self.now addr }
    {
        shown_in(
            self.regions.as_slice(),
            self.words.as_slice(),
            self.guesses.guess(addr),
            addr,
        )
    }

    /// Whether a breakpoint is planted at an address.
    pub fn planted(&self, addr: u32) -> bool
        ensures { result ≡ is_planted self.now addr }
    {
        planted_in(
            self.regions.as_slice(),
            self.planted.as_slice(),
            self.guesses.guess(addr),
            addr,
        )
    }

    /// What stands at an address for a hart that executes it. The program's word is decoded at each call.
    #[inline(always)]
    pub fn fetch(&self, addr: u32) -> Fetch
        ensures { result ≡ fetched self.now addr }
    {
        fetch_in(
            self.regions.as_slice(),
            self.words.as_slice(),
            self.planted.as_slice(),
            self.guesses.guess(addr),
            addr,
        )
    }

    /// The operation of what stands at an address for a hart that executes it.
    #[inline(always)]
    pub fn operation(&self, addr: u32) -> Operation
        ensures { result ≡ operation_of (fetched self.now addr) }
    {
        operation_in(
            self.regions.as_slice(),
            self.operations.as_slice(),
            self.guesses.guess(addr),
            addr,
        )
    }

    // Puts what stands at a word of text from now on: a breakpoint, or the program's word. There is nothing to lift where no
    // word of text is.
    fn mark(&mut self, addr: u32, planted: bool)
        requires { planted ≡ true → IsSome (shown self.old addr) }
        ensures { self.new ≡ record self.old { planted = if planted then set.insert self.old.planted addr else set.remove self.old.planted addr } }
    {
        let len = self.words.len();
        let Some(i) = place_of(self.regions.as_slice(), self.guesses.guess(addr), addr, len) else {
            return
        };
        let word = self.words[i];
        let entry = entry_of(word, planted);
        self.stored[i] = stored_word(word, &entry);
        self.operations[i] = entry.operation();
        self.planted[i] = planted;
    }

    /// Plants a breakpoint at a word of text that has none.
    pub fn plant(&mut self, addr: u32)
        requires text { IsSome (shown self.old addr) }
        requires free { is_planted self.old addr ≡ false }
        ensures { self.new ≡ record self.old { planted = set.insert self.old.planted addr } }
    {
        self.mark(addr, true);
    }

    /// Lifts the breakpoint at an address that has one.
    pub fn lift(&mut self, addr: u32)
        requires { is_planted self.old addr ≡ true }
        ensures { self.new ≡ record self.old { planted = set.remove self.old.planted addr } }
    {
        self.mark(addr, false);
    }
}
