// What lines work on.
use crate::instructions::{accessed, decoded, executed, numbered};
use crate::marks::led;
use crate::programs::{Loaded, image_in, image_of};
use crate::speed::looped;
use crate::together::stepped;
use crate::{copies, harts, memory, places, slots, text};
use elf32_read::Image;
use scratch_slots::Slots;
use std::alloc::Global;
use test_rows::{Bench, RowFault, behind, number_at, said};

/// The program that was loaded last, and scratch slots of their own.
#[derive(Drop)]
pub struct Subject {
    loaded: Option<Loaded>,
    slots: Slots,
}

// What came of a step of a program. `memory STEP..` is of its data memory, which no hart reaches, and `text STEP..` of its words.
fn answered(
    alloc: Global,
    loaded: &mut Loaded,
    word: &str,
    rest: &str,
) -> Result<String, RowFault> {
    match word {
        "memory" => memory::answer(alloc, &mut loaded.memory, rest),
        "text" => text::answer(alloc, &mut loaded.text, rest),
        "step" | "run" | "slice" | "hart" | "register" | "set" => {
            harts::answer(alloc, &mut loaded.machine, word, rest)
        }
        "byte" | "read" | "put" | "word" | "stores" | "plant" | "lift" => {
            places::answer(alloc, &mut loaded.machine, word, rest)
        }
        _ => copies::answer(alloc, &mut loaded.machine, word, rest),
    }
}

fn loaded_of(alloc: Global, image: Option<Image>) -> Option<Loaded> {
    match &image {
        Some(image) => Loaded::load(alloc, image),
        None => None,
    }
}

impl Subject {
    /// No program, and no slot.
    pub fn new() -> Subject {
        Subject {
            loaded: None,
            slots: Slots::new(0),
        }
    }

    // Puts a program in place of the one before, and whether it is one.
    fn put(&mut self, loaded: Option<Loaded>) -> bool {
        let is_loaded = loaded.is_some();
        self.loaded = loaded;
        is_loaded
    }

    fn load(&mut self, alloc: Global, image: Option<Image>) -> Result<String, RowFault> {
        let told = if self.put(loaded_of(alloc, image)) {
            "loaded"
        } else {
            "not loaded"
        };
        said(alloc, told)
    }

    // What came of a step of the program's machine, or of its parts.
    fn of_program(&mut self, alloc: Global, word: &str, rest: &str) -> Result<String, RowFault> {
        match &mut self.loaded {
            Some(loaded) => answered(alloc, loaded, word, rest),
            None => said(alloc, "no program is loaded"),
        }
    }
}

impl Bench for Subject {
    /// What came of a line. Numbers are in decimal, or behind 0x in hexadecimal.
    ///
    /// - `decode WORD`: the instruction's mnemonic and its operands, as an assembler orders them.
    /// - `execute WORD X5 X6`: what the instruction does at home without memory, where x5 and x6 are these; and whether it does the
    ///   same by a copy in a slot, if it doesn't.
    /// - `access WORD X5 X2 STORED`: what the instruction does where x5 and x2 are these, and the word where data begins.
    /// - `cause NAME`: the number of the cause of a trap.
    /// - `marks NAMES..`: the phase to which marks lead a hart that steps over nothing.
    /// - `together STEPS WORDS..`: so many steps of hart 1 on the machine and on the plain machine.
    /// - `loop N`: at most so many instructions of a loop of seven, by themselves.
    /// - `program WORDS..`: the next program has these words, in hexadecimal, in a text section at 0x10074, and at 0x20000 the bytes 1
    ///   to 7 and 0x88, which may be stored.
    /// - `file BYTES`: the next program is that of an ELF file of these bytes, in hexadecimal.
    /// - `slots STEP..`: of scratch slots that are no machine's.
    /// - The others are of the program.
    fn answer(&mut self, alloc: Global, row: &str) -> Result<String, RowFault> {
        let (word, rest) = row.split_once(' ').unwrap_or((row, ""));
        let (first, second, third) = (number_at(rest, 0), number_at(rest, 1), number_at(rest, 2));
        match word {
            "decode" => decoded(alloc, first),
            "execute" => executed(alloc, first, second, third),
            "access" => accessed(alloc, first, [second, third], number_at(rest, 3)),
            "cause" => numbered(alloc, rest),
            "marks" => led(alloc, rest),
            "together" => stepped(alloc, first, behind(rest, 1)),
            "loop" => looped(alloc, first),
            "program" => self.load(alloc, image_of(alloc, rest)),
            "file" => self.load(alloc, image_in(alloc, rest)),
            "slots" => slots::answer(alloc, &mut self.slots, rest),
            _ => self.of_program(alloc, word, rest),
        }
    }
}
