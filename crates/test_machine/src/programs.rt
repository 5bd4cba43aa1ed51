// Programs, and what is made of them.
use data_memory::DataMemory;
use dbg_traits::Settings;
use elf_checks::read_image;
use elf_gen::{fits, plain};
use elf32_read::Image;
use hart_machine::Machine;
use std::alloc::Global;
use test_rows::hex_words;
use text_words::TextWords;

/// Where the text of a program of words begins.
pub const HOME: u32 = 0x0001_0074;

/// Where its data begins.
pub const DATA: u32 = 0x0002_0000;

/// The first scratch slot.
pub const SLOT: u32 = 0xFFFF_F000;

/// Two harts and two scratch slots.
pub const SETTINGS: Settings = Settings {
    harts: 2,
    workers: 0,
    slots: 2,
    budget: 100,
    slice: 0,
};

/// The data of a program of words.
const BYTES: [u8; 8] = [1, 2, 3, 4, 5, 6, 7, 0x88];

/// The program of these words. None where it is no program, or memory runs out.
pub fn image_of(alloc: Global, words: &str) -> Option<Image> {
    let words = hex_words(alloc, words).ok()?;
    if !fits(words.as_slice(), &BYTES) {
        return None;
    }
    read_image(alloc, plain(alloc, words.as_slice(), &BYTES).ok()?).ok()
}

/// The program of an ELF file of these bytes, in hexadecimal. None where it is no program, or memory runs out.
pub fn image_in(alloc: Global, bytes: &str) -> Option<Image> {
    read_image(alloc, hex::decode(alloc, bytes).ok()?).ok()
}

/// A program's memory, its text and its machine, each apart from the others.
#[derive(Drop)]
pub struct Loaded {
    pub memory: DataMemory,
    pub text: TextWords,
    pub machine: Machine,
}

impl Loaded {
    /// All three before anything is done. None where memory runs out.
    pub fn load(alloc: Global, image: &Image) -> Option<Loaded> {
        Some(Loaded {
            memory: DataMemory::load(alloc, image, 2).ok()?,
            text: TextWords::load(alloc, image).ok()?,
            machine: Machine::load(alloc, image, SETTINGS).ok()?,
        })
    }
}
