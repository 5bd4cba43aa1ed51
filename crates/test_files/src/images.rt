// Programs that rows of several benches ask for.
use elf_checks::read_image;
use elf_gen::{fits, generate, plain};
use elf32_read::Image;
use std::alloc::Global;

/// The most words of a program.
const MOST_WORDS: u32 = 256;

/// The program of so many words of text, each ADDI x0, x0, 0. None too where memory runs out.
pub fn words_image(alloc: Global, count: u32) -> Option<Image> {
    let mut words = Vec::new(alloc);
    for _ in 0..count.min(MOST_WORDS) {
        words.push(0x13).ok()?;
    }
    if !fits(words.as_slice(), b"") {
        return None;
    }
    read_image(alloc, plain(alloc, words.as_slice(), b"").ok()?).ok()
}

/// The generated program of a number. None where memory runs out.
pub fn generated_image(alloc: Global, number: u32) -> Option<Image> {
    read_image(alloc, generate(alloc, number).ok()?).ok()
}
