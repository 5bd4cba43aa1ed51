// Programs, and the settings that they are loaded with.
ghost use Rattle.std.specs.Prelude.{IfSome, IsTrue};
ghost use Rattle.dbg_traits.specs.Settings.{AreSettings};

use dbg_model::Opening;
use dbg_traits::Settings;
use elf_checks::read_image;
use elf_gen::{fits, plain};
use elf32_read::Image;
use std::alloc::Global;
use test_rows::{RowFault, behind, hex_words, number_at, word_at};

/// Whether a line loads a program: `load HARTS SLOTS BUDGET SLICE WORDS..` has settings and the program's words, in hexadecimal, which
/// are text at 0x10074, and there are four bytes of data; `file HARTS SLOTS BUDGET SLICE BYTES` has the bytes of an ELF file.
pub fn loads(line: &str) -> bool {
    matches!(word_at(line, 0), "load" | "file")
}

fn settings_of(line: &str) -> Settings {
    Settings {
        harts: number_at(line, 1),
        workers: 0,
        slots: number_at(line, 2),
        budget: u64::from(number_at(line, 3)),
        slice: number_at(line, 4),
    }
}

/// The opening over the program of a line. None where its settings or it are none, or memory runs out.
pub fn opening(alloc: Global, line: &str) -> Option<Opening>
    ensures { IfSome result (λ o. AreSettings o.settings) }
{
    let settings = settings_of(line);
    if !are_in_range(settings) {
        return None;
    }
    match image_of(alloc, line) {
        Some(image) => Some(Opening { image, settings }),
        None => None,
    }
}

// Whether each setting is in its range, and the budget in one of a second.
fn are_in_range(settings: Settings) -> bool
    ensures { IsTrue result → AreSettings settings }
{
    let Settings {
        harts,
        workers,
        slots,
        budget,
        slice,
    } = settings;
    if harts < 1 || harts > 16 || workers != 0 {
        return false;
    }
    slots <= 512 && budget >= 1 && budget <= 1_000_000 && slice <= 1024
}

// The file of a program of these words, in hexadecimal.
fn words_file(alloc: Global, words: &str) -> Result<Vec<u8>, RowFault> {
    let words = hex_words(alloc, words)?;
    let data = [0; 4];
    if !fits(words.as_slice(), &data) {
        return Err(RowFault::Unknown);
    }
    Ok(plain(alloc, words.as_slice(), &data)?)
}

// The file of a program. None where it is none, or memory runs out.
fn file_of(alloc: Global, line: &str) -> Option<Vec<u8>> {
    let text = behind(line, 5);
    if word_at(line, 0) == "load" {
        words_file(alloc, text).ok()
    } else {
        hex::decode(alloc, text).ok()
    }
}

fn image_of(alloc: Global, line: &str) -> Option<Image> {
    read_image(alloc, file_of(alloc, line)?).ok()
}
