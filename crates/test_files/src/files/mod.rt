// ELF files that are read, their symbols, and files that are made. The rows are those of `FileBench` and of the modules' `answer`.
mod image;
mod made;
mod names;

use elf_checks::{ElfFault, ElfReadError, read_image};
use elf_symbols::{Symbols, symbols};
use elf32_read::Image;
use std::alloc::Global;
use test_rows::{Bench, RowFault, said};

/// The file that was read last.
#[derive(Drop)]
pub struct FileBench {
    read: Option<(Image, Symbols)>,
}

// Why no file was read.
fn told_error(alloc: Global, error: ElfReadError) -> Result<String, RowFault> {
    match error {
        ElfReadError::Memory => Err(RowFault::NoMemory),
        ElfReadError::Fault(fault) => told_fault(alloc, fault),
    }
}

fn told_fault(alloc: Global, fault: ElfFault) -> Result<String, RowFault> {
    Ok(format!(in alloc; "{:?} at {}", fault.kind, fault.place)?)
}

impl FileBench {
    /// No file.
    pub fn new() -> FileBench {
        FileBench { read: None }
    }

    // The file before is let go of here alone.
    fn put(&mut self, read: Option<(Image, Symbols)>) {
        self.read = read;
    }

    fn put_image(&mut self, alloc: Global, image: Image) -> Result<String, RowFault> {
        let names = symbols(alloc, &image)?;
        self.put(Some((image, names)));
        said(alloc, "read")
    }

    // What came of a row `file BYTES..`, or of the bytes of a made file.
    fn read(&mut self, alloc: Global, bytes: Vec<u8>) -> Result<String, RowFault> {
        self.put(None);
        match read_image(alloc, bytes) {
            Ok(image) => self.put_image(alloc, image),
            Err(error) => told_error(alloc, error),
        }
    }

    // What came of a row that asks of the file.
    fn asked(&self, alloc: Global, word: &str, rest: &str) -> Result<String, RowFault> {
        match &self.read {
            Some((image, _)) if image::asks(word) => image::answer(alloc, image, word, rest),
            Some((_, names)) => names::answer(alloc, names, word, rest),
            None => Err(RowFault::Unknown),
        }
    }
}

impl Bench for FileBench {
    fn answer(&mut self, alloc: Global, row: &str) -> Result<String, RowFault> {
        let (word, rest) = row.split_once(' ').unwrap_or((row, ""));
        match word {
            "file" | "generated" | "plain" => self.read(alloc, made::file(alloc, word, rest)?),
            "made" | "script" => made::answer(alloc, word, rest),
            _ => self.asked(alloc, word, rest),
        }
    }
}
