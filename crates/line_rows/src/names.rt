// File names by their numbers, as parts of texts that are kept once.
ghost use Rattle.std.specs.Prelude.{◌≡◌, ◌+◌, ◌<◌, ◌≤◌, [], ◌∷◌, ◌++◌, Some, length, OnOk, OnErr, slice_get, slice_range};
ghost use Rattle.line_rows.specs.RowList.{NameList, no_names};

use dbg_traits::NoMemory;
use std::alloc::Global;
use std::marker::Model;

/// Where a name stands in the bytes.
#[derive(Clone, Copy)]
pub struct NameRange {
    pub start: usize,
    pub past: usize,
}

/// File names by their numbers, as parts of texts that are kept once. Contracts see a `NameList`.
#[derive(Drop)]
pub struct FileNames {
    bytes: Vec<u8>,
    ranges: Vec<NameRange>,
}

impl Model for FileNames {
    ghost use Rattle.line_rows.specs.RowList.{NameList};

    ghost Value = { NameList };

    ghost use Rattle.line_rows.specs.KeptNames.{seen, IsKept};

    ghost view = { seen };

    ghost invariant = { IsKept };
}

impl FileNames {
    /// No text and no name.
    pub fn new(alloc: Global) -> FileNames
        ensures { result ≡ no_names }
    {
        FileNames {
            bytes: Vec::new(alloc),
            ranges: Vec::new(alloc),
        }
    }

    /// Keeps a text more, of which names can be parts. Without memory all stays as it was.
    pub fn keep(&mut self, text: &[u8]) -> Result<(), NoMemory>
        ensures ok { OnOk result (self.new ≡ record self.old { texts = self.old.texts ++ text.now }) }
        ensures err { OnErr result (self.new ≡ self.old) }
    {
        self.bytes.extend_from_slice(text)?;
        Ok(())
    }

    /// A name more, whose text is kept with it. Without memory all stays as it was.
    pub fn push(&mut self, name: &[u8]) -> Result<(), NoMemory>
        ensures ok { OnOk result (self.new ≡ record { texts = self.old.texts ++ name.now; names = self.old.names ++ name.now ∷ [] }) }
        ensures err { OnErr result (self.new ≡ self.old) }
    {
        self.ranges.reserve(1)?;
        let start = self.bytes.len();
        self.bytes.extend_from_slice(name)?;
        let past = self.bytes.len();
        self.ranges.push(NameRange { start, past })?;
        Ok(())
    }

    /// A name more that is a part of the texts: the bytes from `start` up to `past`. Without memory all stays as it was.
    pub fn push_part(&mut self, start: usize, past: usize) -> Result<(), NoMemory>
        requires ordered { start ≤ past }
        requires within { past ≤ length self.old.texts }
        ensures ok { OnOk result (self.new ≡ record self.old { names = self.old.names ++ slice_range self.old.texts start past ∷ [] }) }
        ensures err { OnErr result (self.new ≡ self.old) }
    {
        self.ranges.push(NameRange { start, past })?;
        Ok(())
    }

    /// No text and no name, as at first.
    pub fn clear(&mut self)
        ensures { self.new ≡ no_names }
    {
        self.bytes.clear();
        self.ranges.clear();
    }

    /// How many names there are.
    pub fn count(&self) -> usize
        ensures { result ≡ length self.now.names }
    {
        self.ranges.len()
    }

    /// A name by its number, which must be below the count.
    pub fn name(&self, number: usize) -> &[u8]
        requires { number < length self.now.names }
        ensures { slice_get self.now.names number ≡ Some result.now }
    {
        let range = self.ranges[number];
        &self.bytes[range.start..range.past]
    }
}
