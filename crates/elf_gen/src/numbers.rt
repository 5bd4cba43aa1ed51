// Numbers at the end of a file that is being made.
ghost use Rattle.std.specs.Prelude.{◌≡◌, ◌++◌, OnOk};
ghost use Rattle.elf_gen.specs.Layout.{halves_of, words_of};

use std::alloc::AllocError;

/// Numbers of two bytes each, the lowest first.
pub fn put_halves(file: &mut Vec<u8>, halves: &[u16]) -> Result<(), AllocError>
    ensures { OnOk result (file.new.items ≡ file.old.items ++ halves_of halves.now) }
{
    for half in halves {
        file.extend_from_slice(&half.to_le_bytes())?;
    }
    Ok(())
}

/// Numbers of four bytes each, the lowest first.
pub fn put_words(file: &mut Vec<u8>, words: &[u32]) -> Result<(), AllocError>
    ensures { OnOk result (file.new.items ≡ file.old.items ++ words_of words.now) }
{
    for word in words {
        file.extend_from_slice(&word.to_le_bytes())?;
    }
    Ok(())
}
