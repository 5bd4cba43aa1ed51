// Windows of stored words, and their operations.
ghost use Rattle.std.specs.Prelude.{◌≡◌, ◌≤◌, [], length};
ghost use Rattle.rv_exec.specs.declared.operation.Operation.TheVariants.{Break};
ghost use Rattle.reg_slices.specs.Slices.{AreDecoded};
ghost use Rattle.hart_machine.specs.Slices as slices;

use arrayvec::ArrayVec;
use rv_exec::Operation;
use text_words::TextWords;

/// The most words of a window.
const MOST_WORDS: usize = 64;

/// How many words may stand in a window that begins at an address.
fn window_room(at: u32) -> usize
    ensures { result ≡ slices.window_room at }
{
    MOST_WORDS.min((u32::MAX - at) as usize / 4 + 1)
}

/// Appends the stored words from an address on, up to a gap, to an empty list.
pub fn push_window(text: &TextWords, at: u32, words: &mut ArrayVec<u32, 64>)
    requires { words.old.items ≡ [] }
    ensures { words.new.items ≡ slices.window text.now at }
{
    let run = text.run_at(at);
    let count = window_room(at).min(run.len());
    // The room is the list's capacity at most.
    words.try_extend_from_slice(&run[..count]).unwrap();
}

/// The operations of the window at an address, where they stand.
#[inline(always)]
pub fn operations_in_place(text: &TextWords, at: u32) -> &[Operation]
    ensures few { length result.now ≤ 64 }
    ensures decoded { AreDecoded (slices.window text.now at) result.now }
{
    let run = text.operations_at(at);
    let count = window_room(at).min(run.len());
    &run[..count]
}

// What stands behind a window. It is had by a call, so that room is filled by whole values.
#[inline(never)]
fn end_of_window() -> Operation
    ensures { result ≡ Break }
{
    Operation::Break
}

/// The operations of the window at an address, and that of EBREAK behind the last.
pub fn window_operations(text: &TextWords, at: u32) -> [Operation; MOST_WORDS]
    ensures { AreDecoded (slices.window text.now at) result }
{
    let mut operations = [end_of_window(); MOST_WORDS];
    let window = operations_in_place(text, at);
    operations[..window.len()].copy_from_slice(window);
    operations
}
