// Taking input.
ghost use Rattle.std.specs.Prelude.{◌≡◌, false};
ghost use Rattle.session_parts.specs.Steps.{Inputs};

use dbg_traits::{Polled, World};

/// The most bytes of one poll.
pub const PIECE: usize = 4096;

/// What one poll did.
#[derive(Clone, Copy)]
pub enum Input {
    Took(usize),
    Nothing,
    End,
    Failed,
    NoMemory,
}

/// One poll, by way of the piece into the buffer.
pub fn input_once<W: World>(
    world: &mut W,
    buffer: &mut Vec<u8>,
    piece: &mut [u8; PIECE],
    wait: bool,
) -> Input
    requires { (W.told world.old).poll_ended ≡ false }
    ensures { Inputs result wait (W.told world.old) (W.told world.new) buffer.old.items buffer.new.items }
{
    if buffer.reserve(PIECE).is_err() {
        return Input::NoMemory;
    }
    match world.poll(wait, &mut piece[..]) {
        Polled::Took(n) => {
            let _ = buffer.extend_from_slice(&piece[..n]);
            Input::Took(n)
        }
        Polled::NotYet => Input::Nothing,
        Polled::End => Input::End,
        Polled::Failed => Input::Failed,
    }
}
