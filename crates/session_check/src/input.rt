//! The whole input.

ghost use Rattle.std.specs.Prelude.{◌≡◌, false, MatchResult};
ghost use Rattle.session_check.specs.Polling.{IsUntouched, PollsAll, PollsSome};

use dbg_traits::World;
use session_parts::{Input, PIECE, input_once};
use std::alloc::Global;

/// So many bytes of an input are checked at most.
pub const MOST_INPUT: usize = 67_108_864;

/// Why an input wasn't read.
#[derive(Clone, Copy)]
pub enum InputError {
    Failed,
    NoMemory,
}

/// The bytes of the input, to its end or until they are more than the most.
pub fn poll_all<W: World>(alloc: Global, world: &mut W) -> Result<Vec<u8>, InputError>
    requires { IsUntouched (W.told world.old) }
    ensures { MatchResult result (λ v. PollsAll v.items (W.told world.old) (W.told world.new)) (λ e. PollsSome e (W.told world.old) (W.told world.new)) }
{
    let mut bytes = Vec::new(alloc);
    let mut piece = [0u8; PIECE];
    'more: while bytes.len() <= MOST_INPUT {
        match input_once(world, &mut bytes, &mut piece, true) {
            Input::Took(_) => {}
            Input::Nothing => unreachable!(),
            Input::End => return Ok(bytes),
            Input::Failed => return Err(InputError::Failed),
            Input::NoMemory => return Err(InputError::NoMemory),
        }
    }
    Ok(bytes)
}
