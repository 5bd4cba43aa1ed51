// Standard input, moved by a thread of its own into a queue, so that a poll need not wait.
ghost use Rattle.std.specs.Prelude.{◌≡◌, ◌<◌, length, true};
ghost use Rattle.std.specs.Io.{ReadsAtMost};
ghost use Rattle.std.specs.Sync.Mutex.{mutex_guard_value};
ghost use Rattle.system_world.specs.Edge.{BringsNext, brought};
ghost use Rattle.system_world.specs.Waiting.{left_of};

use crate::again;
use crate::feed::{Rest, Source};
use crate::shared::{Held, Shared};
use std::io;
use std::io::Read;
use std::rt::Clock;
use std::sync::Wait;

// What a read of the input brings to the queue: bytes, or how far the input came where there are none.
fn brought<'a>(read: io::Result<usize>, bytes: &'a [u8]) -> Result<Rest<'a>, Source>
    requires { ReadsAtMost read bytes.now }
    ensures { left_of result ≡ brought read bytes.now }
{
    match read {
        Ok(0) => Err(Source::Ended),
        Ok(n) => Ok(Rest::of(&bytes[..n])),
        Err(_) => Err(Source::Failed),
    }
}

// What the next read of the input brings.
fn bring<'a, R: Wait + Clock, S: Read>(
    rt: &R,
    input: &mut S,
    bytes: &'a mut [u8],
) -> Result<Rest<'a>, Source>
    requires { 0 < length bytes.old }
    ensures { BringsNext (S.remaining input.old) (S.remaining input.new) (left_of result) }
{
    let read = again::read(rt, input, bytes);
    brought(read, bytes)
}

// Gives all bytes, and waits for room as often as need be.
fn give_all<R: Wait>(rt: &R, shared: &Shared, rest: Rest<'_>) {
    let mut rest = rest;
    for _ in rt.forever() {
        if rest.is_taken() {
            rest.end();
            return;
        }
        let mut held = shared.hold_roomy(rt);
        rest = held.give(rest);
        held.let_go();
    }
    unreachable!()
}

// Moves what is left of an input into the queue, where input is asked for, and ends with it.
fn move_input<R: Wait + Clock, S: Read>(rt: &R, asked: Held<'_>, input: &mut S)
    requires { (mutex_guard_value asked.feed).asked ≡ true }
{
    let shared = asked.let_go();
    let mut bytes = [0u8; 4096];
    for _ in rt.forever() {
        match bring(rt, input, &mut bytes) {
            Ok(rest) => give_all(rt, shared, rest),
            Err(source) => {
                let mut held = shared.hold(rt);
                held.end(source);
                held.let_go();
                break;
            }
        }
    }
}

/// The reader thread: once input is asked for it moves the input into the queue, and ends with it.
pub fn pump<R: Wait + Clock + Input>(rt: &R, shared: &Shared) {
    move_input(rt, shared.hold_asked(rt), &mut rt.reader());
}
