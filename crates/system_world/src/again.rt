// Reads and writes that the system interrupts, or asks to try again, are tried again.
ghost use Rattle.std.specs.Prelude.{◌≡◌, None, MatchResult};
ghost use Rattle.std.specs.Io.{ReadsAtMost, WritesAtMost};
ghost use Rattle.std.specs.Io.KnownBytes.{ReadConsumes, WriteAppends};
ghost use Rattle.std.specs.IoError.{error_kind};
ghost use Rattle.system_world.specs.Edge.{rest_of};

use std::io::{Error, ErrorKind, Read, Write};
use std::rt::Clock;
use std::sync::Wait;
use std::time::Duration;
use std::{io, thread};

// For how many milliseconds it rests before the call is made again, if it is: a descriptor that isn't ready is left alone.
fn rest_of(kind: ErrorKind) -> Option<u64>
    ensures { result ≡ rest_of kind }
{
    match kind {
        ErrorKind::Interrupted => Some(0),
        ErrorKind::WouldBlock => Some(1),
        _ => None,
    }
}

// Rests where the error asks for it, and hands back an error that doesn't pass.
fn pass<R: Clock>(rt: &R, error: Error) -> Result<(), Error>
    ensures { MatchResult result (λ _. Unit {0}) (λ e. rest_of (error_kind e) ≡ None) }
{
    match rest_of(error.kind()) {
        None => Err(error),
        Some(0) => Ok(()),
        Some(rest) => {
            thread::sleep(rt, Duration::from_millis(rest));
            Ok(())
        }
    }
}

/// Reads once, at most the slice's length. 0 is the end.
///
/// # Errors
///
/// The system's, but for an interruption and a descriptor that isn't ready: then it reads again.
pub fn read<R: Wait + Clock, S: Read>(rt: &R, source: &mut S, into: &mut [u8]) -> io::Result<usize>
    ensures within { ReadsAtMost result into.new }
    ensures bytes { ReadConsumes (S.remaining source.old) (S.remaining source.new) result into.new }
    ensures lasting { MatchResult result (λ _. Unit {0}) (λ e. rest_of (error_kind e) ≡ None) }
{
    'tries: for _ in rt.forever() {
        match source.read(into) {
            Ok(n) => return Ok(n),
            Err(error) => pass(rt, error)?,
        }
    }
    unreachable!()
}

/// Writes once, at most the piece.
///
/// # Errors
///
/// The system's, but for an interruption and a descriptor that isn't ready: then it writes again.
pub fn write<R: Wait + Clock, S: Write>(rt: &R, sink: &mut S, piece: &[u8]) -> io::Result<usize>
    ensures within { WritesAtMost result piece.now }
    ensures bytes { WriteAppends (S.contents sink.old) (S.contents sink.new) result piece.now }
    ensures lasting { MatchResult result (λ _. Unit {0}) (λ e. rest_of (error_kind e) ≡ None) }
{
    'tries: for _ in rt.forever() {
        match sink.write(piece) {
            Ok(n) => return Ok(n),
            Err(error) => pass(rt, error)?,
        }
    }
    unreachable!()
}
