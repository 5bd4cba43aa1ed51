// The words of the command line.
ghost use Rattle.std.specs.Prelude.{◌≡◌, IfOk, MatchResult, drop, map, string_bytes};
ghost use Rattle.std.specs.IoError.{error_kind};
ghost use Rattle.std.specs.Vec.Iter.{into_iter_items};
ghost use Rattle.system_world.specs.Edge.{HasNoWords};

use dbg_traits::{ArgText, NoMemory};
use std::alloc::Global;
use std::env::Args;
use std::io::ErrorKind;
use std::{env, io};

// The words behind the first, which is the program's name.
fn without_name(args: Args) -> Args
    ensures { into_iter_items result ≡ drop 1 (into_iter_items args) }
{
    let mut args = args;
    let _ = args.next();
    args
}

// The words of a program that was called with these.
fn words_of(alloc: Global, args: Args) -> Result<Vec<ArgText>, NoMemory>
    ensures { IfOk result (λ words. words.items ≡ map string_bytes (drop 1 (into_iter_items args))) }
{
    let mut words = Vec::new(alloc);
    for word in without_name(args) {
        words.push(ArgText::of(word))?;
    }
    Ok(words)
}

// The words, by what the system gave of them.
fn words_by(alloc: Global, args: io::Result<Args>) -> Result<Vec<ArgText>, NoMemory>
    ensures { MatchResult args (λ args. IfOk result (λ words. words.items ≡ map string_bytes (drop 1 (into_iter_items args)))) (λ e. HasNoWords (error_kind e) result) }
{
    let error = match args {
        Ok(args) => return words_of(alloc, args),
        Err(error) => error,
    };
    match error.kind() {
        ErrorKind::InvalidData => Ok(Vec::new(alloc)),
        _ => Err(NoMemory),
    }
}

/// The words of the command line, without the program's name. Where one isn't UTF-8 there are none, which is refused.
///
/// # Errors
///
/// No memory for the words.
pub fn words<R: env::Env + Alloc<A = Global>>(rt: &R) -> Result<Vec<ArgText>, NoMemory> {
    words_by(rt.alloc(), env::args(rt))
}
