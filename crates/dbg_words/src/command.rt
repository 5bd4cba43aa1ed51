// The command, and what clap makes of the words.
ghost use Rattle.std.specs.Prelude.{◌≡◌, ◌≢◌, IfOk, IfSome, IfNone, [], false};
ghost use Rattle.clap.specs.Words.{App, Rule, app_of, rule_of, rows_of, found_of, with_rule};
ghost use Rattle.dbg_words.specs.Command.{rvdbg, option_rule, flag_rule, file_rule, clap_faults, clap_rows};

use clap::error::ErrorKind;
use clap::{Arg, ArgAction, ArgMatches, Command};
use dbg_traits::{ArgText, NoMemory};
use std::alloc::{AllocError, Global};

fn option<'a>(alloc: Global, name: &'a str) -> Arg<'a>
    ensures rule { rule_of result ≡ option_rule name.entry.now }
    ensures local { result.global ≡ false }
{
    Arg::new(alloc, name).long(name).action(ArgAction::Set)
}

fn flag<'a>(alloc: Global, name: &'a str) -> Arg<'a>
    ensures rule { rule_of result ≡ flag_rule name.entry.now }
    ensures local { result.global ≡ false }
{
    Arg::new(alloc, name).long(name).action(ArgAction::SetTrue)
}

fn file<'a>(alloc: Global) -> Arg<'a>
    ensures rule { rule_of result ≡ file_rule }
    ensures local { result.global ≡ false }
{
    Arg::new(alloc, "FILE").action(ArgAction::Set)
}

// The command with one more argument.
fn with<'a>(
    command: Result<Command<'a>, AllocError>,
    argument: Arg<'a>,
) -> Result<Command<'a>, AllocError>
    requires { argument.global ≡ false }
    ensures { (app : App) (rule : Rule) → rule_of argument.entry ≡ rule → IfOk command.entry (λ c. app_of c ≡ app) → IfOk result (λ c. app_of c ≡ with_rule app rule) }
{
    match command {
        Ok(command) => command.arg(argument),
        Err(error) => Err(error),
    }
}

// The options, the flag and FILE.
fn command<'a>(alloc: Global) -> Result<Command<'a>, AllocError>
    ensures { IfOk result (λ c. app_of c ≡ rvdbg) }
{
    let bare = Command::new(alloc, "rvdbg")
        .no_binary_name(true)
        .disable_help_flag(true);
    let command = with(Ok(bare), option(alloc, "harts"));
    let command = with(command, option(alloc, "workers"));
    let command = with(command, option(alloc, "slots"));
    let command = with(command, option(alloc, "budget"));
    let command = with(command, option(alloc, "slice"));
    let command = with(command, option(alloc, "gen"));
    let command = with(command, option(alloc, "check"));
    let command = with(command, flag(alloc, "log"));
    with(command, file(alloc))
}

/// What clap finds, or none where it refuses the words.
pub fn parsed<'a>(alloc: Global, words: &'a [ArgText]) -> Result<Option<ArgMatches<'a>>, NoMemory>
    ensures accepted { IfOk result (λ r. IfSome r (λ m.
        (clap_faults words.now ≡ [])
        × (rows_of (found_of m) ≡ clap_rows words.now))) }
    ensures refused { IfOk result (λ r. IfNone r (clap_faults words.now ≢ [])) }
{
    let Ok(command) = command(alloc) else {
        return Err(NoMemory);
    };
    match command.try_get_matches_from(words) {
        Ok(matches) => Ok(Some(matches)),
        Err(error) => {
            if error.kind() == ErrorKind::OutOfMemory {
                Err(NoMemory)
            } else {
                Ok(None)
            }
        }
    }
}
