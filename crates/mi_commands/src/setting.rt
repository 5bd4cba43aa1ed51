//! Settings, their values, and the formats of registers.

ghost use Rattle.std.specs.Prelude.{◌≡◌};
ghost use Rattle.mi_commands.specs.Settings.{format_of, setting_of, displaced_of, is_on, set_command};

use crate::command::{Command, Displaced, Format, Setting};

/// The format that a word names.
#[tactic(auto, unfolding(crate::specs::Settings::format_of))]
pub fn format_of(word: &[u8]) -> Option<Format>
    ensures { result ≡ format_of word.now }
{
    if word == b"x".as_slice() {
        Some(Format::Hexadecimal)
    } else if word == b"d".as_slice() {
        Some(Format::Decimal)
    } else {
        None
    }
}

/// The setting that a word names.
#[tactic(auto, unfolding(crate::specs::Settings::setting_of))]
pub fn setting_of(word: &[u8]) -> Option<Setting>
    ensures { result ≡ setting_of word.now }
{
    if word == b"non-stop".as_slice() {
        Some(Setting::NonStop)
    } else if word == b"mi-async".as_slice() {
        Some(Setting::MiAsync)
    } else if word == b"displaced-stepping".as_slice() {
        Some(Setting::DisplacedStepping)
    } else {
        None
    }
}

#[tactic(auto, unfolding(crate::specs::Settings::displaced_of))]
fn displaced_of(word: &[u8]) -> Option<Displaced>
    ensures { result ≡ displaced_of word.now }
{
    if word == b"on".as_slice() {
        Some(Displaced::On)
    } else if word == b"off".as_slice() {
        Some(Displaced::Off)
    } else if word == b"auto".as_slice() {
        Some(Displaced::Auto)
    } else {
        None
    }
}

#[tactic(auto, unfolding(crate::specs::Settings::is_on))]
fn is_on(word: &[u8]) -> bool
    ensures { result ≡ is_on word.now }
{
    word == b"on".as_slice()
}

/// What a setting's name and its value ask for.
pub fn set_command(name: &[u8], value: &[u8]) -> Option<Command>
    ensures { result ≡ set_command name.now value.now }
{
    match setting_of(name)? {
        Setting::NonStop if is_on(value) => Some(Command::SetNonStop),
        Setting::MiAsync if is_on(value) => Some(Command::SetMiAsync),
        Setting::NonStop | Setting::MiAsync => None,
        Setting::DisplacedStepping => Some(Command::SetDisplaced(displaced_of(value)?)),
    }
}
