// The words of the command line, and the reading of the file.
ghost use Rattle.std.specs.Prelude.{◌≡◌, ◌<◌, ◌≤◌, ℕ, IfOk, IfSome, Some, length, false, None, MatchResult};
ghost use Rattle.dbg_traits.specs.Names.{IsNamed};
ghost use Rattle.dbg_traits.specs.Settings.{AreSettings};
ghost use Rattle.dbg_words.specs.Request.{asked};
ghost use Rattle.session_parts.specs.Words.{IsAmong, checked_words, file_checked, served, served_words, ReadsAll, ReadsSome};

use dbg_traits::{ArgText, FileRead, NoMemory, Settings, World};
use dbg_words::{Request, read_words};
use std::alloc::Global;

/// So many bytes of a file are read at most: one more than the largest file that is accepted.
pub const MOST_FILE: usize = 33_554_433;

/// Why a file wasn't read.
#[derive(Clone, Copy)]
pub enum FileError {
    Failed,
    NoMemory,
}

/// Where the program and the lines of a run come from.
#[derive(Drop)]
pub enum Source {
    /// From the file of this name, and from the input.
    File(ArgText),
    /// From this number, 1 to 1,000,000: both are generated.
    Generated(u32),
}

/// What the words ask for, where they are accepted.
#[derive(Drop)]
pub struct Served {
    pub source: Source,
    pub settings: Settings,
    /// Whether the log of the session is put behind its lines.
    pub has_log: bool,
}

fn serve(alloc: Global, request: Request<'_>) -> Result<Option<Served>, NoMemory>
    ensures served { IfOk result (λ r. r ≡ served (Some (asked request.entry))) }
{
    match request {
        Request::Session {
            file,
            settings,
            has_log,
        } => {
            let source = Source::File(ArgText::of(String::from_str(alloc, file)?));
            Ok(Some(Served {
                source,
                settings,
                has_log,
            }))
        }
        Request::Generated { number, settings } => {
            let source = Source::Generated(number);
            Ok(Some(Served {
                source,
                settings,
                has_log: false,
            }))
        }
        Request::Check { .. } => Ok(None),
    }
}

fn checked_file(alloc: Global, request: Request<'_>) -> Result<Option<ArgText>, NoMemory>
    ensures checked { IfOk result (λ r. r ≡ file_checked (Some (asked request.entry))) }
{
    match request {
        Request::Check { file } => Ok(Some(ArgText::of(String::from_str(alloc, file)?))),
        Request::Session { .. } | Request::Generated { .. } => Ok(None),
    }
}

/// The name of the file for whose program the words ask that a log is checked, where they do.
pub fn checked_words(alloc: Global, words: &[ArgText]) -> Result<Option<ArgText>, NoMemory>
    ensures checked { IfOk result (λ r. r ≡ checked_words words.now) }
    ensures known { IfOk result (λ r. IfSome r (λ name. IsNamed words.now name)) }
{
    match read_words(alloc, words)? {
        None => Ok(None),
        Some(request) => checked_file(alloc, request),
    }
}

/// The session that the words ask for, where they ask for one.
pub(crate) fn served_words(alloc: Global, words: &[ArgText]) -> Result<Option<Served>, NoMemory>
    ensures served { IfOk result (λ r. r ≡ served_words words.now) }
    ensures known { IfOk result (λ r. IfSome r (λ s. IsAmong words.now s.source)) }
    ensures ranges { IfOk result (λ r. IfSome r (λ s. AreSettings s.settings)) }
{
    match read_words(alloc, words)? {
        None => Ok(None),
        Some(request) => serve(alloc, request),
    }
}

/// The bytes of the file, to its end or to the most.
pub fn read_all<W: World>(
    alloc: Global,
    world: &mut W,
    name: &ArgText,
) -> Result<Vec<u8>, FileError>
    requires known { IsNamed (W.told world.old).words name.now }
    requires fresh { (W.told world.old).file_name ≡ None }
    requires unread { (W.told world.old).file_ended ≡ false }
    requires untaken { (W.told world.old).file_length ≡ 0 }
    ensures { MatchResult result (λ v. ReadsAll v.items name.now (W.told world.old) (W.told world.new)) (λ e. ReadsSome e name.now (W.told world.old) (W.told world.new)) }
{
    let mut bytes = Vec::new(alloc);
    let mut piece = [0u8; 4096];
    'more: while bytes.len() < MOST_FILE {
        if bytes.reserve(4096).is_err() {
            return Err(FileError::NoMemory);
        }
        let room = (MOST_FILE - bytes.len()).min(4096);
        match world.read_file(name, &mut piece[..room]) {
            FileRead::Took(n) => {
                let _ = bytes.extend_from_slice(&piece[..n]);
            }
            FileRead::End => return Ok(bytes),
            FileRead::Failed => return Err(FileError::Failed),
        }
    }
    Ok(bytes)
}
