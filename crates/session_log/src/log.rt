//! The log of a session, read.

ghost use Rattle.std.specs.Prelude.{◌≡◌, ℕ, List, ◌+◌, ◌<◌, ◌≤◌, ◌^◌, ◌∷◌, length, position, IfOk};
ghost use Rattle.dbg_model.specs.declared.entry.Entry.{Entry};
ghost use Rattle.dbg_traits.specs.declared.settings.Settings.{Settings};
ghost use Rattle.session_log.specs.LogText.{lines, is_lf, is_marked, IsPlainText, Transcript};
ghost use Rattle.session_log.specs.Judged.{so_far, step, Answers, TakesLine, ReadsLog};
ghost use Rattle.session_log.specs.Faults.{TellsFault};
ghost use Rattle.session_log.specs.Found.{IsLogOf, GivesLog};

use crate::entries::EntryList;
use crate::fault::{FaultKind, LogFault, LogReadError, Refusal};
use crate::row::{LogRow, read_row};
use dbg_traits::Settings;
use std::alloc::Global;

/// A log that was read.
#[derive(Drop)]
pub struct Log {
    pub settings: Settings,
    pub journal: EntryList,
    /// The length of what stands before the first line with `#`.
    pub transcript: usize,
}

/// How far a text is read. Each has the length of what stands before the first line with `#`.
#[derive(Drop)]
pub enum State {
    /// No line with `#` came.
    Before(usize),
    /// The settings came, and these entries.
    Inside(usize, Settings, EntryList),
    /// The end came.
    After(usize, Settings, EntryList),
}

fn is_marked(line: &[u8]) -> bool
    ensures { result ≡ is_marked line.now }
{
    matches!(line, [b'#', ..])
}

fn step(alloc: Global, state: State, row: LogRow) -> Result<State, Refusal>
    ensures { Answers (step state row) result }
{
    match state {
        State::Before(transcript) => match row {
            LogRow::Head(settings) => {
                Ok(State::Inside(transcript, settings, EntryList::new(alloc)))
            }
            _ => Err(Refusal::Kind(FaultKind::Order)),
        },
        State::Inside(transcript, settings, journal) => match row {
            LogRow::Head(_) => Err(Refusal::Kind(FaultKind::Order)),
            LogRow::Entry(entry) => {
                let mut journal = journal;
                journal.push(entry)?;
                Ok(State::Inside(transcript, settings, journal))
            }
            LogRow::End(k) => {
                if k == journal.as_slice().len() as u64 {
                    Ok(State::After(transcript, settings, journal))
                } else {
                    Err(Refusal::Kind(FaultKind::End))
                }
            }
        },
        State::After(..) => Err(Refusal::Kind(FaultKind::Order)),
    }
}

// One line more.
fn take(alloc: Global, state: State, line: &[u8], scratch: &mut Vec<u8>) -> Result<State, Refusal>
    requires { so_far state + length line.now < 2 ^ 64 }
    ensures takes { TakesLine state line.now result }
    ensures room { IfOk result (λ t. so_far t ≤ so_far state + length line.now) }
{
    if is_marked(line) {
        let row = read_row(alloc, line, scratch)?;
        return step(alloc, state, row);
    }
    match state {
        State::Before(transcript) => Ok(State::Before(transcript + line.len())),
        _ => Err(Refusal::Kind(FaultKind::Order)),
    }
}

fn lf_at(bytes: &[u8]) -> Option<usize>
    ensures { result ≡ position is_lf bytes.now }
{
    bytes.iter().position(|b| *b == b'\n')
}

// The first line with its LF, if it has one, and what stands behind it.
fn next_line(bytes: &[u8]) -> (&[u8], &[u8])
    requires { 0 < length bytes.now }
    ensures lines { lines bytes.now ≡ result.0.now ∷ lines result.1.now }
    ensures length { length result.0.now + length result.1.now ≡ length bytes.now }
    ensures some { 0 < length result.0.now }
{
    match lf_at(bytes) {
        Some(i) => (&bytes[..i + 1], &bytes[i + 1..]),
        None => (bytes, &[]),
    }
}

fn judge(alloc: Global, bytes: &[u8]) -> Result<Log, LogReadError>
    ensures { ReadsLog bytes.now result }
{
    let mut scratch = Vec::new(alloc);
    let mut state = State::Before(0);
    let mut rest = bytes;
    let mut line: u64 = 0;
    'lines: while !rest.is_empty() {
        let (text, more) = next_line(rest);
        line += 1;
        match take(alloc, state, text, &mut scratch) {
            Ok(next) => state = next,
            Err(Refusal::NoMemory) => return Err(LogReadError::NoMemory),
            Err(Refusal::Kind(kind)) => return Err(LogReadError::Fault(LogFault { kind, line })),
        }
        rest = more;
    }
    match state {
        State::After(transcript, settings, journal) => Ok(Log {
            settings,
            journal,
            transcript,
        }),
        _ => Err(LogReadError::Fault(LogFault {
            kind: FaultKind::End,
            line: line + 1,
        })),
    }
}

/// What a text is the log of, from its first line with `#` on.
///
/// # Errors
///
/// The first line that has a fault, and the first of its faults: `Line` where it begins with `#` and is the line of
/// nothing, `Order` where it doesn't belong there, `End` where the log ends with another number than that of its
/// entries, or, at the line behind the last, where the text ends without an end.
pub fn read_log(alloc: Global, bytes: &[u8]) -> Result<Log, LogReadError>
    // A fault that is told is the first; where a log is read there is none.
    ensures faults { TellsFault bytes.now result }

    // A text that is read is this log, behind whole lines without `#`.
    ensures found { IfOk result (λ log. IsLogOf bytes.now log) }

    // And each such text is read.
    ensures again { (said : List ℕ) (s : Settings) (j : List Entry) → IsPlainText said → Transcript said s j bytes.now
        → GivesLog (record { settings = s; journal = j; transcript = length said }) result }
{
    judge(alloc, bytes)
}
