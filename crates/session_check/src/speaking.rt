//! A session, said in the lines that a session puts.

use dbg_model::{Entry, Opening, Shown};
use dbg_traits::NoMemory;
use log_check::Speaker;
use mi_reports::{report, report_opening};

/// Says the lines of a session.
#[derive(Clone, Copy)]
pub struct LineSpeaker;

impl Speaker for LineSpeaker {
    ghost use Rattle.session_check.specs.Speaking.{line_voice};

    ghost voice = { line_voice };

    fn opening(&mut self, opening: &Opening, into: &mut Vec<u8>) -> Result<(), NoMemory> {
        report_opening(opening.settings.harts, into)
    }

    fn say(&mut self, entry: &Entry, shown: &Shown, into: &mut Vec<u8>) -> Result<(), NoMemory> {
        if matches!(shown, Shown::Nothing) {
            return Ok(());
        }
        report(entry, shown, into)
    }
}
