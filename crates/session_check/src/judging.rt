//! An input, judged for a program.

ghost use Rattle.std.specs.Prelude.{IfOk};
ghost use Rattle.session_log.specs.Found.{IsLogOf};
ghost use Rattle.session_check.specs.Findings.{Finds, FindsIn};

use crate::finding::Finding;
use crate::input::MOST_INPUT;
use crate::speaking::LineSpeaker;
use dbg_model::Opening;
use dbg_traits::NoMemory;
use elf32_read::Image;
use log_check::{CheckVerdict, check};
use session_log::{Log, LogReadError, read_log};
use std::alloc::Global;

// What is found of an input of which this log was read.
fn judge_log(alloc: Global, image: Image, log: &Log, input: &[u8]) -> Result<Finding, NoMemory>
    requires { IsLogOf input.now log.now }
    ensures { IfOk result (λ found. FindsIn image input.now found) }
{
    let opening = Opening {
        image,
        settings: log.settings,
    };
    let journal = log.journal.as_slice();
    let said = &input[..log.transcript];
    Ok(
        match check(alloc, &opening, journal, said, &mut LineSpeaker)? {
            CheckVerdict::Accepted => Finding::Accepted {
                entries: journal.len() as u64,
            },
            CheckVerdict::Unlawful { entry } => Finding::Unlawful { entry },
            CheckVerdict::Differs { place } => Finding::Differs { place },
        },
    )
}

/// Whether an input is the record of a lawful session of a program, with its log; or the first reason why not.
///
/// Fails where memory runs out.
pub fn judge(alloc: Global, image: Image, input: &[u8]) -> Result<Finding, NoMemory>
    ensures { IfOk result (λ found. Finds image input.now found) }
{
    if input.len() > MOST_INPUT {
        return Ok(Finding::Long);
    }
    match read_log(alloc, input) {
        Ok(log) => judge_log(alloc, image, &log, input),
        Err(LogReadError::Fault(fault)) => Ok(Finding::Fault(fault)),
        Err(LogReadError::NoMemory) => Err(NoMemory),
    }
}
