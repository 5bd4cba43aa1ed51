// The line of a condition whose value can't be had.
ghost use Rattle.std.specs.Prelude.{◌≡◌, ◌++◌, OnOk};
ghost use Rattle.mi_values.specs.Records.{lines_bytes};
ghost use Rattle.mi_reports.specs.Errors.{condition_error, condition_message};
ghost use Rattle.mi_reports.specs.Text.{condition_lines};
ghost use Rattle.mi_reports.specs.Led.{Adds};

use crate::lines::write_stream;
use crate::texts::{push, push_at, push_counted};
use crate::words::Phrase;
use break_table::CondError;
use mi_values::StreamSign;
use std::alloc::AllocError;

fn push_error(into: &mut Vec<u8>, error: CondError) -> Result<(), AllocError>
    ensures { OnOk result (into.new.items ≡ into.old.items ++ condition_error error) }
{
    match error {
        CondError::DivZero => push(into, Phrase::DivisionByZero),
        CondError::Unread(address) => push_at(into, Phrase::Unreadable, address),
    }
}

// The message, before its bytes are written as a C string.
#[tactic(auto, unfolding(crate::specs::Errors::condition_message))]
fn push_message(into: &mut Vec<u8>, number: u32, error: CondError) -> Result<(), AllocError>
    ensures { OnOk result (into.new.items ≡ into.old.items ++ condition_message number error) }
{
    push_counted(into, Phrase::ConditionError, number)?;
    push(into, Phrase::Colon)?;
    push_error(into, error)?;
    into.push(b'\n')?;
    Ok(())
}

/// Puts the line of the condition of that breakpoint at the end; none where it had a value.
pub fn write_condition(
    into: &mut Vec<u8>,
    number: u32,
    error: Option<CondError>,
) -> Result<(), AllocError>
    ensures { Adds result into.old.items into.new.items (lines_bytes (condition_lines number error)) }
{
    let Some(error) = error else {
        return Ok(());
    };
    let mut message = Vec::new(*into.allocator());
    push_message(&mut message, number, error)?;
    write_stream(into, StreamSign::Log, message.as_slice())
}
