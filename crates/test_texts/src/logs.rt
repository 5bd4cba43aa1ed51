// What came of a text of a log.
use session_log::{FaultKind, Log, LogFault, LogReadError, log_end, log_head, log_line, read_log};
use std::alloc::Global;
use test_rows::Piece::{Count, Text};
use test_rows::{RowFault, read_bytes, told, told_bytes};

fn told_fault(alloc: Global, fault: LogFault) -> Result<String, RowFault> {
    let kind = match fault.kind {
        FaultKind::Line => "Line at ",
        FaultKind::Order => "Order at ",
        FaultKind::End => "End at ",
    };
    told(alloc, &[Text(kind), Count(fault.line as u64)])
}

fn told_log(alloc: Global, log: &Log) -> Result<String, RowFault> {
    told(
        alloc,
        &[
            Count(log.journal.as_slice().len() as u64),
            Text(" entries behind "),
            Count(log.transcript as u64),
            Text(" bytes"),
        ],
    )
}

fn push_lines(log: &Log, text: &mut Vec<u8>) -> Result<(), RowFault> {
    let entries = log.journal.as_slice();
    log_head(log.settings, text)?;
    for entry in entries {
        log_line(entry, text)?;
    }
    Ok(log_end(entries.len() as u64, text)?)
}

fn written(alloc: Global, log: &Log) -> Result<String, RowFault> {
    let mut text = Vec::new(alloc);
    push_lines(log, &mut text)?;
    Ok(told_bytes(alloc, &text)?)
}

// What is told of a log that was read.
fn told_read(alloc: Global, verb: &str, log: &Log) -> Result<String, RowFault> {
    match verb {
        "read" => told_log(alloc, log),
        _ => written(alloc, log),
    }
}

/// What came of a row: `read TEXT`, a text that is read as a log, or `again TEXT`, one that is written again.
pub fn answer(alloc: Global, verb: &str, text: &str) -> Result<String, RowFault> {
    match read_log(alloc, &read_bytes(alloc, text)?) {
        Ok(log) => told_read(alloc, verb, &log),
        Err(LogReadError::NoMemory) => Err(RowFault::NoMemory),
        Err(LogReadError::Fault(fault)) => told_fault(alloc, fault),
    }
}
