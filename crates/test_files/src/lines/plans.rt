// Plans of steps, and what becomes of them.
use crate::lines::hart::arrived;
use crate::lines::table::Table;
use rv_decode::decode;
use std::alloc::Global;
use step_plans::{After, Last, Plan, Verdict, arrive};
use test_rows::Piece::{Number, Text, Whether};
use test_rows::{RowFault, behind, number_at, push_told, said, told, word_at};

// What follows a return: `stop`, `step FILE LINE` or `next FILE LINE`.
fn after(text: &str) -> After {
    let word = word_at(text, 0);
    let (file, line) = (number_at(text, 1), number_at(text, 2));
    if word == "stop" {
        return After::Stop;
    }
    After::Line {
        file,
        line,
        into: word == "step",
    }
}

// A plan: `free`, `stepi`, `nexti`, `step FILE LINE`, `next FILE LINE`, `return RETURN SP AFTER`, `finish RETURN SP` or `body
// ADDRESS RETURN SP FILE LINE`.
fn plan(text: &str) -> Option<Plan> {
    let (first, second) = (number_at(text, 1), number_at(text, 2));
    let plan = match word_at(text, 0) {
        "free" => Plan::Free,
        "stepi" => Plan::One { over: false },
        "nexti" => Plan::One { over: true },
        "step" => Plan::Line {
            file: first,
            line: second,
            into: true,
        },
        "next" => Plan::Line {
            file: first,
            line: second,
            into: false,
        },
        "return" => Plan::ToReturn {
            ret: first,
            sp: second,
            after: after(behind(text, 3)),
        },
        "body" => Plan::ToBody {
            at: first,
            ret: second,
            sp: number_at(text, 3),
            file: number_at(text, 4),
            line: number_at(text, 5),
        },
        "finish" => Plan::Finish {
            ret: first,
            sp: second,
        },
        _ => return None,
    };
    Some(plan)
}

// The word of an instruction, or `own` for the program's at the address.
fn word_of(table: &Table, text: &str, address: u32) -> u32 {
    if word_at(text, 0) == "own" {
        table.image.text_word(address).unwrap_or(0)
    } else {
        number_at(text, 0)
    }
}

// What a hart has executed. None where that is no instruction.
fn last(table: &Table, text: &str) -> Option<Last> {
    let address = number_at(text, 1);
    match decode(word_of(table, text, address)) {
        Some(instruction) => Some(Last {
            instruction,
            address,
        }),
        None => None,
    }
}

fn told_line(alloc: Global, file: u32, line: u32, into: bool) -> Result<String, RowFault> {
    told(
        alloc,
        &[
            Text("line "),
            Number(file),
            Text(" "),
            Number(line),
            Text(" "),
            Whether(into),
        ],
    )
}

// What follows a return, as a row has it.
fn told_after(alloc: Global, after: After) -> Result<String, RowFault> {
    match after {
        After::Stop => said(alloc, "stop"),
        After::Line { file, line, into } => told_line(alloc, file, line, into),
    }
}

fn told_numbers(alloc: Global, word: &str, numbers: &[u32]) -> Result<String, RowFault> {
    let mut text = String::from_str(alloc, word)?;
    for number in numbers {
        push_told(alloc, &mut text, &[Text(" "), Number(*number)])?;
    }
    Ok(text)
}

fn told_return(alloc: Global, ret: u32, sp: u32, after: After) -> Result<String, RowFault> {
    let mut text = told_numbers(alloc, "return", &[ret, sp])?;
    let after = told_after(alloc, after)?;
    push_told(alloc, &mut text, &[Text(" "), Text(after.as_str())])?;
    Ok(text)
}

fn told_plan(alloc: Global, plan: Plan) -> Result<String, RowFault> {
    match plan {
        Plan::Free => said(alloc, "free"),
        Plan::One { over } => told(alloc, &[Text("one "), Whether(over)]),
        Plan::Line { file, line, into } => told_line(alloc, file, line, into),
        Plan::ToReturn { ret, sp, after } => told_return(alloc, ret, sp, after),
        Plan::Finish { ret, sp } => told_numbers(alloc, "finish", &[ret, sp]),
        Plan::ToBody {
            at,
            ret,
            sp,
            file,
            line,
        } => told_numbers(alloc, "body", &[at, ret, sp, file, line]),
    }
}

fn told_verdict(alloc: Global, verdict: Verdict) -> Result<String, RowFault> {
    match verdict {
        Verdict::Go(plan) => told_plan(alloc, plan),
        Verdict::Stepped => said(alloc, "stepped"),
        Verdict::Finished => said(alloc, "finished"),
    }
}

/// What came of a row `arrive WORD ADDRESS PC SP PLAN..`: what becomes of the plan of a hart that has executed the instruction
/// of this word at this address, and has arrived at a pc with a stack pointer.
pub fn answer(alloc: Global, table: &Table, text: &str) -> Result<String, RowFault> {
    let hart = arrived(number_at(text, 2), number_at(text, 3));
    match (plan(behind(text, 4)), last(table, text)) {
        (Some(plan), Some(last)) => told_verdict(
            alloc,
            arrive(plan, Some(last), &hart, &table.lines, &table.names),
        ),
        _ => Err(RowFault::Unknown),
    }
}
