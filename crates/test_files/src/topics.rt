// What rows are about, and what answers them.
use crate::expressions::ExpressionBench;
use crate::files::FileBench;
use crate::lines::LineBench;
use crate::variables::{VariableBench, label};
use std::alloc::Global;
use std::io;
use std::io::{Input, Print};
use test_rows::{Bench, RowFault, is_remark, said, tell};

/// What the rows that follow are about.
#[derive(Clone, Copy)]
enum Topic {
    Files,
    Expressions,
    Lines,
    Variables,
}

impl Topic {
    // The topic of a row `in TOPIC`.
    fn named(name: &str) -> Option<Topic> {
        match name {
            "files" => Some(Topic::Files),
            "expressions" => Some(Topic::Expressions),
            "lines" => Some(Topic::Lines),
            "variables" => Some(Topic::Variables),
            _ => None,
        }
    }
}

/// A bench for each topic, and the topic whose bench answers.
#[derive(Drop)]
struct Benches {
    files: FileBench,
    expressions: ExpressionBench,
    lines: LineBench,
    variables: VariableBench,
    topic: Topic,
}

impl Benches {
    // Benches on which nothing was done.
    fn new(alloc: Global) -> Benches {
        Benches {
            files: FileBench::new(),
            expressions: ExpressionBench::new(),
            lines: LineBench::new(),
            variables: VariableBench::new(alloc),
            topic: Topic::Files,
        }
    }

    // What is said of a row before its answer.
    fn label<'a>(&self, row: &'a str) -> &'a str {
        match self.topic {
            Topic::Variables => label(row),
            _ => row,
        }
    }
}

impl Bench for Benches {
    fn answer(&mut self, alloc: Global, row: &str) -> Result<String, RowFault> {
        if let Some(name) = row.strip_prefix("in ") {
            self.topic = Topic::named(name).ok_or(RowFault::Unknown)?;
            return said(alloc, "from here on");
        }
        match self.topic {
            Topic::Files => self.files.answer(alloc, row),
            Topic::Expressions => self.expressions.answer(alloc, row),
            Topic::Lines => self.lines.answer(alloc, row),
            Topic::Variables => self.variables.answer(alloc, row),
        }
    }
}

// Plays the lines of the input, and prints each with what came of it. A remark is printed as it stands.
fn play_on(rt: &(impl Input + Print), alloc: Global, benches: &mut Benches) -> io::Result<()> {
    for row in rt.lines(alloc) {
        let row = row?;
        let text = row.as_str();
        if is_remark(text) {
            println!(rt; "{text}")?;
        } else {
            tell(rt, benches.label(text), benches.answer(alloc, text))?;
        }
    }
    Ok(())
}

/// Plays the lines of the input on benches on which nothing was done. The benches are let go of here alone.
pub fn play_rows(rt: &(impl Input + Print), alloc: Global) -> io::Result<()> {
    let mut benches = Benches::new(alloc);
    play_on(rt, alloc, &mut benches)
}
