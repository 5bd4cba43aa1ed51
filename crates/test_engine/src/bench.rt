// The engine that rows drive.
use crate::programs::loads;
use crate::subject::Subject;
use std::alloc::Global;
use test_rows::{Bench, RowFault, said};

/// The engine over the program of the last row that loads one. None where that couldn't be loaded.
#[derive(Drop)]
pub struct EngineBench {
    subject: Option<Subject>,
}

impl EngineBench {
    /// No program is loaded.
    pub fn new() -> EngineBench {
        EngineBench { subject: None }
    }

    // The engine that was there is let go of here and nowhere else, since it is large.
    fn load(&mut self, alloc: Global, line: &str) {
        self.subject = Subject::load(alloc, line);
    }
}

fn told(alloc: Global, subject: &mut Option<Subject>, row: &str) -> Result<String, RowFault> {
    match subject {
        Some(subject) => subject.answer(alloc, row),
        None => said(alloc, "no program is loaded"),
    }
}

impl Bench for EngineBench {
    fn answer(&mut self, alloc: Global, row: &str) -> Result<String, RowFault> {
        if loads(row) {
            self.load(alloc, row);
        }
        told(alloc, &mut self.subject, row)
    }
}
