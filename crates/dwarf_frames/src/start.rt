//! What a common information entry (CIE) gives the FDEs that name it, and how that is kept.

ghost use Rattle.std.specs.Prelude.{◌≡◌};
ghost use Rattle.dwarf_frames.specs.Starts.{AreSame, seen_start};

use crate::fault::FrameFault;
use crate::operation::Factors;
use crate::table::State;

/// The factors of a CIE, and the state behind its program.
#[derive(Drop)]
pub struct Start {
    pub factors: Factors,
    pub state: State,
}

/// What the CIE at a place gives, or its fault.
#[derive(Drop)]
pub struct KeptStart {
    /// In bytes from the start of the section.
    pub place: usize,
    pub outcome: Result<Start, FrameFault>,
}

impl Start {
    fn copy(&self) -> Start
        ensures { seen_start result ≡ seen_start self.now }
    {
        Start {
            factors: self.factors,
            state: self.state.copy(),
        }
    }
}

impl KeptStart {
    pub fn outcome(&self) -> Result<Start, FrameFault>
        ensures { AreSame result self.now.outcome }
    {
        match &self.outcome {
            Ok(start) => Ok(start.copy()),
            Err(fault) => Err(*fault),
        }
    }
}
