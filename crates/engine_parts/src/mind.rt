// What the debugger keeps of one hart, and of the patch that is lifted for one.
use dbg_model::Course;
use step_over::Phase;

/// What the debugger lets a hart do.
#[derive(Clone, Copy)]
pub enum Activity {
    Stopped,
    Running,
    Exited,
}

/// What the debugger keeps of a hart.
#[derive(Clone, Copy)]
pub struct Mind {
    pub activity: Activity,
    /// An interrupt is asked of it.
    pub asked: bool,
    /// Where it is in a step over the planted word at its pc.
    pub phase: Phase,
    pub course: Course,
}

/// The hart for which a patch is lifted, and its address. All other harts stand held meanwhile.
#[derive(Clone, Copy)]
pub struct Hold {
    pub hart: u32,
    pub home: u32,
}
