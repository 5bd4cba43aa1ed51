// The effects of commands, one for each kind of change.
use break_table::Spec;
use cond_expr::Expr;
use dbg_model::Poke;
use dbg_traits::{ByteList, NumberList};
use mi_commands::Displaced;
use step_plans::Plan;
use watch_points::Watched;

/// What a command changes.
#[derive(Drop)]
pub enum Effect {
    Nothing,
    /// These threads go on with a plan.
    Resume {
        threads: NumberList,
        plan: Plan,
    },
    /// An interrupt is asked of these threads.
    Interrupt(NumberList),
    /// This thread is selected.
    Select(u32),
    /// Displaced stepping is set.
    Displace(Displaced),
    /// A breakpoint is set.
    Insert(Spec),
    /// These bytes, which a text gave, are watched.
    Watch {
        text: ByteList,
        watched: Watched,
    },
    Delete(NumberList),
    Enable {
        numbers: NumberList,
        enabled: bool,
    },
    Condition {
        number: u32,
        condition: Option<Expr>,
    },
    After {
        number: u32,
        count: u32,
    },
    /// This is to be written into the program.
    Poke(Poke),
    /// The session ends.
    Exit,
}
