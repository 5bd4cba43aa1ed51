// How a session ends.
ghost use Rattle.std.specs.Prelude.{◌≡◌, None, Some, if◌then◌else◌};
ghost use Rattle.session_parts.specs.Stage.{stage_of};
ghost use Rattle.session_parts.specs.Ties.{OverBy};

use dbg_engine::{End, Engine};
use dbg_model::MOST_INPUT;
use session_parts::Status;

/// The status after a put.
pub fn status_of(put: bool) -> Option<Status>
    ensures { result ≡ (if put then None else Some Status.WriteFault) }
{
    if put { None } else { Some(Status::WriteFault) }
}

/// Why a session over the engine is over, where so much input was polled.
pub fn over(engine: &Engine, count: u64) -> Option<Status>
    ensures { OverBy result (stage_of engine.now) count }
{
    match engine.over() {
        Some(End::Budget) => Some(Status::Budget),
        Some(End::History) => Some(Status::History),
        _ if count >= MOST_INPUT => Some(Status::History),
        Some(End::Exit) => Some(Status::Done),
        None => None,
    }
}
