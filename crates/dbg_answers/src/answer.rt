// An answer: what is shown and what changes, or why the command isn't done.
ghost use Rattle.std.specs.Prelude.{◌≡◌};
ghost use Rattle.std.specs.Prelude.{Result, IfOk};
ghost use Rattle.dbg_model.specs.declared.reply.Refused.{Refused};
ghost use Rattle.dbg_model.specs.Outcome.{Outcome, doing, showing, told};
ghost use Rattle.dbg_answers.specs.Answer.{Gives, answered, outcome_of};
ghost use Rattle.dbg_effects.specs.Effect.{change_of};
ghost use Rattle.dbg_answers.specs.declared.answer.Failure.TheVariants as failure;

use dbg_effects::Effect;
use dbg_model::{Content, Obstacle, Refused};
use dbg_traits::NoMemory;
use std::alloc::{AllocError, AllocFailed};

/// What is answered to a command, and what it changes.
#[derive(Drop)]
pub struct Answer {
    pub content: Content,
    pub effect: Effect,
}

/// An answer that changes nothing.
pub fn showing(content: Content) -> Answer
    ensures { outcome_of result ≡ showing content }
{
    Answer {
        content,
        effect: Effect::Nothing,
    }
}

/// Done, with nothing to show.
pub fn doing(effect: Effect) -> Answer
    ensures { outcome_of result ≡ doing (change_of effect) }
{
    Answer {
        content: Content::Done,
        effect,
    }
}

/// Why a command isn't done.
#[derive(Drop)]
pub enum Failure {
    NoMemory,
    Refused(Refused),
}

impl From<AllocError> for Failure {
    ghost from_gives = { λ _ f. f ≡ failure.NoMemory };

    fn from(_: AllocError) -> Failure {
        Failure::NoMemory
    }
}

impl<T: Drop> From<AllocFailed<T>> for Failure {
    ghost from_gives = { λ _ f. f ≡ failure.NoMemory };

    fn from(_: AllocFailed<T>) -> Failure {
        Failure::NoMemory
    }
}

impl From<NoMemory> for Failure {
    ghost from_gives = { λ _ f. f ≡ failure.NoMemory };

    fn from(_: NoMemory) -> Failure {
        Failure::NoMemory
    }
}

impl From<Refused> for Failure {
    ghost from_gives = { λ r f. f ≡ failure.Refused r };

    fn from(refused: Refused) -> Failure {
        Failure::Refused(refused)
    }
}

/// A command that this stands against.
pub fn hindered(obstacle: Obstacle) -> Failure
    ensures { result ≡ Failure.Refused (Refused.Hindered obstacle) }
{
    Failure::Refused(Refused::Hindered(obstacle))
}

/// The answer of a call that takes no memory, where others may.
pub fn answer_of(done: Result<Answer, Refused>) -> Result<Answer, Failure>
    ensures { Gives result (answered done) }
{
    match done {
        Ok(answer) => Ok(answer),
        Err(refused) => Err(Failure::Refused(refused)),
    }
}

/// What comes of a command in the end, where no memory is taken; one that is refused changes nothing.
pub fn settled(done: Result<Answer, Refused>) -> Answer
    ensures { outcome_of result ≡ told (answered done) }
{
    match done {
        Ok(answer) => answer,
        Err(refused) => showing(Content::Refused(refused)),
    }
}

/// The same where memory may be taken.
pub fn told(done: Result<Answer, Failure>) -> Result<Answer, NoMemory>
    ensures { (r : Result Outcome Refused) → Gives done r → IfOk result (λ a. outcome_of a ≡ told r) }
{
    match done {
        Ok(answer) => Ok(answer),
        Err(Failure::Refused(refused)) => Ok(showing(Content::Refused(refused))),
        Err(Failure::NoMemory) => Err(NoMemory),
    }
}
