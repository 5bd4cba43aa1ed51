//! A journal and a text, gone through.

ghost use Rattle.std.specs.Prelude.{◌≡◌, ◌<◌, ◌≤◌, IfOk, List, OnOk};
ghost use Rattle.dbg_traits.specs.Settings.{AreSettings};
ghost use Rattle.dbg_model.specs.declared.entry.Entry.{Entry};
ghost use Rattle.dbg_model.specs.declared.entry.Entry.TheVariants.{Ran};
ghost use Rattle.dbg_model.specs.declared.opening.Opening.{Opening};
ghost use Rattle.dbg_model.specs.declared.shown.Shown.TheVariants.{Nothing};
ghost use Rattle.dbg_model.specs.Journals.{come, first_place, noted_one};
ghost use Rattle.dbg_model.specs.Shown.{shown_of};
ghost use Rattle.dbg_replay.specs.Standing.{IsOf, come_one};
ghost use Rattle.log_check.specs.Speech.{CanShow, Voice, entry_text};
ghost use Rattle.log_check.specs.Agreeing.{Agrees, Heard, HeardMore, Hears, IsWithin, Through, repeated};
ghost use Rattle.log_check.specs.Verdict.{Checked};
ghost use Rattle.log_check.specs.declared.hearing.Hearing.{Hearing};

use crate::hearing::Hearing;
use crate::speaker::Speaker;
use crate::verdict::CheckVerdict;
use dbg_model::{Entry, Opening, Shown};
use dbg_replay::{ModelState, start, take_entry, take_more, take_ran};
use dbg_traits::NoMemory;
use std::alloc::Global;

// What an entry shows is said.
fn say<S: Speaker>(
    speaker: &mut S,
    entry: &Entry,
    shown: &Shown,
    hearing: &mut Hearing<'_>,
) -> Result<(), NoMemory>
    requires shows { CanShow entry.now shown.now }
    requires within { IsWithin hearing.old }
    ensures { OnOk result (Hears (S.voice.entry entry.now shown.now) hearing.old hearing.new) }
{
    hearing.piece.clear();
    speaker.say(entry, shown, &mut hearing.piece)?;
    hearing.hear();
    Ok(())
}

// One instruction, the first of a `Ran` or a further one.
fn instruction<S: Speaker>(
    alloc: Global,
    opening: &Opening,
    state: &mut ModelState,
    hart: u32,
    more: bool,
    speaker: &mut S,
    hearing: &mut Hearing<'_>,
) -> Result<bool, NoMemory>
    requires of { IsOf opening.now state.old }
    requires within { IsWithin hearing.old }
    ensures of { IsOf opening.now state.new }
    ensures heard { Heard result (come_one opening.now state.old.place hart more) (S.voice.entry (Ran hart 1) (shown_of opening.now state.old.place.state (Ran hart 1))) state.new hearing.old hearing.new }
{
    if !take_ran(alloc, opening, state, hart, more)? {
        return Ok(false);
    }
    // The entry is gone before the two ways out part.
    let said = say(
        speaker,
        &Entry::Ran { hart, count: 1 },
        state.shown(),
        hearing,
    );
    said?;
    Ok(true)
}

// So many instructions that show nothing are said.
fn say_often<S: Speaker>(
    speaker: &mut S,
    hart: u32,
    count: u64,
    hearing: &mut Hearing<'_>,
) -> Result<(), NoMemory>
    requires shows { CanShow (Ran hart 1) Nothing }
    requires within { IsWithin hearing.old }
    ensures { OnOk result (Hears (repeated (S.voice.entry (Ran hart 1) Nothing) count) hearing.old hearing.new) }
{
    hearing.piece.clear();
    // The entry and what it shows are gone before the two ways out part.
    let said = speaker.say(
        &Entry::Ran { hart, count: 1 },
        &Shown::Nothing,
        &mut hearing.piece,
    );
    said?;
    hearing.hear_often(count);
    Ok(())
}

// At least one further instruction of the `Ran` that was taken last, and at most `most`; none where none may come.
fn further<S: Speaker>(
    alloc: Global,
    opening: &Opening,
    state: &mut ModelState,
    hart: u32,
    most: u64,
    speaker: &mut S,
    hearing: &mut Hearing<'_>,
) -> Result<u64, NoMemory>
    requires most { 0 < most }
    requires of { IsOf opening.now state.old }
    requires within { IsWithin hearing.old }
    ensures most { IfOk result (λ n. n ≤ most) }
    ensures of { IsOf opening.now state.new }
    ensures heard { HeardMore S.voice result opening.now hart state.old.place state.new.place hearing.old hearing.new }
{
    let count = take_more(opening, state, hart, most);
    if count == 0 {
        let came = instruction(alloc, opening, state, hart, true, speaker, hearing)?;
        return Ok(u64::from(came));
    }
    say_often(speaker, hart, count, hearing)?;
    Ok(count)
}

// So many instructions of a hart.
fn run<S: Speaker>(
    alloc: Global,
    opening: &Opening,
    state: &mut ModelState,
    hart: u32,
    count: u64,
    speaker: &mut S,
    hearing: &mut Hearing<'_>,
) -> Result<bool, NoMemory>
    requires of { IsOf opening.now state.old }
    requires within { IsWithin hearing.old }
    ensures of { IsOf opening.now state.new }
    ensures heard { Heard result (come opening.now state.old.place (Ran hart count)) (entry_text S.voice opening.now state.old.place.state (Ran hart count)) state.new hearing.old hearing.new }
{
    if count == 0 {
        return Ok(false);
    }
    if !instruction(alloc, opening, state, hart, false, speaker, hearing)? {
        return Ok(false);
    }
    let mut done = 1;
    while done < count {
        let taken = further(alloc, opening, state, hart, count - done, speaker, hearing)?;
        if taken == 0 {
            return Ok(false);
        }
        done += taken;
    }
    Ok(true)
}

// An entry other than a `Ran`.
fn event<S: Speaker>(
    alloc: Global,
    opening: &Opening,
    state: &mut ModelState,
    entry: &Entry,
    speaker: &mut S,
    hearing: &mut Hearing<'_>,
) -> Result<bool, NoMemory>
    requires noted { noted_one entry.now ≡ 1 }
    requires of { IsOf opening.now state.old }
    requires within { IsWithin hearing.old }
    ensures of { IsOf opening.now state.new }
    ensures heard { Heard result (come opening.now state.old.place entry.now) (entry_text S.voice opening.now state.old.place.state entry.now) state.new hearing.old hearing.new }
{
    if !take_entry(alloc, opening, state, entry)? {
        return Ok(false);
    }
    say(speaker, entry, state.shown(), hearing)?;
    Ok(true)
}

// One entry.
fn take<S: Speaker>(
    alloc: Global,
    opening: &Opening,
    state: &mut ModelState,
    entry: &Entry,
    speaker: &mut S,
    hearing: &mut Hearing<'_>,
) -> Result<bool, NoMemory>
    requires of { IsOf opening.now state.old }
    requires within { IsWithin hearing.old }
    ensures of { IsOf opening.now state.new }
    ensures heard { Heard result (come opening.now state.old.place entry.now) (entry_text S.voice opening.now state.old.place.state entry.now) state.new hearing.old hearing.new }
{
    match entry {
        Entry::Ran { hart, count } => {
            run(alloc, opening, state, *hart, *count, speaker, hearing)
        }
        _ => event(alloc, opening, state, entry, speaker, hearing),
    }
}

// The opening is said, and compared with the text.
fn open<'a, S: Speaker>(
    alloc: Global,
    opening: &Opening,
    text: &'a [u8],
    speaker: &mut S,
) -> Result<Hearing<'a>, NoMemory>
    ensures text { IfOk result (λ h. h.text.now ≡ text.now) }
    ensures within { IfOk result (λ h. IsWithin h) }
    ensures agrees { IfOk result (λ h. Agrees (S.voice.opening opening.now) h) }
{
    let mut hearing = Hearing::new(alloc, text);
    speaker.opening(opening, &mut hearing.piece)?;
    hearing.hear();
    Ok(hearing)
}

// All entries, or the number of the first that may not come, from 1.
fn go_through<S: Speaker>(
    alloc: Global,
    opening: &Opening,
    state: &mut ModelState,
    journal: &[Entry],
    speaker: &mut S,
    hearing: &mut Hearing<'_>,
) -> Result<Option<u64>, NoMemory>
    requires of { IsOf opening.now state.old }
    requires first { state.old.place ≡ first_place opening.now }
    requires within { IsWithin hearing.old }
    requires agrees { Agrees (S.voice.opening opening.now) hearing.old }
    ensures { IfOk result (λ r. Through S.voice opening.now journal.now r hearing.old hearing.new) }
{
    for (i, entry) in journal.iter().enumerate() {
        if !take(alloc, opening, state, entry, speaker, hearing)? {
            return Ok(Some(i as u64 + 1));
        }
    }
    Ok(None)
}

// The same from where a session begins.
fn go<S: Speaker>(
    alloc: Global,
    opening: &Opening,
    journal: &[Entry],
    speaker: &mut S,
    hearing: &mut Hearing<'_>,
) -> Result<Option<u64>, NoMemory>
    requires ranges { AreSettings opening.now.settings }
    requires within { IsWithin hearing.old }
    requires agrees { Agrees (S.voice.opening opening.now) hearing.old }
    ensures { IfOk result (λ r. Through S.voice opening.now journal.now r hearing.old hearing.new) }
{
    let Ok(mut state) = start(alloc, opening) else {
        return Err(NoMemory);
    };
    let through = go_through(alloc, opening, &mut state, journal, speaker, hearing);
    state.let_go();
    through
}

// The verdict on a journal that was gone through.
fn verdict(stopped: Option<u64>, hearing: &Hearing<'_>) -> CheckVerdict
    ensures { (v : Voice) (o : Opening) (j : List Entry) (old : Hearing) → Through v o j stopped old hearing.now → Checked v o j old.text.now result }
{
    match stopped {
        Some(entry) => CheckVerdict::Unlawful { entry },
        None => hearing.verdict(),
    }
}

/// Whether a journal is lawful over this opening, and a text is what the speaker says of it. It speaks while it compares, and keeps no
/// more than the text of an entry.
///
/// Fails where memory runs out.
pub fn check<S: Speaker>(
    alloc: Global,
    opening: &Opening,
    journal: &[Entry],
    text: &[u8],
    speaker: &mut S,
) -> Result<CheckVerdict, NoMemory>
    requires { AreSettings opening.now.settings }
    ensures { IfOk result (λ v. Checked S.voice opening.now journal.now text.now v) }
{
    let Ok(mut hearing) = open(alloc, opening, text, speaker) else {
        return Err(NoMemory);
    };
    let stopped = go(alloc, opening, journal, speaker, &mut hearing)?;
    Ok(verdict(stopped, &hearing))
}
