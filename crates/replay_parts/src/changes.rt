// What a line changes, over the parts of a state.
ghost use Rattle.std.specs.Prelude.{◌≡◌, ◌+◌, ◌-◌, ◌^◌, ◌<◌, ◌≤◌, if◌then◌else◌, length};
ghost use Rattle.dbg_model.specs.Outcome.{enables};
ghost use Rattle.dbg_model.specs.State.{is_off};
ghost use Rattle.dbg_model.specs.Reply.{changed_by, displaced_after, exited_after, harts_after, selected_after, sets_after, sets_by};
ghost use Rattle.dbg_effects.specs.Effect.{change_of};
ghost use Rattle.dbg_effects.specs.Table.{CanBeMade, CanBeWatched, changed_table};
ghost use Rattle.replay_parts.specs.Parts.{state_of};

use crate::modes::{asked, forget, resumed};
use crate::state::Parts;
use dbg_effects::{Effect, change_table, on_threads};
use dbg_model::Hart;
use mi_commands::Displaced;

pub fn is_off(displaced: Displaced) -> bool
    ensures { result ≡ is_off displaced }
{
    matches!(displaced, Displaced::Off)
}

fn sets_by(sets: u64, displaced: Displaced) -> u64
    requires { sets < 2 ^ 64 - 1 }
    ensures { result ≡ sets_by sets displaced }
{
    if is_off(displaced) { sets } else { sets + 1 }
}

// What fired for a hart is forgotten, if its watch is one that is disabled.
fn forget_disabled(harts: &mut [Hart], numbers: &[u32], enabled: bool)
    ensures { harts.new ≡ harts_after harts.old (enables enabled numbers.now) }
{
    if !enabled {
        forget(harts, numbers);
    }
}

// Makes the change of a line in the harts.
fn change_harts(harts: &mut [Hart], effect: &Effect)
    requires few { length harts.old ≤ 16 }
    ensures { harts.new ≡ harts_after harts.old (change_of effect.now) }
{
    match effect {
        Effect::Resume { threads, plan } => {
            on_threads(harts, threads.as_slice(), |hart| resumed(*plan, hart));
        }
        Effect::Interrupt(threads) => on_threads(harts, threads.as_slice(), asked),
        Effect::Delete(numbers) => forget(harts, numbers.as_slice()),
        Effect::Enable { numbers, enabled } => {
            forget_disabled(harts, numbers.as_slice(), *enabled);
        }
        _ => {}
    }
}

// Makes the change of a line in all but the breakpoints, the watches and what is to be written.
fn change(parts: &mut Parts, effect: &Effect)
    requires sets { parts.old.sets < 2 ^ 64 - 1 }
    requires few { length parts.old.harts.items ≤ 16 }
    ensures rest { parts.new ≡ record parts.old { harts = parts.new.harts; selected = selected_after parts.old.selected (change_of effect.now); displaced = displaced_after parts.old.displaced (change_of effect.now); sets = sets_after parts.old.sets (change_of effect.now); exited = exited_after parts.old.exited (change_of effect.now) } }
    ensures harts { parts.new.harts.items ≡ harts_after parts.old.harts.items (change_of effect.now) }
{
    change_harts(parts.harts.as_mut_slice(), effect);
    match effect {
        Effect::Displace(displaced) => {
            parts.sets = sets_by(parts.sets, *displaced);
            parts.displaced = *displaced;
        }
        Effect::Select(thread) => parts.selected = *thread,
        Effect::Exit => parts.exited = true,
        _ => {}
    }
}

/// Makes the change of a line.
pub fn make(parts: &mut Parts, effect: Effect)
    requires given { parts.old.table.given < 2 ^ 32 - 1 }
    requires may { CanBeMade parts.old.table effect }
    requires watch { CanBeWatched parts.old.watches effect }
    requires room { parts.old.noted < 2 ^ 64 - 1 }
    requires sets { parts.old.sets < 2 ^ 64 - 1 }
    requires few { length parts.old.harts.items ≤ 16 }
    ensures state { state_of parts.new ≡ changed_by (state_of parts.old) (change_of effect) }
    ensures sources { parts.new.sources ≡ parts.old.sources }
    ensures words { parts.new.words ≡ parts.old.words }
    ensures table { parts.new.table ≡ changed_table parts.old.table (change_of effect) }
{
    match effect {
        Effect::Poke(poke) => parts.pending = Some(poke),
        effect => {
            change(parts, &effect);
            change_table(&mut parts.table, &mut parts.watches, effect);
        }
    }
    parts.noted += 1;
}
