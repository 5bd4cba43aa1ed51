// What a replay begins with.
ghost use Rattle.std.specs.Prelude.{◌≡◌, ◌≤◌, ℕ, [], IfOk, replicate};
ghost use Rattle.dbg_traits.specs.Settings.{AreSettings};
ghost use Rattle.data_memory.specs.Start.{start_memory};
ghost use Rattle.dbg_model.specs.Sources.{sources_of};
ghost use Rattle.break_table.specs.Table.{first_table};
ghost use Rattle.break_table.specs.Text.{is_instruction, is_place};
ghost use Rattle.dbg_model.specs.State.{first_harts, first_state};
ghost use Rattle.text_words.specs.Words.{unpatched};
ghost use Rattle.replay_parts.specs.Parts.{state_of};
ghost use Rattle.replay_parts.specs.Going.{Kept};

use crate::state::Parts;
use break_table::BreakTable;
use data_memory::DataMemory;
use dbg_model::{Course, Hart, Mode, Opening, SourceIndex};
use dbg_traits::NoMemory;
use elf32_read::Image;
use mi_commands::Displaced;
use plain_machine::first_registers;
use std::alloc::{AllocError, Global};
use text_words::TextWords;
use watch_points::WatchList;

// The harts with their counts, and what the user has set.
#[derive(Drop)]
struct FirstKept {
    harts: Vec<Hart>,
    passed: Vec<u64>,
    watches: WatchList,
    table: BreakTable,
}

// What a program's file tells of its source, its instructions, and its data.
#[derive(Drop)]
struct FirstProgram {
    memory: DataMemory,
    sources: SourceIndex,
    words: TextWords,
}

fn first_harts(alloc: Global, image: &Image, harts: u32) -> Result<Vec<Hart>, AllocError>
    requires { harts ≤ 16 }
    ensures { IfOk result (λ v. v.items ≡ first_harts image.now harts harts) }
{
    let mut all = Vec::new(alloc);
    for hart in 0..harts {
        all.push(Hart {
            regs: first_registers(image.entry(), harts, hart),
            mode: Mode::Stopped,
            asked: false,
            course: Course::AT_STOP,
        })?;
    }
    Ok(all)
}

fn no_counts(alloc: Global, harts: usize) -> Result<Vec<u64>, AllocError>
    ensures { IfOk result (λ v. v.items ≡ replicate harts 0) }
{
    let mut counts = Vec::new(alloc);
    counts.resize(harts, 0)?;
    Ok(counts)
}

// Each hart is stopped, and there is no breakpoint and no watch.
fn first_kept(alloc: Global, image: &Image, harts: u32) -> Result<FirstKept, NoMemory>
    requires { harts ≤ 16 }
    ensures harts { IfOk result (λ k. k.harts.items ≡ first_harts image.now harts harts) }
    ensures passed { IfOk result (λ k. k.passed.items ≡ replicate harts 0) }
    ensures watches { IfOk result (λ k. k.watches ≡ []) }
    ensures table { IfOk result (λ k. k.table ≡ first_table image.now harts) }
    ensures places { IfOk result (λ k. (addr : ℕ) → is_place k.table.text addr ≡ is_instruction image.now addr) }
{
    Ok(FirstKept {
        harts: first_harts(alloc, image, harts)?,
        passed: no_counts(alloc, harts as usize)?,
        watches: WatchList::new(alloc)?,
        table: BreakTable::new(alloc, image, harts)?,
    })
}

fn first_program(alloc: Global, image: &Image, harts: u32) -> Result<FirstProgram, NoMemory>
    requires { harts ≤ 16 }
    ensures memory { IfOk result (λ p. p.memory ≡ start_memory image.now harts) }
    ensures sources { IfOk result (λ p. p.sources ≡ sources_of image.now) }
    ensures words { IfOk result (λ p. p.words ≡ unpatched image.now) }
{
    let memory = DataMemory::load(alloc, image, harts)?;
    let words = TextWords::load(alloc, image)?;
    // The index is made last: no way out lets go of it.
    let Ok(sources) = SourceIndex::build(alloc, image) else {
        return Err(NoMemory);
    };
    Ok(FirstProgram {
        memory,
        sources,
        words,
    })
}

/// Where a session begins.
pub fn first_parts(alloc: Global, opening: &Opening) -> Result<Parts, NoMemory>
    requires { AreSettings opening.now.settings }
    ensures state { IfOk result (λ p. state_of p ≡ first_state opening.now) }
    ensures kept { IfOk result (λ p. Kept opening.now p) }
{
    let harts = opening.settings.harts;
    let kept = first_kept(alloc, &opening.image, harts)?;
    let Ok(program) = first_program(alloc, &opening.image, harts) else {
        return Err(NoMemory);
    };
    let out = Vec::new(alloc);
    Ok(Parts {
        sources: program.sources,
        words: program.words,
        harts: kept.harts,
        memory: program.memory,
        out,
        table: kept.table,
        watches: kept.watches,
        selected: 1,
        displaced: Displaced::Auto,
        sets: 0,
        passed: kept.passed,
        pending: None,
        retired: 0,
        noted: 0,
        exited: false,
    })
}
