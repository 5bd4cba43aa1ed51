// Registers and a memory, over text that nothing is planted in.
ghost use Rattle.std.specs.Prelude.{◌≡◌, ◌==◌, ◌≤◌, ◌<◌, ◌^◌, ℕ, false, map, nat_le, not, ◌&&◌};
ghost use Rattle.dbg_model.specs.Judging.{is_kept};
ghost use Rattle.elf32_read.specs.Program.{Program};
ghost use Rattle.text_words.specs.Words.{unpatched};
ghost use Rattle.break_table.specs.Entry.{entry_of};
ghost use Rattle.break_table.specs.Table.{stands};
ghost use Rattle.replay_parts.specs.Further.{AllGo, goes_alone};

use break_table::{BreakEntry, BreakTable};
use data_memory::DataMemory;
use rv_exec::{Operation, Regs};
use step_plans::Plan;
use straight_runs::{Guard, run_straight};
use text_words::TextWords;

// The lowest and the highest address of breakpoints.
#[derive(Clone, Copy)]
struct Reach {
    low: u32,
    high: u32,
}

// No enabled one of them stands elsewhere.
fn reach_of(entries: &[BreakEntry]) -> Reach
    ensures { (addr : ℕ) → (nat_le result.low addr && nat_le addr result.high) ≡ false → stands addr (map entry_of entries.now) ≡ false }
{
    let [first, rest @ ..] = entries else {
        return Reach {
            low: u32::MAX,
            high: 0,
        };
    };
    let reach = reach_of(rest);
    Reach {
        low: reach.low.min(first.address),
        high: reach.high.max(first.address),
    }
}

// Whether an enabled breakpoint stands at an address. Most addresses are out of their reach.
#[inline(always)]
fn is_broken(table: &BreakTable, reach: Reach, addr: u32) -> bool
    requires { (at : ℕ) → (nat_le reach.low at && nat_le at reach.high) ≡ false → stands at table.now.entries ≡ false }
    ensures { result ≡ stands addr table.now.entries }
{
    reach.low <= addr && addr <= reach.high && table.stands(addr)
}

/// What a hart goes on over.
#[derive(Clone, Copy)]
pub struct Way<'a> {
    pub words: &'a TextWords,
    pub table: &'a BreakTable,
    pub plan: Plan,
}

// Where a plan stays.
#[derive(Clone, Copy)]
struct Stays {
    // Nowhere.
    never: bool,
    // Not here; past all addresses where it stays at each.
    end: u64,
}

// Past all addresses.
const PAST: u64 = 1 << 32;

// Where a plan stays: what is asked at each instruction is looked up once.
fn where_it_stays(plan: Plan) -> Stays
    ensures { (addr : ℕ) → addr < 2 ^ 32 → is_kept plan addr ≡ (not result.never && not (addr == result.end)) }
{
    match plan {
        Plan::Free => Stays {
            never: false,
            end: PAST,
        },
        Plan::ToReturn { ret, .. } | Plan::Finish { ret, .. } => Stays {
            never: false,
            end: u64::from(ret),
        },
        Plan::One { .. } | Plan::Line { .. } | Plan::ToBody { .. } => Stays {
            never: true,
            end: PAST,
        },
    }
}

// A hart goes on by itself where its plan stays and no enabled breakpoint stands.
#[derive(Clone, Copy)]
struct Freely<'a> {
    plan: Plan,
    stays: Stays,
    table: &'a BreakTable,
    reach: Reach,
    ghost kept: { (addr : ℕ) → addr < 2 ^ 32 → is_kept plan addr ≡ (not stays.never && not (addr == stays.end)) },
    ghost reaches: { (at : ℕ) → (nat_le reach.low at && nat_le at reach.high) ≡ false → stands at table.now.entries ≡ false },
}

impl<'a> Guard for Freely<'a> {
    ghost use Rattle.std.specs.Prelude.{◌&&◌, not};
    ghost use Rattle.break_table.specs.Table.{stands};
    ghost use Rattle.dbg_model.specs.Judging.{is_kept};

    ghost allows = { λ g pc op. is_kept g.plan pc && not (stands pc g.table.now.entries) };

    #[inline(always)]
    fn allows(&self, pc: u32, _operation: &Operation) -> bool {
        !self.stays.never
            && u64::from(pc) != self.stays.end
            && !is_broken(self.table, self.reach, pc)
    }
}

/// At most so many instructions of a hart that goes on by itself, and how many they were: fewer where it doesn't any longer.
#[inline(never)]
pub fn go(way: &Way<'_>, regs: &mut Regs, memory: &mut DataMemory, limit: u64) -> u64
    ensures limit { result ≤ limit }
    ensures goes { (p : Program) → way.now.words.now ≡ unpatched p → AllGo result p way.now.table.now.entries way.now.plan regs.old memory.old regs.new memory.new }
    ensures ends { (p : Program) → way.now.words.now ≡ unpatched p → result < limit → goes_alone p way.now.table.now.entries way.now.plan regs.new memory.new ≡ false }
{
    let guard = Freely {
        plan: way.plan,
        stays: where_it_stays(way.plan),
        table: way.table,
        reach: reach_of(way.table.entries()),
    };
    run_straight(way.words, &guard, regs, memory, limit).count
}
