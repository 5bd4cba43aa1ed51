// The engine as one value, and what is asked of it.
ghost use Rattle.std.specs.Prelude.{◌≡◌, ◌<◌, ◌≤◌, ◌-◌, [], length, slice_get, None, IfOk, IfErr, OnOk, OnErr, MatchResult, Err, IsTrue, ◌↔◌, Some};
ghost use Rattle.dbg_traits.specs.Settings.{AreSettings};
ghost use Rattle.data_memory.specs.Ranges.{bytes_at, range_at};
ghost use Rattle.text_words.specs.Words.{is_planted};
ghost use Rattle.dbg_model.specs.State.{first_state, any_runs, all_gone};
ghost use Rattle.dbg_model.specs.Lawful.{may_go};
ghost use Rattle.engine_parts.specs.Minds.{runs};
ghost use Rattle.std.specs.List.{count_by};
ghost use Rattle.engine_parts.specs.Facts.{InText, OneLifted};
ghost use Rattle.engine_parts.specs.Seen.{seen};
ghost use Rattle.engine_parts.specs.Steps.{next_running};
ghost use Rattle.engine_parts.specs.Viewing.{own_views};

// What the harts of an engine wait by. The parts are borrowed one by one, so that its machine and its table may change
// meanwhile.
macro_rules! waiting_of {
    ($engine:expr) => {
        Waiting {
            image: &$engine.opening.image,
            minds: $engine.minds.as_slice(),
            hold: $engine.hold,
        }
    };
}

pub(crate) use waiting_of;

mod line;
mod loading;
mod notes;
mod run;
mod showing;
mod slicing;
mod stepping;
mod turn;

use break_table::BreakTable;
use data_memory::DataMemory;
use dbg_model::{Entries, HISTORY, JournalWriter, Opening, SourceIndex, ThreadView};
use dbg_traits::{NoMemory, Settings};
use elf32_read::Image;
use engine_parts::ending::{Closed, End};
use engine_parts::homing::go_home_each;
use engine_parts::minds::{all_gone, any_running, count_running, find_running, is_running};
use engine_parts::patching::release;
use engine_parts::views::views;
use engine_parts::{Activity, Hold, Mind, Phase};
use hart_machine::Machine;
use loading::{Kept, first_parts};
use mi_commands::Displaced;
pub use slicing::Commit;
use std::alloc::{AllocError, Global};
use std::marker::Model;
use watch_points::{Watch, WatchList};

/// So many entries find room before a turn.
pub const SPARE: usize = 32;

/// Several harts of a machine, and the journal of what was done with them.
#[derive(Drop)]
pub struct Engine {
    alloc: Global,
    opening: Opening,
    journal: JournalWriter,
    machine: Machine,
    minds: Vec<Mind>,
    hold: Option<Hold>,
    watches: WatchList,
    table: BreakTable,
    sources: SourceIndex,
    selected: u32,
    displaced: Displaced,
    retired: u64,
    noted: u64,
    exited: bool,
    temporary: bool,
}

impl Model for Engine {
    ghost use Rattle.engine_parts.specs.Seen.{Engine as EngineValue};
    ghost use Rattle.std.specs.Coded.{codes};
    ghost use Rattle.data_memory.specs.Maps.{memory_code};
    ghost use Rattle.text_words.specs.Words.{words_code};
    ghost use Rattle.break_table.specs.Codes.{term_code};

    ghost Value = { EngineValue };

    ghost coded = { Prim.hlevel (codes, memory_code, words_code, term_code) };

    ghost use Rattle.dbg_engine.specs.EngineInside.{run_of, Keeps};

    ghost view = { run_of };

    ghost invariant = { Keeps };
}

impl Engine {
    ghost use Rattle.engine_parts.specs.Facts.{Facts};
    ghost use Rattle.engine_parts.specs.Calls.{Of, OverBy, Closes};

    /// An engine before its first move: each hart is stopped at the entry.
    pub fn load(alloc: Global, opening: Opening) -> Result<Engine, NoMemory>
        requires { AreSettings opening.settings }
        ensures opening { IfOk result (λ e. e.opening ≡ opening) }
        ensures journal { IfOk result (λ e. e.journal ≡ []) }
        ensures state { IfOk result (λ e. seen e ≡ first_state opening) }
        ensures facts { IfOk result Facts }
    {
        let parts = first_parts(alloc, &opening)?;
        Ok(Engine {
            alloc,
            opening,
            journal: JournalWriter::new(alloc),
            machine: parts.machine,
            minds: parts.kept.minds,
            hold: None,
            watches: parts.kept.watches,
            table: parts.kept.table,
            sources: parts.sources,
            selected: 1,
            displaced: Displaced::Auto,
            retired: 0,
            noted: 0,
            exited: false,
            temporary: false,
        })
    }

    /// Makes room for n entries.
    pub fn reserve_journal(&mut self, n: usize) -> Result<(), NoMemory>
        ensures ok { OnOk result (n ≤ self.new.spare) }
        ensures same { self.new ≡ record self.old { spare = self.new.spare } }
        ensures err { OnErr result (self.new ≡ self.old) }
        ensures facts { Facts self.new }
    {
        self.journal.reserve(n)?;
        Ok(())
    }

    /// The settings of the session.
    pub fn settings(&self) -> Settings
        ensures { result ≡ self.now.opening.settings }
    {
        self.opening.settings
    }

    /// Why the session is over, if it is: the first cause that holds, in the order of `End`.
    pub fn over(&self) -> Option<End>
        ensures { OverBy result self.now }
    {
        if self.retired >= self.opening.settings.budget {
            return Some(End::Budget);
        }
        if self.noted >= HISTORY {
            return Some(End::History);
        }
        if self.exited {
            return Some(End::Exit);
        }
        None
    }

    /// How many instructions were executed.
    pub fn retired(&self) -> u64
        ensures { result ≡ self.now.retired }
    {
        self.retired
    }

    /// How many harts there are.
    pub fn harts(&self) -> usize
        ensures { result ≡ length self.now.minds }
    {
        self.minds.len()
    }

    /// Whether a hart runs.
    pub fn running(&self, h: u32) -> bool
        requires { h < length self.now.minds }
        ensures { (x : _) → slice_get self.now.minds h ≡ Some x → result ≡ runs x }
    {
        is_running(&self.minds[h as usize])
    }

    /// Whether any hart runs.
    pub fn any_running(&self) -> bool
        ensures { result ≡ any_runs (seen self.now).harts }
    {
        any_running(self.minds.as_slice())
    }

    /// How many harts run.
    pub fn running_count(&self) -> usize
        ensures { result ≡ count_by runs self.now.minds }
    {
        count_running(self.minds.as_slice())
    }

    /// The next running hart without a job: the first from `from` on, else the first of all. `out` marks the harts whose job is
    /// out; a hart after its end has none.
    pub fn next_running(&self, from: usize, out: &[bool]) -> Option<u32>
        ensures { result ≡ next_running self.now.minds out.now from }
    {
        let minds = self.minds.as_slice();
        match find_running(minds, out, 0, from) {
            Some(hart) => Some(hart),
            None => find_running(minds, out, 0, 0),
        }
    }

    /// Whether no hart is live.
    pub fn all_gone(&self) -> bool
        ensures { result ≡ all_gone (seen self.now).harts }
    {
        all_gone(self.minds.as_slice())
    }

    /// The entries of the journal, in order.
    pub fn entries(&self) -> Entries<'_>
        ensures { result ≡ self.now.journal }
    {
        self.journal.entries()
    }

    /// For how many entries there is room.
    pub fn spare(&self) -> usize
        ensures { result ≡ self.now.spare }
    {
        self.journal.spare()
    }

    /// Where a hart shows its pc: at home, where it is in its slot.
    pub fn pc(&self, h: u32) -> u32
        requires { h < length self.now.minds }
        ensures { Of self.now h (λ y. y.regs.pc ≡ result) }
    {
        let mind = self.mind(h);
        match mind.activity {
            Activity::Running => self.shown_pc(h, mind),
            _ => self.machine.pc(h),
        }
    }

    /// The program.
    pub fn image(&self) -> &Image
        ensures { result.now ≡ self.now.opening.image }
    {
        &self.opening.image
    }

    /// What the program's file tells of its source.
    pub fn sources(&self) -> &SourceIndex
        ensures { result.now ≡ self.now.sources }
    {
        &self.sources
    }

    /// The data of the program as it is now.
    pub fn memory(&self) -> &DataMemory
        ensures { result.now ≡ self.now.machine.memory }
    {
        self.machine.data()
    }

    /// What a command may see of the harts, of those that are stopped their registers, in the place of what stood in `into`.
    ///
    /// # Errors
    ///
    /// No memory for them.
    pub fn threads(&self, into: &mut Vec<ThreadView>) -> Result<(), AllocError>
        ensures views { OnOk result (into.new.items ≡ own_views self.now.machine.cores self.now.minds) }
        ensures unchanged { OnErr result (into.new.items ≡ into.old.items) }
        ensures facts { Facts self.now }
    {
        views(self.machine.cores(), self.minds.as_slice(), into)
    }

    /// The breakpoints with what is asked of them, how many numbers were given to breakpoints and watches, where text stands,
    /// and where harts wait for a return.
    pub fn table(&self) -> &BreakTable
        ensures entries { result.now.entries ≡ self.now.breaks }
        ensures given { result.now.given ≡ self.now.given }
        ensures text { result.now.text ≡ self.now.bounds }
        ensures waits { result.now.waits ≡ self.now.waits }
    {
        &self.table
    }

    /// The selected thread.
    pub fn selected(&self) -> u32
        ensures { result ≡ self.now.selected }
    {
        self.selected
    }

    /// Whether harts step over breakpoints by copies.
    pub fn displaced(&self) -> Displaced
        ensures { result ≡ self.now.displaced }
    {
        self.displaced
    }

    /// Reads the bytes from an address on. If one can't be read, gives the first such address and leaves `into` as it was.
    pub fn read_range(&self, addr: u32, into: &mut [u8]) -> Result<(), u32>
        ensures bytes { MatchResult result (λ _. bytes_at self.now.machine.memory addr (length into.old) ≡ Some into.new) (λ a. (bytes_at self.now.machine.memory addr (length into.old) ≡ None) × (into.new ≡ into.old)) }
        ensures first { IfErr result (λ at. range_at self.now.machine.memory addr (length into.old) ≡ Err at) }
    {
        self.machine.read_range(addr, into)
    }

    /// Whether an instruction or a line may come.
    pub fn may_go(&self) -> bool
        ensures { result ≡ may_go self.now.opening (seen self.now) }
    {
        match self.over() {
            None => true,
            Some(_end) => false,
        }
    }

    // What is kept of a hart.
    pub(crate) fn mind(&self, h: u32) -> Mind
        requires { h < length self.now.minds }
        ensures { slice_get self.now.minds h ≡ Some result }
    {
        self.minds[h as usize]
    }

    /// Whether there is a word of text at an address.
    pub fn is_text(&self, addr: u32) -> bool
        ensures { IsTrue result ↔ InText self.now.opening.image addr }
    {
        self.machine.shown(addr).is_some()
    }

    /// Whether a breakpoint's word stands in text at an address.
    pub fn planted(&self, addr: u32) -> bool
        ensures { result ≡ is_planted self.now.machine.text addr }
    {
        self.machine.planted(addr)
    }

    /// The watches that the user set, in rising order of their numbers.
    pub fn watches(&self) -> &[Watch]
        ensures { result.now ≡ self.now.watches }
    {
        self.watches.as_slice()
    }

    /// Where a hart is in a step over a breakpoint.
    pub fn phase(&self, h: u32) -> Phase
        requires { h < length self.now.minds }
        ensures { (x : Mind) → slice_get self.now.minds h ≡ Some x → result ≡ x.phase }
    {
        self.minds[h as usize].phase
    }

    /// The hart that steps over a breakpoint with its patch lifted, and where; there is one at most.
    pub fn hold(&self) -> Option<Hold>
        ensures value { result ≡ self.now.hold }
        ensures one { OneLifted self.now }
    {
        self.hold
    }

    /// Ends it: each hart comes home from its slot, and a lifted patch is planted again where a breakpoint stands or a hart waits
    /// for a return. Where running harts wait, patches stay planted.
    pub fn close(self) -> Closed
        ensures opening { result.opening ≡ self.opening }
        ensures journal { result.journal ≡ self.journal }
        ensures machine { Closes self result.machine }
        ensures facts { Facts self }
    {
        let Engine {
            alloc: _,
            opening,
            journal,
            machine,
            minds,
            hold,
            watches,
            table,
            sources,
            selected: _,
            displaced: _,
            retired: _,
            noted: _,
            exited: _,
            temporary: _,
        } = self;
        let mut machine = machine;
        go_home_each(&mut machine, minds.as_slice(), 0);
        release(&mut machine, hold, &table);
        let kept = Kept {
            minds,
            watches,
            table,
        };
        kept.let_go();
        sources.let_go();
        Closed {
            opening,
            journal: journal.close(),
            machine,
        }
    }
}
