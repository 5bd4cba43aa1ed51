// What a replay keeps.
use break_table::BreakTable;
use data_memory::DataMemory;
use dbg_model::{Hart, Poke, SourceIndex};
use mi_commands::Displaced;
use text_words::TextWords;
use watch_points::WatchList;
/// What a replay keeps: what a state is made of, and what the program's file tells of its source.
#[derive(Drop)]
pub struct Parts {
    pub sources: SourceIndex,
    /// The program's instructions, with nothing planted.
    pub words: TextWords,
    /// Counted from 0.
    pub harts: Vec<Hart>,
    /// The data; the text is the image's.
    pub memory: DataMemory,
    /// The bytes that the program wrote.
    pub out: Vec<u8>,
    /// The breakpoints that the user set, and how many numbers were given to breakpoints and watches.
    pub table: BreakTable,
    /// The watches that the user set.
    pub watches: WatchList,
    /// The selected thread, counted from 1.
    pub selected: u32,
    /// Whether a planted instruction is executed as a copy in a slot.
    pub displaced: Displaced,
    /// How many lines set that to on or auto.
    pub sets: u64,
    /// For each hart, how many of its instructions were executed where an enabled breakpoint stood, while that wasn't off.
    pub passed: Vec<u64>,
    /// What the line before asked to be written, and isn't written yet.
    pub pending: Option<Poke>,
    /// How many instructions were executed.
    pub retired: u64,
    /// How many entries other than `Ran` there are.
    pub noted: u64,
    /// Whether `-gdb-exit` was done.
    pub exited: bool,
}
