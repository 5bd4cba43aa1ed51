// Many instructions by themselves, so that their time can be measured: fetch of a decoded instruction by pc, and `execute`
// over the data memory of a machine, with no planted words and no journal.
ghost use Rattle.std.specs.Prelude.{◌≤◌};

use data_memory::DataMemory;
use elf_checks::read_image;
use elf_gen::{fits, plain};
use rv_decode::{Instr, decode};
use rv_exec::{DataPort, Effect, Regs, execute};
use std::alloc::Global;
use test_rows::RowFault;

/// lui x2, 0xfffff; lui x6, 0x20; then in a loop: addi x1, x1, 1; xor x3, x3, x1; sw x3, 0(x6); lw x4, 0(x6);
/// mul x5, x2, x1; add x3, x3, x5; bne x1, x2, -24.
const LOOP: [u32; 9] = [
    0xFFFF_F137,
    0x0002_0337,
    0x0010_8093,
    0x0011_C1B3,
    0x0033_2023,
    0x0003_2203,
    0x0211_02B3,
    0x0051_81B3,
    0xFE20_94E3,
];

// The memory of a program with that loop and 64 bytes of data; none where memory runs out.
fn memory_of_loop(alloc: Global) -> Option<DataMemory> {
    let data = [0; 64];
    if !fits(&LOOP, &data) {
        return None;
    }
    let file = plain(alloc, &LOOP, &data).ok()?;
    let image = read_image(alloc, file).ok()?;
    DataMemory::load(alloc, &image, 1).ok()
}

// The number of instructions that were executed, at most `limit`.
fn run<P: DataPort>(text: &[Instr], regs: &mut Regs, port: &mut P, limit: u32) -> u32
    ensures { result ≤ limit }
{
    for n in 0..limit {
        let Some(i) = text.get((regs.pc() / 4) as usize) else {
            return n
        };
        match execute(*i, regs, port) {
            Effect::Done => {}
            Effect::Call | Effect::Trap(_) => return n,
        }
    }
    limit
}

/// How many instructions of the loop were executed, at most so many, and what is in x3 and x4 then.
pub fn looped(alloc: Global, limit: u32) -> Result<String, RowFault> {
    let mut text = Vec::new(alloc);
    for word in &LOOP {
        if let Some(i) = decode(*word) {
            text.push(i)?;
        }
    }
    let Some(mut port) = memory_of_loop(alloc) else {
        return Err(RowFault::NoMemory);
    };
    let mut regs = Regs::new(0);
    let n = run(text.as_slice(), &mut regs, &mut port, limit);
    Ok(format!(in alloc; "{n} {:#010x} {:#010x}", regs.get(3), regs.get(4))?)
}
