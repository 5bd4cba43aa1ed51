// Watches over the machine: which instructions may change their bytes, and which watch one makes fire.
ghost use Rattle.std.specs.Prelude.{◌≡◌, ◌<◌, length, slice_get, false, None};
ghost use Rattle.rv_exec.specs.Operations.{meaning};
ghost use Rattle.hart_machine.specs.Stepping.{AreCounted, IsByteCode, Steps, has_run};
ghost use Rattle.hart_machine.specs.declared.hart.Core.{Core};
ghost use Rattle.watch_points.specs.Watches.{fired_by};
ghost use Rattle.engine_parts.specs.Watching.{is_near, stored_by, written};

use hart_machine::Machine;
use rv_exec::{Operation, Regs, Stepped};
use watch_points::{Fired, WatchList};

/// Bytes that an instruction writes.
#[derive(Clone, Copy)]
pub struct Stored {
    pub address: u32,
    /// How many they are.
    pub size: u32,
}

/// A step of the machine.
#[derive(Clone, Copy)]
pub struct Watched {
    pub stepped: Stepped,
    /// The watch that it made fire.
    pub fired: Option<Fired>,
}

// The bytes that an operation writes; stores and AMOs alone write.
#[inline(always)]
fn stored_by(operation: Operation, regs: &Regs) -> Option<Stored>
    ensures { result ≡ stored_by regs.now (meaning operation) }
{
    match operation {
        Operation::Sb { rs1, imm, .. } => Some(Stored {
            address: regs.get(rs1.number()).wrapping_add(imm),
            size: 1,
        }),
        Operation::Sh { rs1, imm, .. } => Some(Stored {
            address: regs.get(rs1.number()).wrapping_add(imm),
            size: 2,
        }),
        Operation::Sw { rs1, imm, .. } => Some(Stored {
            address: regs.get(rs1.number()).wrapping_add(imm),
            size: 4,
        }),
        Operation::Amo { rs1, .. } => Some(Stored {
            address: regs.get(rs1.number()),
            size: 4,
        }),
        _ => None,
    }
}

// The bytes that the instruction at a hart's pc writes, where one stands there and no breakpoint is planted.
fn written(machine: &Machine, regs: &Regs) -> Option<Stored>
    ensures { result ≡ written machine.now.text regs.now }
{
    stored_by(machine.operation(regs.pc()), regs)
}

/// Whether a hart may change the bytes of a watch by its next instruction: it writes where an enabled one has its bytes, or
/// is in a slot.
pub fn is_near(machine: &Machine, h: u32, watches: &WatchList) -> bool
    requires { h < length machine.now.cores }
    ensures { (c : Core) → slice_get machine.now.cores h ≡ Some c → result ≡ is_near machine.now.text c watches.now }
{
    if watches.is_empty() {
        return false;
    }
    let core = &machine.cores()[h as usize];
    if core.entered.is_some() {
        return true;
    }
    match written(machine, &core.regs) {
        None => false,
        Some(stored) => watches.meets(stored.address, stored.size),
    }
}

// One step of the machine between two looks at what each watch is worth.
fn step_between(machine: &mut Machine, h: u32, watches: &WatchList) -> Watched
    requires hart { h < length machine.old.cores }
    ensures code { IsByteCode result.stepped }
    ensures counts { AreCounted machine.old.cores }
    ensures step { Steps result.stepped machine.old h machine.new }
    ensures stopped { has_run result.stepped ≡ false → machine.new ≡ machine.old }
    ensures fired { result.fired ≡ fired_by watches.now machine.old.memory machine.new.memory }
{
    let before = watches.worths(machine.data());
    let stepped = machine.step(h);
    let fired = watches.fired(&before, machine.data());
    Watched { stepped, fired }
}

/// One step of the machine, as `Machine::step` makes it, and the watch that it makes fire. A watch is looked at only where
/// the instruction may change its bytes.
pub fn step_watched(machine: &mut Machine, h: u32, watches: &WatchList) -> Watched
    requires hart { h < length machine.old.cores }
    ensures code { IsByteCode result.stepped }
    ensures counts { AreCounted machine.old.cores }
    ensures step { Steps result.stepped machine.old h machine.new }
    ensures stopped { has_run result.stepped ≡ false → machine.new ≡ machine.old }
    ensures fired { result.fired ≡ fired_by watches.now machine.old.memory machine.new.memory }
{
    if is_near(machine, h, watches) {
        return step_between(machine, h, watches);
    }
    Watched {
        stepped: machine.step(h),
        fired: None,
    }
}
