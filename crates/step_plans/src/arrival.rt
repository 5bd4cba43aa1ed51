//! Where a hart has arrived.

ghost use Rattle.std.specs.Prelude.{◌≡◌, ◌==◌, ◌&&◌, nat_le};
ghost use Rattle.step_plans.specs.Arrivals.{arrival_of, is_back, jump_by, jump_of};

use crate::Last;
use dbg_traits::View;
use rv_decode::Instr;

/// The number of x1, where a call puts its return address.
const RETURN_ADDRESS: u32 = 1;

/// The number of x2, the stack pointer.
const STACK_POINTER: u32 = 2;

/// The number of pc among the registers of a view.
const PC: u32 = 32;

/// Whether an instruction goes to another function.
#[derive(Clone, Copy)]
pub enum Jump {
    /// With the address that it returns to.
    Call { back: u32 },
    Return,
    /// Neither a call nor a return.
    Other,
}

impl Jump {
    /// What an instruction is.
    pub fn of(instruction: Instr, address: u32) -> Jump
        ensures { result ≡ jump_of instruction address }
    {
        let back = address.wrapping_add(4);
        match instruction {
            Instr::Jal { rd, .. } => match rd.number() {
                RETURN_ADDRESS => Jump::Call { back },
                _ => Jump::Other,
            },
            Instr::Jalr { rd, rs1, .. } => match (rd.number(), rs1.number()) {
                (RETURN_ADDRESS, _) => Jump::Call { back },
                (0, RETURN_ADDRESS) => Jump::Return,
                _ => Jump::Other,
            },
            _ => Jump::Other,
        }
    }
}

// By the instruction that has just ended; one that wasn't noted is neither a call nor a return.
fn jump_by(last: Option<Last>) -> Jump
    ensures { result ≡ jump_by last }
{
    match last {
        Some(last) => Jump::of(last.instruction, last.address),
        None => Jump::Other,
    }
}

/// Where a hart has arrived, behind an instruction of its own.
#[derive(Clone, Copy)]
pub struct Arrival {
    pub pc: u32,
    /// The stack pointer.
    pub sp: u32,
    /// What the instruction was.
    pub jump: Jump,
}

impl Arrival {
    /// The arrival of the hart of a view.
    pub fn of<V: View>(last: Option<Last>, view: &V) -> Arrival
        ensures { result ≡ arrival_of last (V.registers view.now) }
    {
        Arrival {
            pc: view.reg(PC),
            sp: view.reg(STACK_POINTER),
            jump: jump_by(last),
        }
    }

    /// Whether a call has returned, and not an inner one to the same address.
    pub fn is_back(&self, ret: u32, sp: u32) -> bool
        ensures { result ≡ is_back ret sp self.now }
    {
        self.pc == ret && sp <= self.sp
    }
}
