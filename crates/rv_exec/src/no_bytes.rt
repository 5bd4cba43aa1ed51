// A memory in which nothing is mapped.
use crate::effect::Cause;
use crate::port::DataPort;
use rv_decode::AmoOp;

/// A memory with no byte: each access is refused.
#[derive(Drop)]
pub struct NoBytes;

impl DataPort for NoBytes {
    ghost use Rattle.rv_exec.specs.Memory.{no_bytes};

    ghost memory = { λ _. no_bytes };

    #[tactic(auto, using(crate::proofs::Empty::empties))]
    fn load(&self, addr: u32, len: u32) -> Result<u32, Cause> {
        if addr % len == 0 {
            Err(Cause::LoadFault)
        } else {
            Err(Cause::LoadAlign)
        }
    }

    #[tactic(auto, using(crate::proofs::Empty::empties))]
    fn store(&mut self, addr: u32, len: u32, _value: u32) -> Result<(), Cause> {
        if addr % len == 0 {
            Err(Cause::StoreFault)
        } else {
            Err(Cause::StoreAlign)
        }
    }

    #[tactic(auto, using(crate::proofs::Empty::empties))]
    fn amo(&mut self, _op: AmoOp, addr: u32, _value: u32) -> Result<u32, Cause> {
        if addr % 4 == 0 {
            Err(Cause::StoreFault)
        } else {
            Err(Cause::StoreAlign)
        }
    }
}
