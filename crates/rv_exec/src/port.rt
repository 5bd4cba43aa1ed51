// Memory, as instructions reach it.
ghost use Rattle.std.specs.Prelude.{◌≡◌, ◌<◌, ◌*◌, ◌^◌, IfOk};

use crate::effect::Cause;
use rv_decode::AmoOp;

/// Memory that loads, stores and AMOs reach. Its meaning is a finite map from addresses to bytes, each
/// writable or not. A misaligned access is refused before an unmapped one, and a refused access changes
/// nothing.
pub trait DataPort {
    ghost use Rattle.rv_exec.specs.Memory.{Memory, IsLen, load, store, amo, old_word, new_memory, without_memory, memory_or};

    /// The bytes that are mapped.
    ghost memory: { Self → Memory };

    /// The number in the `len` bytes at `addr`, lowest byte first; `len` is 1, 2 or 4.
    ///
    /// Fails with `LoadAlign` where `addr` isn't a multiple of `len`, else with `LoadFault` where a byte isn't
    /// mapped.
    fn load(&self, addr: u32, len: u32) -> Result<u32, Cause>
        requires { IsLen len }
        ensures value { result ≡ load (memory self.now) addr len }
        ensures range { IfOk result (λ v. v < 2 ^ (8 * len)) };

    /// Puts the low `len` bytes of the value at `addr`, lowest byte first; `len` is 1, 2 or 4.
    ///
    /// Fails with `StoreAlign` where `addr` isn't a multiple of `len`, else with `StoreFault` where not all bytes
    /// are writable.
    fn store(&mut self, addr: u32, len: u32, value: u32) -> Result<(), Cause>
        requires { IsLen len }
        ensures value { result ≡ without_memory (store (memory self.old) addr len value) }
        ensures memory { memory self.new ≡ memory_or (memory self.old) (store (memory self.old) addr len value) };

    /// Puts what the operation makes of the word at `addr` and the value in its place, in one step. Answers the
    /// old word.
    ///
    /// Fails with `StoreAlign` where `addr` isn't a multiple of 4, else with `StoreFault` where not all four bytes
    /// are writable.
    fn amo(&mut self, op: AmoOp, addr: u32, value: u32) -> Result<u32, Cause>
        ensures value { result ≡ old_word (amo (memory self.old) op addr value) }
        ensures memory { memory self.new ≡ new_memory (memory self.old) (amo (memory self.old) op addr value) };
}
