// A hart that is stopped.
ghost use Rattle.std.specs.Prelude.{◌%◌, ◌&&◌, ◌==◌, None, Some, nat_le, nat_lt, slice_index, if◌then◌else◌};

use dbg_traits::View;

/// Each word from address 0 up to `high` is `saved`, and the other registers are 0.
#[derive(Drop)]
pub struct Stopped {
    pub pc: u32,
    pub ra: u32,
    pub sp: u32,
    pub s0: u32,
    pub high: u32,
    pub saved: [u8; 4],
}

impl View for Stopped {
    ghost registers = { λ v n. if n == 1 then v.ra else (if n == 2 then v.sp else (if n == 8 then v.s0 else (if n == 32 then v.pc else 0))) };

    ghost bytes = { λ v addr. if nat_lt addr v.high then Some (slice_index v.saved (addr % 4)) else None };

    fn reg(&self, n: u32) -> u32 {
        match n {
            1 => self.ra,
            2 => self.sp,
            8 => self.s0,
            32 => self.pc,
            _ => 0,
        }
    }

    fn byte(&self, addr: u32) -> Option<u8> {
        if addr < self.high {
            Some(self.saved[(addr % 4) as usize])
        } else {
            None
        }
    }
}

/// A hart in the middle of `work`, whose stack up to an address has this word.
pub fn in_work(saved: u32, high: u32) -> Stopped {
    Stopped {
        pc: 0x1009C,
        ra: 0x10080,
        sp: 0xEFFF_0000,
        s0: 0x1000,
        high,
        saved: saved.to_le_bytes(),
    }
}

/// A hart that has arrived, of which no byte is mapped.
pub fn arrived(pc: u32, sp: u32) -> Stopped {
    Stopped {
        pc,
        ra: 0,
        sp,
        s0: 0,
        high: 0,
        saved: [0; 4],
    }
}
