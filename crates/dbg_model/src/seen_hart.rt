// One hart as expressions see it, a byte as it is shown, and which registers are set.
ghost use Rattle.std.specs.Prelude.{◌≡◌};
ghost use Rattle.plain_machine.specs.PlainRun.{is_settable};
ghost use Rattle.dbg_model.specs.Views.{register, shown_at, shown_byte};

use data_memory::DataMemory;
use dbg_traits::View;
use elf32_read::Image;
use rv_exec::Regs;

/// One hart as expressions see it: its registers, over the data and the program's text.
#[derive(Clone, Copy)]
pub struct SeenHart<'a> {
    pub regs: &'a Regs,
    /// Where it shows its pc, if that isn't its registers', as at a copy.
    pub pc: Option<u32>,
    pub image: &'a Image,
    pub memory: &'a DataMemory,
}

/// A register by its number; 32 is pc.
pub fn shown_register(regs: &Regs, n: u32) -> u32
    ensures { result ≡ register regs.now n }
{
    if n < 32 { regs.get(n) } else { regs.pc() }
}

/// Whether a register is one that is set: not x0 and not pc, which is 32.
pub fn is_settable(n: u32) -> bool
    ensures { result ≡ is_settable n }
{
    1 <= n && n <= 31
}

/// A byte as it is shown: text as the file has it, and data as it is now.
pub fn shown_byte(image: &Image, memory: &DataMemory, addr: u32) -> Option<u8>
    ensures { result ≡ shown_byte image.now memory.now addr }
{
    if image.in_text(addr) {
        image.mapped(addr)
    } else {
        memory.byte(addr)
    }
}

impl<'a> View for SeenHart<'a> {
    ghost registers = { λ v. register (shown_at v.regs.now v.pc) };

    ghost bytes = { λ v. shown_byte v.image.now v.memory.now };

    fn reg(&self, n: u32) -> u32 {
        match self.pc {
            Some(pc) if n == 32 => pc,
            _ => shown_register(self.regs, n),
        }
    }

    fn byte(&self, addr: u32) -> Option<u8> {
        shown_byte(self.image, self.memory, addr)
    }
}
