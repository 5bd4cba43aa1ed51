// One hart as it is seen.
ghost use Rattle.std.specs.Prelude.{◌≡◌};
ghost use Rattle.hart_machine.specs.Views.{register, byte_seen, text_byte};

use data_memory::DataMemory;
use dbg_traits::View;
use rv_exec::Regs;
use text_words::TextWords;

/// One hart's registers, over data memory and the words of the program.
#[derive(Clone, Copy)]
pub struct HartView<'a> {
    pub regs: &'a Regs,
    pub memory: &'a DataMemory,
    pub text: &'a TextWords,
}

// The byte of the program's text at an address; a breakpoint that is planted there isn't seen.
fn text_byte(text: &TextWords, addr: u32) -> Option<u8>
    ensures { result ≡ text_byte text.now addr }
{
    let word = text.shown(addr - addr % 4)?;
    Some(((word >> (8 * (addr % 4))) & 0xFF) as u8)
}

impl<'a> View for HartView<'a> {
    ghost registers = { λ v n. register v.regs.now n };

    ghost bytes = { λ v addr. byte_seen v.memory.now v.text.now addr };

    fn reg(&self, n: u32) -> u32 {
        if n == 32 {
            self.regs.pc()
        } else {
            self.regs.get(n)
        }
    }

    fn byte(&self, addr: u32) -> Option<u8> {
        match self.memory.byte(addr) {
            Some(value) => Some(value),
            None => text_byte(self.text, addr),
        }
    }
}
