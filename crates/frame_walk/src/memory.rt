//! The words of memory that frames are told by.

ghost use Rattle.std.specs.Prelude.{◌≡◌};
ghost use Rattle.frame_walk.specs.Memory.{data_bytes, word_at};

use dbg_traits::{View, number_at};
use elf32_read::Image;

/// A view without the bytes of text, which no program can load.
#[derive(Drop)]
struct Data<'a, V: View> {
    image: &'a Image,
    view: &'a V,
}

impl<'a, V: View> View for Data<'a, V> {
    ghost registers = { λ d n. V.registers d.view.now n };

    ghost bytes = { λ d addr. data_bytes d.image.now (V.bytes d.view.now) addr };

    fn reg(&self, n: u32) -> u32 {
        self.view.reg(n)
    }

    fn byte(&self, addr: u32) -> Option<u8> {
        if self.image.in_text(addr) {
            return None;
        }
        self.view.byte(addr)
    }
}

/// The word at an address, where each of its bytes is mapped and no text.
pub fn word_at<V: View>(image: &Image, view: &V, addr: u32) -> Option<u32>
    ensures { result ≡ word_at (data_bytes image.now (V.bytes view.now)) addr }
{
    number_at(&Data { image, view }, addr, 4).ok()
}
