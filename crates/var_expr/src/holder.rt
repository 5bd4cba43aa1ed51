//! Where a variable is, for one hart and its frame.

ghost use Rattle.std.specs.Prelude.{◌≡◌, ◌<◌, IfSome};
ghost use Rattle.debug_info.specs.Shown.{shown_variable};
ghost use Rattle.var_expr.specs.Holder.{IsHolder, base_address, holder_of, moved, register_word};

use dbg_traits::View;
use debug_info::{Base, Place, Var};

/// What holds a variable.
#[derive(Clone, Copy)]
pub enum Holder {
    /// The bytes from an address on.
    Memory(u32),
    /// The register of a number below 32.
    Register(u8),
}

fn moved(address: u32, offset: i64) -> u32
    ensures { result ≡ moved address offset }
{
    address.wrapping_add(offset.rem_euclid(1 << 32) as u32)
}

fn register_word<V: View>(view: &V, n: u8) -> Option<u32>
    ensures { result ≡ register_word (V.registers view.now) n }
{
    if n < 32 {
        Some(view.reg(u32::from(n)))
    } else {
        None
    }
}

// The address that places in the frame are relative to.
fn base_address<V: View>(base: Base, view: &V, cfa: Option<u32>) -> Option<u32>
    ensures { result ≡ base_address (V.registers view.now) cfa base }
{
    match base {
        Base::Cfa => cfa,
        Base::Plus(n, offset) => {
            let word = register_word(view, n)?;
            Some(moved(word, offset))
        }
        Base::Own(n) => register_word(view, n),
        Base::Other => None,
    }
}

/// What holds a variable, if it is anywhere.
pub fn holder_of<V: View>(var: &Var<'_>, view: &V, cfa: Option<u32>) -> Option<Holder>
    ensures value { result ≡ holder_of (V.registers view.now) cfa (shown_variable var.now) }
    ensures register { IfSome result IsHolder }
{
    match var.place {
        Place::Absent => None,
        Place::Fixed(address) => Some(Holder::Memory(address)),
        Place::Frame(offset) => {
            let base = base_address(var.base, view, cfa)?;
            Some(Holder::Memory(moved(base, offset)))
        }
        Place::Reg(n) if n < 32 => Some(Holder::Register(n)),
        Place::Reg(_) => None,
    }
}
