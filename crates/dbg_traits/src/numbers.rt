// Numbers of bytes that a reader sees.
ghost use Rattle.std.specs.Prelude.{◌≡◌, ◌<◌, ◌≤◌, ◌^◌, IfOk};
ghost use Rattle.dbg_traits.specs.Numbers.{number_at};

use crate::View;

/// The number in so many bytes from an address on, the lowest first. Addresses go on modulo 2^32.
///
/// # Errors
///
/// The first of the addresses, in the order of reading, at which no byte is mapped.
#[tactic(auto, unfolding(crate::specs::Numbers::number_at))]
pub fn number_at<V: View>(view: &V, addr: u32, count: u32) -> Result<u32, u32>
    requires { count ≤ 4 }
    ensures value { result ≡ number_at (V.bytes view.now) count addr }
    ensures below { IfOk result (λ n. n < 256 ^ count) }
{
    if count == 0 {
        return Ok(0);
    }
    let Some(low) = view.byte(addr) else {
        return Err(addr);
    };
    let high = number_at(view, addr.wrapping_add(1), count - 1)?;
    Ok(u32::from(low) + 256 * high)
}
