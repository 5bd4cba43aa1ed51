// Where a unit ends (DWARF 5, section 6.2.4, item 1, and section 7.4).
ghost use Rattle.std.specs.Prelude.{◌≡◌, ◌+◌, ◌≤◌, IfOk, length};
ghost use Rattle.dwarf_lines.specs.Units.{unit_end};

use leb_read::{behind_run, u32_at};
use line_rows::LineFault;

/// Lengths from here on are none of the 32-bit format.
const RESERVED: u32 = 0xFFFF_FFF0;

/// Where the unit at a place ends.
#[tactic(auto, unfolding(crate::specs::Units::unit_end))]
pub fn unit_end(section: &[u8], at: usize) -> Result<usize, LineFault>
    ensures value { result ≡ unit_end section.now at }
    ensures within { IfOk result (λ end. end ≤ length section.now) }
    ensures behind { IfOk result (λ end. at + 4 ≤ end) }
{
    let (size, next) = u32_at(section, at)?;
    if size >= RESERVED {
        return Err(LineFault::Header);
    }
    Ok(behind_run(u64::from(size), section, next)?)
}
