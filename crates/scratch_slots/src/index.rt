// Which slots are free, by one bit for each.
ghost use Rattle.std.specs.Prelude.{◌≡◌, ◌<◌, ℕ, IfSome, IfNone};
ghost use Rattle.scratch_slots.specs.Index.{bit_in, IsFirst, HasNone, SetsBit};

/// The number of bits in the groups.
pub const SLOTS: u32 = 512;

/// The least bit that is 1.
pub fn first_one(groups: &[u64; 8]) -> Option<u32>
    ensures some { IfSome result (λ k. IsFirst groups.now k) }
    ensures none { IfNone result (HasNone groups.now) }
{
    let mut group = 0;
    while group < 8 {
        if groups[group] != 0 {
            return Some(64 * group as u32 + groups[group].trailing_zeros());
        }
        group += 1;
    }
    None
}

/// Makes a bit 1; `k` must be below 512.
pub fn set_bit(groups: &mut [u64; 8], k: u32)
    requires { k < 512 }
    ensures { SetsBit groups.old groups.new k 1 }
{
    groups[(k / 64) as usize] |= 1 << (k % 64);
}

/// Makes a bit 0; `k` must be below 512.
pub fn clear_bit(groups: &mut [u64; 8], k: u32)
    requires { k < 512 }
    ensures { SetsBit groups.old groups.new k 0 }
{
    groups[(k / 64) as usize] &= !(1 << (k % 64));
}
