// A pass over the harts that picks something of each.
ghost use Rattle.std.specs.Prelude.{◌≤◌, IfOk, length};
ghost use Rattle.dbg_answers.specs.Each.{ArePicked};

use dbg_model::ThreadView;
use std::alloc::{AllocError, Global};

/// What is picked of each hart, of which the first is thread 1.
pub fn each<T: Drop, F: Fn(u32, ThreadView) -> Option<T> + Drop>(
    alloc: Global,
    harts: &[ThreadView],
    pick: F,
) -> Result<Vec<T>, AllocError>
    requires few { length harts.now ≤ 16 }
    requires picks { F.IsAlwaysCallable pick }
    ensures { IfOk result (λ v. ArePicked (F.post pick) harts.now v.items) }
{
    let mut picked = Vec::new(alloc);
    let mut thread = 1u32;
    let mut rest = harts;
    while let Some((hart, tail)) = rest.split_first() {
        if let Some(x) = pick(thread, *hart) {
            picked.push(x)?;
        }
        thread += 1;
        rest = tail;
    }
    Ok(picked)
}
