// What becomes of harts whose threads are named.
ghost use Rattle.std.specs.Prelude.{◌≡◌, ◌≤◌, length};
ghost use Rattle.dbg_model.specs.Reply.{is_named};
ghost use Rattle.dbg_effects.specs.Threads.{AreChanged};

// Whether a thread is one of these.
fn is_named(threads: &[u32], thread: u32) -> bool
    ensures { result ≡ is_named threads.now thread }
{
    threads.iter().any(|t| *t == thread)
}

/// The harts of these threads, which are counted from 1, become what is made of them, and others stay.
pub fn on_threads<T: Copy, F: Fn(T) -> T + Drop>(harts: &mut [T], threads: &[u32], change: F)
    requires few { length harts.old ≤ 16 }
    requires changes { F.IsAlwaysCallable change }
    ensures { AreChanged (F.post change) threads.now harts.old harts.new }
{
    for k in 0..harts.len() {
        if is_named(threads, k as u32 + 1) {
            harts[k] = change(harts[k]);
        }
    }
}
