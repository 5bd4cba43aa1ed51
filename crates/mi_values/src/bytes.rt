//! What slices hold is bytes.

ghost use Rattle.std.specs.Prelude.{◌≡◌, true};
ghost use Rattle.mi_values.specs.Testing.{are_bytes};

/// What a slice holds is bytes: a fact for callers, which costs nothing.
#[tactic(auto, using(crate::proofs::Fitting::fit_bytes))]
pub fn known_bytes(bytes: &[u8])
    ensures { are_bytes bytes.now ≡ true }
{
    let _bytes = bytes;
}
