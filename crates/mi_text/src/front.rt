//! The first byte, taken off.

ghost use Rattle.std.specs.Prelude.{◌≡◌, ℕ, List, ◌∷◌, MatchOption};

/// What stands behind this byte, if it is the first.
pub fn after(bytes: &[u8], b: u8) -> Option<&[u8]>
    ensures { MatchOption result ((rest : List ℕ) → bytes.now ≡ b ∷ rest → ⊥) (λ rest. bytes.now ≡ b ∷ rest.now) }
{
    match bytes {
        [first, rest @ ..] if *first == b => Some(rest),
        _ => None,
    }
}
