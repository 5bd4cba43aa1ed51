//! `next_line`: where a line of the input ends.

ghost use Rattle.std.specs.Prelude.{◌≡◌, ◌≤◌, ◌<◌, [], ℕ, List, Bool, length, take, IfSome, IfNone};
ghost use Rattle.mi_input.specs.Lines.{lines, lf_at, without_cr, IsNext, AreFirst};

// Where the first LF stands.
fn lf_at(rest: &[u8]) -> Option<usize>
    ensures at { result ≡ lf_at rest.now }
    ensures within { IfSome result (λ k. k < length rest.now) }
{
    for (i, b) in rest.iter().enumerate() {
        if *b == b'\n' {
            return Some(i);
        }
    }
    None
}

// The length of a line without a CR at its end.
fn text_length(line: &[u8]) -> usize
    ensures text { take result line.now ≡ without_cr line.now }
    ensures within { result ≤ length line.now }
{
    let Some((last, front)) = line.split_last() else {
        return line.len();
    };
    if *last == b'\r' {
        front.len()
    } else {
        line.len()
    }
}

/// The length of the first line's text, and the place behind the line. None where no whole line stands there.
///
/// A line ends with LF, and a CR before it isn't part of it. Where the input has ended, a rest without LF is a line.
pub fn next_line(rest: &[u8], ended: bool) -> Option<(usize, usize)>
    ensures next { IfSome result (λ p. IsNext ended rest.now (take p.0 rest.now) p.1) }
    ensures text_within { IfSome result (λ p. p.0 ≤ p.1) }
    ensures takes { IfSome result (λ p. 0 < p.1) }
    ensures within { IfSome result (λ p. p.1 ≤ length rest.now) }
    ensures none { IfNone result (lines rest.now ended ≡ []) }

    // What is polled later changes no line that was whole before.
    ensures first { (more : List ℕ) (later : Bool) → AreFirst rest.now more later }
{
    match lf_at(rest) {
        Some(k) => Some((text_length(&rest[..k]), k + 1)),
        None if ended && !rest.is_empty() => Some((rest.len(), rest.len())),
        None => None,
    }
}
