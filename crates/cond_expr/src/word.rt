//! Blanks and names in a text.

ghost use Rattle.std.specs.Prelude.{◌≡◌, ◌≤◌, ℕ, [], ◌∷◌, length, take, drop, MatchOption};
ghost use Rattle.cond_expr.specs.Lex.{is_blank, is_name_start, is_name_byte, after_blanks, run_length, word_length, word_of, behind_word};

/// The first byte, and those behind it.
pub fn front(bytes: &[u8]) -> Option<(u8, &[u8])>
    ensures { MatchOption result (bytes.now ≡ []) (λ p. bytes.now ≡ p.0 ∷ p.1.now) }
{
    match bytes {
        [] => None,
        [first, rest @ ..] => Some((*first, rest)),
    }
}

pub fn is_blank(b: u8) -> bool
    ensures { result ≡ is_blank b }
{
    b == b' ' || b == b'\t'
}

/// A name begins with a letter, `_` or `.`.
pub fn is_name_start(b: u8) -> bool
    ensures { result ≡ is_name_start b }
{
    matches!(b, b'a'..=b'z' | b'A'..=b'Z' | b'_' | b'.')
}

fn is_name_byte(b: u8) -> bool
    ensures { result ≡ is_name_byte b }
{
    is_name_start(b) || (matches!(b, b'0'..=b'9') || b == b'$')
}

/// What is left behind the blanks in front.
#[tactic(auto, unfolding(crate::specs::Lex::after_blanks))]
pub fn after_blanks(bytes: &[u8]) -> &[u8]
    ensures value { result.now ≡ after_blanks bytes.now }
    ensures shorter { length result.now ≤ length bytes.now }
{
    let mut rest = bytes;
    'blanks: while let Some((b, more)) = front(rest) {
        if !is_blank(b) {
            return rest;
        }
        rest = more;
    }
    rest
}

/// How many bytes of names stand in front.
#[tactic(auto, unfolding(crate::specs::Lex::run_length))]
pub fn run_length(bytes: &[u8]) -> usize
    ensures value { result ≡ run_length bytes.now }
    ensures within { result ≤ length bytes.now }
{
    let mut count = 0;
    let mut rest = bytes;
    'bytes: while let Some((b, more)) = front(rest) {
        if !is_name_byte(b) {
            return count;
        }
        count += 1;
        rest = more;
    }
    count
}

fn word_length(bytes: &[u8]) -> usize
    ensures value { result ≡ word_length bytes.now }
    ensures within { result ≤ length bytes.now }
{
    match bytes {
        [first, rest @ ..] if is_name_start(*first) => 1 + run_length(rest),
        _ => 0,
    }
}

/// The name in front, which is empty where none stands there, and what stands behind it.
pub fn word(bytes: &[u8]) -> (&[u8], &[u8])
    ensures word { result.0.now ≡ word_of bytes.now }
    ensures behind { result.1.now ≡ behind_word bytes.now }
    ensures length { length result.0.now ≡ word_length bytes.now }
    ensures shorter { length result.1.now ≤ length bytes.now }
{
    let n = word_length(bytes);
    (&bytes[..n], &bytes[n..])
}
