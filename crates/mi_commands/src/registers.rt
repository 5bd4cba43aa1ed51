//! A register that a command sets: `$NAME=VALUE`.

ghost use Rattle.std.specs.Prelude.{◌≡◌, ◌<◌, length, IfSome};
ghost use Rattle.std.specs.Option.{option_map};
ghost use Rattle.mi_commands.specs.Registers.{assignment, assignment_of, first_equals};
ghost use Rattle.mi_commands.specs.Steps.{assignment_view};

/// The two texts of `$NAME=VALUE`, which stand in the line.
#[derive(Clone, Copy)]
pub struct Texts<'a> {
    pub name: &'a [u8],
    pub value: &'a [u8],
}

// The place of the first `=`.
fn first_equals(bytes: &[u8]) -> Option<usize>
    ensures place { result ≡ first_equals bytes.now }
    ensures within { IfSome result (λ k. k < length bytes.now) }
{
    bytes.iter().position(|b| *b == b'=')
}

/// `$NAME=VALUE`, cut at the first `=`.
pub fn assignment_of(word: &[u8]) -> Option<Texts<'_>>
    ensures { option_map assignment_view result ≡ assignment_of word.now }
{
    let [b'$', rest @ ..] = word else {
        return None;
    };
    let k = first_equals(rest)?;
    Some(Texts {
        name: &rest[..k],
        value: &rest[k + 1..],
    })
}

/// The same of a word that is of this form.
pub fn assignment(word: &[u8]) -> Texts<'_>
    ensures { assignment_view result ≡ assignment word.now }
{
    assignment_of(word).unwrap_or(Texts {
        name: b"",
        value: b"",
    })
}
