//! A text with its names replaced.

ghost use Rattle.std.specs.Prelude.{◌≡◌};
ghost use Rattle.std.specs.Option.{option_copied};
ghost use Rattle.var_expr.specs.Places.{last_begun, length_of, names_of, place_behind, place_of, text_of};

/// A name that was replaced. Places and lengths are in bytes.
#[derive(Clone, Copy)]
pub struct Replaced {
    /// Where it stands in the given text.
    pub at: usize,
    pub length: usize,
    /// Where its replacement stands in the new text.
    pub new_at: usize,
    pub new_length: usize,
}

/// A text with its names replaced. Contracts see the new text as `text_of`, its names as `names_of`, and the length of the
/// given text as `length_of`.
#[derive(Drop)]
pub struct Expanded {
    pub(crate) given_length: usize,
    pub(crate) text: Vec<u8>,
    pub(crate) names: Vec<Replaced>,
}

// The place of the given text that one behind a replacement's beginning counts as.
fn place_behind(given_length: usize, replaced: &Replaced, at: usize) -> usize
    ensures { result ≡ place_behind given_length replaced.now at }
{
    let inside = at.saturating_sub(replaced.new_at);
    let place = if inside < replaced.new_length {
        replaced.at
    } else {
        let behind = inside - replaced.new_length;
        let end = replaced.at.saturating_add(replaced.length);
        end.saturating_add(behind)
    };
    place.min(given_length)
}

// The last of the names whose replacement begins at a place or before it.
fn last_begun(names: &[Replaced], at: usize) -> Option<Replaced>
    ensures { result ≡ last_begun at names.now }
{
    let mut last = None;
    for replaced in names {
        if replaced.new_at <= at {
            last = Some(*replaced);
        }
    }
    last
}

impl Expanded {
    /// The new text.
    pub fn text(&self) -> &[u8]
        ensures { result.now ≡ text_of self.now }
    {
        &self.text
    }

    /// The names that were replaced, in their order.
    pub fn names(&self) -> &[Replaced]
        ensures { result.now ≡ names_of self.now }
    {
        &self.names
    }

    /// The place of the given text that one of the new text counts as: inside a replacement its name's first byte, and
    /// behind it the place moved back.
    pub fn place(&self, at: usize) -> usize
        ensures { result ≡ place_of (length_of self.now) (names_of self.now) at }
    {
        match last_begun(&self.names, at) {
            None => at,
            Some(replaced) => place_behind(self.given_length, &replaced, at),
        }
    }
}
