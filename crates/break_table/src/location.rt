// The text of a location.
ghost use Rattle.std.specs.Prelude.{◌≡◌};

use std::marker::Model;

/// The text of a location, as it was given. Contracts see its bytes as a list.
#[derive(Drop)]
pub struct Location {
    bytes: Vec<u8>,
}

impl Model for Location {
    ghost use Rattle.std.specs.Prelude.{List, ℕ};

    ghost Value = { List ℕ };

    ghost view = { λ l. l.bytes.items };
}

impl Location {
    /// The location of a text, which keeps its memory.
    pub fn of(bytes: Vec<u8>) -> Location
        ensures { result ≡ bytes.items }
    {
        Location { bytes }
    }

    /// The text.
    pub fn as_slice(&self) -> &[u8]
        ensures { result.now ≡ self.now }
    {
        self.bytes.as_slice()
    }
}
