// The input of a world in memory, as a script of cues.
ghost use Rattle.std.specs.Prelude.{◌≡◌, ◌<◌, ◌≤◌, length, false};
ghost use Rattle.memory_world.specs.Script.{bytes_before, cue_at, cue_bytes, is_passed};

/// One part of a scripted input.
#[derive(Drop)]
pub enum Cue {
    /// Bytes that are there.
    Piece(Vec<u8>),
    /// Nothing is there yet, for one poll that doesn't wait.
    Quiet,
    /// One poll fails.
    Fault,
}

/// A place in a script: the number of its cue, and of the next byte of that cue.
#[derive(Clone, Copy)]
pub struct Place {
    pub cue: usize,
    pub byte: usize,
}

/// A poll that took bytes or found the end: whether it could wait, and the place and the written bytes before it.
#[derive(Clone, Copy)]
pub struct Asked {
    pub wait: bool,
    pub place: Place,
    pub written: usize,
}

impl Cue {
    /// The bytes of a piece; the others have none.
    pub(crate) fn bytes(&self) -> &[u8]
        ensures { result.now ≡ cue_bytes self.now }
    {
        match self {
            Cue::Piece(bytes) => bytes.as_slice(),
            _ => &[],
        }
    }

    /// A poll goes on to the next cue.
    pub(crate) fn is_passed(&self, byte: usize, wait: bool) -> bool
        ensures { result ≡ is_passed wait self.now byte }
    {
        match self {
            Cue::Piece(bytes) => bytes.len() <= byte,
            Cue::Quiet => wait,
            Cue::Fault => false,
        }
    }
}

/// The place at which a poll from the given place meets a cue that it doesn't pass over, or the end.
pub(crate) fn next_place(script: &[Cue], from: Place, wait: bool) -> Place
    ensures same { bytes_before script.now result ≡ bytes_before script.now from }
    ensures stands { result.cue < length script.now → is_passed wait (cue_at script.now result.cue) result.byte ≡ false }
{
    let mut place = from;
    while place.cue < script.len() && script[place.cue].is_passed(place.byte, wait) {
        place = Place {
            cue: place.cue + 1,
            byte: 0,
        };
    }
    place
}
