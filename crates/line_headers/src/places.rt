// Where the names of files stand.
ghost use Rattle.std.specs.Prelude.{◌≡◌, IfOk};
ghost use Rattle.line_headers.specs.declared.places.NamePlace.TheVariants as place;

use dbg_traits::NoMemory;

/// Where the name of a file stands: up to the zero byte behind a place in one of the sections.
#[derive(Clone, Copy)]
pub enum NamePlace {
    /// No path is given, and the name is empty.
    Empty,
    /// Bytes from the start of `.debug_line`.
    Line(u32),
    /// Bytes from the start of `.debug_line_str`.
    LineStr(u32),
    /// Bytes from the start of `.debug_str`.
    Str(u32),
}

/// A name in `.debug_line`, whose places have 32 bits.
pub fn name_in_line(at: usize) -> Result<NamePlace, NoMemory>
    ensures { IfOk result (λ name. name ≡ place.Line at) }
{
    match u32::try_from(at) {
        Ok(at) => Ok(NamePlace::Line(at)),
        Err(_) => Err(NoMemory),
    }
}
