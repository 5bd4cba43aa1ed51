//! Names of files, and the part after the last `/`.

ghost use Rattle.std.specs.Prelude.{◌≡◌};
ghost use Rattle.std.specs.Str.{bytes_eq};
ghost use Rattle.line_index.specs.Lines.{file_name, is_called, last_part};

use line_rows::Rows;
use memchr::memrchr;

/// The part of a name after its last `/`.
pub fn last_part(name: &[u8]) -> &[u8]
    ensures { result.now ≡ last_part name.now }
{
    match memrchr(b'/', name) {
        Some(last) => &name[last + 1..],
        None => name,
    }
}

/// The end of a name, one byte longer than a file's: only there can the last part be the file.
fn end_for<'a>(file: &[u8], name: &'a [u8]) -> &'a [u8]
    ensures { bytes_eq (last_part result.now) file.now ≡ bytes_eq (last_part name.now) file.now }
{
    if file.len() < name.len() {
        &name[name.len() - file.len() - 1..]
    } else {
        name
    }
}

/// Whether a file is told by its name or by the last part of it. The time is that of the file's length, since names can
/// be long parts of one text.
pub fn is_called(file: &[u8], name: &[u8]) -> bool
    ensures { result ≡ is_called file.now name.now }
{
    name == file || last_part(end_for(file, name)) == file
}

/// The name of a file by its number; empty for a number that no name has.
pub fn name_of(rows: &Rows, file: usize) -> &[u8]
    ensures { result.now ≡ file_name rows.now.names file }
{
    if file < rows.name_count() {
        rows.name(file)
    } else {
        &[]
    }
}
