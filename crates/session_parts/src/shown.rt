// What the records of a session show of its program's output.
ghost use Rattle.std.specs.Prelude.{◌≡◌, List, length, IfOk};
ghost use Rattle.mi_values.specs.Line.{line_view};
ghost use Rattle.mi_values.specs.Record.{LineTree};
ghost use Rattle.mi_values.specs.Records.{AreRecords, streamed, streamed_by};

use dbg_traits::NoMemory;
use mi_values::{Line, StreamSign, read_line, write_line};
use std::alloc::Global;

// How many bytes of the output a record shows.
fn shown(line: Line) -> usize
    ensures { result ≡ length (streamed_by (line_view line)) }
{
    match line {
        Line::Stream { sign, bytes } => match sign {
            StreamSign::Target => bytes.len(),
            StreamSign::Log => 0,
        },
        Line::Result { .. } | Line::Notice { .. } | Line::Prompt => 0,
    }
}

/// How many bytes of the program's output the records of a text show. The one error is out of memory.
pub fn shown_in(alloc: Global, text: &[u8]) -> Result<usize, NoMemory>
    ensures { IfOk result (λ n. (trees : List LineTree) → AreRecords text.now trees → n ≡ length (streamed trees)) }
{
    // The records that were read, written again: their end is where the next one begins.
    let mut again = Vec::new(alloc);
    let mut count = 0usize;
    'records: while again.len() < text.len() {
        let Ok(line) = read_line(alloc, &text[again.len()..]) else {
            return Err(NoMemory);
        };
        write_line(&line, &mut again)?;
        count += shown(line);
    }
    Ok(count)
}
