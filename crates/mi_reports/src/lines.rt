// The lines around fields.
ghost use Rattle.std.specs.Prelude.{◌≡◌};
ghost use Rattle.mi_values.specs.Record.{line_bytes, prompt, stream, notice_byte, stream_byte};
ghost use Rattle.mi_reports.specs.Led.{Adds, begun, answered};

use crate::fields::write_byte;
use crate::words::{Key, name};
use mi_text::write_c_string;
use mi_values::{NoticeSign, StreamSign, Token};
use std::alloc::AllocError;

// For how many bytes of a notice there is room from the first on.
const ROOM: usize = 512;

// The first byte of a notice.
fn notice_byte(sign: NoticeSign) -> u8
    ensures { result ≡ notice_byte sign }
{
    match sign {
        NoticeSign::Exec => b'*',
        NoticeSign::Notify => b'=',
    }
}

// The first byte of the line of a text.
fn stream_byte(sign: StreamSign) -> u8
    ensures { result ≡ stream_byte sign }
{
    match sign {
        StreamSign::Target => b'@',
        StreamSign::Log => b'&',
    }
}

/// Puts the sign of a notice and its class at the end.
#[tactic(auto, unfolding(crate::specs::Led::begun))]
pub fn write_begun(into: &mut Vec<u8>, sign: NoticeSign, class: Key) -> Result<(), AllocError>
    ensures { Adds result into.old.items into.new.items (begun sign class) }
{
    into.reserve(ROOM)?;
    write_byte(into, notice_byte(sign))?;
    into.extend_from_slice(name(class).as_bytes())
}

/// Puts a token, `^` and the class of an answer at the end.
#[tactic(auto, using(std::proofs::lemmas::Grind::common_steps), unfolding(crate::specs::Led::answered))]
pub fn write_answered(into: &mut Vec<u8>, token: &Token, class: Key) -> Result<(), AllocError>
    ensures { Adds result into.old.items into.new.items (answered token.now class) }
{
    into.extend_from_slice(token.as_bytes())?;
    write_byte(into, b'^')?;
    into.extend_from_slice(name(class).as_bytes())
}

/// Puts the line of a text at the end.
#[tactic(auto, using(std::proofs::lemmas::Grind::common_steps), unfolding(mi_values::specs::Record::line_bytes))]
pub fn write_stream(into: &mut Vec<u8>, sign: StreamSign, bytes: &[u8]) -> Result<(), AllocError>
    ensures { Adds result into.old.items into.new.items (line_bytes (stream sign bytes.now)) }
{
    write_byte(into, stream_byte(sign))?;
    write_c_string(bytes, into)?;
    write_byte(into, b'\n')
}

/// Puts the line of the prompt at the end.
#[tactic(auto, using(std::proofs::lemmas::Grind::common_steps), unfolding(mi_values::specs::Record::line_bytes))]
pub fn write_prompt(into: &mut Vec<u8>) -> Result<(), AllocError>
    ensures { Adds result into.old.items into.new.items (line_bytes prompt) }
{
    into.extend_from_slice(b"(gdb)\n")
}
