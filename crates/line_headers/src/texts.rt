// How far texts stand in the sections of texts.
ghost use Rattle.std.specs.Prelude.{◌≡◌};
ghost use Rattle.line_rows.specs.Sections.{sections_shown};
ghost use Rattle.line_headers.specs.Texts.{EndsAt, texts_before, texts_in};

use line_rows::LineSections;
use memchr::memrchr;

/// How far texts stand in `.debug_line_str` and `.debug_str`: each place before has a zero byte at or behind it.
#[derive(Clone, Copy)]
pub struct TextEnds {
    /// In bytes from the start of `.debug_line_str`.
    pub line_str: usize,
    /// In bytes from the start of `.debug_str`.
    pub strs: usize,
}

// The place behind the last zero byte, or 0 where there is none.
fn text_end(section: &[u8]) -> usize
    ensures { EndsAt section.now result }
{
    match memrchr(0, section) {
        Some(last) => last + 1,
        None => 0,
    }
}

/// How far texts stand in the two sections. Found once, it tells of each offset whether a text stands there.
pub fn text_ends(sections: &LineSections<'_>) -> TextEnds
    ensures { texts_before result ≡ texts_in (sections_shown sections.now) }
{
    TextEnds {
        line_str: text_end(sections.line_str),
        strs: text_end(sections.strs),
    }
}
