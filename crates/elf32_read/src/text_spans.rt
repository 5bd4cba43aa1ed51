// Where the text sections stand.
ghost use Rattle.std.specs.Prelude.{◌≡◌, ◌+◌, find};
ghost use Rattle.std.specs.List.{list_any};
ghost use Rattle.std.specs.Option.{option_map};
ghost use Rattle.elf32_read.specs.Spans.{Rise, covers};
ghost use Rattle.elf32_read.specs.TextSpans.{AreAligned};

use crate::spans::{Span, span_at};
use std::marker::Model;

/// Where the text sections of an image stand, each by its first address, its size in bytes and its number in the image.
///
/// Contracts see it as the list of these spans, in the order of their addresses. No address is in two of them.
#[derive(Drop)]
pub struct TextSpans {
    spans: Vec<Span>,
}

impl Model for TextSpans {
    ghost use Rattle.std.specs.Prelude.{List};
    ghost use Rattle.elf32_read.specs.declared.spans.Span.{Span};

    ghost Value = { List Span };

    ghost use Rattle.elf32_read.specs.Spans.{Rise};
    ghost use Rattle.elf32_read.specs.TextSpans.{AreAligned};

    ghost view = { λ t. t.spans.items };

    ghost invariant = { λ t. Rise t.spans.items × AreAligned t.spans.items };
}

impl TextSpans {
    pub(crate) fn of(spans: Vec<Span>) -> TextSpans
        requires rise { Rise spans.items }
        requires aligned { AreAligned spans.items }
        ensures { result ≡ spans.items }
    {
        TextSpans { spans }
    }

    /// The spans, one after another.
    pub fn as_slice(&self) -> &[Span]
        ensures value { result.now ≡ self.now }
        ensures rise { Rise result.now }
        ensures aligned { AreAligned result.now }
    {
        self.spans.as_slice()
    }

    /// Whether an address is a byte of text.
    pub fn contains(&self, addr: u32) -> bool
        ensures { result ≡ list_any (covers addr) self.now }
    {
        span_at(&self.spans, addr).is_some()
    }

    /// The address behind the last byte of the text section that an address is in; none where it isn't in text.
    pub fn end_at(&self, addr: u32) -> Option<u64>
        ensures { result ≡ option_map (λ s. s.start + s.size) (find (covers addr) self.now) }
    {
        match span_at(&self.spans, addr) {
            Some(span) => Some(span.end()),
            None => None,
        }
    }
}
