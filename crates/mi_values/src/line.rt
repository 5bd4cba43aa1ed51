//! `Line`, whose types keep what a line must keep.

ghost use Rattle.std.specs.Prelude.{◌≡◌, []};
ghost use Rattle.mi_values.specs.Tree.{fields_view};
ghost use Rattle.mi_values.specs.Proper.{AreProperFields, AreProperFields-prop};

use crate::name::Name;
use crate::sign::{NoticeSign, StreamSign};
use crate::value::Value;
use mi_text::Token;
use std::alloc::Global;

/// The fields of a line: values nest at most 16 deep, and no list of fields in brackets is empty.
#[derive(Drop)]
pub struct Fields {
    pub items: Vec<(Name, Value)>,
    pub ghost proper: { AreProperFields (fields_view items.items) 16 } by { AreProperFields-prop (fields_view items.items) 16 },
}

impl Fields {
    /// These fields, in this order; `are_proper` tells whether a line takes them.
    pub fn new(items: Vec<(Name, Value)>) -> Fields
        requires { AreProperFields (fields_view items.items) 16 }
        ensures { result.items ≡ items }
    {
        Fields { items }
    }

    /// No fields.
    pub fn none(alloc: Global) -> Fields
        ensures { result.items.items ≡ [] }
    {
        Fields {
            items: Vec::new(alloc),
        }
    }
}

/// An output line.
#[derive(Drop)]
pub enum Line {
    /// The answer to a command: its token, `^`, a class and fields.
    Result {
        token: Token,
        class: Name,
        fields: Fields,
    },
    /// What happened: `*` or `=`, a class and fields.
    Notice {
        sign: NoticeSign,
        class: Name,
        fields: Fields,
    },
    /// Text: `@` or `&` and a C string.
    Stream {
        sign: StreamSign,
        bytes: Vec<u8>,
    },
    /// `(gdb)`
    Prompt,
}
