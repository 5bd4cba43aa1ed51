//! The declarations of abbreviations (DWARF 4, section 7.5.3).

ghost use Rattle.std.specs.Prelude.{◌≡◌, IfOk};
ghost use Rattle.leb_read.specs.Leb.{IsBehind};
ghost use Rattle.debug_info.specs.Abbreviations.{declaration_at, specification_at};
ghost use Rattle.debug_info.specs.Index.{IsIndex};

use crate::fault::InfoFault;
use crate::index::Index;
use crate::offset::AbbrevOffset;
use leb_read::{u8_at, uleb};

/// What an abbreviation says of its entries.
#[derive(Clone, Copy)]
pub struct Declaration {
    pub tag: u64,
    pub has_children: bool,
    /// Where its attributes' specifications begin.
    pub attributes: AbbrevOffset,
}

/// The name of an attribute, and the code of its form.
#[derive(Clone, Copy)]
pub struct Specification {
    pub name: u64,
    pub form: u64,
}

/// The attribute's specification at a place, or none where they end, and the next place.
#[tactic(auto, unfolding(crate::specs::Abbreviations::specification_at))]
pub fn specification_at(
    abbrevs: &[u8],
    at: usize,
) -> Result<(Option<Specification>, usize), InfoFault>
    ensures value { result ≡ specification_at abbrevs.now at }
    ensures within { IfOk result (λ r. IsBehind abbrevs.now at r.1) }
{
    let (name, next) = uleb(abbrevs, at)?;
    let (form, behind) = uleb(abbrevs, next)?;
    if name == 0 && form == 0 {
        Ok((None, behind))
    } else {
        Ok((Some(Specification { name, form }), behind))
    }
}

/// The declaration at a place with its code, or none at the table's end, and the next place.
#[tactic(auto, unfolding(crate::specs::Abbreviations::declaration_at))]
pub fn declaration_at(
    abbrevs: &[u8],
    index: &Index,
    at: usize,
) -> Result<(Option<(u64, Declaration)>, usize), InfoFault>
    requires { IsIndex abbrevs.now index.now }
    ensures value { result ≡ declaration_at abbrevs.now at }
    ensures within { IfOk result (λ r. IsBehind abbrevs.now at r.1) }
{
    let (code, next) = uleb(abbrevs, at)?;
    if code == 0 {
        return Ok((None, next));
    }
    let (tag, next) = uleb(abbrevs, next)?;
    let (children, attributes) = u8_at(abbrevs, next)?;
    let end = index.end(abbrevs, attributes)?;
    let declaration = Declaration {
        tag,
        has_children: children != 0,
        attributes: AbbrevOffset {
            at: attributes as u32,
        },
    };
    Ok((Some((code, declaration)), end))
}
