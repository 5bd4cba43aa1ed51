// The one line of a session that isn't begun.
ghost use Rattle.std.specs.Prelude.{◌≡◌, ◌∷◌, [], ◌++◌, decimal, OnOk};
ghost use Rattle.mi_values.specs.Records.{lines_bytes};
ghost use Rattle.mi_reports.specs.declared.words.Key.TheVariants as keys;
ghost use Rattle.mi_reports.specs.declared.words.Phrase.TheVariants as phrases;
ghost use Rattle.mi_reports.specs.Phrases.{phrase_text};
ghost use Rattle.mi_reports.specs.Words.{says};
ghost use Rattle.mi_reports.specs.Refusals.{kind_name, file_fields, usage_fields, refusal_lines};
ghost use Rattle.mi_reports.specs.Led.{Adds};

use crate::fields::{write_byte, write_text};
use crate::lines::write_answered;
use crate::texts::{push, push_counted};
use crate::words::{Key, Phrase, wording};
use elf_checks::{ElfFault, ElfKind};
use mi_values::Token;
use std::alloc::AllocError;

fn kind_name(kind: ElfKind) -> &'static str
    ensures { result.now ≡ kind_name kind }
{
    match kind {
        ElfKind::Short => "Short",
        ElfKind::Magic => "Magic",
        ElfKind::Class => "Class",
        ElfKind::Order => "Order",
        ElfKind::Kind => "Kind",
        ElfKind::Machine => "Machine",
        ElfKind::Flags => "Flags",
        ElfKind::Segment => "Segment",
        ElfKind::Section => "Section",
        ElfKind::Text => "Text",
        ElfKind::Entry => "Entry",
        ElfKind::Large => "Large",
    }
}

// Puts the line of an error with this message at the end.
#[tactic(auto, using(std::proofs::lemmas::Grind::common_steps, crate::proofs::Led::result_led))]
fn write_refusal(into: &mut Vec<u8>, message: &[u8]) -> Result<(), AllocError>
    ensures { Adds result into.old.items into.new.items (lines_bytes (refusal_lines (says keys.Message message.now ∷ []))) }
{
    write_answered(into, &Token::none(), Key::Error)?;
    write_text(into, b',', Key::Message, message)?;
    write_byte(into, b'\n')
}

// Why a file is refused, and where, before its bytes are written as a C string.
fn push_fault(into: &mut Vec<u8>, fault: ElfFault) -> Result<(), AllocError>
    ensures { OnOk result (into.new.items ≡ into.old.items ++ (phrase_text phrases.BadFile ++ kind_name fault.kind ++ phrase_text phrases.AtPlace ++ decimal fault.place)) }
{
    push(into, Phrase::BadFile)?;
    into.extend_from_slice(kind_name(fault.kind).as_bytes())?;
    push_counted(into, Phrase::AtPlace, fault.place)
}

/// Puts the line of a file that is refused at the end.
#[tactic(auto, unfolding(crate::specs::Refusals::file_fields))]
pub fn write_bad_file(into: &mut Vec<u8>, fault: ElfFault) -> Result<(), AllocError>
    ensures { Adds result into.old.items into.new.items (lines_bytes (refusal_lines (file_fields fault))) }
{
    let mut message = Vec::new(*into.allocator());
    push_fault(&mut message, fault)?;
    write_refusal(into, message.as_slice())
}

/// Puts the line of words of the command line that are refused at the end.
#[tactic(auto, unfolding(crate::specs::Refusals::usage_fields))]
pub fn write_usage(into: &mut Vec<u8>) -> Result<(), AllocError>
    ensures { Adds result into.old.items into.new.items (lines_bytes (refusal_lines usage_fields)) }
{
    write_refusal(into, wording(Phrase::Usage))
}
