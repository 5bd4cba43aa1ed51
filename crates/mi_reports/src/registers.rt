// Registers and memory.
ghost use Rattle.std.specs.Prelude.{◌∷◌, [], map};
ghost use Rattle.mi_values.specs.Tree.{text, items, items_of};
ghost use Rattle.hex.specs.Hex.{encode_lower};
ghost use Rattle.mi_text.specs.Numeral.{address_text};
ghost use Rattle.mi_reports.specs.declared.words.Key.TheVariants as keys;
ghost use Rattle.mi_reports.specs.Words.{key_text, says};
ghost use Rattle.mi_reports.specs.Led.{Adds, led, opened, item_led, items_behind, items_opened};
ghost use Rattle.mi_reports.specs.Replies.{value_text, names_field, register_fields, register_tree, registers_field, block_fields, memory_field};

use crate::fields::{write_address, write_byte, write_head, write_text, write_word, write_worth};
use crate::words::Key;
use dbg_model::Register;
use mi_commands::Format;
use mi_text::write_c_string;
use std::alloc::AllocError;

// The names of x0 to x31 and of pc.
const NAMES: [&str; 33] = [
    "zero", "ra", "sp", "gp", "tp", "t0", "t1", "t2", "fp", "s1", "a0", "a1", "a2", "a3", "a4",
    "a5", "a6", "a7", "s2", "s3", "s4", "s5", "s6", "s7", "s8", "s9", "s10", "s11", "t3", "t4",
    "t5", "t6", "pc",
];

// A name in a list.
#[tactic(auto, using(std::proofs::lemmas::Grind::common_steps, crate::proofs::Led::text_item_led))]
fn write_name(into: &mut Vec<u8>, lead: u8, name: &'static str) -> Result<(), AllocError>
    ensures { Adds result into.old.items into.new.items (item_led lead (text name.now)) }
{
    write_byte(into, lead)?;
    write_c_string(name.as_bytes(), into)
}

// Names behind a first one.
fn write_more_names(into: &mut Vec<u8>, names: &[&'static str]) -> Result<(), AllocError>
    ensures { Adds result into.old.items into.new.items (items_behind (map (λ n. text n.now) names.now)) }
{
    for name in names {
        write_name(into, b',', *name)?;
    }
    Ok(())
}

// Names behind their bracket.
fn write_name_list(into: &mut Vec<u8>, names: &[&'static str]) -> Result<(), AllocError>
    ensures { Adds result into.old.items into.new.items (items_opened 91 (map (λ n. text n.now) names.now)) }
{
    let [name, rest @ ..] = names else {
        return write_byte(into, b'[');
    };
    write_name(into, b'[', *name)?;
    write_more_names(into, rest)
}

#[tactic(auto, using(std::proofs::lemmas::Grind::common_steps, crate::proofs::Led::list_led))]
fn write_these(into: &mut Vec<u8>, names: &[&'static str]) -> Result<(), AllocError>
    ensures { Adds result into.old.items into.new.items (led 44 (key_text keys.RegisterNames, items (items_of (map (λ n. text n.now) names.now)))) }
{
    write_head(into, b',', Key::RegisterNames)?;
    write_name_list(into, names)?;
    write_byte(into, b']')
}

/// Puts the names of all registers at the end.
#[tactic(auto, unfolding(crate::specs::Replies::names_field))]
pub fn write_names(into: &mut Vec<u8>) -> Result<(), AllocError>
    ensures { Adds result into.old.items into.new.items (led 44 names_field) }
{
    write_these(into, &NAMES)
}

fn write_value(into: &mut Vec<u8>, format: Format, value: u32) -> Result<(), AllocError>
    ensures { Adds result into.old.items into.new.items (led 44 (says keys.Value (value_text format value))) }
{
    match format {
        Format::Hexadecimal => write_address(into, b',', Key::Value, value),
        Format::Decimal => write_worth(into, b',', Key::Value, value, false),
    }
}

// The fields of a register behind their bracket.
#[tactic(auto, using(std::proofs::lemmas::Grind::common_steps), unfolding(crate::specs::Replies::register_fields))]
fn write_fields(into: &mut Vec<u8>, format: Format, register: Register) -> Result<(), AllocError>
    ensures { Adds result into.old.items into.new.items (opened 123 (register_fields format register)) }
{
    write_word(into, b'{', Key::Number, register.number)?;
    write_value(into, format, register.value)
}

#[tactic(auto, using(std::proofs::lemmas::Grind::common_steps, crate::proofs::Led::tuple_item_led), unfolding(crate::specs::Replies::register_tree))]
fn write_register(
    into: &mut Vec<u8>,
    lead: u8,
    format: Format,
    register: Register,
) -> Result<(), AllocError>
    ensures { Adds result into.old.items into.new.items (item_led lead (register_tree format register)) }
{
    write_byte(into, lead)?;
    write_fields(into, format, register)?;
    write_byte(into, b'}')
}

// Registers behind a first one.
fn write_more(into: &mut Vec<u8>, format: Format, registers: &[Register]) -> Result<(), AllocError>
    ensures { Adds result into.old.items into.new.items (items_behind (map (register_tree format) registers.now)) }
{
    for register in registers {
        write_register(into, b',', format, *register)?;
    }
    Ok(())
}

// Registers behind their bracket.
fn write_list(into: &mut Vec<u8>, format: Format, registers: &[Register]) -> Result<(), AllocError>
    ensures { Adds result into.old.items into.new.items (items_opened 91 (map (register_tree format) registers.now)) }
{
    let [register, rest @ ..] = registers else {
        return write_byte(into, b'[');
    };
    write_register(into, b'[', format, *register)?;
    write_more(into, format, rest)
}

/// Puts registers with their values in a format at the end.
#[tactic(auto, using(std::proofs::lemmas::Grind::common_steps, crate::proofs::Led::list_led), unfolding(crate::specs::Replies::registers_field))]
pub fn write_registers(
    into: &mut Vec<u8>,
    format: Format,
    registers: &[Register],
) -> Result<(), AllocError>
    ensures { Adds result into.old.items into.new.items (led 44 (registers_field format registers.now)) }
{
    write_head(into, b',', Key::RegisterValues)?;
    write_list(into, format, registers)?;
    write_byte(into, b']')
}

// Bytes, two hexadecimal digits each.
fn write_contents(into: &mut Vec<u8>, bytes: &[u8]) -> Result<(), AllocError>
    ensures { Adds result into.old.items into.new.items (led 44 (says keys.Contents (encode_lower bytes.now))) }
{
    let contents = hex::encode(*into.allocator(), bytes)?;
    write_text(into, b',', Key::Contents, contents.as_bytes())
}

// Where bytes begin, and where they end, behind their bracket.
fn write_span(into: &mut Vec<u8>, address: u32, end: u32) -> Result<(), AllocError>
    ensures { Adds result into.old.items into.new.items (opened 123 (says keys.Begin (address_text address) ∷ says keys.Offset (address_text 0) ∷ says keys.End (address_text end) ∷ [])) }
{
    write_address(into, b'{', Key::Begin, address)?;
    write_address(into, b',', Key::Offset, 0)?;
    write_address(into, b',', Key::End, end)
}

// The fields of the bytes from an address on behind their bracket.
#[tactic(auto, using(std::proofs::lemmas::Grind::common_steps), unfolding(crate::specs::Replies::block_fields))]
fn write_block(into: &mut Vec<u8>, address: u32, bytes: &[u8]) -> Result<(), AllocError>
    ensures { Adds result into.old.items into.new.items (opened 123 (block_fields address bytes.now)) }
{
    let end = ((u64::from(address) + bytes.len() as u64) % 0x1_0000_0000) as u32;
    write_span(into, address, end)?;
    write_contents(into, bytes)
}

/// Puts the bytes from an address on at the end.
#[tactic(auto, using(std::proofs::lemmas::Grind::common_steps, crate::proofs::Led::one_tuple_led), unfolding(crate::specs::Replies::memory_field))]
pub fn write_memory(into: &mut Vec<u8>, address: u32, bytes: &[u8]) -> Result<(), AllocError>
    ensures { Adds result into.old.items into.new.items (led 44 (memory_field address bytes.now)) }
{
    write_head(into, b',', Key::Memory)?;
    write_byte(into, b'[')?;
    write_block(into, address, bytes)?;
    into.extend_from_slice(b"}]")
}
