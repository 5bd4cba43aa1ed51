// Variables and faults as text.
use debug_info::{Base, Info, Kind, Place, UnitFault, Var};
use std::alloc::Global;
use std::str::from_utf8;
use test_rows::Piece::{Count, Hex, Number, Offset, Text};
use test_rows::{RowFault, push_told, said, shown};

fn push_kind(alloc: Global, kind: Kind, into: &mut String) -> Result<(), RowFault> {
    let (word, size) = match kind {
        Kind::Signed(size) => ("signed", size),
        Kind::Unsigned(size) => ("unsigned", size),
        Kind::Pointer => return push_told(alloc, into, &[Text("pointer ")]),
        Kind::Other => return push_told(alloc, into, &[Text("other ")]),
    };
    push_told(alloc, into, &[Text(word), Number(size as u32), Text(" ")])
}

fn push_place(alloc: Global, place: Place, into: &mut String) -> Result<(), RowFault> {
    let (word, piece) = match place {
        Place::Absent => ("absent", Text("")),
        Place::Fixed(address) => ("at", Hex(address)),
        Place::Frame(offset) => ("frame", Offset(offset)),
        Place::Reg(register) => ("x", Number(register as u32)),
    };
    push_told(alloc, into, &[Text(word), piece, Text(" ")])
}

fn push_base(alloc: Global, base: Base, into: &mut String) -> Result<(), RowFault> {
    let (word, register, offset) = match base {
        Base::Cfa => ("cfa", Text(""), Text("")),
        Base::Plus(register, offset) => ("x", Number(register as u32), Offset(offset)),
        Base::Own(register) => ("x", Number(register as u32), Text("")),
        Base::Other => ("other", Text(""), Text("")),
    };
    push_told(alloc, into, &[Text(word), register, offset])
}

fn push_variable(alloc: Global, variable: &Var<'_>, into: &mut String) -> Result<(), RowFault> {
    let name = from_utf8(variable.name).unwrap_or("no text");
    push_told(alloc, into, &[Text(name), Text(" ")])?;
    push_kind(alloc, variable.kind, into)?;
    push_place(alloc, variable.place, into)?;
    push_base(alloc, variable.base, into)?;
    let argument = if variable.argument { " argument" } else { "" };
    let listed = if variable.listed { " listed" } else { "" };
    push_told(alloc, into, &[Text(argument), Text(listed)])
}

// What stands between one of several and those before.
fn mark(texts: &str) -> &'static str {
    if texts.is_empty() { "" } else { "; " }
}

fn push_variables(alloc: Global, variables: &[Var<'_>], into: &mut String) -> Result<(), RowFault> {
    for variable in variables {
        into.push_str(mark(into.as_str()))?;
        push_variable(alloc, variable, into)?;
    }
    Ok(())
}

/// The variables of a place: each one's name, kind, place and base.
pub fn variables_text(alloc: Global, variables: &[Var<'_>]) -> Result<String, RowFault> {
    if variables.is_empty() {
        return said(alloc, "nothing");
    }
    let mut texts = String::new(alloc);
    push_variables(alloc, variables, &mut texts)?;
    Ok(texts)
}

fn push_fault(alloc: Global, unit: &UnitFault, into: &mut String) -> Result<(), RowFault> {
    let fault = shown(alloc, &unit.fault)?;
    let mark = mark(into.as_str());
    push_told(
        alloc,
        into,
        &[
            Text(mark),
            Count(unit.offset.at as u64),
            Text(" "),
            Text(fault.as_str()),
        ],
    )
}

fn push_faults(alloc: Global, info: &Info, into: &mut String) -> Result<(), RowFault> {
    for unit in info.faults() {
        push_fault(alloc, unit, into)?;
    }
    Ok(())
}

/// The faults of units, each behind the unit's offset.
pub fn faults_text(alloc: Global, info: &Info) -> Result<String, RowFault> {
    if info.faults().is_empty() {
        return said(alloc, "no faults");
    }
    let mut texts = String::new(alloc);
    push_faults(alloc, info, &mut texts)?;
    Ok(texts)
}
