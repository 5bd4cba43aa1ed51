//! How operations change the rules of a place (DWARF 5, section 6.4.2).

ghost use Rattle.std.specs.Prelude.{◌≡◌, []};
ghost use Rattle.dwarf_frames.specs.Table.{apply, moved, recall, remember, rule_of, with_rule};
ghost use Rattle.dwarf_frames.specs.States.{Leaves, AreAllWithin, seen};
ghost use Rattle.dwarf_frames.specs.Within.{AreWithin, IsWithin, NamesRegister};

use crate::fault::FrameFault;
use crate::operand::REGISTERS;
use crate::operation::Operation;
use crate::rules::{RegisterRule, Rules};
use arrayvec::ArrayVec;

/// How many states may be remembered at once.
const DEPTH: usize = 8;

/// The rules of a place, and those that are remembered.
#[derive(Drop)]
pub struct State {
    pub rules: Rules,
    remembered: ArrayVec<Rules, DEPTH>,
}

impl State {
    /// Nothing is remembered.
    pub fn new(rules: Rules) -> State
        requires { AreWithin rules }
        ensures value { seen result ≡ record { rules = rules; remembered = [] } }
        ensures within { AreAllWithin (seen result) }
    {
        State {
            rules,
            remembered: ArrayVec::new(),
        }
    }

    /// The same rules, and as many remembered.
    pub fn copy(&self) -> State
        ensures { seen result ≡ seen self.now }
    {
        let mut remembered = ArrayVec::new();
        for rules in self.remembered.as_slice() {
            remembered.push(*rules);
        }
        State {
            rules: self.rules,
            remembered,
        }
    }
}

// The rule of a register; one above 31 has none.
fn rule_of(rules: &Rules, register: u64) -> RegisterRule
    requires { AreWithin rules.now }
    ensures value { result ≡ rule_of rules.now register }
    ensures within { NamesRegister result }
{
    if register < REGISTERS {
        rules.registers[register as usize]
    } else {
        RegisterRule::Unspecified
    }
}

// Gives a register a rule; one above 31 is passed over.
fn set_rule(rules: &mut Rules, register: u64, rule: RegisterRule)
    requires rules { AreWithin rules.old }
    requires rule { NamesRegister rule }
    ensures value { rules.new ≡ with_rule rules.old register rule }
    ensures within { AreWithin rules.new }
{
    if register < REGISTERS {
        rules.registers[register as usize] = rule;
    }
}

// Remembers the rules.
fn remember(state: &mut State) -> Result<(), FrameFault>
    requires { AreAllWithin (seen state.old) }
    ensures value { Leaves result (seen state.new) (remember (seen state.old)) }
    ensures within { AreAllWithin (seen state.new) }
{
    if state.remembered.is_full() {
        return Err(FrameFault::Depth);
    }
    state.remembered.push(state.rules);
    Ok(())
}

// Takes the rules back that are remembered last.
fn recall(state: &mut State) -> Result<(), FrameFault>
    requires { AreAllWithin (seen state.old) }
    ensures value { Leaves result (seen state.new) (recall (seen state.old)) }
    ensures within { AreAllWithin (seen state.new) }
{
    state.rules = state.remembered.pop().ok_or(FrameFault::Empty)?;
    Ok(())
}

/// One operation, under the rules that the CIE gives.
pub fn apply(initial: &Rules, state: &mut State, operation: Operation) -> Result<(), FrameFault>
    requires initial { AreWithin initial.now }
    requires state { AreAllWithin (seen state.old) }
    requires operation { IsWithin operation }
    ensures value { Leaves result (seen state.new) (apply initial.now (seen state.old) operation) }
    ensures within { AreAllWithin (seen state.new) }
{
    match operation {
        Operation::Nop | Operation::Advance(_) | Operation::SetLocation(_) => {}
        Operation::SetRule(register, rule) => set_rule(&mut state.rules, register, rule),
        Operation::Restore(register) => {
            set_rule(&mut state.rules, register, rule_of(initial, register));
        }
        Operation::RememberState => remember(state)?,
        Operation::RestoreState => recall(state)?,
        Operation::SetCfa(cfa) => state.rules.cfa = cfa,
        Operation::SetCfaRegister(register) => state.rules.cfa.register = register,
        Operation::SetCfaOffset(offset) => state.rules.cfa.offset = offset,
    }
    Ok(())
}

/// The location behind an operation.
pub fn moved(location: u32, operation: Operation) -> u32
    ensures { result ≡ moved location operation }
{
    match operation {
        Operation::Advance(delta) => location.wrapping_add(delta),
        Operation::SetLocation(address) => address,
        _ => location,
    }
}
