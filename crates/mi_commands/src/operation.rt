//! The table of operations: their names, and the options and parameters of each.

ghost use Rattle.std.specs.Prelude.{◌≡◌};
ghost use Rattle.std.specs.Str.{bytes_eq};
ghost use Rattle.mi_commands.specs.Operations.{operation_of, named_in, row, shape};
ghost use Rattle.mi_input.specs.Split.{words_view};
ghost use Rattle.mi_commands.specs.Numbers.{range_at, has_bytes_at};
ghost use Rattle.mi_commands.specs.Registers.{form};

use crate::counts::Allowed::{self, Nothing, OfInsertion, OfThread, OfThreads};
use crate::counts::Count::{self, AtLeastOne, AtMostOne, One, Two, TwoOrThree, Zero};
use crate::number::Numbers::{
    self, AroundBytes, Each, First, NoNumbers, Registers, WithCount, WithLength,
};
use crate::number::Range;
use crate::registers::assignment_of;
use mi_input::Word;

/// What a line asks for, by the operation's name.
#[derive(Clone, Copy)]
pub enum Operation {
    BreakInsert,
    BreakDelete,
    BreakEnable,
    BreakDisable,
    BreakCondition,
    BreakAfter,
    BreakList,
    BreakWatch,
    Continue,
    Interrupt,
    Step,
    Next,
    StepInstruction,
    NextInstruction,
    Finish,
    Wait,
    ThreadInfo,
    ThreadSelect,
    ThreadList,
    FrameList,
    FrameDepth,
    FrameInfo,
    VariableList,
    RegisterNames,
    RegisterValues,
    ReadMemory,
    WriteMemory,
    Evaluate,
    /// `-gdb-set` of a setting.
    Set,
    /// `-gdb-set` of a register.
    SetRegister,
    Show,
    Exit,
}

// The operations that have a name of their own, those that lines ask for most in front.
const OPERATIONS: [Operation; 31] = [
    Operation::Wait,
    Operation::Continue,
    Operation::Next,
    Operation::Step,
    Operation::NextInstruction,
    Operation::StepInstruction,
    Operation::BreakInsert,
    Operation::BreakDelete,
    Operation::BreakEnable,
    Operation::BreakDisable,
    Operation::BreakCondition,
    Operation::BreakAfter,
    Operation::BreakList,
    Operation::BreakWatch,
    Operation::Interrupt,
    Operation::Finish,
    Operation::ThreadInfo,
    Operation::ThreadSelect,
    Operation::ThreadList,
    Operation::FrameList,
    Operation::FrameDepth,
    Operation::FrameInfo,
    Operation::VariableList,
    Operation::RegisterNames,
    Operation::RegisterValues,
    Operation::ReadMemory,
    Operation::WriteMemory,
    Operation::Evaluate,
    Operation::Set,
    Operation::Show,
    Operation::Exit,
];

/// How an operation is spelled behind the `-`, the options that it takes, how many parameters, and which of them are numbers.
type Row = (&'static str, Allowed, Count, Numbers);

// Whether a word is this text. Their lengths alone tell most apart.
#[tactic(auto, using(crate::proofs::Texts::lengths_differ))]
fn is_text(word: &[u8], text: &str) -> bool
    ensures { result ≡ bytes_eq word.now text.now }
{
    word.len() == text.len() && word == text.as_bytes()
}

// The first of these operations that has this name.
fn named_in(operations: &[Operation], name: &[u8]) -> Option<Operation>
    ensures { result ≡ named_in operations.now name.now }
{
    let [operation, rest @ ..] = operations else {
        return None;
    };
    if is_text(name, operation.name()) {
        return Some(*operation);
    }
    named_in(rest, name)
}

impl Operation {
    /// The operation of a name without the `-` before it.
    #[tactic(auto, unfolding(crate::specs::Operations::operations, crate::specs::Operations::operation_of))]
    pub fn named(name: &[u8]) -> Option<Operation>
        ensures { result ≡ operation_of name.now }
    {
        named_in(&OPERATIONS, name)
    }

    // The table of the commands.
    fn row(self) -> Row
        ensures { (result.0.now, result.1, result.2, result.3) ≡ row self }
    {
        match self {
            Operation::BreakInsert => ("break-insert", OfInsertion, One, NoNumbers),
            Operation::BreakDelete => ("break-delete", Nothing, AtLeastOne, Each),
            Operation::BreakEnable => ("break-enable", Nothing, AtLeastOne, Each),
            Operation::BreakDisable => ("break-disable", Nothing, AtLeastOne, Each),
            Operation::BreakCondition => ("break-condition", Nothing, AtLeastOne, First),
            Operation::BreakAfter => ("break-after", Nothing, Two, WithCount),
            Operation::BreakList => ("break-list", Nothing, Zero, NoNumbers),
            Operation::BreakWatch => ("break-watch", Nothing, AtLeastOne, NoNumbers),
            Operation::Continue => ("exec-continue", OfThreads, Zero, NoNumbers),
            Operation::Interrupt => ("exec-interrupt", OfThreads, Zero, NoNumbers),
            Operation::Step => ("exec-step", OfThread, Zero, NoNumbers),
            Operation::Next => ("exec-next", OfThread, Zero, NoNumbers),
            Operation::StepInstruction => ("exec-step-instruction", OfThread, Zero, NoNumbers),
            Operation::NextInstruction => ("exec-next-instruction", OfThread, Zero, NoNumbers),
            Operation::Finish => ("exec-finish", OfThread, Zero, NoNumbers),
            Operation::Wait => ("exec-wait", Nothing, Zero, NoNumbers),
            Operation::ThreadInfo => ("thread-info", Nothing, AtMostOne, Each),
            Operation::ThreadSelect => ("thread-select", Nothing, One, Each),
            Operation::ThreadList => ("thread-list-ids", Nothing, Zero, NoNumbers),
            Operation::FrameList => ("stack-list-frames", OfThread, Zero, NoNumbers),
            Operation::FrameDepth => ("stack-info-depth", OfThread, Zero, NoNumbers),
            Operation::FrameInfo => ("stack-info-frame", OfThread, Zero, NoNumbers),
            Operation::VariableList => ("stack-list-variables", OfThread, One, NoNumbers),
            Operation::RegisterNames => ("data-list-register-names", Nothing, Zero, NoNumbers),
            Operation::RegisterValues => (
                "data-list-register-values",
                OfThread,
                AtLeastOne,
                Registers,
            ),
            Operation::ReadMemory => ("data-read-memory-bytes", Nothing, Two, WithLength),
            Operation::WriteMemory => ("data-write-memory-bytes", Nothing, TwoOrThree, AroundBytes),
            Operation::Evaluate => ("data-evaluate-expression", OfThread, AtLeastOne, NoNumbers),
            Operation::Set => ("gdb-set", Nothing, Two, NoNumbers),
            Operation::SetRegister => ("gdb-set", OfThread, One, Each),
            Operation::Show => ("gdb-show", Nothing, One, NoNumbers),
            Operation::Exit => ("gdb-exit", Nothing, Zero, NoNumbers),
        }
    }

    // How it is spelled.
    fn name(self) -> &'static str
        ensures { result.now ≡ (row self).0 }
    {
        self.row().0
    }

    /// Its options and the number of its parameters.
    pub fn shape(self) -> (Allowed, Count)
        ensures { result ≡ shape self }
    {
        let (_, options, count, _) = self.row();
        (options, count)
    }

    /// The numbers that its parameter at this place, from 0, may be; none where it is no number.
    pub fn range_at(self, place: usize) -> Option<Range>
        ensures { result ≡ range_at self place }
    {
        self.row().3.range_at(place)
    }

    /// Whether its parameter at this place, from 0, is bytes, each as two hexadecimal digits.
    pub fn has_bytes_at(self, place: usize) -> bool
        ensures { result ≡ has_bytes_at self place }
    {
        self.row().3.has_bytes_at(place)
    }

    /// The operation with these parameters: `-gdb-set` with the one word `$NAME=VALUE` sets a register.
    pub fn form(self, parameters: &[Word]) -> Operation
        ensures { result ≡ form self (words_view parameters.now) }
    {
        match (self, parameters) {
            (Operation::Set, [word]) if assignment_of(&word.bytes).is_some() => {
                Operation::SetRegister
            }
            _ => self,
        }
    }
}
