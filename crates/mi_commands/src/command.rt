//! `Command`: what a line asks for.

use dbg_traits::{ByteList, NumberList};
use mi_text::Token;

/// Which threads a command resumes or interrupts.
#[derive(Clone, Copy)]
pub enum Target {
    /// The selected thread: neither `--thread` nor `--all` was given.
    Selected,
    /// `--thread N`.
    Thread(u32),
    /// `--all`.
    All,
}

/// How registers are written.
#[derive(Clone, Copy)]
pub enum Format {
    /// `x`.
    Hexadecimal,
    /// `d`, signed.
    Decimal,
}

/// Where a breakpoint is wanted.
#[derive(Drop)]
pub enum Location {
    /// `*N`.
    Address(u32),
    /// `FILE:LINE`, with a file that isn't empty and a line of 1 to 2^31 - 1.
    Line { file: ByteList, line: u32 },
    /// A symbol's name, which isn't empty.
    Name(ByteList),
}

/// The values of `displaced-stepping`.
#[derive(Clone, Copy)]
pub enum Displaced {
    On,
    Off,
    Auto,
}

/// The settings that can be shown.
#[derive(Clone, Copy)]
pub enum Setting {
    NonStop,
    MiAsync,
    DisplacedStepping,
}

/// What `-break-insert` asks for.
#[derive(Drop)]
pub struct Insertion {
    /// `-t`.
    pub temporary: bool,
    /// `-d`.
    pub disabled: bool,
    /// The number of `-i`, 0 to 2^31 - 1, or 0.
    pub ignore: u32,
    /// The expression of `-c`.
    pub condition: Option<ByteList>,
    /// The thread of `-p`, which may not exist.
    pub thread: Option<u32>,
    pub location: Location,
    /// The word that spells the location.
    pub text: ByteList,
}

/// A line's command. A `thread` is the number of `--thread`, or none for the selected one; none is looked up.
#[derive(Drop)]
pub enum Command {
    /// A line of blanks.
    Blank,
    BreakInsert(Insertion),
    /// At least one number.
    BreakDelete(NumberList),
    /// At least one number.
    BreakEnable(NumberList),
    /// At least one number.
    BreakDisable(NumberList),
    /// A condition, or none to clear it. The words of the expression are joined by one space each.
    BreakCondition {
        number: u32,
        condition: Option<ByteList>,
    },
    /// A count of 0 to 2^31 - 1.
    BreakAfter {
        number: u32,
        count: u32,
    },
    BreakList,
    /// The words of the expression, whose bytes are to be watched, are joined by one space each.
    BreakWatch {
        expression: ByteList,
    },
    Continue(Target),
    Interrupt(Target),
    Step {
        thread: Option<u32>,
    },
    Next {
        thread: Option<u32>,
    },
    StepInstruction {
        thread: Option<u32>,
    },
    NextInstruction {
        thread: Option<u32>,
    },
    Finish {
        thread: Option<u32>,
    },
    Wait,
    /// The one thread that is asked for, or none for each live one.
    ThreadInfo {
        thread: Option<u32>,
    },
    ThreadSelect {
        thread: u32,
    },
    ThreadList,
    FrameList {
        thread: Option<u32>,
    },
    FrameDepth {
        thread: Option<u32>,
    },
    FrameInfo {
        thread: Option<u32>,
    },
    /// The variables of the innermost frame, with their values or without.
    VariableList {
        thread: Option<u32>,
        with_values: bool,
    },
    RegisterNames,
    /// Numbers of 0 to 32 in the given order, or none of them for all registers.
    RegisterValues {
        thread: Option<u32>,
        format: Format,
        numbers: NumberList,
    },
    /// A count of 1 to 4,096.
    ReadMemory {
        address: u32,
        count: u32,
    },
    /// The 1 to 4,096 bytes that are to be written from an address on.
    WriteMemory {
        address: u32,
        bytes: ByteList,
    },
    /// The words of the expression are joined by one space each.
    Evaluate {
        thread: Option<u32>,
        expression: ByteList,
    },
    /// `-gdb-set non-stop on`.
    SetNonStop,
    /// `-gdb-set mi-async on`.
    SetMiAsync,
    /// `-gdb-set displaced-stepping on|off|auto`.
    SetDisplaced(Displaced),
    /// `-gdb-set $NAME=VALUE`: the register's name as it is spelled, without the `$`, and its number, of which 32 is pc.
    SetRegister {
        thread: Option<u32>,
        name: ByteList,
        register: u32,
        value: u32,
    },
    Show(Setting),
    Exit,
}

/// A line's token, empty where there is none, and its command.
#[derive(Drop)]
pub struct CommandLine {
    pub token: Token,
    pub command: Command,
}
