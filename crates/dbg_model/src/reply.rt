// What is answered to a line.
ghost use Rattle.std.specs.Prelude.{◌≡◌};
ghost use Rattle.dbg_model.specs.Refusals.{kind_number, number, obstacle_number, refused_number};

use crate::{Breakpoint, FrameList, RowList, ShownFrame, VariableList};
use cond_expr::{ExprFault, FaultKind};
use dbg_traits::{ByteList, ItemList, NumberList};
use mi_commands::{Displaced, Fault, Format};
use mi_text::Token;

/// What a command finds that stands against it. Threads are counted from 1.
#[derive(Clone, Copy)]
pub enum Obstacle {
    /// There is no such thread.
    UnknownThread(u32),
    /// The thread has exited.
    HasExited(u32),
    /// The thread runs, and has to be stopped.
    IsRunning(u32),
    /// The thread is stopped, and has to run.
    NotRunning(u32),
    /// No breakpoint has this number, nor a watch where one would do.
    NoBreakpoint(u32),
    /// No word of text is at this address.
    NoInstruction(u32),
    /// The most breakpoints stand already.
    TooManyBreakpoints,
    /// The expression has this fault.
    Expression(ExprFault),
    /// A divisor is 0.
    DivisionByZero,
    /// The byte at this address can't be read.
    Unreadable(u32),
    /// No line of the source is known at this address.
    NoLine(u32),
    /// No frame is known that called the thread's own.
    NoCaller,
    /// The byte at this address can't be written.
    Unwritable(u32),
    /// The most watches stand already.
    TooManyWatches,
}

/// Why a line is refused. A refused line changes nothing.
#[derive(Drop)]
pub enum Refused {
    /// The line is longer than 4,096 bytes.
    Long,
    /// The line is malformed.
    Syntax,
    /// The line is no command of the machine interface.
    Cli,
    /// The command has this fault.
    Faulty(Fault),
    /// The state stands against the command.
    Hindered(Obstacle),
    /// There is no symbol of this name.
    UnknownName(ByteList),
    /// No line of the file has a statement at this line or behind it.
    UnknownLine { file: ByteList, line: u32 },
    /// The register of this name can't be written.
    FixedRegister(ByteList),
    /// The text asks for nothing that can be watched.
    Unwatchable(ByteList),
}

// The number of the message of an expression's fault.
fn kind_number(kind: FaultKind) -> u32
    ensures { result ≡ kind_number kind }
{
    match kind {
        FaultKind::Long => 18,
        FaultKind::Text => 19,
        FaultKind::Number => 20,
        FaultKind::Deep => 21,
        FaultKind::Name => 22,
    }
}

impl Obstacle {
    /// The number of the error's message: 8 to 12, 16 to 27, 32.
    pub fn number(self) -> u32
        ensures { result ≡ obstacle_number self }
    {
        match self {
            Obstacle::UnknownThread(_) => 8,
            Obstacle::HasExited(_) => 9,
            Obstacle::IsRunning(_) => 10,
            Obstacle::NotRunning(_) => 11,
            Obstacle::NoBreakpoint(_) => 12,
            Obstacle::NoInstruction(_) => 16,
            Obstacle::TooManyBreakpoints => 17,
            Obstacle::Expression(fault) => kind_number(fault.kind),
            Obstacle::DivisionByZero => 23,
            Obstacle::Unreadable(_) => 24,
            Obstacle::NoLine(_) => 25,
            Obstacle::NoCaller => 26,
            Obstacle::Unwritable(_) => 27,
            Obstacle::TooManyWatches => 32,
        }
    }
}

impl Refused {
    /// The number of the error's message, 1 to 28, 31 or 32; of several errors the one with the least is answered.
    pub fn number(&self) -> u32
        ensures { result ≡ number self.now }
    {
        match self {
            Refused::Long => 1,
            Refused::Syntax => 2,
            Refused::Cli => 3,
            Refused::Faulty(fault) => fault.number(),
            Refused::Hindered(obstacle) => obstacle.number(),
            Refused::UnknownName(_) => 14,
            Refused::UnknownLine { .. } => 15,
            Refused::FixedRegister(_) => 28,
            Refused::Unwatchable(_) => 31,
        }
    }
}

/// A register and its value; 32 is pc.
#[derive(Clone, Copy)]
pub struct Register {
    pub number: u32,
    pub value: u32,
}

/// Registers that contracts see as a list.
pub type RegisterList = ItemList<Register>;

/// A live thread, and the frame that it is stopped in; none where it runs.
#[derive(Drop)]
pub struct Thread {
    pub number: u32,
    pub stopped_at: Option<ShownFrame>,
}

/// Threads that contracts see as a list.
pub type ThreadList = ItemList<Thread>;

/// What is answered to a line, beside its token.
#[derive(Drop)]
pub enum Content {
    /// A line of blanks.
    Blank,
    /// Done, with nothing to show.
    Done,
    /// This breakpoint is set.
    Inserted(Breakpoint),
    /// The breakpoints and watches that are set.
    Breakpoints(RowList),
    /// The bytes that this text gave are watched, under this number.
    Watching {
        number: u32,
        text: ByteList,
    },
    /// These threads go on.
    Running(NumberList),
    /// This thread is selected.
    Selected(u32),
    /// The threads that were asked for, and the one that is selected.
    Threads {
        threads: ThreadList,
        selected: u32,
    },
    /// The live threads, and the one that is selected.
    ThreadNumbers {
        numbers: NumberList,
        selected: u32,
    },
    /// The frames of a thread, the innermost first.
    Frames(FrameList),
    /// How many frames a thread has: 1 to 64.
    Depth(u32),
    /// The innermost frame of a thread.
    Frame(ShownFrame),
    /// The variables of the innermost frame of a thread.
    Variables(VariableList),
    /// The names of all registers.
    RegisterNames,
    /// The registers that were asked for.
    Registers {
        format: Format,
        registers: RegisterList,
    },
    /// The bytes from an address on.
    Memory {
        address: u32,
        bytes: ByteList,
    },
    /// The value of an expression.
    Value {
        word: u32,
        unsigned: bool,
    },
    /// The value of a setting.
    Setting(Displaced),
    /// The session ends.
    Exit,
    /// The line is refused.
    Refused(Refused),
}

/// What is answered to a line.
#[derive(Drop)]
pub struct Reply {
    /// The line's token; a line without parts has none, but for one that is no command of the machine interface.
    pub token: Token,
    pub content: Content,
}

impl Reply {
    /// The number of the error that is answered; none where the line was done.
    pub fn refused(&self) -> Option<u32>
        ensures { result ≡ refused_number self.now.content }
    {
        match &self.content {
            Content::Refused(refused) => Some(refused.number()),
            _ => None,
        }
    }
}
