// How a session ends.
ghost use Rattle.std.specs.Prelude.{◌≡◌};
ghost use Rattle.session_parts.specs.Numbers.{status_number};

use elf_checks::ElfFault;

#[derive(Clone, Copy, Debug)]
pub enum Status {
    Done,
    Words,
    File(ElfFault),
    Budget,
    History,
    ReadFault,
    WriteFault,
    NoMemory,
    /// A text that was checked isn't the record of a lawful session.
    Rejected,
}

impl Status {
    /// The exit status of a program that ends so, 0 to 8.
    pub fn number(self) -> u8
        ensures { result ≡ status_number self }
    {
        match self {
            Status::Done => 0,
            Status::Words => 1,
            Status::File(_) => 2,
            Status::Budget => 3,
            Status::History => 4,
            Status::ReadFault => 5,
            Status::WriteFault => 6,
            Status::NoMemory => 7,
            Status::Rejected => 8,
        }
    }
}
