//! How a command ends.
ghost use Rattle.std.specs.Prelude.{◌≡◌};
ghost use Rattle.qm_tool.specs.Statuses.{code_of, status_of_fault};

use qm_print::FaultLine;

/// How a command ended.
#[derive(Clone, Copy, PartialEq, Eq, Debug)]
pub enum Status {
    /// The text that was due is written.
    Ok,
    /// The words are no command.
    Usage,
    /// A read failed.
    ReadFault,
    /// The source gave more bytes than a text may have.
    TooLong,
    /// The text is no program that may run.
    Refused,
    /// The run came to an event that is refused, or to a state in which every rank that is left waits.
    Stopped,
    /// A write or the flush failed.
    WriteFault,
    /// No memory was left; nothing is written.
    OutOfMemory,
    /// The programs have no one circuit, since ranks wait for each other.
    Waits,
    /// The one circuit has more wires at once than programs of the version may have.
    Wide,
    /// A letter of the one circuit leaves the range of the numbers.
    LetterOverflow,
}

impl Status {
    /// The status of a command that wrote this line.
    pub(crate) fn of_fault(fault: &FaultLine) -> Status
        ensures { result ≡ status_of_fault fault.now }
    {
        match fault {
            FaultLine::Usage => Status::Usage,
            FaultLine::ReadFault => Status::ReadFault,
            FaultLine::TooLong => Status::TooLong,
            FaultLine::Stopped { .. } => Status::Stopped,
            FaultLine::Waits { .. } => Status::Waits,
            FaultLine::Wide { .. } => Status::Wide,
            FaultLine::LetterOverflow { .. } => Status::LetterOverflow,
            _ => Status::Refused,
        }
    }

    /// The exit status of the process.
    pub fn code(self) -> u8
        ensures { result ≡ code_of self }
    {
        match self {
            Status::Ok => 0,
            Status::Usage => 2,
            Status::ReadFault => 3,
            Status::TooLong => 4,
            Status::Refused => 5,
            Status::Stopped => 6,
            Status::WriteFault => 7,
            Status::OutOfMemory => 8,
            Status::Waits => 9,
            Status::Wide => 10,
            Status::LetterOverflow => 11,
        }
    }
}
