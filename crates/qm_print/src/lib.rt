//! The texts that commands write. Each is gathered on a page of fixed size, and no call takes memory.
//!
//! Every call writes all of its text and leaves the sink's count of faults as it was, or answers `Failed`: then the sink has taken a
//! front of the text, and its count rose.
#![tactic(auto)]

mod blocks;
mod branch;
mod check;
mod circuit;
mod fault;
mod job;
mod lines;
mod page;
mod state;

pub use blocks::{event_name, put_trace, put_turns, turns_law};
pub use check::put_check;
pub use circuit::put_circuit;
pub use fault::put_fault;
pub use job::{put_bytes, put_job};
use qm_check::Fault;
use qm_denot::Wire;
use qm_limits::MOST_RANKS;
use qm_proto::Cause;
pub use state::{count_lines, put_state};

/// How many ranks there may be, as the length of a list.
pub const RANKS: usize = MOST_RANKS as usize;

/// What a state text says before its full slots.
#[derive(Clone, Copy)]
pub struct Head {
    /// How many ranks there are, at most [`MOST_RANKS`].
    pub ranks: u16,
    /// How many outcomes are taken from all protocol tapes.
    pub protocol: u64,
    /// The exponent of root2 under the amplitudes.
    pub scale: u64,
    /// For each rank the sum of 2^i over its classical bits that are 1.
    pub bits: [u32; RANKS],
}

/// A full qubit slot of a rank, and the wire in it.
#[derive(Clone, Copy)]
pub struct Live {
    pub rank: u16,
    pub slot: u8,
    pub wire: Wire,
}

/// What a job text says of a run.
#[derive(Clone, Copy)]
pub struct JobNumbers {
    /// The size of the made program.
    pub size: u32,
    /// The number that it was made from.
    pub number: u64,
    /// The length of the schedule.
    pub events: u64,
    /// How many outcomes are taken from all protocol tapes.
    pub protocol: u64,
    /// The exponent of root2 under the amplitudes.
    pub scale: u64,
    /// How many amplitude lines the state text has.
    pub lines: u64,
}

/// Why there is no text: what a refusal, a stop or another end has to say.
///
/// `line` counts the lines of a program text from 1.
#[derive(Clone, Copy, PartialEq, Eq, Debug)]
pub enum FaultLine {
    /// The words are no command.
    Usage,
    /// A read failed.
    ReadFault,
    /// The text has more than [`qm_limits::MOST_BYTES`] bytes.
    TooLong,
    BadByte { line: u32 },
    Unexpected { line: u32 },
    NumberTooLarge { line: u32 },
    TooDeep { line: u32 },
    Unended { line: u32 },
    UnknownName { line: u32 },
    OutOfRange { line: u32 },
    TooMany { line: u32 },
    /// The check found a fault, whose lane, if it names one, carries no answers.
    Unready { fault: Fault },
    /// A run stopped at a rank after so many turns.
    Stopped { rank: u32, turns: u64, cause: Cause },
    /// Ranks have instructions left; the number has the bit of each.
    Waits { ranks: u16 },
    /// A circuit's width is above [`qm_limits::MOST_CAPACITY_1`] in version 1, above [`qm_limits::MOST_CAPACITY`] in version 2.
    Wide { width: u32 },
    /// The letter of this number, from 0, leaves the range.
    LetterOverflow { at: u32 },
}
