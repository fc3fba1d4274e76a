//! Program texts, read to the programs of all ranks.
#![tactic(auto)]

mod draft;
mod head;
mod joint;
mod laws;
mod made;
mod operands;
mod program;
mod ranges;
mod reading;
mod values;
mod walk;
mod words;

pub use joint::Joint;
pub use laws::{one_reading, same_sizes_law, some_reading};
pub use made::Operation;
pub use reading::read;
use thiserror::Error;

/// Why a text has no programs: the first fault of all, by its line.
#[derive(Clone, Copy, Debug, PartialEq, Eq, Error)]
pub enum ReadError {
    /// A byte with which no token begins, outside comments.
    #[error("line {line}: a byte that may not stand there")]
    BadByte { line: u32 },
    /// A token that may not stand there, or a number outside the range of its place.
    #[error("line {line}: a token that may not stand there")]
    Unexpected { line: u32 },
    /// A number above [`qm_limits::LARGEST_VALUE`] where a number may stand.
    #[error("line {line}: a number that is too large")]
    NumberTooLarge { line: u32 },
    /// A `{` or a `(` where one may stand, but [`qm_limits::MOST_OPEN`] are open.
    #[error("line {line}: too many open braces and parentheses")]
    TooDeep { line: u32 },
    /// The text ends before the program does. Its line is one more than the text's line feeds.
    #[error("line {line}: the text ends too early")]
    Unended { line: u32 },
    /// A name that no loop around it has.
    #[error("line {line}: a name that no loop has")]
    UnknownName { line: u32 },
    /// An intermediate result of a size above [`qm_limits::LARGEST_VALUE`], a division by zero, or an operand outside its range.
    #[error("line {line}: a value outside its range")]
    OutOfRange { line: u32 },
    /// An instruction after [`qm_limits::MOST_INSTRUCTIONS`] of all ranks, or a turn of a loop after [`qm_limits::MOST_TURNS`].
    #[error("line {line}: too many instructions or turns of loops")]
    TooMany { line: u32 },
    /// The allocator has no memory left.
    #[error("out of memory")]
    Memory,
}
