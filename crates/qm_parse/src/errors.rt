//! Why a text has no source tree.
ghost use Rattle.std.specs.Prelude.{◌≡◌};
ghost use Rattle.qm_parse.specs.declared.errors.ParseError.TheVariants.{Memory};

use std::alloc::AllocError;
use thiserror::Error;

/// The first token at which the grammar can't go on, by its line.
#[derive(Clone, Copy, Debug, PartialEq, Eq, Error)]
pub enum ParseError {
    /// It may not stand there, or it is a number outside the range of its place.
    #[error("line {line}: a token that may not stand there")]
    Unexpected { line: u32 },
    /// It is a number above [`qm_limits::LARGEST_VALUE`] where a number may stand.
    #[error("line {line}: a number that is too large")]
    NumberTooLarge { line: u32 },
    /// It is a `{` or a `(` where one may stand, but [`qm_limits::MOST_OPEN`] are open.
    #[error("line {line}: too many open braces and parentheses")]
    TooDeep { line: u32 },
    /// The text ends before the program does. Its line is one more than the text's line feeds.
    #[error("line {line}: the text ends too early")]
    Unended { line: u32 },
    /// The allocator has no memory left.
    #[error("out of memory")]
    Memory,
}

impl From<AllocError> for ParseError {
    ghost from_gives = { λ _ e. e ≡ Memory };

    fn from(_error: AllocError) -> ParseError {
        ParseError::Memory
    }
}
