//! Why a command has no text of its own.
ghost use Rattle.qm_tool.specs.declared.refusal.Refusal.TheVariants.{Line, Memory};
ghost use Rattle.std.specs.Prelude.{◌≡◌};
ghost use Rattle.qm_tool.specs.Refusals.{check_refusal, mono_refusal, reading_refusal, text_refusal};
ghost use Rattle.qm_print.specs.declared.FaultLine.TheVariants.{LetterOverflow};

use qm_check::CheckError;
use qm_eval::LetterOverflow;
use qm_expand::ReadError;
use qm_ideal::MonoError;
use qm_io::TextError;
use qm_print::FaultLine;
use std::alloc::AllocError;

/// Why a command has no text of its own.
#[derive(Clone, Copy)]
pub(crate) enum Refusal {
    /// This line is written in its place.
    Line { fault: FaultLine },
    /// The allocator has no memory left; nothing is written.
    Memory,
}

impl From<AllocError> for Refusal {
    ghost from_gives = { λ _ r. r ≡ Memory };

    fn from(_: AllocError) -> Refusal {
        Refusal::Memory
    }
}

impl From<TextError> for Refusal {
    ghost from_gives = { λ e r. r ≡ text_refusal e };

    fn from(error: TextError) -> Refusal {
        let fault = match error {
            TextError::ReadFault => FaultLine::ReadFault,
            TextError::TooLong => FaultLine::TooLong,
            TextError::Memory => return Refusal::Memory,
        };
        Refusal::Line { fault }
    }
}

impl From<ReadError> for Refusal {
    ghost from_gives = { λ e r. r ≡ reading_refusal e };

    fn from(error: ReadError) -> Refusal {
        let fault = match error {
            ReadError::BadByte { line } => FaultLine::BadByte { line },
            ReadError::Unexpected { line } => FaultLine::Unexpected { line },
            ReadError::NumberTooLarge { line } => FaultLine::NumberTooLarge { line },
            ReadError::TooDeep { line } => FaultLine::TooDeep { line },
            ReadError::Unended { line } => FaultLine::Unended { line },
            ReadError::UnknownName { line } => FaultLine::UnknownName { line },
            ReadError::OutOfRange { line } => FaultLine::OutOfRange { line },
            ReadError::TooMany { line } => FaultLine::TooMany { line },
            ReadError::Memory => return Refusal::Memory,
        };
        Refusal::Line { fault }
    }
}

impl From<CheckError> for Refusal {
    ghost from_gives = { λ e r. r ≡ check_refusal e };

    fn from(error: CheckError) -> Refusal {
        match error {
            CheckError::Fault { fault } => Refusal::Line {
                fault: FaultLine::Unready { fault },
            },
            CheckError::Memory => Refusal::Memory,
        }
    }
}

impl From<MonoError> for Refusal {
    ghost from_gives = { λ e r. r ≡ mono_refusal e };

    fn from(error: MonoError) -> Refusal {
        match error {
            MonoError::Waits { ranks } => Refusal::Line {
                fault: FaultLine::Waits { ranks },
            },
            MonoError::Memory => Refusal::Memory,
        }
    }
}

impl From<LetterOverflow> for Refusal {
    ghost from_gives = { λ e r. r ≡ Line (LetterOverflow e.at) };

    fn from(error: LetterOverflow) -> Refusal {
        Refusal::Line {
            fault: FaultLine::LetterOverflow { at: error.at },
        }
    }
}
