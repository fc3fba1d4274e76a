//! The one circuit of programs: what one machine that has all wires does for them.
#![tactic(auto)]

ghost use Rattle.std.specs.Prelude.{◌≡◌};
ghost use Rattle.qm_ideal.specs.declared.DrawnError.TheVariants as drawn;
ghost use Rattle.qm_ideal.specs.declared.MonoError.TheVariants.{Memory};

mod draw;
mod feed;
mod lanes;
pub mod laws;
mod meeting;
mod one_circuit;
mod run;
mod shapes;
mod steps;
mod tables;
mod width;

pub use draw::{Draw, Stop};
pub use meeting::rendezvous;
pub use one_circuit::{OneCircuit, mono, mono_with};
use std::alloc::AllocError;
use thiserror::Error;

/// Why programs have no one circuit.
#[derive(Clone, Copy, PartialEq, Eq, Debug, Error)]
pub enum MonoError {
    /// The run ends with instructions left; the number has the bit of each rank that has some.
    #[error("ranks wait for each other, those of the bits in {ranks}")]
    Waits { ranks: u16 },
    /// The allocator has no memory left.
    #[error("out of memory")]
    Memory,
}

/// Why programs whose outcomes are drawn have no one circuit.
#[derive(Clone, Copy, PartialEq, Eq, Debug, Error)]
pub enum DrawnError {
    /// A call on the draw answered this stop; the number is that of the letters taken.
    #[error("letter {at} isn't taken, or its outcome isn't drawn: {why:?}")]
    Stopped { at: u32, why: Stop },
    /// The allocator has no memory left.
    #[error("out of memory")]
    Memory,
}

impl From<AllocError> for DrawnError {
    ghost from_gives = { λ _ e. e ≡ drawn.Memory };

    fn from(_: AllocError) -> DrawnError {
        DrawnError::Memory
    }
}

impl From<AllocError> for MonoError {
    ghost from_gives = { λ _ e. e ≡ Memory };

    fn from(_: AllocError) -> MonoError {
        MonoError::Memory
    }
}
