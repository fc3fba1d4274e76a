//! The check of the programs of all ranks before they run: ready, or the first fault.
#![tactic(auto)]

mod checking;
mod counting;
mod messages;
mod operands;
mod reading;
mod slots;
mod tapes;

pub use checking::{Ready, check};
use qm_instr::Lane;
use std::alloc::AllocError;
use thiserror::Error;

/// A fault of the programs. `at` counts a rank's instructions from 0.
#[derive(Clone, Copy, PartialEq, Eq, Debug, Error)]
pub enum Fault {
    /// The slots and buffers of all ranks are too many together: above [`qm_limits::MOST_CAPACITY_1`] in version 1, above
    /// [`qm_limits::MOST_CAPACITY`] in version 2.
    #[error("the slots and buffers of all ranks hold {capacity} wires, too many together")]
    TooWide {
        capacity: u32,
    },
    /// An instruction names a rank that there isn't.
    #[error("rank {rank}, instruction {at}: there is no such rank")]
    BadRank {
        rank: u16,
        at: u32,
    },
    /// An instruction names its own rank.
    #[error("rank {rank}, instruction {at}: a message to the rank itself")]
    SelfMessage {
        rank: u16,
        at: u32,
    },
    /// A gate on two qubits has one slot twice.
    #[error("rank {rank}, instruction {at}: one slot twice")]
    SameSlot {
        rank: u16,
        at: u32,
    },
    /// A slot that must be full is empty.
    #[error("rank {rank}, instruction {at}: an empty slot")]
    SlotEmpty {
        rank: u16,
        at: u32,
    },
    /// A slot that must be empty is full.
    #[error("rank {rank}, instruction {at}: a full slot")]
    SlotFull {
        rank: u16,
        at: u32,
    },
    /// A lane has more sends than receives, or fewer.
    #[error("lane {kind:?} from rank {from} to rank {to} with tag {tag}: {sends} sends, {receives} receives", kind = .lane.kind, from = .lane.from, to = .lane.to, tag = .lane.tag)]
    UnmatchedLane {
        lane: Lane,
        sends: u32,
        receives: u32,
    },
    /// A rank's own tape, or its protocol tape, hasn't as many outcomes as the rank takes from it.
    #[error("rank {rank}, {tape} tape: {has} outcomes, {needs} needed", tape = if *.own {"own"} else {"protocol"})]
    TapeLength {
        rank: u16,
        own: bool,
        needs: u32,
        has: u32,
    },
}

/// Why programs aren't ready.
#[derive(Clone, Copy, PartialEq, Eq, Debug, Error)]
pub enum CheckError {
    /// The programs have a fault, of which this is the first one.
    #[error("{fault}")]
    Fault { fault: Fault },
    /// The allocator has no memory left.
    #[error("out of memory")]
    Memory,
}

impl From<AllocError> for CheckError {
    ghost use Rattle.std.specs.Prelude.{◌≡◌};
    ghost use Rattle.qm_check.specs.declared.CheckError.TheVariants.{Memory};

    ghost from_gives = { λ _ e. e ≡ Memory };

    fn from(_e: AllocError) -> CheckError {
        CheckError::Memory
    }
}

/// How many messages are posted on a lane.
#[derive(Clone, Copy, PartialEq, Eq)]
pub struct LaneCount {
    pub lane: Lane,
    pub sends: u32,
}

/// What an instruction does with its slots.
#[derive(Clone, Copy)]
pub enum Uses {
    /// It has none.
    Nothing,
    /// Its slot must be empty, and is full afterwards.
    Fills { q: u8 },
    /// Its slot must be full, and stays so.
    Keeps { q: u8 },
    /// Its slot must be full, and is empty afterwards.
    Empties { q: u8 },
    /// Its two slots must differ and be full, and stay so.
    Joins { c: u8, t: u8 },
}

/// How many events many instructions have, and how many outcomes they take from the protocol tapes and the own tapes.
#[derive(Clone, Copy)]
pub struct Totals {
    pub events: u64,
    pub protocol: u64,
    pub own: u64,
}
