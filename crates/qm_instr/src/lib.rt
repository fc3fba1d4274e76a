//! Instructions of the ranks, the lanes of their messages, and the programs of all ranks.
#![tactic(auto)]

pub mod bits;
mod counts;
mod messages;
mod programs;
mod ranks;

pub use counts::{event_count, own_count, protocol_count};
pub use messages::{receive_lane, send_lane};
pub use programs::Input;

/// A gate on one qubit.
#[derive(Clone, Copy, PartialEq, Eq, Debug)]
pub enum OneGate {
    X,
    Z,
    H,
    S,
    /// The inverse of `S`.
    Sdg,
    T,
    /// The inverse of `T`.
    Tdg,
}

/// A gate and the slots of its qubits, each below [`qm_limits::SLOTS`].
#[derive(Clone, Copy, PartialEq, Eq, Debug)]
pub enum Gate {
    /// The gate on the qubit in slot `q`.
    One { g: OneGate, q: u8 },
    /// Exchanges the branches of slot `t` where slot `c` is one.
    Cx { c: u8, t: u8 },
    /// Changes the sign where both slots are one.
    Cz { c: u8, t: u8 },
}

/// An instruction of a rank.
///
/// `q` and `t` are slots of the rank, below [`qm_limits::SLOTS`]; `b` and `c` are its classical bits, below [`qm_limits::BITS`]; `to`
/// and `from` are the rank at the other end of a message, and `tag` tells messages between the same ranks apart.
#[derive(Clone, Copy, PartialEq, Eq, Debug)]
pub enum Instr {
    /// A fresh qubit, which is zero, into an empty slot.
    Alloc { q: u8 },
    /// Gives up a qubit that is zero.
    Free { q: u8 },
    /// Does the gate.
    Do { g: Gate },
    /// Projects a qubit on the next outcome of the own tape, which goes into bit `b`.
    Measure { q: u8, b: u8 },
    /// Bit `b` becomes `v`.
    Set { b: u8, v: bool },
    /// Adds bit `c` to bit `b`, without carry.
    Xor { b: u8, c: u8 },
    /// Does the gate where bit `b` is one.
    When { b: u8, g: Gate },
    /// Sends bit `b`.
    SendBit { b: u8, to: u16, tag: u16 },
    /// Receives a bit, which goes into bit `b`.
    RecvBit { b: u8, from: u16, tag: u16 },
    /// Sends an entangled copy of a qubit, which stays.
    CopyTo { q: u8, to: u16, tag: u16 },
    /// Receives a copy, which goes into an empty slot.
    CopyFrom { q: u8, from: u16, tag: u16 },
    /// Gives up a copy, at the rank that holds it; `to` is the rank of the source.
    UndoTo { q: u8, to: u16, tag: u16 },
    /// Takes a copy back, at the rank of its source; `from` is the rank that gives it up.
    UndoFrom { q: u8, from: u16, tag: u16 },
    /// Teleports a qubit.
    MoveTo { q: u8, to: u16, tag: u16 },
    /// Receives a qubit, which goes into an empty slot.
    MoveFrom { q: u8, from: u16, tag: u16 },
    /// Lends a qubit as the control of a controlled-not at another rank.
    ReachTo { q: u8, to: u16, tag: u16 },
    /// The controlled-not on target `t` under a control of another rank.
    ReachFrom { t: u8, from: u16, tag: u16 },
}

/// What a lane carries, in the order of lanes.
#[derive(Clone, Copy, PartialEq, Eq, PartialOrd, Ord, Debug)]
pub enum Kind {
    Bit,
    Copy,
    Move,
    /// From the rank that holds a copy to the rank of its source.
    Undo,
    Reach,
    /// The answer to a reach.
    Back,
}

/// The queue of the messages of one kind and tag from one rank to another. Lanes are ordered by their fields.
#[derive(Clone, Copy, PartialEq, Eq, PartialOrd, Ord, Debug)]
pub struct Lane {
    pub from: u16,
    pub to: u16,
    pub kind: Kind,
    pub tag: u16,
}

impl Lane {
    ghost use Rattle.std.specs.Prelude.{◌≡◌};
    ghost use Rattle.qm_instr.specs.Lanes.{lane};

    /// The lane of these messages.
    pub fn new(from: u16, to: u16, kind: Kind, tag: u16) -> Lane
        ensures { result ≡ lane from to kind tag }
    {
        Lane {
            from,
            to,
            kind,
            tag,
        }
    }
}
