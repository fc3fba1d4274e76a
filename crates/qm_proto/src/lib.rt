//! The quantum messages: what their protocols do to a circuit, the events in which instructions are done, and the model of a run.
//!
//! The model is a matter of specs alone (`specs/Model`): the state of a run, the table of the events, and which schedules are legal.
#![tactic(auto)]

mod events;
pub mod laws;
mod letters;
mod worked;

pub use events::{has_event_after, next_event};
pub use letters::gate_letter;
pub use qm_denot::Parcel;
use qm_denot::{Letter, Wire};
use qm_instr::Lane;

/// What stands for the wire of an empty slot, or of a parcel that carries none.
pub const NO_WIRE: Wire = Wire {
    rank: 0,
    made: 0,
    near: false,
};

/// One event of a run: the steps in which an instruction is done.
#[derive(Clone, Copy, PartialEq, Eq, Debug)]
pub enum Event {
    Alloc,
    Gate,
    Free,
    Measure,
    Set,
    Xor,
    When,
    SendBit,
    RecvBit,
    /// An EPR pair is prepared: the near half here, the far half at the receiver.
    Pair,
    /// A controlled-not onto or from a half.
    Cross,
    Had,
    /// The near half of a move is measured.
    Near,
    /// The last measurement of a message, whose outcomes go out.
    Post,
    /// A copy and its source are tested for equality, before the copy is given up.
    Test,
    /// The front parcel of a lane is taken.
    Deliver,
    /// The correction by an exchange of branches.
    FixX,
    /// The correction by a change of sign.
    FixZ,
}

/// Why a run is halted.
#[derive(Clone, Copy, PartialEq, Eq, Debug)]
pub enum Cause {
    /// A component of a Hadamard's unreduced result leaves the range of the numbers.
    Overflow,
    /// The outcome of a measurement can't be.
    Impossible,
    /// A qubit that is given up isn't zero.
    NotZero,
    /// A copy that is given up differs from its source.
    NotEqual,
    /// Some rank has events left, and none may have its next one.
    Stuck,
}

/// What an event waits for.
#[derive(Clone, Copy)]
pub enum Rule {
    /// Nothing.
    Always,
    /// The lane's receiver has room for two more halves; or for one, and stands at the first event of a receive of the lane, which is
    /// empty.
    PairRoom { lane: Lane },
    /// The lane's receiver stands at the first event of a receive of it, and the lane is empty.
    Engaged { lane: Lane },
    /// The lane's front parcel has its bits.
    Filled { lane: Lane },
}

/// At most three things, in their order.
#[derive(Clone, Copy)]
pub enum Few<T> {
    Empty,
    One(T),
    Two(T, T),
    Three(T, T, T),
}

/// One act of a rank: the steps of which events are made.
#[derive(Clone, Copy)]
pub enum Act {
    /// A fresh wire goes into slot `q`.
    Fresh { q: u8 },
    /// An EPR pair: the near half here, the far half at rank `to`.
    Twin { to: u16 },
    /// A letter that moves no wire.
    Apply { letter: Letter },
    /// The wire in slot `q` is measured away with outcome `m`.
    SlotOut { q: u8, m: bool },
    /// The near half made last is measured away with outcome `m`.
    NearOut { m: bool },
    /// The far half `f` is measured away with outcome `m`.
    FarOut { f: Wire, m: bool },
    /// The far half `f` goes into slot `q`, and is no half any more.
    Settle { f: Wire, q: u8 },
    /// A parcel goes to the end of a lane.
    Posts { lane: Lane, parcel: Parcel },
    /// The last parcel of a lane gets its bits.
    Fills { lane: Lane, bits: (bool, bool) },
    /// The front parcel of a lane is taken.
    Receives { lane: Lane },
    /// An outcome of the own tape is used.
    OwnUsed,
    /// An outcome of the protocol tape is used.
    ProtocolUsed,
    /// The first outcome of a move is kept for its end.
    FirstKept { m: bool },
    /// Bit `b` becomes `v`.
    BitSet { b: u8, v: bool },
}

/// A test of an event: where it fails, the event is refused.
#[derive(Clone, Copy)]
pub enum Check {
    /// `w` can be `m`.
    Possible { w: Wire, m: bool },
    /// `w` is zero.
    Zero { w: Wire },
    /// `w` equals `v`.
    Equal { w: Wire, v: Wire },
    /// The numbers after a `Had` of `w` fit.
    Fits { w: Wire },
}

/// A line of the table of the events: the event, what it waits for, its tests in the order in which they count, and its acts in their
/// order.
#[derive(Clone, Copy)]
pub struct Row {
    pub event: Event,
    pub rule: Rule,
    pub checks: Few<Check>,
    pub acts: Few<Act>,
}
