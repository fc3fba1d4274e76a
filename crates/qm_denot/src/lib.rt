//! Circuits of Clifford+T letters, their amplitudes, and the stores that stand for them.
#![tactic(auto)]

mod amps;
pub mod laws;
mod plain;
mod worked;

pub use amps::{Amps, Overflow};
pub use plain::PlainAmps;
pub use plain::branches::{any_unequal, any_with};
pub use plain::places::{bit_at, power};
pub use plain::wires::{index_at, place_of};

/// A qubit's name: the rank that made it, its number among the wires of that rank, and which half of an EPR pair it is.
///
/// The wire of an allocated qubit counts as a far half.
#[derive(Clone, Copy, PartialEq, Eq, PartialOrd, Ord, Debug)]
pub struct Wire {
    pub rank: u16,
    pub made: u32,
    pub near: bool,
}

/// A parcel of a lane: the wire that it carries, if it does, and its two bits, once it has them.
#[derive(Clone, Copy, PartialEq, Eq, Debug)]
pub struct Parcel {
    pub wire: Option<Wire>,
    pub bits: Option<(bool, bool)>,
}

/// A letter of a circuit: one of the nine steps of which all programs are made.
#[derive(Clone, Copy, PartialEq, Eq, Debug)]
pub enum Letter {
    /// Multiplies the 1-branch of `w` by `omega^k`, with `k` below 8.
    Phase { k: u8, w: Wire },
    /// Exchanges the branches of `w`.
    Flip { w: Wire },
    /// The Hadamard gate, without its division by root2.
    Had { w: Wire },
    /// Exchanges the branches of `t` where `c` is one.
    Cx { c: Wire, t: Wire },
    /// Changes the sign where both wires are one.
    Cz { c: Wire, t: Wire },
    /// Prepares two fresh wires as an EPR pair, without the division by root2.
    Pair { a: Wire, b: Wire },
    /// Projects `w` on `m`, without renormalising; the wire stays.
    Keep { w: Wire, m: bool },
    /// Projects `w` on `m`, and gives the wire up.
    Take { w: Wire, m: bool },
    /// Calls the wire `a` by the name `b`.
    Rename { a: Wire, b: Wire },
}
