//! What the seats of a desk's table know. No value of these types is made: they exist in proofs alone.
use std::collections::LinkedList;

/// The most passes that a desk has.
pub const MOST_SEATS: u32 = 16;

/// What is known of one pass: its number, how many entries it has added, and the list that it has seen.
pub(crate) struct Tally {
    pub(crate) number: u32,
    pub(crate) count: u64,
    pub(crate) seen: LinkedList<u32>,
}

/// How far a seat has come in a turn. Tickets count from 0 on, and not modulo 2^64.
pub(crate) enum Stage {
    /// It has no ticket.
    Idle,
    /// It has this ticket, which isn't served yet.
    Waiting(u64),
    /// It has this ticket and the slot.
    Served(u64),
}

/// What a seat knows: the value that the desk began with, its stage, and tallies.
///
/// The seat of a pass has one tally, its own. The table's first seat has those of the passes that are not yet made, and at the end those
/// of the passes that were taken in.
pub(crate) struct View<V> {
    pub(crate) start: Option<V>,
    pub(crate) tallies: LinkedList<Tally>,
    pub(crate) stage: Stage,
}
