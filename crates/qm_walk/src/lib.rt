//! A walk over a schedule: each event with what it waits for and does with parcels. No store, no tape and no bit is asked.
#![tactic(auto)]

mod notes;
mod walk;

use qm_instr::Lane;
use qm_proto::Event;

/// What an event waits for and does with parcels.
#[derive(Clone, Copy)]
pub struct Note {
    pub rank: u16,
    pub event: Event,
    /// The receiver of a pair, or the rank of the source of a copy that is given up.
    pub partner: Option<u16>,
    /// The lane on which it puts a parcel.
    pub put: Option<Lane>,
    /// The lane on whose last parcel it writes the bits.
    pub given: Option<Lane>,
    /// The lane from which it takes the front parcel.
    pub taken: Option<Lane>,
}

/// Where a rank stands: the number of its next instruction, and how many events of that instruction it has had.
#[derive(Clone, Copy)]
pub struct Place {
    pub at: u32,
    pub stage: u32,
}

pub use walk::Walk;
