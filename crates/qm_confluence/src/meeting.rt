//! Ranks that wait for each other: which programs never get stuck, and what a complete schedule leaves on the lanes.

ghost use Rattle.qm_confluence.specs.Stuck.LanesEmpty.{LanesEmptyLaw};
ghost use Rattle.qm_confluence.specs.Stuck.NeverStuck.{NeverStuckLaw};
ghost use Rattle.qm_confluence.specs.Stuck.Rendezvous.{RendezvousLaw};

/// Where the rendezvous run of programs ends, no state of a legal schedule is stuck, and a legal schedule after which no rank is
/// enabled is complete. It is so for every size of the buffers, since a run can only go further than the rendezvous run.
pub fn never_stuck_law()
    ensures { NeverStuckLaw }
{}

/// A complete schedule of programs without a fault leaves no parcel on any lane.
pub fn lanes_empty_law()
    ensures { LanesEmptyLaw }
{}

/// Programs have one rendezvous run. It leaves no rank an event, or stops where some rank has one and none is enabled.
pub fn rendezvous_law()
    ensures { RendezvousLaw }
{}
