//! How many messages each lane has, and lanes on which sends and receives don't match.
ghost use Rattle.std.specs.Prelude.{◌≡◌, ◌*◌, ◌<◌, ◌≤◌, length, IfOk, OnOk};
ghost use Rattle.std.specs.BTreeMap.{IsOrdered};
ghost use Rattle.qm_instr.specs.Programs.{rank_of};
ghost use Rattle.qm_instr.specs.Lanes.{code_order};
ghost use Rattle.qm_check.specs.Messages.{post_lane, match_fault};
ghost use Rattle.qm_check.specs.Tallies.{tally, tally_in, plus, plus_at, rank_tally, lane_tally, plus_instruction, IsAtMost, first_mismatch, sends_listed};

use crate::{Fault, LaneCount};
use qm_instr::{Input, Instr, Kind, Lane, receive_lane, send_lane};
use qm_limits::MOST_INSTRUCTIONS;
use std::alloc::{AllocError, Global};
use std::collections::BTreeMap;

/// How many messages a lane has.
#[derive(Clone, Copy)]
pub(crate) struct Tally {
    pub(crate) sends: u32,
    pub(crate) receives: u32,
}

impl Tally {
    /// No message.
    const NONE: Tally = Tally {
        sends: 0,
        receives: 0,
    };

    /// One message sent.
    const SEND: Tally = Tally {
        sends: 1,
        receives: 0,
    };

    /// One message received.
    const RECEIVE: Tally = Tally {
        sends: 0,
        receives: 1,
    };
}

/// The tallies of the lanes that have messages.
pub(crate) type Tallies = BTreeMap<Lane, Tally>;

/// The lane on which an instruction of a rank posts: that of its send, or of its answer to a reach.
fn posted_lane(rank: u16, i: Instr) -> Option<Lane>
    ensures { result ≡ post_lane rank i }
{
    match i {
        Instr::ReachFrom { from, tag, .. } => Some(Lane::new(rank, from, Kind::Back, tag)),
        _ => send_lane(rank, i),
    }
}

/// Adds a message to the tally of its lane, if it has one.
fn note_message(tallies: &mut Tallies, on: Option<Lane>, more: Tally) -> Result<(), AllocError>
    requires few { (a : Lane) → IsAtMost (10 * MOST_INSTRUCTIONS) (tally_in tallies.old a) }
    requires one_more { IsAtMost 1 more }
    ensures { OnOk result
        ((a : Lane) → tally_in tallies.new a ≡ plus_at on more a (tally_in tallies.old a)) }
{
    let Some(lane) = on else {
        return Ok(());
    };
    let had = tallies.get(&lane).copied().unwrap_or(Tally::NONE);
    let now = Tally {
        sends: had.sends + more.sends,
        receives: had.receives + more.receives,
    };
    tallies.insert(lane, now)?;
    Ok(())
}

/// Adds the messages of an instruction of a rank.
pub(crate) fn note_instruction(tallies: &mut Tallies, rank: u16, i: Instr) -> Result<(), AllocError>
    requires { (a : Lane) → IsAtMost (9 * MOST_INSTRUCTIONS) (tally_in tallies.old a) }
    ensures { OnOk result
        ((a : Lane) → tally_in tallies.new a ≡ plus_instruction rank i a (tally_in tallies.old a)) }
{
    note_message(tallies, posted_lane(rank, i), Tally::SEND)?;
    note_message(tallies, receive_lane(rank, i), Tally::RECEIVE)?;
    Ok(())
}

/// The fault of a lane with this tally. Lanes that carry answers have none.
fn fault_of_tally(lane: Lane, tally: Tally) -> Option<Fault>
    ensures { result ≡ match_fault lane tally.sends tally.receives }
{
    let Tally { sends, receives } = tally;
    if matches!(lane.kind, Kind::Back) || sends == receives {
        return None;
    }
    Some(Fault::UnmatchedLane {
        lane,
        sends,
        receives,
    })
}

/// The fault of the lowest lane that has one.
pub(crate) fn fault_of_lanes(tallies: &Tallies) -> Option<Fault>
    ensures ordered { IsOrdered code_order tallies.now }
    ensures value { result ≡ first_mismatch tallies.now.entries }
{
    for (lane, tally) in tallies {
        let fault = fault_of_tally(*lane, *tally);
        if fault.is_some() {
            return fault;
        }
    }
    None
}

/// The lanes on which messages are posted, in their order, and how many.
pub(crate) fn send_counts(alloc: Global, tallies: &Tallies) -> Result<Vec<LaneCount>, AllocError>
    ensures ordered { IsOrdered code_order tallies.now }
    ensures value { IfOk result (λ v. v.items ≡ sends_listed tallies.now.entries) }
{
    let mut counts = Vec::new(alloc);
    for (lane, tally) in tallies {
        if tally.sends > 0 {
            counts.push(LaneCount {
                lane: *lane,
                sends: tally.sends,
            })?;
        }
    }
    Ok(counts)
}
