//! The faults of the tapes.
ghost use Rattle.std.specs.Prelude.{◌≡◌, ◌<◌, ◌≤◌, true, false, length};
ghost use Rattle.std.specs.Option.{option_or};
ghost use Rattle.qm_instr.specs.Programs.{rank_of};
ghost use Rattle.qm_check.specs.Tapes.{length_fault, tape_fault};
ghost use Rattle.qm_check.specs.Totals.{totals_of, HasFew};

use crate::{Fault, Totals};
use qm_instr::Input;
use qm_limits::{MOST_OUTCOMES, MOST_PROTOCOL};

/// The fault of a tape of which so many outcomes are needed.
fn fault_of_length(rank: u16, own: bool, needs: u64, tape: &[bool]) -> Option<Fault>
    requires needs { needs ≤ MOST_PROTOCOL }
    requires has { length tape.now ≤ MOST_OUTCOMES }
    ensures { result ≡ length_fault rank own needs (length tape.now) }
{
    let needs = needs as u32;
    let has = tape.len() as u32;
    (needs != has).then_some(Fault::TapeLength {
        rank,
        own,
        needs,
        has,
    })
}

/// The fault of a rank's own tape, else that of its protocol tape, by what its instructions take from them.
pub(crate) fn fault_of_tapes(input: &Input, rank: u16, takes: Totals) -> Option<Fault>
    requires known { rank < length input.now.ranks }
    requires takes { takes ≡ totals_of (rank_of input.now rank).instructions }
    requires few { HasFew takes }
    ensures { result ≡ option_or (tape_fault input.now rank true)
        (tape_fault input.now rank false) }
{
    let own = fault_of_length(rank, true, takes.own, input.own(rank));
    own.or(fault_of_length(rank, false, takes.protocol, input.protocol(rank)))
}
