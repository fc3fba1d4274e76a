//! One pass over the instructions of all ranks, in which the check reads all that it needs of them.
ghost use Rattle.std.specs.Prelude.{◌≡◌, ◌<◌, ◌≤◌, ℕ, length, false, slice_index_or, IfOk, OnOk};
ghost use Rattle.qm_instr.specs.Programs.{rank_of};
ghost use Rattle.qm_check.specs.Faults.{IsFirst, IsBelow};
ghost use Rattle.qm_check.specs.Readings.{IsReading};
ghost use Rattle.qm_check.specs.Slots.{step_fault};
ghost use Rattle.qm_check.specs.Tallies.{tally_in, plus, rank_tally, IsAtMost};
ghost use Rattle.qm_check.specs.Totals.{totals_of, HasFew};

use crate::messages::{Tallies, note_instruction};
use crate::operands::slot_uses;
use crate::slots::{EMPTY, fault_of_instruction, note_slots};
use crate::tapes::fault_of_tapes;
use crate::{Fault, Totals};
use qm_instr::{Input, Lane};
use qm_limits::MOST_INSTRUCTIONS;
use std::alloc::{AllocError, Global};
use std::collections::BTreeMap;

/// What the instructions of one rank say, but for its messages: the rank's first fault, and its totals.
#[derive(Clone, Copy)]
pub(crate) struct RankReading {
    pub(crate) fault: Option<Fault>,
    pub(crate) totals: Totals,
}

/// What the instructions of all ranks say: the tallies of the lanes, the first fault of an instruction, the first one of a tape, and
/// the totals.
#[derive(Drop)]
pub(crate) struct Reading {
    pub(crate) tallies: Tallies,
    pub(crate) step: Option<Fault>,
    pub(crate) tape: Option<Fault>,
    pub(crate) totals: Totals,
}

/// Reads a rank's instructions one after another, and adds their messages to the tallies.
fn read_rank(tallies: &mut Tallies, input: &Input, rank: u16) -> Result<RankReading, AllocError>
    requires known { rank < length input.now.ranks }
    requires few { (a : Lane) → IsAtMost MOST_INSTRUCTIONS (tally_in tallies.old a) }
    ensures messages { let is = (rank_of input.now rank).instructions in
        OnOk result ((a : Lane)
        → tally_in tallies.new a ≡ plus (tally_in tallies.old a) (rank_tally rank is a)) }
    ensures fault { IfOk result (λ x. IsFirst IsBelow (step_fault input.now rank) x.fault) }
    ensures totals { IfOk result
        (λ x. x.totals ≡ totals_of (rank_of input.now rank).instructions) }
    ensures few { IfOk result (λ x. HasFew x.totals) }
{
    let mut full = EMPTY;
    let mut fault = None;
    let mut totals = Totals::NONE;
    for at in 0..input.count(rank) {
        let Some(i) = input.instr(rank, at) else {
            unreachable!()
        };
        note_instruction(tallies, rank, i)?;
        fault = fault.or(fault_of_instruction(input.ranks(), rank, at, &full, i));
        note_slots(&mut full, slot_uses(i));
        totals = totals.plus(Totals::of(i));
    }
    Ok(RankReading { fault, totals })
}

/// Reads the instructions of all ranks.
pub(crate) fn read_ranks(alloc: Global, input: &Input) -> Result<Reading, AllocError>
    ensures { IfOk result (IsReading input.now) }
{
    let mut tallies = BTreeMap::new(alloc);
    let mut step = None;
    let mut tape = None;
    let mut totals = Totals::NONE;
    for rank in 0..input.ranks() {
        let read = read_rank(&mut tallies, input, rank)?;
        step = step.or(read.fault);
        tape = tape.or(fault_of_tapes(input, rank, read.totals));
        totals = totals.plus(read.totals);
    }
    Ok(Reading {
        tallies,
        step,
        tape,
        totals,
    })
}
