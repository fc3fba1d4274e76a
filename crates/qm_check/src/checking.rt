//! The check as a whole, and programs that passed it.
ghost use Rattle.std.specs.Prelude.{◌≡◌, IfOk, IfErr, OnOk};
ghost use Rattle.qm_check.specs.Checks.{capacity_of, width_fault, fault_at, IsBefore, IsReady};
ghost use Rattle.qm_check.specs.Errors.{TellsFirstFault};
ghost use Rattle.qm_check.specs.Faults.{IsFirst};
ghost use Rattle.qm_check.specs.Messages.{IsLaneTable};
ghost use Rattle.qm_check.specs.Readings.{IsReading};
ghost use Rattle.qm_check.specs.Totals.{totals_over};

use crate::messages::{fault_of_lanes, send_counts};
use crate::reading::{Reading, read_ranks};
use crate::{CheckError, Fault, LaneCount, Totals};
use qm_instr::Input;
use qm_limits::{MOST_CAPACITY, MOST_CAPACITY_1};
use std::alloc::Global;
use std::marker::Model;

/// Programs that have no fault, with their totals.
#[derive(Drop)]
pub struct Ready {
    input: Input,
    capacity: u32,
    lanes: Vec<LaneCount>,
    totals: Totals,
}

impl Model for Ready {
    ghost use Rattle.qm_instr.specs.Programs.{Programs};
    ghost use Rattle.qm_check.specs.Checks.{IsChecked};

    ghost Value = { Programs };

    ghost view = { λ r. r.input };

    ghost invariant = { λ r. IsChecked r.input r.capacity r.lanes.items r.totals };
}

impl Ready {
    /// The programs.
    pub fn input(&self) -> &Input
        ensures value { result.now ≡ self.now }
        ensures ready { IsReady self.now }
    {
        &self.input
    }

    /// The slots and the buffers of all ranks, at most [`MOST_CAPACITY_1`] in version 1 and at most [`MOST_CAPACITY`] in version 2.
    pub fn capacity(&self) -> u32
        ensures { result ≡ capacity_of self.now }
    {
        self.capacity
    }

    /// The lanes on which messages are posted, those of answers too, in rising order, and how many are.
    pub fn lanes(&self) -> &[LaneCount]
        ensures { IsLaneTable self.now result.now }
    {
        self.lanes.as_slice()
    }

    /// How many events all instructions have.
    pub fn events(&self) -> u64
        ensures { result ≡ (totals_over self.now.ranks).events }
    {
        self.totals.events
    }

    /// How many outcomes are taken from all protocol tapes.
    pub fn protocol_total(&self) -> u64
        ensures { result ≡ (totals_over self.now.ranks).protocol }
    {
        self.totals.protocol
    }

    /// How many outcomes are taken from all own tapes.
    pub fn own_total(&self) -> u64
        ensures { result ≡ (totals_over self.now.ranks).own }
    {
        self.totals.own
    }
}

/// The slots and the buffers of all ranks.
fn total_capacity(input: &Input) -> u32
    ensures { result ≡ capacity_of input.now }
{
    let mut capacity = 0;
    for rank in 0..input.ranks() {
        capacity += u32::from(input.qubits(rank)) + u32::from(input.buffer(rank));
    }
    capacity
}

/// The fault of too large a capacity.
fn fault_of_width(version: u8, capacity: u32) -> Option<Fault>
    ensures { result ≡ width_fault version capacity }
{
    let most = if version == 1 {
        MOST_CAPACITY_1
    } else {
        MOST_CAPACITY
    };
    (capacity > most).then_some(Fault::TooWide { capacity })
}

/// The first fault of all, by what the instructions say.
fn first_fault(input: &Input, capacity: u32, read: &Reading) -> Option<Fault>
    requires capacity { capacity ≡ capacity_of input.now }
    requires read { IsReading input.now read.now }
    ensures { IsFirst IsBefore (fault_at input.now) result }
{
    let width = fault_of_width(input.version(), capacity);
    let lane = fault_of_lanes(&read.tallies);
    width.or(read.step).or(lane).or(read.tape)
}

/// Checks the programs of all ranks.
///
/// The fault is the first in this order: too large a capacity; by rank and instruction, a rank that there isn't, the
/// rank's own number, one slot twice, and the slots from left to right, which must be empty or full; the lowest lane
/// whose sends and receives aren't as many, those of answers left out; by rank, the length of the own tape and of the
/// protocol tape. `Memory` comes from the allocator alone.
pub fn check(alloc: Global, input: Input) -> Result<Ready, CheckError>
    ensures ok { IfOk result (λ r. r ≡ input) }
    ensures ready { OnOk result (IsReady input) }
    ensures err { IfErr result (TellsFirstFault input) }
{
    let capacity = total_capacity(&input);
    let read = read_ranks(alloc, &input)?;
    if let Some(fault) = first_fault(&input, capacity, &read) {
        return Err(CheckError::Fault { fault });
    }
    let lanes = send_counts(alloc, &read.tallies)?;
    Ok(Ready {
        input,
        capacity,
        lanes,
        totals: read.totals,
    })
}
