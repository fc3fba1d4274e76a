//! How long a schedule takes, and the chain of events that makes it so.
#![tactic(auto)]

ghost use Rattle.std.specs.Prelude.{◌≡◌, ◌≢◌, ◌∷◌, ◌↔◌, [], IfOk};
ghost use Rattle.qm_proto.specs.Model.Schedules.{IsLegal};
ghost use Rattle.qm_cost.specs.Reports.{AreFew, IsCost, first_link};
ghost use Rattle.qm_cost.specs.Turns.{turns_of};

mod books;
mod lanes;
pub mod laws;
mod longest;
mod pass;
mod told;
mod worked;

use qm_check::Ready;
use qm_proto::Event;
use std::alloc::{AllocError, Global};
use std::marker::Model;

/// The largest delay.
pub const MOST_DELAY: u32 = 1_000_000;

/// How long events take, and how long bits are on their way. Each is at most [`MOST_DELAY`].
#[derive(Clone, Copy, PartialEq, Eq, Debug)]
pub struct Delays {
    /// What an event takes that is no pair.
    pub local: u32,
    /// What a pair takes.
    pub pair: u32,
    /// The lag between the event that gives a parcel its bits and the one that takes the parcel.
    pub bits: u32,
}

/// The events that come directly before an event, by their numbers.
#[derive(Clone, Copy)]
struct Links {
    event: Event,
    /// The last event before of the same rank.
    own: Option<u32>,
    /// The last event before of the rank for which a pair or a test waits.
    partner: Option<u32>,
    /// The event that gave its bits to the parcel that is taken.
    post: Option<u32>,
}

/// The longest chain that ends at an event: its length, and the event before in it.
#[derive(Clone, Copy)]
struct Mark {
    finish: u64,
    before: Option<u32>,
    rank: u16,
    event: Event,
}

/// A way to an event: how long it is with its lag, and the event that it comes from.
#[derive(Clone, Copy)]
struct Way {
    length: u64,
    at: u32,
}

/// An event of a report's chain.
#[derive(Clone, Copy, PartialEq, Eq, Debug)]
pub struct Link {
    /// The event's number in the schedule, from 0.
    pub at: u32,
    pub rank: u32,
    pub event: Event,
    /// The length of the chain up to the event.
    pub finish: u64,
}

/// How long a schedule takes, and the chain of events that makes it so.
#[derive(Drop)]
pub struct Report {
    time: u64,
    chain: Vec<Link>,
}

impl Model for Report {
    ghost use Rattle.qm_cost.specs.Reports.{ReportView};

    ghost Value = { ReportView };

    ghost view = { λ r. record { time = r.time; chain = r.chain.items } };
}

impl Report {
    /// How long the schedule takes.
    pub fn time(&self) -> u64
        ensures { result ≡ self.now.time }
    {
        self.time
    }

    /// The chain, from its first event to its last one.
    pub fn chain(&self) -> &[Link]
        ensures { result.now ≡ self.now.chain }
    {
        self.chain.as_slice()
    }
}

/// How long a schedule takes, and the chain of events that makes it so. `AllocError` comes from the allocator alone.
///
/// The schedule is legal, and no delay is above [`MOST_DELAY`].
pub fn cost(
    alloc: Global,
    ready: &Ready,
    schedule: &[u32],
    delays: Delays,
) -> Result<Report, AllocError>
    requires legal { IsLegal ready.now schedule.now }
    requires delays { AreFew delays }
    ensures cost { IfOk result (λ r. IsCost ready.now schedule.now delays r) }
    ensures empty { IfOk result (λ r. (r.chain ≡ []) ↔ (schedule.now ≡ [])) }
    ensures idle { IfOk result (λ r. r.time ≡ 0 → schedule.now ≢ []
        → r.chain ≡ first_link (turns_of ready.now schedule.now) ∷ []) }
{
    let marks = pass::pass(alloc, ready.input(), schedule, delays)?;
    told::report(alloc, &marks)
}
