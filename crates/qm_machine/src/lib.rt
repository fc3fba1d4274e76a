//! The machine: the programs of all ranks at work on one store, one event at a time, in whatever order the ranks are stepped.
//!
//! A machine is seen as its text, the programs that are the reading of it, its schedule so far, its halt, and what its store contains.
//! What it keeps is the model's replay of that schedule.
#![tactic(auto)]

mod attempt;
mod body;
mod books;
mod lines;
mod machine;
mod messages;
mod parcels;
mod rank;
mod rows;
mod rules;

pub use machine::Machine;
pub use qm_proto::Cause;
use qm_proto::Event;

/// What a step answers.
#[derive(Clone, Copy, PartialEq, Eq, Debug)]
pub enum Step {
    /// The rank's event was done.
    Did { event: Event },
    /// The rank's event is not enabled, and some other rank may go on.
    Blocked { why: Why },
    /// The rank has no event left.
    Ended,
    /// The machine is halted.
    Halted,
}

/// What a blocked rank waits for.
#[derive(Clone, Copy, PartialEq, Eq, Debug)]
pub enum Why {
    /// The lane that it receives from has no parcel with bits at its front.
    LaneEmpty,
    /// The receiver of a pair doesn't want it and has at most one place free, or has none.
    NoRoom,
    /// The source of a copy does not stand where the copy is taken back.
    PartnerElsewhere,
}

/// Where and why a machine was halted.
#[derive(Clone, Copy, PartialEq, Eq, Debug)]
pub struct Halt {
    /// The rank whose event was refused; of a stuck machine, the lowest that has events left.
    pub rank: u32,
    /// The length of the schedule.
    pub turns: u64,
    /// Why the event was refused, or that the machine is stuck.
    pub cause: Cause,
}

/// How far a machine is.
#[derive(Clone, Copy, PartialEq, Eq, Debug)]
pub enum State {
    /// Some rank has events left.
    Running,
    /// No rank has.
    AllEnded,
    /// A step halted the machine.
    Halted { halt: Halt },
}
