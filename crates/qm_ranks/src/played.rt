//! A machine that was played by threads, and how each worker left.
ghost use Rattle.std.specs.Prelude.{◌≡◌, ◌<◌, length, slice_get, Some};

use qm_denot::Amps;
use qm_machine::Machine;
use std::marker::Model;

/// Why a worker left.
#[derive(Clone, Copy, PartialEq, Eq, Debug)]
pub enum Leave {
    /// Its rank has no event left.
    Ended,
    /// Its rank was blocked in too many turns, one after another.
    Idle,
    /// The machine was halted.
    Halted,
}

/// How a worker left.
#[derive(Clone, Copy, PartialEq, Eq, Debug)]
pub struct Exit {
    /// How many events it made.
    pub made: u64,
    /// How long the schedule was in its last turn.
    pub at: u64,
    pub why: Leave,
}

/// A machine that was played by one worker for each rank, and then by one thread to its end.
///
/// It is seen as the machine, how many events the workers made, and their exits by rank. The type keeps what these say of the machine's
/// schedule.
#[derive(Drop)]
pub struct Played<A: Amps> {
    pub(crate) machine: Machine<A>,
    pub(crate) threaded: u64,
    pub(crate) exits: Vec<Exit>,
}

impl<A: Amps> Model for Played<A> {
    ghost use Rattle.qm_ranks.specs.Played.{PlayedView, IsPlayed};

    ghost Value = { PlayedView A };

    ghost view = { λ p. record {
      machine = p.machine;
      threaded = p.threaded;
      exits = p.exits.items;
    } };

    ghost invariant = { λ p. IsPlayed p.machine p.threaded p.exits.items };
}

impl<A: Amps> Played<A> {
    ghost use Rattle.qm_ranks.specs.Played.{IsPlayed};

    /// The machine. No rank has an event left, or it is halted. What the type keeps is told here.
    pub fn machine(&self) -> &Machine<A>
        ensures value { result.now ≡ self.now.machine }
        ensures kept { IsPlayed self.now.machine self.now.threaded self.now.exits }
    {
        &self.machine
    }

    /// The machine, alone. What the type keeps is told here once more.
    pub fn into_machine(self) -> Machine<A>
        ensures value { result ≡ self.machine }
        ensures kept { IsPlayed self.machine self.threaded self.exits }
    {
        let Played { machine, .. } = self;
        machine
    }

    /// How many events the workers made. All later ones were made by one thread, which always stepped the lowest enabled rank.
    pub fn threaded(&self) -> u64
        ensures { result ≡ self.now.threaded }
    {
        self.threaded
    }

    /// How the worker of a rank left.
    pub fn exit(&self, rank: u32) -> Exit
        requires { rank < length self.now.machine.programs.ranks }
        ensures { slice_get self.now.exits rank ≡ Some result }
    {
        self.exits[rank as usize]
    }
}
