//! Orders in which the ranks of a machine take their turns: the lowest first, by a seed, and by threads.
#![tactic(auto)]

ghost use Rattle.std.specs.Prelude.{◌%◌, length};
ghost use Rattle.qm_proto.specs.Model.Orders.{from_the_lowest};
ghost use Rattle.qm_seed.specs.Seeds.{seed_words};
ghost use Rattle.qm_ranks.specs.Plays.{Plays, Turns};

mod desk;
mod gate;
pub mod laws;
mod played;
mod threads;
mod workers;

pub use gate::{NoGate, Turnstile};
pub use played::{Exit, Leave, Played};
use qm_denot::Amps;
use qm_machine::{Machine, Step};
use qm_seed::SeedWords;
pub use threads::play_threads;

/// Steps the ranks one after another, in their cyclic order from the word modulo their number on, until one did an event or halted the
/// machine. Whether one did an event; if not, the machine is at its end.
fn turn<A: Amps>(machine: &mut Machine<A>, word: u32) -> bool
    requires { A.able }
    ensures { Turns A.store machine.old (word % length machine.old.programs.ranks) machine.new
        result }
{
    let ranks = u32::from(machine.ready().input().ranks());
    let start = word % ranks;
    for steps in 0..ranks {
        match machine.step((start + steps) % ranks) {
            Step::Did { .. } => return true,
            Step::Halted => return false,
            Step::Blocked { .. } | Step::Ended => {}
        }
    }
    false
}

/// Steps the lowest rank that is neither ended nor blocked, again and again, until no rank has an event left or the machine is halted.
///
/// The machine may have any schedule so far. A machine that is halted stays as it is.
pub fn play_order<A: Amps>(machine: &mut Machine<A>)
    requires { A.able }
    ensures { Plays A.store machine.old machine.new from_the_lowest }
{
    while turn(machine, 0) {}
}

/// Steps a rank that a seed chooses, again and again, until no rank has an event left or the machine is halted.
///
/// The seed gives one word for each turn; the rank that is stepped is the first one that is neither ended nor blocked, in the cyclic
/// order of the ranks from the word modulo their number on. The machine may have any schedule so far. A machine that is halted stays as
/// it is.
pub fn play_seed<A: Amps>(machine: &mut Machine<A>, seed: u64)
    requires { A.able }
    ensures { Plays A.store machine.old machine.new (seed_words seed) }
{
    let mut words = SeedWords::start(seed);
    while turn(machine, words.draw()) {}
}
