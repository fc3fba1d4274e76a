//! The machine at a desk, and one turn of a rank there.
ghost use Rattle.std.specs.Prelude.{◌≡◌, ◌<◌, ◌≤◌, length};
ghost use Rattle.qm_limits.specs.declared.TheConstants.{MOST_EVENTS};
ghost use Rattle.qm_lock.specs.Passes.{IsReady};
ghost use Rattle.qm_ranks.specs.Workers.{stays_for, StepsTo, TookTurn, desk_programs};

use crate::played::Leave;
use qm_denot::Amps;
use qm_lock::{Desk, Pass, Turned};
use qm_machine::{Machine, Step};
use std::sync::Wait;

/// A machine at a desk. It stands for its text, with the programs that are the text's reading, and for its schedule.
#[derive(Drop)]
pub(crate) struct Playing<A: Amps> {
    pub(crate) machine: Machine<A>,
}

impl<A: Amps> Turned for Playing<A> {
    ghost use Rattle.std.specs.Prelude.{ℕ, List};
    ghost use Rattle.qm_instr.specs.Programs.{Programs};

    ghost Opening = { List ℕ × Programs };

    ghost opening = { λ p. (p.machine.text, p.machine.programs) };

    ghost turns = { λ p. p.machine.schedule };
}

/// What a step of a rank came to: why the rank stayed where it was, if it did, and how long the schedule is then.
#[derive(Drop)]
pub(crate) struct Stepped {
    pub(crate) stayed: Option<Leave>,
    pub(crate) at: u64,
}

/// Why a rank that was stepped stayed where it was, if it did.
fn stay_for(step: Step) -> Option<Leave>
    ensures { result ≡ stays_for step }
{
    match step {
        Step::Did { .. } => None,
        Step::Blocked { .. } => Some(Leave::Idle),
        Step::Ended => Some(Leave::Ended),
        Step::Halted => Some(Leave::Halted),
    }
}

/// Steps a rank once.
fn step_once<A: Amps>(machine: &mut Machine<A>, rank: u32) -> Stepped
    requires able { A.able }
    requires known { rank < length machine.old.programs.ranks }
    ensures text { machine.new.text ≡ machine.old.text }
    ensures programs { machine.new.programs ≡ machine.old.programs }
    ensures step { StepsTo machine.old.programs machine.old.schedule rank result.stayed
        machine.new.schedule }
    ensures at { result.at ≡ length machine.new.schedule }
    ensures short { length machine.new.schedule ≤ MOST_EVENTS }
{
    let stayed = stay_for(machine.step(rank));
    let at = machine.schedule().len() as u64;
    Stepped { stayed, at }
}

/// Takes the machine, steps a rank once, and gives the machine back.
pub(crate) fn take_turn<R: Wait, A: Amps>(
    rt: &R,
    desk: &Desk<Playing<A>>,
    pass: &mut Pass<Playing<A>>,
    rank: u32,
) -> Stepped
    requires able { A.able }
    requires known { rank < length (desk_programs desk.now).ranks }
    requires ready { IsReady desk.now rank pass.old }
    ensures ready { IsReady desk.now rank pass.new }
    ensures turn { TookTurn (desk_programs desk.now) rank pass.old result pass.new }
{
    let (mut playing, held) = desk.take(rt, pass);
    let stepped = step_once(&mut playing.machine, rank);
    desk.give(pass, held, playing, stepped.stayed.is_none());
    stepped
}
