//! A machine that is played by one thread for each rank.
ghost use Rattle.std.specs.Prelude.{◌≡◌, ◌≤◌, [], length, vec_capacity, IfOk};
ghost use Rattle.qm_ranks.specs.Workers.{passes_of, exits_of};

use crate::desk::Playing;
use crate::gate::Turnstile;
use crate::play_order;
use crate::played::{Exit, Played};
use crate::workers::{Done, work_all};
use qm_denot::Amps;
use qm_lock::{Desk, Pass};
use qm_machine::Machine;
use std::alloc::{AllocError, Global};
use std::sync::Wait;
use std::thread::Threads;

/// The passes and the exits of workers that have left.
fn parted<A: Amps>(
    done: Vec<Done<A>>,
    mut passes: Vec<Pass<Playing<A>>>,
    mut exits: Vec<Exit>,
) -> (Vec<Pass<Playing<A>>>, Vec<Exit>)
    requires no_passes { passes.items ≡ [] }
    requires no_exits { exits.items ≡ [] }
    requires room { length done.items ≤ vec_capacity passes }
    requires room_too { length done.items ≤ vec_capacity exits }
    ensures passes { result.0.items ≡ passes_of done.items }
    ensures exits { result.1.items ≡ exits_of done.items }
{
    for one in done {
        let Done { pass, exit } = one;
        passes.push_reserved(pass);
        exits.push_reserved(exit);
    }
    (passes, exits)
}

/// Plays a machine before its first event to its end, by one worker for each rank, in a thread of its own.
///
/// A worker passes the gate, takes the machine, steps its rank once and gives the machine back, again and again. It leaves where its rank
/// has no event left, the machine is halted, or its rank was blocked in 10,000 turns one after another. Once all have left, what remains
/// is played by `play_order`. All memory is taken before the first turn; `AllocError` comes from the allocator alone.
pub fn play_threads<R: Threads + Wait + Sync, A: Amps + Send, G: Turnstile + Sync>(
    rt: &R,
    alloc: Global,
    machine: Machine<A>,
    gate: &G,
) -> Result<Played<A>, AllocError>
    requires able { A.able }
    requires start { machine.schedule ≡ [] }
    ensures text { IfOk result (λ p. p.machine.text ≡ machine.text) }
    ensures programs { IfOk result (λ p. p.machine.programs ≡ machine.programs) }
{
    let ranks = machine.ready().input().ranks();
    let done = Vec::with_capacity(alloc, usize::from(ranks))?;
    let passes = Vec::with_capacity(alloc, usize::from(ranks))?;
    let exits = Vec::with_capacity(alloc, usize::from(ranks))?;
    let (desk, all) = Desk::start(alloc, Playing { machine }, u32::from(ranks))?;
    let done = work_all(rt, gate, &desk, all, done);
    let (passes, exits) = parted(done, passes, exits);
    let Playing { mut machine } = desk.close(passes);
    let threaded = machine.schedule().len() as u64;
    play_order(&mut machine);
    Ok(Played {
        machine,
        threaded,
        exits,
    })
}
