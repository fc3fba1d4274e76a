//! Workers, one for each rank, that take turns at the desk which has the machine.
ghost use Rattle.std.specs.Prelude.{◌≡◌, ◌+◌, ◌<◌, ◌≤◌, [], ◌∷◌, ◌++◌, length, vec_capacity, IfSome, IfNone};
ghost use denote.Param.Send.{IsSync, IsSend};
ghost use Rattle.qm_lock.specs.Passes.{IsReady, IsNew};
ghost use Rattle.qm_ranks.specs.Workers.{LeavesAt, IsDone, EachDone, AreNew, desk_programs};

use crate::desk::{Playing, Stepped, take_turn};
use crate::gate::Turnstile;
use crate::played::{Exit, Leave};
use qm_denot::Amps;
use qm_lock::{Desk, Pass};
use std::sync::Wait;
use std::thread::{Threads, join};

/// In so many turns, one after another, a rank may be blocked before its worker leaves.
const MOST_BLOCKED: u32 = 10_000;

/// A worker that has left, with its pass.
#[derive(Drop)]
pub(crate) struct Done<A: Amps> {
    pub(crate) pass: Pass<Playing<A>>,
    pub(crate) exit: Exit,
}

/// Takes turns until the rank has no event left, the machine is halted, or the rank was blocked in too many turns.
fn work<R: Wait, A: Amps, G: Turnstile>(
    rt: &R,
    gate: &G,
    desk: &Desk<Playing<A>>,
    pass: &mut Pass<Playing<A>>,
    rank: u32,
) -> Exit
    requires able { A.able }
    requires known { rank < length (desk_programs desk.now).ranks }
    requires ready { IsReady desk.now rank pass.old }
    requires new { IsNew pass.old }
    ensures ready { IsReady desk.now rank pass.new }
    ensures exit { LeavesAt (desk_programs desk.now) rank pass.new result }
{
    let mut made = 0;
    let mut blocked = 0;
    for _ in rt.forever() {
        gate.before(rank);
        let Stepped { stayed, at } = take_turn(rt, desk, pass, rank);
        match stayed {
            None => {
                made += 1;
                blocked = 0;
            }
            Some(Leave::Idle) if blocked + 1 < MOST_BLOCKED => blocked += 1,
            Some(why) => return Exit { made, at, why },
        }
    }
    unreachable!()
}

/// A worker's whole life.
fn work_by<R: Wait, A: Amps, G: Turnstile>(
    rt: &R,
    gate: &G,
    desk: &Desk<Playing<A>>,
    mut pass: Pass<Playing<A>>,
    rank: u32,
) -> Done<A>
    requires able { A.able }
    requires known { rank < length (desk_programs desk.now).ranks }
    requires ready { IsReady desk.now rank pass }
    requires new { IsNew pass }
    ensures { IsDone desk.now rank result }
{
    let exit = work(rt, gate, desk, &mut pass, rank);
    Done { pass, exit }
}

/// The last of a list, with its place there.
fn take_last<T>(all: &mut Vec<T>) -> Option<(T, u32)>
    requires { length all.old.items ≤ 16 }
    ensures none { IfNone result (all.old.items ≡ []) }
    ensures some { IfSome result (λ r. all.old.items ≡ all.new.items ++ r.0 ∷ []) }
    ensures place { IfSome result (λ r. r.1 ≡ length all.new.items) }
{
    let last = all.pop()?;
    Some((last, all.len() as u32))
}

/// The workers of these passes work, each in a thread of its own, until all have left.
pub(crate) fn work_all<R: Threads + Wait + Sync, A: Amps + Send, G: Turnstile + Sync>(
    rt: &R,
    gate: &G,
    desk: &Desk<Playing<A>>,
    mut passes: Vec<Pass<Playing<A>>>,
    done: Vec<Done<A>>,
) -> Vec<Done<A>>
    requires able { A.able }
    requires known { length passes.items ≤ length (desk_programs desk.now).ranks }
    requires few { length passes.items ≤ 16 }
    requires passes { AreNew desk.now passes.items }
    requires none { done.items ≡ [] }
    requires room { length passes.items ≤ vec_capacity done }
    ensures count { length result.items ≡ length passes.items }
    ensures room { vec_capacity result ≡ vec_capacity done }
    ensures done { EachDone (IsDone desk.now) result.items }
{
    let Some((pass, rank)) = take_last(&mut passes) else {
        return done;
    };
    let (last, mut done) = join(
        rt,
        move || -> Done<A>
            requires able { A.able }
            requires known { rank < length (desk_programs desk.now).ranks }
            requires ready { IsReady desk.now rank pass }
            requires new { IsNew pass }
            ensures { IsDone desk.entry.now rank result }
        { work_by(rt, gate, desk, pass, rank) },
        move || -> Vec<Done<A>>
            requires runtime { IsSync R.row }
            requires store { IsSend A.row }
            requires gate { IsSync G.row }
            requires able { A.able }
            requires known { length passes.items ≤ length (desk_programs desk.now).ranks }
            requires few { length passes.items ≤ 16 }
            requires passes { AreNew desk.now passes.items }
            requires none { done.items ≡ [] }
            requires room { length passes.items ≤ vec_capacity done }
            ensures count { length result.items ≡ length passes.items }
            ensures room { vec_capacity result ≡ vec_capacity done }
            ensures done { EachDone (IsDone desk.entry.now) result.items }
        { work_all(rt, gate, desk, passes, done) },
    );
    done.push_reserved(last);
    done
}
