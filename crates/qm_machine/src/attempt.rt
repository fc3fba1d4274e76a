//! An attempt of a line of the table of the events: its tests, and then its acts.
ghost use Rattle.std.specs.Prelude.{◌≡◌, ◌↔◌, [], ◌∷◌, true, OnOk, OnErr, IsErr};
ghost use Rattle.qm_denot.specs.Stores.{MayGrow};
ghost use Rattle.qm_proto.specs.Model.Acts.{list_of};
ghost use Rattle.qm_proto.specs.May.{MayCheck, AllMayCheck};
ghost use Rattle.qm_machine.specs.Facts.{AreSound};
ghost use Rattle.qm_machine.specs.Tries.{CanTry, Tried, Asked, checks_before_acts, is_sure, are_sure, MayGrowBy, AllOverflow};
ghost use Rattle.qm_machine.specs.Views.{facts, tables, MayAct, Acted, MayDo, HasDone, IsUnchanged};

use crate::body::Body;
use crate::rules::unless;
use qm_denot::{Amps, Overflow};
use qm_proto::{Act, Cause, Check, Few, Row};

/// The cause for which a test fails, where it does. Whether a `Had` fits is told by its act.
fn failing<A: Amps>(body: &Body<A>, check: Check) -> Option<Cause>
    requires able { A.able }
    requires sound { AreSound (facts A.store body.now) }
    requires may { MayCheck (tables body.now.books) check }
    ensures { Asked (facts A.store body.now) (checks_before_acts (check ∷ [])) result }
{
    match check {
        Check::Possible { w, m } => unless(body.amps().can_be(w, m), Cause::Impossible),
        Check::Zero { w } => unless(body.amps().always_zero(w), Cause::NotZero),
        Check::Equal { w, v } => unless(body.amps().always_equal(w, v), Cause::NotEqual),
        Check::Fits { .. } => None,
    }
}

/// The cause for which the first test fails that does, but for the one whether a `Had` fits.
fn first_failing<A: Amps>(body: &Body<A>, checks: Few<Check>) -> Option<Cause>
    requires able { A.able }
    requires sound { AreSound (facts A.store body.now) }
    requires may { AllMayCheck (tables body.now.books) (list_of checks) }
    ensures { Asked (facts A.store body.now) (checks_before_acts (list_of checks)) result }
{
    match checks {
        Few::Empty => None,
        Few::One(a) => failing(body, a),
        Few::Two(a, b) => match failing(body, a) {
            Some(cause) => Some(cause),
            None => failing(body, b),
        },
        Few::Three(a, b, c) => match failing(body, a) {
            Some(cause) => Some(cause),
            None => match failing(body, b) {
                Some(cause) => Some(cause),
                None => failing(body, c),
            },
        },
    }
}

/// Does an act that is never refused.
fn do_sure<A: Amps>(body: &mut Body<A>, rank: u16, act: Act)
    requires able { A.able }
    requires can { MayAct A.store body.old rank act }
    requires grow { MayGrowBy act (A.store body.old.amps) }
    requires sure { is_sure act ≡ true }
    ensures { Acted A.store body.old rank act body.new }
{
    match body.act(rank, act) {
        Ok(()) => {}
        Err(_) => unreachable!(),
    }
}

/// Does the acts of a line, one after another. `Overflow` comes exactly where the only one is a `Had` that leaves the range; nothing is
/// changed then.
fn do_acts<A: Amps>(body: &mut Body<A>, rank: u16, acts: Few<Act>) -> Result<(), Overflow>
    requires able { A.able }
    requires can { MayDo A.store body.old rank (list_of acts) }
    requires sure { are_sure acts ≡ true }
    requires grow { MayGrow (A.store body.old.amps) }
    ensures ok { OnOk result (HasDone A.store body.old rank (list_of acts) body.new) }
    ensures overflow { IsErr result ↔ AllOverflow (list_of acts) (A.store body.old.amps) }
    ensures err { OnErr result (IsUnchanged A.store body.old body.new) }
{
    match acts {
        Few::Empty => Ok(()),
        Few::One(a) => body.act(rank, a),
        Few::Two(a, b) => {
            do_sure(body, rank, a);
            do_sure(body, rank, b);
            Ok(())
        }
        Few::Three(a, b, c) => {
            do_sure(body, rank, a);
            do_sure(body, rank, b);
            do_sure(body, rank, c);
            Ok(())
        }
    }
}

/// Does a line's acts, unless a test of it fails.
pub(crate) fn attempt<A: Amps>(body: &mut Body<A>, rank: u16, row: Row) -> Result<(), Cause>
    requires able { A.able }
    requires can { CanTry (facts A.store body.old) rank row }
    ensures { Tried (facts A.store body.old) rank row result (facts A.store body.new) }
{
    match first_failing(body, row.checks) {
        Some(cause) => Err(cause),
        None => match do_acts(body, rank, row.acts) {
            Ok(()) => Ok(()),
            Err(_) => Err(Cause::Overflow),
        },
    }
}
