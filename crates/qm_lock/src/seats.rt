//! How the seats of the passes are cut from the table's first one, and put together again.
ghost use Rattle.std.specs.Prelude.{◌≡◌, ℕ, ◌+◌, ◌<◌, ◌≤◌, [], ◌∷◌, ◌++◌, length, map, IsSome, Some, vec_capacity};
ghost use Rattle.qm_lock.specs.Views.{own, view, first_view};
ghost use Rattle.qm_lock.specs.Rule.{Ended};
ghost use Rattle.qm_lock.specs.declared.views.TheConstants.{MOST_SEATS};
ghost use Rattle.qm_lock.specs.declared.views.Stage.TheVariants.{Idle};
ghost use Rattle.qm_lock.specs.Passes.{pass_tally, IsFree, IsMade, KeepsFirst, EachPass};

use crate::desk::{DeskSeat, DeskTable, Pass};
use crate::steps::{MakePass, TakePassIn};
use crate::turned::Turned;
use crate::views::{MOST_SEATS, View};
use atomic_table::Badge;

/// The seat of the last pass, and the table's first seat, which it keeps.
pub(crate) fn into_parts<V>(pass: Pass<V>) -> (DeskSeat<V>, Badge<View<V>>)
    requires { IsSome pass.first }
    ensures seat { result.0 ≡ pass.seat }
    ensures first { pass.first ≡ Some result.1 }
{
    let Pass { seat, first } = pass;
    (seat, first.unwrap())
}

/// Cuts all passes from the first seat, which goes into the last of them.
pub(crate) fn split_all<V: Turned>(
    table: &DeskTable<V>,
    mut seat: DeskSeat<V>,
    mut passes: Vec<Pass<V>>,
    seats: u32,
) -> Vec<Pass<V>>
    requires table { seat.table_id ≡ table.now.shared.table_id }
    requires words { 0 < table.now.shared.table_id.words }
    requires seat { seat.me ≡ (first_view table.now.shared.key.value, []) }
    requires none { passes.items ≡ [] }
    requires room { seats ≤ vec_capacity passes }
    requires some { 0 < seats }
    requires few { seats ≤ MOST_SEATS }
    ensures count { length result.items ≡ seats }
    ensures passes { EachPass (IsMade table.now.shared.table_id table.now.shared.key.value)
        result.items }
    ensures last { EachPass (λ k p. k + 1 ≡ seats
        → KeepsFirst table.now.shared.table_id seats p.first) result.items }
{
    for number in 0..seats - 1 {
        let other = table.shared.split_seat::<MakePass>(&mut seat);
        passes.push_reserved(Pass {
            seat: other,
            first: None,
        });
    }
    let last = table.shared.split_seat::<MakePass>(&mut seat);
    let first = seat.into_badge();
    passes.push_reserved(Pass {
        seat: last,
        first: Some(first),
    });
    passes
}

/// The first seat takes in all passes, and then the seat of the last.
pub(crate) fn join_all<V: Turned>(
    table: &DeskTable<V>,
    mut seat: DeskSeat<V>,
    passes: Vec<Pass<V>>,
    last: DeskSeat<V>,
) -> DeskSeat<V>
    requires words { 0 < table.now.shared.table_id.words }
    requires table { seat.table_id ≡ table.now.shared.table_id }
    requires seat { seat.me ≡ (view seat.me.0.start seat.me.0.tallies Idle, []) }
    requires pass_tables { EachPass (λ _ p. p.seat.table_id ≡ table.now.shared.table_id)
        passes.items }
    requires passes { EachPass (λ _ p. IsFree p) passes.items }
    requires last_table { last.table_id ≡ table.now.shared.table_id }
    requires last { last.me ≡ (view last.me.0.start (own last.me.0.tallies ∷ []) Idle, []) }
    ensures table { result.table_id ≡ table.now.shared.table_id }
    ensures seat { result.me ≡ (
      view result.me.0.start
          ((seat.me.0.tallies ++ map pass_tally passes.items) ++ own last.me.0.tallies ∷ []) Idle,
      [],
    ) }
{
    for pass in passes {
        let Pass {
            seat: other,
            first: _,
        } = pass;
        table.shared.join_seat::<TakePassIn>(&mut seat, other);
    }
    table.shared.join_seat::<TakePassIn>(&mut seat, last);
    seat
}

/// The table's value, once one seat has all tallies.
pub(crate) fn finish<V: Turned>(table: DeskTable<V>, seat: DeskSeat<V>) -> V
    requires table { seat.table_id ≡ table.shared.table_id }
    requires slots { table.shared.table_id.slots ≡ 1 }
    requires seat { seat.me.0 ≡ view seat.me.0.start seat.me.0.tallies Idle }
    requires all { length seat.me.0.tallies ≡ MOST_SEATS }
    ensures { Ended V.opening V.turns table.shared.key.value seat.me.0.tallies result }
{
    let mut closed = table.close_with(seat);
    let slot = closed.take(0);
    closed.free();
    let Some(value) = slot else { unreachable!() };
    value
}
