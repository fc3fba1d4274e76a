//! The desk, its passes, and its calls.
ghost use Rattle.std.specs.Prelude.{◌≡◌, ◌<◌, ◌≤◌};
ghost use Rattle.qm_lock.specs.declared.views.TheConstants.{MOST_SEATS};

use crate::seats::{finish, into_parts, join_all, split_all};
use crate::steps::{CountEntry, DeskRule, DrawTicket, LookForTurn, ServeNext};
use crate::turned::Turned;
use crate::views::{MOST_SEATS, View};
use atomic_table::{Badge, Seat, Table};
use crossbeam_utils::Backoff;
use std::alloc::{AllocError, Global};
use std::snapshot::Snapshot;
use std::sync::Wait;

pub(crate) type DeskTable<V> = Table<Option<V>, View<V>, Snapshot<V>, DeskRule, Global>;

pub(crate) type DeskSeat<V> = Seat<Option<V>, View<V>>;

/// Word 0: how many tickets were drawn.
const DRAWN: usize = 0;

/// Word 1: how many turns were ended, which is the ticket that is served.
const SERVED: usize = 1;

/// Word 2: how many entries the value's list has.
const ENTRIES: usize = 2;

/// A value that the holders of passes take and give back in turns.
pub struct Desk<V: Turned> {
    pub(crate) table: DeskTable<V>,
    pub(crate) seats: u32,
    ghost some: { 0 < seats },
    ghost few: { seats ≤ MOST_SEATS },
    ghost words: { table.shared.table_id.words ≡ 3 },
    ghost slots: { table.shared.table_id.slots ≡ 1 },
}

/// The right to take turns at one desk. It has a number, and knows how many entries it has added and which list it has seen.
///
/// The last pass keeps the table's first seat, since a desk that held it could not be shared by threads.
#[derive(Drop)]
pub struct Pass<V> {
    pub(crate) seat: DeskSeat<V>,
    pub(crate) first: Option<Badge<View<V>>>,
}

/// A turn that was taken and not yet given back. It must be spent by `Desk::give`.
pub struct Held {
    pub(crate) ticket: u64,
}

impl<V: Turned> Desk<V> {
    ghost use Rattle.std.specs.Prelude.{ℕ, [], length, IfOk};
    ghost use Rattle.qm_lock.specs.Lists.{times, StartsWith};
    ghost use Rattle.qm_lock.specs.Passes.{pass_number, pass_count, pass_seen, desk_seats, desk_opening, IsPassOf, IsFree, HasTurn, IsReady, IsNew, EachPass, count_after, seen_after};

    /// A desk with a value whose list is empty, and its passes in the order of their numbers, from 0 on. They have seen nothing, added
    /// nothing and hold no turn. All memory is taken here; `AllocError` comes from the allocator alone.
    pub fn start(alloc: Global, value: V, seats: u32) -> Result<(Desk<V>, Vec<Pass<V>>), AllocError>
    where
        V: Drop,
        requires some { 0 < seats }
        requires few { seats ≤ MOST_SEATS }
        requires empty { V.turns value ≡ [] }
        ensures opening { IfOk result (λ r. desk_opening V.opening r.0 ≡ V.opening value) }
        ensures seats { IfOk result (λ r. desk_seats r.0 ≡ seats) }
        ensures count { IfOk result (λ r. length r.1.items ≡ seats) }
        ensures passes { IfOk result (λ r. EachPass (IsReady r.0) r.1.items) }
        ensures new { IfOk result (λ r. EachPass (λ _ p. IsNew p) r.1.items) }
    {
        let about = Snapshot::of(&value);
        let passes = Vec::with_capacity(alloc, seats as usize)?;
        let mut slots = Vec::with_capacity(alloc, 1)?;
        slots.push_reserved(Some(value));
        let Ok((table, seat)) = Table::new(alloc, &[0, 0, 0], slots, &about) else {
            return Err(AllocError);
        };
        let passes = split_all(&table, seat, passes, seats);
        Ok((Desk { table, seats }, passes))
    }

    /// Waits for this pass's turn, and takes the value.
    ///
    /// The value has the desk's opening and a list that goes on from what the pass had seen; it has the pass's number exactly as often as
    /// the pass has added an entry. Nothing is said of who comes first, or that a turn ever comes.
    ///
    /// Between two looks at the number served it pauses by `Backoff`: after the first seven looks it spins 1, 2, 4, .. 64 times, and from
    /// then on each pause yields the processor by std. It never sleeps.
    pub fn take<R: Wait>(&self, rt: &R, pass: &mut Pass<V>) -> (V, Held)
        requires pass { IsPassOf self.now pass.old }
        requires free { IsFree pass.old }
        ensures pass { IsPassOf self.now pass.new }
        ensures turn { HasTurn pass.new result.1 }
        ensures number { pass_number pass.new ≡ pass_number pass.old }
        ensures count { pass_count pass.new ≡ pass_count pass.old }
        ensures opening { V.opening result.0 ≡ desk_opening V.opening self.now }
        ensures turns { V.turns result.0 ≡ pass_seen pass.new }
        ensures later { StartsWith (pass_seen pass.new) (pass_seen pass.old) }
        ensures own { times (pass_number pass.new) (pass_seen pass.new) ≡ pass_count pass.new }
    {
        let shared = &self.table.shared;
        let ticket = shared.fetch_add::<DrawTicket>(&mut pass.seat, DRAWN, 1);
        let backoff = Backoff::new();
        for _ in rt.forever() {
            if shared.load::<LookForTurn>(&mut pass.seat, SERVED) == ticket {
                let Some(value) = shared.exchange(&mut pass.seat, 0, None) else {
                    unreachable!()
                };
                return (value, Held { ticket });
            }
            backoff.snooze();
        }
        unreachable!()
    }

    /// Gives the value back and ends the turn. Where an entry was added, the value's list has the pass's number at its end; else it is as
    /// it was taken. It waits for nobody.
    pub fn give(&self, pass: &mut Pass<V>, held: Held, value: V, added: bool)
        requires pass { IsPassOf self.now pass.old }
        requires turn { HasTurn pass.old held }
        requires opening { V.opening value ≡ desk_opening V.opening self.now }
        requires turns { V.turns value ≡ seen_after pass.old added }
        ensures pass { IsPassOf self.now pass.new }
        ensures free { IsFree pass.new }
        ensures number { pass_number pass.new ≡ pass_number pass.old }
        ensures count { pass_count pass.new ≡ count_after pass.old added }
        ensures seen { pass_seen pass.new ≡ seen_after pass.old added }
    {
        let Held { ticket: _ } = held;
        let shared = &self.table.shared;
        if added {
            shared.fetch_add::<CountEntry>(&mut pass.seat, ENTRIES, 1);
        }
        let empty = shared.exchange(&mut pass.seat, 0, Some(value));
        let None = empty else { unreachable!() };
        shared.fetch_add::<ServeNext>(&mut pass.seat, SERVED, 1);
    }

    /// The value, once all passes have come back without a turn, in the order of their numbers.
    ///
    /// Its list begins with what each pass has seen, and has each number exactly as often as its pass has added an entry.
    pub fn close(self, mut passes: Vec<Pass<V>>) -> V
        requires count { length passes.items ≡ desk_seats self }
        requires passes { EachPass (IsReady self) passes.items }
        ensures opening { V.opening result ≡ desk_opening V.opening self }
        ensures seen { EachPass (λ _ p. StartsWith (V.turns result) (pass_seen p)) passes.items }
        ensures counts { EachPass (λ k p. times k (V.turns result) ≡ pass_count p) passes.items }
        ensures others { (k : ℕ) → desk_seats self ≤ k → times k (V.turns result) ≡ 0 }
    {
        let Desk { table, seats: _ } = self;
        let Some(last) = passes.pop() else {
            unreachable!()
        };
        let (seat, first) = into_parts(last);
        let seat = join_all(&table, first.into_seat(), passes, seat);
        finish(table, seat)
    }
}
