//! The rule of a desk's table, and what each kind of step on it tells.
use crate::turned::Turned;
use crate::views::View;
use atomic_table::{Join, Play, Split, TableRule};
use std::snapshot::Snapshot;

/// What holds between any two steps, of a desk that began with the value of the key.
pub(crate) struct DeskRule;

impl<V: Turned> TableRule<Option<V>, View<V>, Snapshot<V>> for DeskRule {
    ghost use Rattle.qm_lock.specs.Rule.{IsDesk};
    ghost use Rattle.qm_lock.specs.Views.{first_view};

    ghost holds = { λ k. IsDesk V.opening V.turns k.value };

    ghost first = { λ k. first_view k.value };
}

/// Step 1: a ticket is drawn.
pub(crate) struct DrawTicket;

impl<V> Play<Option<V>, View<V>> for DrawTicket {
    ghost use Rattle.qm_lock.specs.Steps.{draws_ticket};

    ghost then = { draws_ticket };
}

/// Steps 2 and 3: the number served is read; where it is the seat's ticket, the slot is taken.
pub(crate) struct LookForTurn;

impl<V: Turned> Play<Option<V>, View<V>> for LookForTurn {
    ghost use Rattle.qm_lock.specs.Steps.{looks_for_turn};

    ghost then = { looks_for_turn V.opening V.turns };
}

/// Step 4: an entry is counted.
pub(crate) struct CountEntry;

impl<V> Play<Option<V>, View<V>> for CountEntry {
    ghost use Rattle.qm_lock.specs.Steps.{counts_entry};

    ghost then = { counts_entry };
}

/// Step 6: the slot is given back, and the next ticket is served.
pub(crate) struct ServeNext;

impl<V> Play<Option<V>, View<V>> for ServeNext {
    ghost use Rattle.qm_lock.specs.Steps.{serves_next};

    ghost then = { serves_next };
}

/// Step 7: the first tally goes to a seat of its own.
pub(crate) struct MakePass;

impl<V> Split<View<V>> for MakePass {
    ghost use Rattle.qm_lock.specs.Views.{without_first, only_first};

    ghost left = { without_first };

    ghost right = { only_first };
}

/// Step 8: the tallies of one seat go to another, behind those that it has.
pub(crate) struct TakePassIn;

impl<V> Join<View<V>> for TakePassIn {
    ghost use Rattle.qm_lock.specs.Views.{together, spent};

    ghost both = { together };

    ghost spent = { spent };
}
