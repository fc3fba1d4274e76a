//! Which rank has an event left, which is enabled, and what one lacks that isn't.
ghost use Rattle.std.specs.Prelude.{◌≡◌, ◌<◌, length, true, false, Some, None};
ghost use Rattle.qm_proto.specs.Model.Rows.{current};
ghost use Rattle.qm_proto.specs.Model.Runs.{holds, is_wanted, receives_on, enabled, has_event, events_at};
ghost use Rattle.qm_proto.specs.Model.Schedules.{IsLowestLeft, NoneEnabled};
ghost use Rattle.qm_machine.specs.Keeps.{lacking};
ghost use Rattle.qm_machine.specs.Reads.{IsRank, IsReadyRank, AreRanks, IsRuleRead};
ghost use Rattle.qm_machine.specs.Views.{tables};

use crate::Why;
use crate::books::Books;
use crate::rows::row_next;
use qm_instr::{Input, Instr, Lane, event_count, receive_lane};
use qm_proto::Rule;

/// The instruction at which a rank stands.
pub(crate) fn current(input: &Input, books: &Books, rank: u16) -> Option<Instr>
    requires { IsRank input.now books.now rank }
    ensures { result ≡ current input.now (tables books.now) rank }
{
    input.instr(rank, books.at(rank))
}

/// How many events the instruction has at which a rank stands.
pub(crate) fn events_here(input: &Input, books: &Books, rank: u16) -> u32
    requires { IsRank input.now books.now rank }
    ensures { result ≡ events_at (current input.now (tables books.now) rank) }
{
    match current(input, books, rank) {
        Some(instr) => event_count(instr),
        None => 0,
    }
}

/// Whether an instruction of a rank is a receive of the lane.
fn receives(rank: u16, instr: Instr, lane: Lane) -> bool
    ensures { result ≡ receives_on rank (Some instr) lane }
{
    receive_lane(rank, instr) == Some(lane)
}

/// Whether the lane's receiver stands at the first event of a receive of it, and it is empty.
fn is_wanted(input: &Input, books: &Books, lane: Lane) -> bool
    requires { IsRank input.now books.now lane.to }
    ensures { result ≡ is_wanted input.now (tables books.now) lane }
{
    if books.stage(lane.to) != 0 {
        return false;
    }
    match current(input, books, lane.to) {
        Some(instr) => receives(lane.to, instr, lane) && books.is_empty(lane),
        None => false,
    }
}

/// Nothing where it holds, else what is lacking.
pub(crate) fn unless<T: Drop>(holds: bool, lacking: T) -> Option<T>
    ensures yes { holds ≡ true → result ≡ None }
    ensures no { holds ≡ false → result ≡ Some lacking }
{
    if holds { None } else { Some(lacking) }
}

/// Whether a pair may be prepared for a lane's receiver.
fn may_pair(input: &Input, books: &Books, lane: Lane) -> bool
    requires { IsRuleRead input.now books.now (Rule.PairRoom lane) }
    ensures { result ≡ holds input.now (tables books.now) (Rule.PairRoom lane) }
{
    books.may_pair(lane.to, is_wanted(input, books, lane))
}

/// What a rank lacks whose next event has this rule. `None` exactly where the rule holds.
pub(crate) fn lacks(input: &Input, books: &Books, rule: Rule) -> Option<Why>
    requires { IsRuleRead input.now books.now rule }
    ensures holds { result ≡ None → holds input.now (tables books.now) rule ≡ true }
    ensures lacks { (w : Why) → result ≡ Some w
        → (holds input.now (tables books.now) rule ≡ false) × (lacking rule ≡ Some w) }
{
    match rule {
        Rule::Always => None,
        Rule::PairRoom { lane } => unless(may_pair(input, books, lane), Why::NoRoom),
        Rule::Engaged { lane } => unless(is_wanted(input, books, lane), Why::PartnerElsewhere),
        Rule::Filled { lane } => unless(books.is_filled(lane), Why::LaneEmpty),
    }
}

/// Whether a rank has an event left.
pub(crate) fn has_left(input: &Input, books: &Books, rank: u16) -> bool
    requires { IsReadyRank input.now books.now rank }
    ensures { result ≡ has_event input.now (tables books.now) rank }
{
    row_next(input, books, rank).is_some()
}

/// Whether a rank is enabled.
fn is_enabled(input: &Input, books: &Books, rank: u16) -> bool
    requires { IsReadyRank input.now books.now rank }
    ensures { result ≡ enabled input.now (tables books.now) rank }
{
    match row_next(input, books, rank) {
        Some(row) => lacks(input, books, row.rule).is_none(),
        None => false,
    }
}

/// Whether some rank is enabled. This one, which most likely is, is asked before the others.
pub(crate) fn any_enabled(input: &Input, books: &Books, first: u16) -> bool
    requires ranks { AreRanks input.now books.now }
    requires known { first < length input.now.ranks }
    ensures some { result ≡ true → ¬ (NoneEnabled input.now (tables books.now)) }
    ensures none { result ≡ false → NoneEnabled input.now (tables books.now) }
{
    if is_enabled(input, books, first) {
        return true;
    }
    for rank in 0..input.ranks() {
        if is_enabled(input, books, rank) {
            return true;
        }
    }
    false
}

/// The lowest rank that has an event left, where this one has.
pub(crate) fn lowest_left(input: &Input, books: &Books, rank: u16) -> u16
    requires here { IsReadyRank input.now books.now rank }
    requires left { has_event input.now (tables books.now) rank ≡ true }
    ensures { IsLowestLeft input.now (tables books.now) result }
{
    for lower in 0..rank {
        if has_left(input, books, lower) {
            return lower;
        }
    }
    rank
}
