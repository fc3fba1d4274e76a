//! The longest chain that ends at an event, from those that end before it.
ghost use Rattle.std.specs.Prelude.{◌≡◌, ℕ, ◌<◌, ◌≤◌, length};
ghost use Rattle.qm_cost.specs.declared.TheConstants.{MOST_DELAY};
ghost use Rattle.qm_cost.specs.Longest.{finish_in, IsBelow, AreBelow};
ghost use Rattle.qm_cost.specs.Reports.{AreFew};
ghost use Rattle.qm_cost.specs.Turns.{takes_in};
ghost use Rattle.qm_cost.specs.Ways.{way_of, better_of, best_way, mark_of, marked, length_in};

use crate::{Delays, Links, Mark, Way};
use qm_proto::Event;

/// The way from an event, where there is one, with a lag.
fn way(marks: &[Mark], from: Option<u32>, lag: u32) -> Option<Way>
    requires known { IsBelow (length marks.now) from }
    requires lag { lag ≤ MOST_DELAY }
    requires few { (j : ℕ) → j < length marks.now → finish_in marks.now j ≤ 1000000000000 }
    ensures { result ≡ way_of (finish_in marks.now) from lag }
{
    match from {
        Some(at) => {
            let length = marks[at as usize].finish + u64::from(lag);
            Some(Way { length, at })
        }
        None => None,
    }
}

/// The better way of two, where there are any: the longer one, of two that are as long the one from the event with the lower number.
fn better(a: Option<Way>, b: Option<Way>) -> Option<Way>
    ensures { result ≡ better_of a b }
{
    match (a, b) {
        (None, b) => b,
        (a, None) => a,
        (Some(a), Some(b)) => {
            let takes = a.length < b.length || a.length == b.length && b.at < a.at;
            Some(if takes { b } else { a })
        }
    }
}

/// The best way to an event.
fn best(marks: &[Mark], links: Links, bits: u32) -> Option<Way>
    requires known { AreBelow (length marks.now) links }
    requires bits { bits ≤ MOST_DELAY }
    requires few { (j : ℕ) → j < length marks.now → finish_in marks.now j ≤ 1000000000000 }
    ensures { result ≡ best_way (finish_in marks.now) bits links }
{
    let post = way(marks, links.post, bits);
    let own = way(marks, links.own, 0);
    let partner = way(marks, links.partner, 0);
    better(better(post, own), partner)
}

/// How long an event takes.
fn duration(delays: Delays, event: Event) -> u32
    ensures { result ≡ takes_in delays event }
{
    match event {
        Event::Pair => delays.pair,
        _ => delays.local,
    }
}

/// The mark of an event at the end of a way.
fn mark(way: Option<Way>, takes: u32, event: Event, rank: u16) -> Mark
    requires { length_in way ≤ 1000001000000 }
    ensures { result ≡ mark_of way takes event rank }
{
    let (length, before) = match way {
        Some(way) => (way.length, Some(way.at)),
        None => (0, None),
    };
    Mark {
        finish: length + u64::from(takes),
        before,
        rank,
        event,
    }
}

/// The mark of the next event of a rank.
pub(crate) fn next(marks: &[Mark], links: Links, delays: Delays, rank: u16) -> Mark
    requires known { AreBelow (length marks.now) links }
    requires delays { AreFew delays }
    requires few { (j : ℕ) → j < length marks.now → finish_in marks.now j ≤ 1000000000000 }
    ensures { result ≡ marked (finish_in marks.now) delays links rank }
{
    let takes = duration(delays, links.event);
    mark(best(marks, links, delays.bits), takes, links.event, rank)
}
