//! What a letter makes of a list of numerators, index by index.
ghost use Rattle.std.specs.Prelude.{◌≡◌, ◌*◌, ◌/◌, ◌<◌, ◌≤◌, ◌^◌, length};
ghost use Rattle.std.specs.Vec.{vec_capacity};
ghost use Rattle.qm_zomega.specs.Zw.{value_of};
ghost use Rattle.qm_denot.specs.Places.{HasPlace};
ghost use Rattle.qm_denot.specs.Plain.{FitsRule, IsRewritten, number_after, size_after};

use crate::plain::places::{bit_at, with_bit, with_bit_put_in, with_other_bit};
use qm_limits::MOST_CAPACITY;
use qm_zomega::Zw;
use std::mem;

/// What a letter does to a list of numerators, by the places of its wires in the index.
#[derive(Clone, Copy, PartialEq, Eq, Debug)]
pub(crate) enum Rule {
    Phase { k: u8, place: u32 },
    Flip { place: u32 },
    Cx { control: u32, target: u32 },
    Cz { one: u32, other: u32 },
    Keep { place: u32, m: bool },
    /// The place goes, and the higher ones move down.
    Take { place: u32, m: bool },
    /// The two places from `count` on are new.
    Pair { count: u32 },
}

impl Rule {
    /// How many numerators the rule makes of so many.
    fn size_after(self, size: usize) -> usize
        requires { size ≤ 2 ^ MOST_CAPACITY }
        ensures { result ≡ size_after self size }
    {
        match self {
            Rule::Take { .. } => size / 2,
            Rule::Pair { .. } => size * 4,
            _ => size,
        }
    }

    /// The numerator at `k` after the rule.
    fn entry(self, from: &[Zw], k: usize) -> Zw
        requires small { length from.now ≤ 2 ^ MOST_CAPACITY }
        requires fits { FitsRule self (length from.now) }
        requires within { k < size_after self (length from.now) }
        ensures { value_of result ≡ number_after self from.now k }
    {
        match self {
            Rule::Phase { k: turns, place } => phase_entry(from, turns, place, k),
            Rule::Flip { place } => flip_entry(from, place, k),
            Rule::Cx { control, target } => cx_entry(from, control, target, k),
            Rule::Cz { one, other } => cz_entry(from, one, other, k),
            Rule::Keep { place, m } => keep_entry(from, place, m, k),
            Rule::Take { place, m } => take_entry(from, place, m, k),
            Rule::Pair { count } => pair_entry(from, count, k),
        }
    }
}

/// After a phase: where the bit is one, the numerator times omega^`turns`.
fn phase_entry(from: &[Zw], turns: u8, place: u32, k: usize) -> Zw
    requires small { length from.now ≤ 2 ^ MOST_CAPACITY }
    requires turns { turns < 8 }
    requires place { HasPlace (length from.now) place }
    requires within { k < length from.now }
    ensures { value_of result ≡ number_after (Rule.Phase turns place) from.now k }
{
    if bit_at(place, k) {
        from[k].times_omega(turns)
    } else {
        from[k]
    }
}

/// After a flip: the numerator whose index has the other bit.
fn flip_entry(from: &[Zw], place: u32, k: usize) -> Zw
    requires small { length from.now ≤ 2 ^ MOST_CAPACITY }
    requires place { HasPlace (length from.now) place }
    requires within { k < length from.now }
    ensures { value_of result ≡ number_after (Rule.Flip place) from.now k }
{
    from[with_other_bit(place, k)]
}

/// After a controlled-not: where the control is one, the numerator whose index has the other bit at the target.
fn cx_entry(from: &[Zw], control: u32, target: u32, k: usize) -> Zw
    requires small { length from.now ≤ 2 ^ MOST_CAPACITY }
    requires control { HasPlace (length from.now) control }
    requires target { HasPlace (length from.now) target }
    requires within { k < length from.now }
    ensures { value_of result ≡ number_after (Rule.Cx control target) from.now k }
{
    if bit_at(control, k) {
        from[with_other_bit(target, k)]
    } else {
        from[k]
    }
}

/// After a change of sign: where both bits are one, the negative.
fn cz_entry(from: &[Zw], one: u32, other: u32, k: usize) -> Zw
    requires small { length from.now ≤ 2 ^ MOST_CAPACITY }
    requires one { HasPlace (length from.now) one }
    requires other { HasPlace (length from.now) other }
    requires within { k < length from.now }
    ensures { value_of result ≡ number_after (Rule.Cz one other) from.now k }
{
    if bit_at(one, k) && bit_at(other, k) {
        from[k].neg()
    } else {
        from[k]
    }
}

/// After a projection: zero where the bit isn't `m`.
fn keep_entry(from: &[Zw], place: u32, m: bool, k: usize) -> Zw
    requires small { length from.now ≤ 2 ^ MOST_CAPACITY }
    requires place { HasPlace (length from.now) place }
    requires within { k < length from.now }
    ensures { value_of result ≡ number_after (Rule.Keep place m) from.now k }
{
    if bit_at(place, k) != m {
        return Zw::ZERO;
    }
    from[k]
}

/// After a wire is taken: the numerator whose index has `m` at its place.
fn take_entry(from: &[Zw], place: u32, m: bool, k: usize) -> Zw
    requires small { length from.now ≤ 2 ^ MOST_CAPACITY }
    requires place { HasPlace (length from.now) place }
    requires within { k < length from.now / 2 }
    ensures { value_of result ≡ number_after (Rule.Take place m) from.now k }
{
    from[with_bit_put_in(place, m, k)]
}

/// After a pair: where its two bits are equal, the numerator whose index hasn't them, and else zero.
fn pair_entry(from: &[Zw], count: u32, k: usize) -> Zw
    requires small { length from.now ≤ 2 ^ MOST_CAPACITY }
    requires size { length from.now ≡ 2 ^ count }
    requires within { k < 4 * length from.now }
    ensures { value_of result ≡ number_after (Rule.Pair count) from.now k }
{
    if bit_at(count, k) != bit_at(count + 1, k) {
        return Zw::ZERO;
    }
    from[with_bit(count + 1, false, with_bit(count, false, k))]
}

/// Fills a list with what the rule makes of the numerators.
fn fill(rule: Rule, from: &[Zw], into: &mut Vec<Zw>)
    requires small { length from.now ≤ 2 ^ MOST_CAPACITY }
    requires fits { FitsRule rule (length from.now) }
    requires room { size_after rule (length from.now) ≤ vec_capacity into.old }
    ensures rewritten { IsRewritten rule from.now into.new.items }
    ensures room { vec_capacity into.old ≤ vec_capacity into.new }
{
    into.clear();
    for k in 0..rule.size_after(from.len()) {
        let _ = into.push(rule.entry(from, k));
    }
}

/// Replaces the numerators by what the rule makes of them.
pub(crate) fn rewrite(rule: Rule, numerators: &mut Vec<Zw>, spare: &mut Vec<Zw>)
    requires small { length numerators.old.items ≤ 2 ^ MOST_CAPACITY }
    requires fits { FitsRule rule (length numerators.old.items) }
    requires room { size_after rule (length numerators.old.items) ≤ vec_capacity spare.old }
    ensures rewritten { IsRewritten rule numerators.old.items numerators.new.items }
    ensures room { vec_capacity spare.old ≤ vec_capacity numerators.new }
    ensures spare_room { vec_capacity spare.new ≡ vec_capacity numerators.old }
{
    fill(rule, numerators, spare);
    mem::swap(numerators, spare);
}
