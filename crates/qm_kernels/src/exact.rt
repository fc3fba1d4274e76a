//! The letters on lists of `Zw`.
ghost use Rattle.std.specs.Prelude.{◌≡◌, ◌≢◌, ℕ, ◌+◌, ◌/◌, ◌<◌, ◌≤◌, ◌^◌, ◌↔◌, IsTrue, length};
ghost use Rattle.qm_zomega.specs.Numbers.{zero_number, ◌⊕◌, ◌⊖◌};
ghost use Rattle.qm_zomega.specs.NumberLists.{number_at, IsListOf};
ghost use Rattle.qm_zomega.specs.Range.{FitsZw};
ghost use Rattle.qm_denot.specs.Places.{HasPlace};
ghost use Rattle.qm_denot.specs.LettersByPlace.{phase_at, flip_at, had_at, cross_at, sign_at, keep_at, take_at, pair_at};

use crate::small::all_small;
use crate::{moves, numbers, sizes};
use qm_zomega::Zw;

/// `Flip` on a place.
pub fn flip(v: &mut [Zw], place: u32)
    requires { HasPlace (length v.old) place }
    ensures { IsListOf v.new (length v.old) (flip_at place (number_at v.old)) }
{
    moves::flip(v, place);
}

/// `Phase` of `omega^k` on a place, for `k` below 8.
pub fn phase(v: &mut [Zw], place: u32, k: u8)
    requires place { HasPlace (length v.old) place }
    requires turns { k < 8 }
    ensures { IsListOf v.new (length v.old) (phase_at k place (number_at v.old)) }
{
    numbers::phase(v, place, k);
}

/// `Cx` on a control and a target.
pub fn cross(v: &mut [Zw], control: u32, target: u32)
    requires control { HasPlace (length v.old) control }
    requires target { HasPlace (length v.old) target }
    requires distinct { control ≢ target }
    ensures { IsListOf v.new (length v.old) (cross_at control target (number_at v.old)) }
{
    moves::cross(v, control, target);
}

/// `Cz` on two places.
pub fn sign(v: &mut [Zw], one: u32, other: u32)
    requires one { HasPlace (length v.old) one }
    requires other { HasPlace (length v.old) other }
    requires distinct { one ≢ other }
    ensures { IsListOf v.new (length v.old) (sign_at one other (number_at v.old)) }
{
    numbers::sign(v, one, other);
}

/// `Keep` on a place: zero where it disagrees with `m`.
pub fn keep(v: &mut [Zw], place: u32, m: bool)
    requires { HasPlace (length v.old) place }
    ensures { IsListOf v.new (length v.old) (keep_at zero_number place m (number_at v.old)) }
{
    moves::keep(v, place, m, Zw::ZERO);
}

/// Whether every sum and difference stays in the range of the numbers.
pub fn fits(lo: &[Zw], hi: &[Zw]) -> bool
    requires { length lo.now ≡ length hi.now }
    ensures { IsTrue result ↔ ((i : ℕ) → i < length lo.now
        → FitsZw (number_at lo.now i ⊕ number_at hi.now i)
        × FitsZw (number_at lo.now i ⊖ number_at hi.now i)) }
{
    numbers::all_fit(lo, hi)
}

/// Puts the sums into `lo` and the differences into `hi`.
pub fn hadamard(lo: &mut [Zw], hi: &mut [Zw])
    requires same { length lo.old ≡ length hi.old }
    requires fits { (i : ℕ) → i < length lo.old
        → FitsZw (number_at lo.old i ⊕ number_at hi.old i)
        × FitsZw (number_at lo.old i ⊖ number_at hi.old i) }
    ensures sums { IsListOf lo.new (length lo.old) (λ i. number_at lo.old i ⊕ number_at hi.old i) }
    ensures differences { IsListOf hi.new (length lo.old)
        (λ i. number_at lo.old i ⊖ number_at hi.old i) }
{
    numbers::mix(lo, hi);
}

/// Whether every number that `Had` on a place makes stays in the range.
pub fn had_fits(v: &[Zw], place: u32) -> bool
    requires { HasPlace (length v.now) place }
    ensures { IsTrue result ↔ ((i : ℕ) → i < length v.now
        → FitsZw (had_at place (number_at v.now) i)) }
{
    all_small(v) || numbers::had_fits(v, place)
}

/// `Had` on a place, where every number that it makes stays in the range.
pub fn had(v: &mut [Zw], place: u32)
    requires place { HasPlace (length v.old) place }
    requires fits { (i : ℕ) → i < length v.old → FitsZw (had_at place (number_at v.old) i) }
    ensures { IsListOf v.new (length v.old) (had_at place (number_at v.old)) }
{
    numbers::had(v, place);
}

/// Brings the numerators whose place is `m` to the front, in order. What stands in the second half then is left open.
pub fn gather(v: &mut [Zw], place: u32, m: bool)
    requires { HasPlace (length v.old) place }
    ensures size { length v.new ≡ length v.old }
    ensures taken { (i : ℕ) → i < length v.old / 2
        → number_at v.new i ≡ take_at place m (number_at v.old) i }
{
    sizes::gather(v, place, m);
}

/// `Take` of `m` at a place: the first half holds the numerators whose place is `m`, in order, and the rest is zero.
pub fn squeeze(v: &mut [Zw], place: u32, m: bool)
    requires { HasPlace (length v.old) place }
    ensures size { length v.new ≡ length v.old }
    ensures taken { (i : ℕ) → i < length v.old / 2
        → number_at v.new i ≡ take_at place m (number_at v.old) i }
    ensures rest { (i : ℕ) → length v.old / 2 ≤ i → number_at v.new i ≡ zero_number }
{
    sizes::squeeze(v, place, m, Zw::ZERO);
}

/// `Pair` on a list of `2^(n+2)` numerators whose last three quarters are zero: its first and last quarter hold the old first one.
pub fn pair_up(v: &mut [Zw], n: u32)
    requires size { length v.old ≡ 2 ^ (n + 2) }
    requires rest { (i : ℕ) → 2 ^ n ≤ i → number_at v.old i ≡ zero_number }
    ensures { IsListOf v.new (length v.old) (pair_at zero_number n (number_at v.old)) }
{
    sizes::pair_up(v, n);
}
