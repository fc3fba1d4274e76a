//! The letters that change how many places a list has.
ghost use Rattle.std.specs.Prelude.{◌≡◌, ℕ, ◌+◌, ◌/◌, ◌*◌, ◌<◌, ◌≤◌, ◌^◌, List, length};
ghost use Rattle.qm_zomega.specs.NumberLists.{seen_at};
ghost use Rattle.qm_denot.specs.Places.{HasPlace};
ghost use Rattle.qm_denot.specs.LettersByPlace.{take_at};

use crate::blocks::half_block;
use crate::moves::clear;

/// Brings the entries whose place is `m` to the front of the list, in order. What stands in its second half then is left open.
pub fn gather<Z: Copy>(list: &mut [Z], place: u32, m: bool)
    requires { HasPlace (length list.old) place }
    ensures size { length list.new ≡ length list.old }
    ensures gathered { (past : Z) (i : ℕ) → i < length list.old / 2
        → seen_at (λ x. x) past list.new i ≡ take_at place m (seen_at (λ x. x) past list.old) i }
{
    let half = half_block(list.len(), place);
    let kept = if m { half } else { 0 };
    let mut start = 0;
    while start < list.len() / 2 {
        let from = 2 * start + kept;
        list.copy_within(from..from + half, start);
        start += half;
    }
}

/// `Take` of the bit `m` at a place: the first half of the list holds the entries whose place is `m`, in order, and the rest is zero.
pub fn squeeze<Z: Copy>(list: &mut [Z], place: u32, m: bool, zero: Z)
    requires { HasPlace (length list.old) place }
    ensures size { length list.new ≡ length list.old }
    ensures taken { (past : Z) (i : ℕ) → i < length list.old / 2
        → seen_at (λ x. x) past list.new i ≡ take_at place m (seen_at (λ x. x) past list.old) i }
    ensures rest { (past : Z) (i : ℕ) → length list.old / 2 ≤ i → i < length list.old
        → seen_at (λ x. x) past list.new i ≡ zero }
{
    gather(list, place, m);
    let half = list.len() / 2;
    let (_, rest) = list.split_at_mut(half);
    clear(rest, zero);
}

/// Copies the first quarter of a list of `2^(n+2)` entries into the last one.
///
/// Where the last three quarters were zero, that is `Pair`.
pub fn pair_up<Z: Copy>(list: &mut [Z], n: u32)
    requires { length list.old ≡ 2 ^ (n + 2) }
    ensures size { length list.new ≡ length list.old }
    ensures kept { (past : Z) (i : ℕ) → i < 3 * 2 ^ n
        → seen_at (λ x. x) past list.new i ≡ seen_at (λ x. x) past list.old i }
    ensures copied { (past : Z) (i : ℕ) → i < 2 ^ n
        → seen_at (λ x. x) past list.new (3 * 2 ^ n + i) ≡ seen_at (λ x. x) past list.old i }
{
    let quarter = list.len() / 4;
    let (first, rest) = list.split_at_mut(quarter);
    let (_, last) = rest.split_at_mut(2 * quarter);
    last.copy_from_slice(first);
}
