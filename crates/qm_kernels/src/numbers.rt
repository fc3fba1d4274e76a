//! The letters that compute.
ghost use Rattle.std.specs.Prelude.{◌≡◌, ◌≢◌, ℕ, ◌<◌, length, IsTrue, ◌↔◌};
ghost use Rattle.qm_zomega.specs.Numbers.{zero_number, ◌⊕◌, ◌⊖◌, omega_times};
ghost use Rattle.qm_zomega.specs.NumberLists.{meant_at, IsListBy};
ghost use Rattle.qm_denot.specs.Places.{HasPlace};
ghost use Rattle.qm_denot.specs.LettersByPlace.{phase_at, sign_at, had_at};
ghost use Rattle.qm_kernels.specs.Done.{IsComputed, AllHeld};

use crate::blocks::{half_block, on_blocks};
use crate::number_steps::{Mix, SignUpper, Turn};
use qm_zomega::Numerator;

/// Turns each number by `omega^E`, for `E` below 8.
pub(crate) fn turn_each<Z: Numerator, const E: u8>(list: &mut [Z])
    requires { E < 8 }
    ensures { IsListBy Z.meaning zero_number list.new (length list.old)
        (λ i. omega_times E (meant_at Z.meaning list.old i)) }
{
    for i in 0..list.len() {
        list[i] = list[i].turned(E);
    }
}

/// Whether every sum and difference fits.
pub fn all_fit<Z: Numerator>(low: &[Z], high: &[Z]) -> bool
    requires { length low.now ≡ length high.now }
    ensures { IsTrue result ↔ ((i : ℕ) → i < length low.now
        → Z.holds (meant_at Z.meaning low.now i ⊕ meant_at Z.meaning high.now i)
        × Z.holds (meant_at Z.meaning low.now i ⊖ meant_at Z.meaning high.now i)) }
{
    for i in 0..low.len() {
        if !low[i].fits(high[i]) {
            return false;
        }
    }
    true
}

/// Puts the sums into `low` and the differences into `high`.
pub fn mix<Z: Numerator>(low: &mut [Z], high: &mut [Z])
    requires same { length low.old ≡ length high.old }
    requires fits { (i : ℕ) → i < length low.old
        → Z.holds (meant_at Z.meaning low.old i ⊕ meant_at Z.meaning high.old i)
        × Z.holds (meant_at Z.meaning low.old i ⊖ meant_at Z.meaning high.old i) }
    ensures sums { IsListBy Z.meaning zero_number low.new (length low.old)
        (λ i. meant_at Z.meaning low.old i ⊕ meant_at Z.meaning high.old i) }
    ensures differences { IsListBy Z.meaning zero_number high.new (length low.old)
        (λ i. meant_at Z.meaning low.old i ⊖ meant_at Z.meaning high.old i) }
{
    for i in 0..low.len() {
        let p = low[i];
        let q = high[i];
        low[i] = p.plus(q);
        high[i] = p.minus(q);
    }
}

/// Whether every number that `Had` on a place makes fits.
pub fn had_fits<Z: Numerator>(list: &[Z], place: u32) -> bool
    requires { HasPlace (length list.now) place }
    ensures { IsTrue result ↔ AllHeld Z.meaning Z.holds (had_at place) list.now }
{
    let half = half_block(list.len(), place);
    let mut start = 0;
    while start < list.len() {
        let (_, rest) = list.split_at(start);
        let (low, rest) = rest.split_at(half);
        let (high, _) = rest.split_at(half);
        if !all_fit(low, high) {
            return false;
        }
        start += 2 * half;
    }
    true
}

/// `Had` on a place, where every number that it makes fits.
pub fn had<Z: Numerator>(list: &mut [Z], place: u32)
    requires place { HasPlace (length list.old) place }
    requires fits { AllHeld Z.meaning Z.holds (had_at place) list.old }
    ensures { IsComputed Z.meaning (had_at place) list.old list.new }
{
    let half = half_block(list.len(), place);
    on_blocks(&Mix { place }, list, half);
}

/// `Phase` of `omega^E` on a place.
fn phase_by<Z: Numerator, const E: u8>(list: &mut [Z], place: u32)
    requires place { HasPlace (length list.old) place }
    requires turns { E < 8 }
    ensures { IsComputed Z.meaning (phase_at E place) list.old list.new }
{
    let half = half_block(list.len(), place);
    on_blocks(&Turn::<E> { place }, list, half);
}

/// Calls the function of each number of turns.
macro_rules! by_turns {
    ($turns:ident, $list:ident, $place:ident, $($e:literal)*) => {
        match $turns {
            $($e => phase_by::<Z, $e>($list, $place),)*
            _ => unreachable!(),
        }
    };
}

/// `Phase` of `omega^k` on a place, for `k` below 8.
pub fn phase<Z: Numerator>(list: &mut [Z], place: u32, k: u8)
    requires place { HasPlace (length list.old) place }
    requires turns { k < 8 }
    ensures { IsComputed Z.meaning (phase_at k place) list.old list.new }
{
    by_turns!(k, list, place, 0 1 2 3 4 5 6 7)
}

/// `Cz` on two places, the first of them higher.
fn sign_below<Z: Numerator>(list: &mut [Z], high: u32, low: u32)
    requires high { HasPlace (length list.old) high }
    requires below { low < high }
    ensures { IsComputed Z.meaning (sign_at high low) list.old list.new }
{
    let half = half_block(list.len(), high);
    on_blocks(&SignUpper { high, low }, list, half);
}

/// `Cz` on two places.
pub fn sign<Z: Numerator>(list: &mut [Z], one: u32, other: u32)
    requires one { HasPlace (length list.old) one }
    requires other { HasPlace (length list.old) other }
    requires distinct { one ≢ other }
    ensures { IsComputed Z.meaning (sign_at one other) list.old list.new }
{
    if other < one {
        sign_below(list, one, other);
    } else {
        sign_below(list, other, one);
    }
}
