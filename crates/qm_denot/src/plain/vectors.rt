//! Lists of numerators as vectors: the Hadamard gate, and division by root2.
ghost use Rattle.std.specs.Prelude.{◌≡◌, ◌≢◌, ℕ, ◌+◌, ◌*◌, ◌<◌, ◌≤◌, ◌^◌, ◌↔◌, length, IsTrue, IsSome, IfSome, IsErr, IsOk, OnOk};
ghost use Rattle.std.specs.Vec.{vec_capacity};
ghost use Rattle.qm_zomega.specs.Numbers.{zero_number, root2_of};
ghost use Rattle.qm_zomega.specs.Range.{FitsZw};
ghost use Rattle.qm_zomega.specs.Zw.{value_of};
ghost use Rattle.qm_denot.specs.LettersByPlace.{had_at};
ghost use Rattle.qm_denot.specs.Places.{HasPlace};
ghost use Rattle.qm_zomega.specs.NumberLists.{AllDivisible, IsReducedList, Reduces, number_at};

use crate::amps::Overflow;
use crate::plain::places::{bit_at, with_bit};
use qm_limits::MOST_CAPACITY;
use qm_zomega::Zw;

/// What `Had` on a place makes of the numerator at `k`; nothing where a component leaves the range.
fn had_entry(from: &[Zw], place: u32, k: usize) -> Option<Zw>
    requires small { length from.now ≤ 2 ^ MOST_CAPACITY }
    requires place { HasPlace (length from.now) place }
    requires within { k < length from.now }
    ensures fits { IsSome result ↔ FitsZw (had_at place (number_at from.now) k) }
    ensures value { IfSome result (λ z. value_of z ≡ had_at place (number_at from.now) k) }
{
    if bit_at(place, k) {
        from[with_bit(place, false, k)].sub(from[k])
    } else {
        from[k].add(from[with_bit(place, true, k)])
    }
}

/// Fills a list with what `Had` on a place makes of the numerators.
///
/// `Overflow` comes exactly where a component of some number leaves the range.
pub(crate) fn fill_had(from: &[Zw], into: &mut Vec<Zw>, place: u32) -> Result<(), Overflow>
    requires small { length from.now ≤ 2 ^ MOST_CAPACITY }
    requires place { HasPlace (length from.now) place }
    requires room { length from.now ≤ vec_capacity into.old }
    ensures size { OnOk result (length into.new.items ≡ length from.now) }
    ensures numbers { OnOk result ((k : ℕ) → k < length from.now
        → number_at into.new.items k ≡ had_at place (number_at from.now) k) }
    ensures fits { IsOk result → (k : ℕ) → k < length from.now
        → FitsZw (had_at place (number_at from.now) k) }
    ensures overflow { IsErr result
        → (k : ℕ) × (k < length from.now) × (¬ (FitsZw (had_at place (number_at from.now) k))) }
    ensures room { vec_capacity into.old ≤ vec_capacity into.new }
{
    into.clear();
    for k in 0..from.len() {
        let Some(z) = had_entry(from, place, k) else {
            return Err(Overflow);
        };
        let _ = into.push(z);
    }
    Ok(())
}

/// Appends as many zeros as there are numerators.
pub(crate) fn double(numerators: &mut Vec<Zw>)
    requires small { length numerators.old.items ≤ 2 ^ MOST_CAPACITY }
    requires room { 2 * length numerators.old.items ≤ vec_capacity numerators.old }
    ensures size { length numerators.new.items ≡ 2 * length numerators.old.items }
    ensures numbers { (k : ℕ) → number_at numerators.new.items k
        ≡ number_at numerators.old.items k }
    ensures room { vec_capacity numerators.old ≤ vec_capacity numerators.new }
{
    let size = numerators.len();
    let _ = numerators.resize(2 * size, Zw::ZERO);
}

/// Whether root2 divides each numerator.
fn all_halvable(numerators: &[Zw]) -> bool
    ensures { IsTrue result ↔ AllDivisible numerators.now }
{
    for k in 0..numerators.len() {
        if !numerators[k].halvable() {
            return false;
        }
    }
    true
}

/// Divides each numerator by root2.
fn halve_all(numerators: &mut [Zw])
    requires { AllDivisible numerators.old }
    ensures size { length numerators.new ≡ length numerators.old }
    ensures halved { (k : ℕ) → root2_of (number_at numerators.new k) ≡ number_at numerators.old k }
{
    for k in 0..numerators.len() {
        numerators[k] = numerators[k].root_half();
    }
}

/// Whether each numerator is zero.
fn all_zero(numerators: &[Zw]) -> bool
    ensures { IsTrue result → (k : ℕ) → number_at numerators.now k ≡ zero_number }
{
    for k in 0..numerators.len() {
        if !numerators[k].is_zero() {
            return false;
        }
    }
    true
}

/// Leaves the reduced form of the vector over `root2^exponent`, and answers its exponent.
pub(crate) fn reduce(numerators: &mut [Zw], exponent: u64) -> u64
    ensures { Reduces numerators.old exponent numerators.new result }
{
    if all_zero(numerators) {
        return 0;
    }
    let mut exponent = exponent;
    while exponent > 0 && all_halvable(numerators) {
        halve_all(numerators);
        exponent -= 1;
    }
    exponent
}
