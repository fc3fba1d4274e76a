//! The reduced form of vectors of any numbers of Z[omega].
ghost use Rattle.std.specs.Prelude.{◌≡◌, ℕ, ◌↔◌, IsTrue, length};
ghost use Rattle.qm_zomega.specs.Numbers.{zero_number, root2_of};
ghost use Rattle.qm_zomega.specs.NumberLists.{meant_at, AreDivisible, AreReduced, ReducesBy};

use qm_zomega::Numerator;

/// Whether root2 divides each number. The test ends at the first number that it does not divide.
fn all_halvable<Z: Numerator>(list: &[Z]) -> bool
    ensures { IsTrue result ↔ AreDivisible (meant_at Z.meaning list.now) }
{
    for i in 0..list.len() {
        if !list[i].is_halvable() {
            return false;
        }
    }
    true
}

/// Whether each number is zero. The test ends at the first number that is not.
fn all_zero<Z: Numerator>(list: &[Z]) -> bool
    ensures { IsTrue result → (i : ℕ) → meant_at Z.meaning list.now i ≡ zero_number }
{
    for i in 0..list.len() {
        if !list[i].is_nought() {
            return false;
        }
    }
    true
}

/// Divides each number by root2.
fn halve_all<Z: Numerator>(list: &mut [Z])
    requires { AreDivisible (meant_at Z.meaning list.old) }
    ensures size { length list.new ≡ length list.old }
    ensures halved { (i : ℕ) → root2_of (meant_at Z.meaning list.new i)
        ≡ meant_at Z.meaning list.old i }
{
    for i in 0..list.len() {
        list[i] = list[i].halved();
    }
}

/// Leaves the reduced form of the vector over `root2^exponent`.
pub fn reduce<Z: Numerator>(list: &mut [Z], exponent: &mut u64)
    ensures { ReducesBy Z.meaning list.old exponent.old list.new exponent.new }
{
    let mut left = *exponent;
    while left > 0 && all_halvable(list) {
        if all_zero(list) {
            left = 0;
        } else {
            halve_all(list);
            left -= 1;
        }
    }
    *exponent = left;
}

/// Whether the vector over `root2^exponent` is reduced.
pub fn is_reduced<Z: Numerator>(list: &[Z], exponent: u64) -> bool
    ensures { IsTrue result ↔ AreReduced (meant_at Z.meaning list.now) exponent }
{
    exponent == 0 || !all_halvable(list)
}
