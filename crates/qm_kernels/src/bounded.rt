//! The letters on lists of slim numbers, and what each does to a bound on the components.
ghost use Rattle.std.specs.Prelude.{◌≡◌, ◌≢◌, ℕ, ◌+◌, ◌/◌, ◌<◌, ◌≤◌, ◌^◌, IsTrue, length};
ghost use Rattle.qm_zomega.specs.Numbers.{zero_number};
ghost use Rattle.qm_zomega.specs.NumberLists.{meant_at, ReducesBy};
ghost use Rattle.qm_denot.specs.Places.{HasPlace};
ghost use Rattle.qm_denot.specs.LettersByPlace.{phase_at, flip_at, had_at, cross_at, sign_at, keep_at, take_at, pair_at};
ghost use Rattle.qm_kernels.specs.Done.{IsComputed, AllHeld};
ghost use Rattle.qm_kernels.specs.Below.{AllBelow};
ghost use Rattle.qm_kernels.specs.HadReduced.{HadReduces};

use crate::slim::Slim;
use crate::{halving, moves, numbers, sizes};

/// `Flip` on a place.
pub fn flip<Z: Slim>(list: &mut [Z], place: u32)
    requires { HasPlace (length list.old) place }
    ensures done { IsComputed Z.meaning (flip_at place) list.old list.new }
    ensures below { (n : ℕ) → AllBelow Z.meaning n list.old → AllBelow Z.meaning n list.new }
{
    moves::flip(list, place);
}

/// `Phase` of `omega^k` on a place, for `k` below 8.
pub fn phase<Z: Slim>(list: &mut [Z], place: u32, k: u8)
    requires place { HasPlace (length list.old) place }
    requires turns { k < 8 }
    ensures done { IsComputed Z.meaning (phase_at k place) list.old list.new }
    ensures below { (n : ℕ) → AllBelow Z.meaning n list.old → AllBelow Z.meaning n list.new }
{
    numbers::phase(list, place, k);
}

/// `Cx` on a control and a target.
pub fn cross<Z: Slim>(list: &mut [Z], control: u32, target: u32)
    requires control { HasPlace (length list.old) control }
    requires target { HasPlace (length list.old) target }
    requires distinct { control ≢ target }
    ensures done { IsComputed Z.meaning (cross_at control target) list.old list.new }
    ensures below { (n : ℕ) → AllBelow Z.meaning n list.old → AllBelow Z.meaning n list.new }
{
    moves::cross(list, control, target);
}

/// `Cz` on two places.
pub fn sign<Z: Slim>(list: &mut [Z], one: u32, other: u32)
    requires one { HasPlace (length list.old) one }
    requires other { HasPlace (length list.old) other }
    requires distinct { one ≢ other }
    ensures done { IsComputed Z.meaning (sign_at one other) list.old list.new }
    ensures below { (n : ℕ) → AllBelow Z.meaning n list.old → AllBelow Z.meaning n list.new }
{
    numbers::sign(list, one, other);
}

/// `Keep` on a place: zero where it disagrees with `m`.
pub fn keep<Z: Slim>(list: &mut [Z], place: u32, m: bool)
    requires { HasPlace (length list.old) place }
    ensures done { IsComputed Z.meaning (keep_at zero_number place m) list.old list.new }
    ensures below { (n : ℕ) → AllBelow Z.meaning n list.old → AllBelow Z.meaning n list.new }
{
    moves::keep(list, place, m, Z::zero());
}

/// `Had` on a place, where every number that it makes can be held, and the reduced form of the result over `root2^(exponent + 1)`.
/// It doubles a bound on the components.
///
/// A test that ends at the first sum that root2 does not divide comes first; where it divides all, one pass adds and divides.
pub fn had_reduced<Z: Slim>(list: &mut [Z], place: u32, exponent: &mut u64)
    requires place { HasPlace (length list.old) place }
    requires fits { AllHeld Z.meaning Z.holds (had_at place) list.old }
    requires more { exponent.old + 1 < 2 ^ 64 }
    ensures done { HadReduces Z.meaning place list.old exponent.old list.new exponent.new }
    ensures below { (n : ℕ) → AllBelow Z.meaning n list.old
        → AllBelow Z.meaning (n + 1) list.new }
{
    if halving::had_divides(list, place) {
        halving::had_halved(list, place);
        reduce(list, exponent);
    } else {
        numbers::had(list, place);
        *exponent += 1;
    }
}

/// Leaves the reduced form of the vector over `root2^exponent`.
pub fn reduce<Z: Slim>(list: &mut [Z], exponent: &mut u64)
    ensures done { ReducesBy Z.meaning list.old exponent.old list.new exponent.new }
    ensures below { (n : ℕ) → AllBelow Z.meaning n list.old → AllBelow Z.meaning n list.new }
{
    qm_scale::generic::reduce(list, exponent);
}

/// Brings the numbers whose place is `m` to the front, in order. What stands in the second half then is left open.
pub fn gather<Z: Slim>(list: &mut [Z], place: u32, m: bool)
    requires { HasPlace (length list.old) place }
    ensures size { length list.new ≡ length list.old }
    ensures taken { (i : ℕ) → i < length list.old / 2
        → meant_at Z.meaning list.new i ≡ take_at place m (meant_at Z.meaning list.old) i }
{
    sizes::gather(list, place, m);
}

/// `Pair` on a list of `2^(n+2)` numbers whose last three quarters are zero: its first and last quarter hold the old first one.
pub fn pair_up<Z: Slim>(list: &mut [Z], n: u32)
    requires size { length list.old ≡ 2 ^ (n + 2) }
    requires rest { (i : ℕ) → 2 ^ n ≤ i → meant_at Z.meaning list.old i ≡ zero_number }
    ensures done { IsComputed Z.meaning (pair_at zero_number n) list.old list.new }
    ensures below { (m : ℕ) → AllBelow Z.meaning m list.old → AllBelow Z.meaning m list.new }
{
    sizes::pair_up(list, n);
}

/// Whether each number is light.
pub fn are_light<Z: Slim>(list: &[Z]) -> bool
    ensures { IsTrue result → AllBelow Z.meaning Z.LIGHT_BITS list.now }
{
    for i in 0..list.len() {
        if !list[i].is_light() {
            return false;
        }
    }
    true
}
