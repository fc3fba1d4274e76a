//! Arithmetic of one component: sums and differences that stay in the range, and halves.

ghost use Rattle.std.specs.Prelude.{◌≡◌, ◌≤ℤ◌, ◌↔◌, pos, ◌+ℤ◌, ◌-ℤ◌, IsTrue};
ghost use Rattle.std.specs.Option.{SomeIff};
ghost use Rattle.qm_zomega.specs.Component.{IsEven};
ghost use Rattle.qm_zomega.specs.Range.{IsInRange};

/// The sum, or `None` where it leaves the range.
pub fn ranged_sum(x: i128, y: i128) -> Option<i128>
    ensures { SomeIff result (IsInRange (x +ℤ y)) (x +ℤ y) }
{
    match x.checked_add(y) {
        Some(sum) if sum != i128::MIN => Some(sum),
        _ => None,
    }
}

/// The difference, or `None` where it leaves the range.
pub fn ranged_difference(x: i128, y: i128) -> Option<i128>
    ensures { SomeIff result (IsInRange (x -ℤ y)) (x -ℤ y) }
{
    match x.checked_sub(y) {
        Some(difference) if difference != i128::MIN => Some(difference),
        _ => None,
    }
}

/// The sum, which the caller knows to be in the range.
#[inline(always)]
pub fn fitting_sum(x: i128, y: i128) -> i128
    requires { IsInRange (x +ℤ y) }
    ensures { result ≡ x +ℤ y }
{
    x + y
}

/// The difference, which the caller knows to be in the range.
#[inline(always)]
pub fn fitting_difference(x: i128, y: i128) -> i128
    requires { IsInRange (x -ℤ y) }
    ensures { result ≡ x -ℤ y }
{
    x - y
}

/// A number as `2 * half + rest`, where `rest` is 0 or 1.
#[derive(Clone, Copy)]
struct Halves {
    half: i128,
    rest: i128,
}

/// `x` halved, rounded down.
fn halved(x: i128) -> Halves
    ensures whole { result.half +ℤ result.half +ℤ result.rest ≡ x }
    ensures low { pos 0 ≤ℤ result.rest }
    ensures high { result.rest ≤ℤ pos 1 }
{
    let half = x >> 1;
    Halves {
        half,
        rest: x - half - half,
    }
}

/// Half of `x + y`, which the caller knows to be even. The sum itself may leave 128 bits.
pub fn half_sum(x: i128, y: i128) -> i128
    requires x_fits { IsInRange x }
    requires y_fits { IsInRange y }
    requires even { IsEven (x +ℤ y) }
    ensures { result +ℤ result ≡ x +ℤ y }
{
    let first = halved(x);
    let second = halved(y);
    first.half + second.half + first.rest
}

/// Half of `x - y`, which the caller knows to be even. The difference itself may leave 128 bits.
pub fn half_difference(x: i128, y: i128) -> i128
    requires x_fits { IsInRange x }
    requires y_fits { IsInRange y }
    requires even { IsEven (x -ℤ y) }
    ensures { result +ℤ result ≡ x -ℤ y }
{
    halved(x).half - halved(y).half
}

/// Whether `x + y` is even.
pub fn is_even_sum(x: i128, y: i128) -> bool
    ensures { IsTrue result ↔ IsEven (x +ℤ y) }
{
    halved(x).rest == halved(y).rest
}
