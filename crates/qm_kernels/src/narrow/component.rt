//! Arithmetic of one component of 32 bits.

ghost use Rattle.std.specs.Prelude.{◌≡◌, ◌≤ℤ◌, ◌↔◌, pos, ◌+ℤ◌, ◌-ℤ◌, IsTrue};
ghost use Rattle.qm_zomega.specs.Component.{IsEven};
ghost use Rattle.qm_kernels.specs.Parts.{IsPart, IsLightPart};

/// Above every component.
const LIMIT: i32 = 1 << 30;

/// Whether a number is in the range of components.
#[inline(always)]
pub fn is_part(x: i32) -> bool
    ensures { IsTrue result ↔ IsPart x }
{
    -LIMIT < x && x < LIMIT
}

/// Above every light component.
const LIGHT: i32 = 1 << 24;

/// Whether a number is in the range of light components.
#[inline(always)]
pub fn is_light_part(x: i32) -> bool
    ensures { IsTrue result ↔ IsLightPart x }
{
    -LIGHT < x && x < LIGHT
}

/// The sum of two components.
#[inline(always)]
pub fn fitting_sum(x: i32, y: i32) -> i32
    requires x_fits { IsPart x }
    requires y_fits { IsPart y }
    ensures { result ≡ x +ℤ y }
{
    x + y
}

/// The difference of two components.
#[inline(always)]
pub fn fitting_difference(x: i32, y: i32) -> i32
    requires x_fits { IsPart x }
    requires y_fits { IsPart y }
    ensures { result ≡ x -ℤ y }
{
    x - y
}

/// Whether the sum and the difference of two components are components.
#[inline(always)]
pub fn both_fit(x: i32, y: i32) -> bool
    requires x_fits { IsPart x }
    requires y_fits { IsPart y }
    ensures { IsTrue result ↔ (IsPart (x +ℤ y) × IsPart (x -ℤ y)) }
{
    is_part(x + y) & is_part(x - y)
}

/// A number as `2 * half + rest`, where `rest` is 0 or 1.
#[derive(Clone, Copy)]
struct Halves {
    half: i32,
    rest: i32,
}

/// `x` halved, rounded down.
#[inline(always)]
fn halved(x: i32) -> Halves
    ensures whole { result.half +ℤ result.half +ℤ result.rest ≡ x }
    ensures low { pos 0 ≤ℤ result.rest }
    ensures high { result.rest ≤ℤ pos 1 }
{
    let half = x >> 1;
    Halves {
        half,
        rest: x - half - half,
    }
}

/// Half of `x + y`, which the caller knows to be even.
#[inline(always)]
pub fn half_sum(x: i32, y: i32) -> i32
    requires x_fits { IsPart x }
    requires y_fits { IsPart y }
    requires even { IsEven (x +ℤ y) }
    ensures { result +ℤ result ≡ x +ℤ y }
{
    halved(x + y).half
}

/// Half of `x - y`, which the caller knows to be even.
#[inline(always)]
pub fn half_difference(x: i32, y: i32) -> i32
    requires x_fits { IsPart x }
    requires y_fits { IsPart y }
    requires even { IsEven (x -ℤ y) }
    ensures { result +ℤ result ≡ x -ℤ y }
{
    halved(x - y).half
}

/// Whether `x + y` is even.
#[inline(always)]
pub fn is_even_sum(x: i32, y: i32) -> bool
    ensures { IsTrue result ↔ IsEven (x +ℤ y) }
{
    halved(x).rest == halved(y).rest
}
