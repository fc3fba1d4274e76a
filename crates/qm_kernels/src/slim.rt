//! Numbers with components of few bits.
ghost use Rattle.std.specs.Prelude.{◌≡◌, ℕ, IsTrue};
ghost use Rattle.qm_zomega.specs.Numbers.{Number, zero_number};
ghost use Rattle.qm_zomega.specs.Range.{IsBelow};
ghost use Rattle.qm_zomega.specs.Zw.{value_of};

use qm_zomega::{Numerator, Zw};

/// A number with components of few bits: what lists ask for that keep a bound on the components of their numbers.
///
/// A component of `n` bits is below `2^n` in absolute value.
pub trait Slim: Numerator {
    /// Every number whose components have at most so many bits can be held.
    const MOST_BITS: u32;

    /// How many bits the components of light numbers have at most.
    const LIGHT_BITS: u32;

    ghost MOST_BITS: { ℕ };

    ghost LIGHT_BITS: { ℕ };

    /// A value that stands for 0.
    ghost nought: { Self };

    /// The same number with components of 128 bits.
    fn widened(self) -> Zw
        ensures { value_of result ≡ Self.meaning self };

    /// Whether each component has at most `LIGHT_BITS` bits.
    fn is_light(self) -> bool
        ensures { IsTrue result → IsBelow LIGHT_BITS (Self.meaning self) };

    /// `nought` stands for 0.
    ghost nought_is: { Self.meaning nought ≡ zero_number };

    /// Numbers of so few bits can be held.
    ghost holds_small: { (z : Number) → IsBelow MOST_BITS z → Self.holds z };
}
