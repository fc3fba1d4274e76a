//! Numbers of Z[omega], however their components are held.

ghost use Rattle.std.specs.Prelude.{◌≡◌, ◌<◌, ◌↔◌, IsTrue};
ghost use Rattle.qm_zomega.specs.Numbers.{Number, zero_number, ◌⊕◌, ◌⊖◌, omega_times, root2_of, IsDivisible};
ghost use Rattle.qm_zomega.specs.Range.{FitsZw};
ghost use Rattle.qm_zomega.specs.Zw.{value_of};

use crate::Zw;
use crate::component::{fitting_difference, fitting_sum};

/// A number of Z[omega] of some range: what the loops over numerators ask of the numbers.
pub trait Numerator: Copy {
    /// The number that a value stands for.
    ghost meaning: { Self → Number };

    /// The type can hold the number.
    ghost holds: { Number → Type 0 };

    /// The number 0.
    fn zero() -> Self
        ensures { meaning result ≡ zero_number };

    /// Whether the number is 0.
    fn is_nought(self) -> bool
        ensures { IsTrue result ↔ (meaning self ≡ zero_number) };

    /// omega^e times the number, for `e` below 8.
    fn turned(self, e: u8) -> Self
        requires { e < 8 }
        ensures { meaning result ≡ omega_times e (meaning self) };

    /// Whether the type can hold the sum and the difference.
    fn fits(self, other: Self) -> bool
        ensures { IsTrue result
            ↔ (holds (meaning self ⊕ meaning other) × holds (meaning self ⊖ meaning other)) };

    /// The sum, which the caller knows to fit.
    fn plus(self, other: Self) -> Self
        requires { holds (meaning self ⊕ meaning other) }
        ensures { meaning result ≡ meaning self ⊕ meaning other };

    /// The difference, which the caller knows to fit.
    fn minus(self, other: Self) -> Self
        requires { holds (meaning self ⊖ meaning other) }
        ensures { meaning result ≡ meaning self ⊖ meaning other };

    /// Whether root2 divides the number.
    fn is_halvable(self) -> bool
        ensures { IsTrue result ↔ IsDivisible (meaning self) };

    /// The quotient by root2 of a number that it divides.
    fn halved(self) -> Self
        requires { IsDivisible (meaning self) }
        ensures { root2_of (meaning result) ≡ meaning self };
}

impl Numerator for Zw {
    ghost meaning = { value_of };

    ghost holds = { FitsZw };

    fn zero() -> Zw {
        Zw::ZERO
    }

    fn is_nought(self) -> bool {
        self.is_zero()
    }

    #[inline(always)]
    fn turned(self, e: u8) -> Zw {
        self.times_omega(e)
    }

    fn fits(self, other: Zw) -> bool {
        self.add(other).is_some() && self.sub(other).is_some()
    }

    #[inline(always)]
    #[tactic(auto, unfolding(crate::specs::Numbers::plus))]
    fn plus(self, other: Zw) -> Zw {
        Zw {
            a: fitting_sum(self.a, other.a),
            b: fitting_sum(self.b, other.b),
            c: fitting_sum(self.c, other.c),
            d: fitting_sum(self.d, other.d),
        }
    }

    #[inline(always)]
    #[tactic(auto, unfolding(crate::specs::Numbers::minus))]
    fn minus(self, other: Zw) -> Zw {
        Zw {
            a: fitting_difference(self.a, other.a),
            b: fitting_difference(self.b, other.b),
            c: fitting_difference(self.c, other.c),
            d: fitting_difference(self.d, other.d),
        }
    }

    fn is_halvable(self) -> bool {
        self.halvable()
    }

    fn halved(self) -> Zw {
        self.root_half()
    }
}
