//! Exact numbers of Z[omega], omega = exp(i pi / 4), with components of 128 bits.
//!
//! omega^4 = -1, and root2 = omega - omega^3 is the square root of 2. No call rounds or allocates.
#![tactic(auto)]

ghost use Rattle.qm_zomega.specs.Range.{IsInRange};

mod component;
mod numerator;
mod root2;

use component::{half_difference, half_sum, is_even_sum, ranged_difference, ranged_sum};
pub use numerator::Numerator;
pub use root2::root2_law;

/// The number `a + b omega + c omega^2 + d omega^3`.
///
/// Each component is in the range from `-(2^127 - 1)` to `2^127 - 1`, so a negative always fits.
#[derive(Clone, Copy, PartialEq, Eq, Debug)]
pub struct Zw {
    /// The whole part.
    pub a: i128,
    /// How often omega is taken.
    pub b: i128,
    /// How often omega^2, which is i, is taken.
    pub c: i128,
    /// How often omega^3 is taken.
    pub d: i128,
    ghost a_fits: { IsInRange a },
    ghost b_fits: { IsInRange b },
    ghost c_fits: { IsInRange c },
    ghost d_fits: { IsInRange d },
}

impl Zw {
    ghost use Rattle.std.specs.Prelude.{◌≡◌, ◌<◌, ◌≤◌, ◌↔◌, ℕ, IsTrue, IsSome, IfSome};
    ghost use Rattle.qm_zomega.specs.Numbers.{zero_number, ◌⊕◌, ◌⊖◌, negative, turned, omega_times, root2_of, IsDivisible};
    ghost use Rattle.qm_zomega.specs.Range.{FitsZw, IsBelow};
    ghost use Rattle.qm_zomega.specs.Zw.{value_of};

    /// The number 0.
    pub const ZERO: Zw = Zw {
        a: 0,
        b: 0,
        c: 0,
        d: 0,
    };

    /// The number 1.
    pub const ONE: Zw = Zw {
        a: 1,
        b: 0,
        c: 0,
        d: 0,
    };

    /// The sum, component by component. `None` exactly where a component leaves the range.
    pub fn add(self, other: Zw) -> Option<Zw>
        ensures fits { IsSome result ↔ FitsZw (value_of self ⊕ value_of other) }
        ensures value { IfSome result (λ z. value_of z ≡ value_of self ⊕ value_of other) }
    {
        Some(Zw {
            a: ranged_sum(self.a, other.a)?,
            b: ranged_sum(self.b, other.b)?,
            c: ranged_sum(self.c, other.c)?,
            d: ranged_sum(self.d, other.d)?,
        })
    }

    /// The difference, component by component. `None` exactly where a component leaves the range.
    pub fn sub(self, other: Zw) -> Option<Zw>
        ensures fits { IsSome result ↔ FitsZw (value_of self ⊖ value_of other) }
        ensures value { IfSome result (λ z. value_of z ≡ value_of self ⊖ value_of other) }
    {
        Some(Zw {
            a: ranged_difference(self.a, other.a)?,
            b: ranged_difference(self.b, other.b)?,
            c: ranged_difference(self.c, other.c)?,
            d: ranged_difference(self.d, other.d)?,
        })
    }

    /// The negative, `(-a, -b, -c, -d)`.
    pub fn neg(self) -> Zw
        ensures { value_of result ≡ negative (value_of self) }
    {
        Zw {
            a: -self.a,
            b: -self.b,
            c: -self.c,
            d: -self.d,
        }
    }

    /// omega times the number, `(-d, a, b, c)`.
    #[tactic(auto, unfolding(crate::specs::Numbers::turned))]
    fn turn(self) -> Zw
        ensures { value_of result ≡ turned (value_of self) }
    {
        Zw {
            a: -self.d,
            b: self.a,
            c: self.b,
            d: self.c,
        }
    }

    /// omega^e times the number, for `e` below 8. All powers are reached, since omega^8 = 1.
    pub fn times_omega(self, e: u8) -> Zw
        requires { e < 8 }
        ensures { value_of result ≡ omega_times e (value_of self) }
    {
        let mut z = self;
        for i in 0..e {
            z = z.turn();
        }
        z
    }

    /// Whether root2 divides the number: exactly where `a + c` and `b + d` are even.
    pub fn halvable(self) -> bool
        ensures { IsTrue result ↔ IsDivisible (value_of self) }
    {
        is_even_sum(self.a, self.c) && is_even_sum(self.b, self.d)
    }

    /// The quotient by root2, `((b-d)/2, (a+c)/2, (b+d)/2, (c-a)/2)`, of a `halvable` number.
    ///
    /// Its components are never larger than those of the number, so it always fits.
    pub fn root_half(self) -> Zw
        requires { IsDivisible (value_of self) }
        ensures { root2_of (value_of result) ≡ value_of self }
    {
        Zw {
            a: half_difference(self.b, self.d),
            b: half_sum(self.a, self.c),
            c: half_sum(self.b, self.d),
            d: half_difference(self.c, self.a),
        }
    }

    /// Whether the number is 0.
    pub fn is_zero(self) -> bool
        ensures { IsTrue result ↔ (value_of self ≡ zero_number) }
    {
        self.a == 0 && self.b == 0 && self.c == 0 && self.d == 0
    }

    /// The least `n` with the absolute value of every component below `2^n`, from 0 to 127.
    pub fn weight_bits(self) -> u32
        ensures below { IsBelow result (value_of self) }
        ensures least { (n : ℕ) → IsBelow n (value_of self) → result ≤ n }
    {
        let largest = self
            .a
            .unsigned_abs()
            .max(self.b.unsigned_abs())
            .max(self.c.unsigned_abs())
            .max(self.d.unsigned_abs());
        u128::BITS - largest.leading_zeros()
    }
}
