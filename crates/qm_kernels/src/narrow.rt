//! Exact numbers of Z[omega] with components of 32 bits.

ghost use Rattle.qm_kernels.specs.Parts.{IsPart};

mod component;
mod numerator;
mod slim;

use component::{half_difference, half_sum, is_even_sum};

/// The number `a + b omega + c omega^2 + d omega^3`.
///
/// Each component is from `-(2^30 - 1)` to `2^30 - 1`, so a negative always fits, and the sum of two components fits 32 bits.
#[derive(Clone, Copy)]
pub struct Narrow {
    /// The whole part.
    pub a: i32,
    /// How often omega is taken.
    pub b: i32,
    /// How often omega^2, which is i, is taken.
    pub c: i32,
    /// How often omega^3 is taken.
    pub d: i32,
    ghost a_fits: { IsPart a },
    ghost b_fits: { IsPart b },
    ghost c_fits: { IsPart c },
    ghost d_fits: { IsPart d },
}

impl Narrow {
    ghost use Rattle.std.specs.Prelude.{◌≡◌, ◌<◌, ◌↔◌, IsTrue};
    ghost use Rattle.qm_zomega.specs.Numbers.{zero_number, turned, omega_times, root2_of, IsDivisible};
    ghost use Rattle.qm_kernels.specs.Narrow.{narrow_value};

    /// The number 0.
    pub const ZERO: Narrow = Narrow {
        a: 0,
        b: 0,
        c: 0,
        d: 0,
    };

    /// The number 1.
    pub const ONE: Narrow = Narrow {
        a: 1,
        b: 0,
        c: 0,
        d: 0,
    };

    /// omega times the number, `(-d, a, b, c)`.
    #[inline(always)]
    #[tactic(auto, unfolding(qm_zomega::specs::Numbers::turned))]
    fn turn(self) -> Narrow
        ensures { narrow_value result ≡ turned (narrow_value self) }
    {
        Narrow {
            a: -self.d,
            b: self.a,
            c: self.b,
            d: self.c,
        }
    }

    /// omega^e times the number, for `e` below 8.
    #[inline(always)]
    pub fn times_omega(self, e: u8) -> Narrow
        requires { e < 8 }
        ensures { narrow_value result ≡ omega_times e (narrow_value self) }
    {
        let mut z = self;
        for i in 0..e {
            z = z.turn();
        }
        z
    }

    /// Whether root2 divides the number: exactly where `a + c` and `b + d` are even.
    #[inline(always)]
    pub fn halvable(self) -> bool
        ensures { IsTrue result ↔ IsDivisible (narrow_value self) }
    {
        is_even_sum(self.a, self.c) && is_even_sum(self.b, self.d)
    }

    /// The quotient by root2, `((b-d)/2, (a+c)/2, (b+d)/2, (c-a)/2)`, of a `halvable` number.
    #[inline(always)]
    pub fn root_half(self) -> Narrow
        requires { IsDivisible (narrow_value self) }
        ensures { root2_of (narrow_value result) ≡ narrow_value self }
    {
        Narrow {
            a: half_difference(self.b, self.d),
            b: half_sum(self.a, self.c),
            c: half_sum(self.b, self.d),
            d: half_difference(self.c, self.a),
        }
    }

    /// Whether the number is 0.
    #[inline(always)]
    pub fn is_zero(self) -> bool
        ensures { IsTrue result ↔ (narrow_value self ≡ zero_number) }
    {
        self.a == 0 && self.b == 0 && self.c == 0 && self.d == 0
    }
}
