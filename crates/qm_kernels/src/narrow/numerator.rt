//! Narrow numbers as the loops over numerators ask for them.

ghost use Rattle.std.specs.Prelude.{◌≡◌, ◌<◌, ◌^◌, ◌↔◌, IsTrue};
ghost use Rattle.qm_zomega.specs.Range.{IsBelow};
ghost use Rattle.qm_kernels.specs.Narrow.{narrow_value};

use super::Narrow;
use super::component::{both_fit, fitting_difference, fitting_sum};
use qm_zomega::Numerator;

impl Numerator for Narrow {
    ghost meaning = { narrow_value };

    ghost holds = { IsBelow 30 };

    #[inline(always)]
    fn zero() -> Narrow {
        Narrow::ZERO
    }

    #[inline(always)]
    fn is_nought(self) -> bool {
        self.is_zero()
    }

    #[inline(always)]
    fn turned(self, e: u8) -> Narrow {
        self.times_omega(e)
    }

    #[inline(always)]
    fn fits(self, other: Narrow) -> bool {
        both_fit(self.a, other.a)
            & both_fit(self.b, other.b)
            & both_fit(self.c, other.c)
            & both_fit(self.d, other.d)
    }

    #[inline(always)]
    #[tactic(auto, unfolding(qm_zomega::specs::Numbers::plus))]
    fn plus(self, other: Narrow) -> Narrow {
        Narrow {
            a: fitting_sum(self.a, other.a),
            b: fitting_sum(self.b, other.b),
            c: fitting_sum(self.c, other.c),
            d: fitting_sum(self.d, other.d),
        }
    }

    #[inline(always)]
    #[tactic(auto, unfolding(qm_zomega::specs::Numbers::minus))]
    fn minus(self, other: Narrow) -> Narrow {
        Narrow {
            a: fitting_difference(self.a, other.a),
            b: fitting_difference(self.b, other.b),
            c: fitting_difference(self.c, other.c),
            d: fitting_difference(self.d, other.d),
        }
    }

    #[inline(always)]
    fn is_halvable(self) -> bool {
        self.halvable()
    }

    #[inline(always)]
    fn halved(self) -> Narrow {
        self.root_half()
    }
}
