//! Narrow numbers as the lists ask for them that keep a bound on the components.

ghost use Rattle.std.specs.Prelude.{refl};
ghost use Rattle.qm_kernels.specs.Narrow.{zero_narrow};

use super::Narrow;
use super::component::is_light_part;
use crate::slim::Slim;
use qm_zomega::Zw;

impl Slim for Narrow {
    const MOST_BITS: u32 = 30;

    const LIGHT_BITS: u32 = 24;

    ghost MOST_BITS = { 30 };

    ghost LIGHT_BITS = { 24 };

    ghost nought = { zero_narrow };

    #[inline(always)]
    fn widened(self) -> Zw {
        Zw {
            a: i128::from(self.a),
            b: i128::from(self.b),
            c: i128::from(self.c),
            d: i128::from(self.d),
        }
    }

    /// All components are looked at, so that one jump is enough.
    #[inline(always)]
    fn is_light(self) -> bool {
        is_light_part(self.a)
            & is_light_part(self.b)
            & is_light_part(self.c)
            & is_light_part(self.d)
    }

    ghost nought_is = { refl };

    ghost holds_small = { λ z b. b };
}
