//! Numbers of 128 bits as the lists ask for them that keep a bound on the components.

ghost use Rattle.std.specs.Prelude.{refl};
ghost use Rattle.qm_kernels.specs.ZwZero.{zero_zw};

use crate::slim::Slim;
use crate::small::is_small;
use qm_zomega::Zw;

impl Slim for Zw {
    const MOST_BITS: u32 = 127;

    const LIGHT_BITS: u32 = 126;

    ghost MOST_BITS = { 127 };

    ghost LIGHT_BITS = { 126 };

    ghost nought = { zero_zw };

    #[inline(always)]
    fn widened(self) -> Zw {
        self
    }

    #[inline(always)]
    fn is_light(self) -> bool {
        is_small(self)
    }

    ghost nought_is = { refl };

    ghost holds_small = { λ z b. record { a_fits = b.a_below; b_fits = b.b_below; c_fits = b.c_below; d_fits = b.d_below } };
}
