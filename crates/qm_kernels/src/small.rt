//! A quick test of a list: where all its numbers are small, all their sums and differences fit.
ghost use Rattle.std.specs.Prelude.{ℕ, ◌<◌, ◌↔◌, length, IsTrue};
ghost use Rattle.qm_zomega.specs.Zw.{value_of};
ghost use Rattle.qm_zomega.specs.NumberLists.{number_at};
ghost use Rattle.qm_kernels.specs.Small.{IsSmall, IsSmallPart};

use qm_zomega::Zw;

/// Above every small component.
const BOUND: i128 = 1 << 125;

/// Whether a component is small.
#[inline(always)]
fn is_small_part(x: i128) -> bool
    ensures { IsTrue result ↔ IsSmallPart x }
{
    -BOUND <= x && x < BOUND
}

/// Whether each component is small. All are looked at, so that one jump is enough.
#[inline(always)]
pub(crate) fn is_small(z: Zw) -> bool
    ensures { IsTrue result ↔ IsSmall (value_of z) }
{
    is_small_part(z.a) & is_small_part(z.b) & is_small_part(z.c) & is_small_part(z.d)
}

/// Whether each number is small. The test ends at the first that is not.
pub(crate) fn all_small(list: &[Zw]) -> bool
    ensures { IsTrue result ↔ ((i : ℕ) → i < length list.now → IsSmall (number_at list.now i)) }
{
    for i in 0..list.len() {
        if !is_small(list[i]) {
            return false;
        }
    }
    true
}
