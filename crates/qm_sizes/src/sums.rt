//! Sums of sizes, as long as they can be compared.
ghost use Rattle.std.specs.Prelude.{◌≡◌, ◌↔◌, ◌+◌, ◌≤◌, ◌<◌, ◌^◌, if◌then◌else◌, IsSome, IfSome, unsigned_abs};
ghost use Rattle.qm_zomega.specs.Numbers.{norm};
ghost use Rattle.qm_zomega.specs.Zw.{value_of};
ghost use Rattle.qm_sizes.specs.Parts.{surd_of, IsSum};
ghost use Rattle.qm_sizes.specs.Sizes.{size};
ghost use Rattle.qm_sizes.specs.Surds.{nought, plus, is_below, scaled};

use crate::parts::sum;
use crate::{SurdParts, is_below_share, size};
use qm_zomega::Zw;

/// The largest whole part of a sum of sizes that is still compared.
const MOST_WHOLE: i128 = 1 << 37;

/// The most bits of a component whose size may be within that.
const MOST_BITS: u32 = 19;

/// The sum of the sizes of some numbers, and that of those among them that are marked.
#[derive(Clone, Copy, Debug)]
pub struct Sums {
    /// The sum of all sizes.
    pub all: SurdParts,
    /// The sum of the sizes of the marked numbers.
    pub marked: SurdParts,
    ghost all_few: { IsSum (surd_of all) },
    ghost marked_few: { IsSum (surd_of marked) },
    ghost within: { unsigned_abs marked.whole ≤ unsigned_abs all.whole },
}

impl Sums {
    /// The sums over no numbers.
    pub fn none() -> Sums
        ensures all { surd_of result.all ≡ nought }
        ensures marked { surd_of result.marked ≡ nought }
    {
        let zero = SurdParts { whole: 0, root: 0 };
        Sums {
            all: zero,
            marked: zero,
        }
    }

    /// The sums with one number more. `None` exactly where the whole part of all sizes would be above 2^37.
    pub fn add(self, z: Zw, marks: bool) -> Option<Sums>
        ensures light { IsSome result
            ↔ (unsigned_abs self.all.whole + norm (value_of z) ≤ 2 ^ 37) }
        ensures all { IfSome result (λ s.
            surd_of s.all ≡ plus (surd_of self.all) (size (value_of z))) }
        ensures marked { IfSome result (λ s. surd_of s.marked
            ≡ (if marks then plus (surd_of self.marked) (size (value_of z)) else surd_of self.marked)) }
    {
        let size = light_size(z)?;
        let all = light_sum(self.all, size)?;
        let marked = if marks {
            light_sum(self.marked, size)?
        } else {
            self.marked
        };
        Some(Sums { all, marked })
    }

    /// Whether `r / 2^24` is below the share of the marked numbers in all: `r all < 2^24 marked`, as real numbers.
    pub fn is_below(self, r: u32) -> bool
        requires { r < 2 ^ 24 }
        ensures { result ≡ is_below (scaled r (surd_of self.all)) (scaled (2 ^ 24) (surd_of self.marked)) }
    {
        is_below_share(r, self.marked, self.all)
    }
}

/// The size of a number, where its whole part is at most 2^37.
#[tactic(auto, using(crate::proofs::Heavy::light_below, crate::proofs::Heavy::still_below))]
fn light_size(z: Zw) -> Option<SurdParts>
    ensures light { IsSome result ↔ (norm (value_of z) ≤ 2 ^ 37) }
    ensures value { IfSome result (λ s. surd_of s ≡ size (value_of z)) }
    ensures few { IfSome result (λ s. IsSum (surd_of s)) }
{
    if z.weight_bits() > MOST_BITS {
        return None;
    }
    let size = size(z);
    if size.whole > MOST_WHOLE {
        return None;
    }
    Some(size)
}

/// The sum of two sums, where its whole part is at most 2^37.
fn light_sum(x: SurdParts, y: SurdParts) -> Option<SurdParts>
    requires x { IsSum (surd_of x) }
    requires y { IsSum (surd_of y) }
    ensures light { IsSome result ↔ (unsigned_abs x.whole + unsigned_abs y.whole ≤ 2 ^ 37) }
    ensures value { IfSome result (λ s. surd_of s ≡ plus (surd_of x) (surd_of y)) }
    ensures few { IfSome result (λ s. IsSum (surd_of s)) }
{
    let whole = sum(x.whole, y.whole);
    if whole > MOST_WHOLE {
        return None;
    }
    let root = sum(x.root, y.root);
    Some(SurdParts { whole, root })
}
