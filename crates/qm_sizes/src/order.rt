//! The order of the numbers `A + B root2` as real numbers, by the signs and the squares of A and B.
ghost use Rattle.std.specs.Prelude.{◌≡◌, ◌≤◌, ◌<◌, ◌^◌, ◌*◌, pos, ◌-ℤ◌, ◌*ℤ◌, unsigned_abs};
ghost use Rattle.qm_sizes.specs.Surds.{by_signs, is_below, scaled};
ghost use Rattle.qm_sizes.specs.Parts.{surd_of, IsWithin};

use crate::SurdParts;

/// The square of a part.
#[tactic(auto, using(crate::proofs::Signs::small_square))]
fn square(x: u128) -> u128
    requires { x ≤ 2 ^ 62 }
    ensures value { result ≡ x * x }
    ensures small { result ≤ 2 ^ 124 }
{
    x * x
}

/// Whether the number is above 0.
#[tactic(auto, using(crate::proofs::Signs::no_minus, crate::proofs::Signs::root_minus, crate::proofs::Signs::whole_minus, crate::proofs::Signs::both_minus))]
pub fn is_positive(x: SurdParts) -> bool
    requires { IsWithin (2 ^ 62) (surd_of x) }
    ensures { result ≡ by_signs x.whole x.root }
{
    let whole = x.whole.unsigned_abs();
    let root = x.root.unsigned_abs();
    if x.whole >= 0 {
        if x.root >= 0 {
            0 < whole + root
        } else {
            2 * square(root) < square(whole)
        }
    } else if x.root >= 0 {
        square(whole) < 2 * square(root)
    } else {
        false
    }
}

/// n times a part.
#[tactic(auto, using(crate::proofs::Products::small_scaled))]
fn scaled(n: u32, x: i128) -> i128
    requires n { n ≤ 2 ^ 24 }
    requires x { unsigned_abs x ≤ 2 ^ 37 }
    ensures value { result ≡ pos n *ℤ x }
    ensures small { unsigned_abs result ≤ 2 ^ 61 }
{
    i128::from(n) * x
}

/// How much 2^24 times a part is above r times another: `2^24 y - r x`.
fn excess(r: u32, x: i128, y: i128) -> i128
    requires r { r < 2 ^ 24 }
    requires x { unsigned_abs x ≤ 2 ^ 37 }
    requires y { unsigned_abs y ≤ 2 ^ 37 }
    ensures value { result ≡ pos (2 ^ 24) *ℤ y -ℤ pos r *ℤ x }
    ensures small { unsigned_abs result ≤ 2 ^ 62 }
{
    let above = scaled(1 << 24, y);
    let below = scaled(r, x);
    above - below
}

/// Whether `r / 2^24` is below `part / all`, where `all` is positive: `r all < 2^24 part`.
pub fn is_below_share(r: u32, part: SurdParts, all: SurdParts) -> bool
    requires r { r < 2 ^ 24 }
    requires part { IsWithin (2 ^ 37) (surd_of part) }
    requires all { IsWithin (2 ^ 37) (surd_of all) }
    ensures { result ≡ is_below (scaled r (surd_of all)) (scaled (2 ^ 24) (surd_of part)) }
{
    let whole = excess(r, all.whole, part.whole);
    let root = excess(r, all.root, part.root);
    is_positive(SurdParts { whole, root })
}
