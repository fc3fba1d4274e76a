//! The size of one number.
ghost use Rattle.std.specs.Prelude.{◌≡◌, ◌≤◌, ◌<◌, ◌^◌, pos, ◌+ℤ◌, unsigned_abs};
ghost use Rattle.qm_zomega.specs.Numbers.{square};
ghost use Rattle.qm_zomega.specs.Range.{IsBelow};
ghost use Rattle.qm_zomega.specs.Zw.{value_of};
ghost use Rattle.qm_sizes.specs.Sizes.{size, crossed};
ghost use Rattle.qm_sizes.specs.Parts.{surd_of, IsWithin};

use crate::SurdParts;
use crate::parts::{difference, product, sum};
use qm_zomega::Zw;

/// The square of a small component.
#[tactic(auto, using(crate::proofs::Squares::itself))]
fn component_square(x: i128) -> i128
    requires { unsigned_abs x < 2 ^ 19 }
    ensures value { result ≡ pos (square x) }
    ensures small { unsigned_abs result ≤ 2 ^ 38 }
{
    product(x, x)
}

/// N(z), the sum of the squares of the components.
fn norm(z: Zw) -> i128
    requires { IsBelow 19 (value_of z) }
    ensures value { result
        ≡ pos (square z.a) +ℤ pos (square z.b) +ℤ pos (square z.c) +ℤ pos (square z.d) }
    ensures small { unsigned_abs result ≤ 2 ^ 40 }
{
    let a = component_square(z.a);
    let b = component_square(z.b);
    let c = component_square(z.c);
    let d = component_square(z.d);
    sum(sum(sum(a, b), c), d)
}

/// `ab + bc + cd - da`.
fn crossed(z: Zw) -> i128
    requires { IsBelow 19 (value_of z) }
    ensures value { result ≡ crossed (value_of z) }
    ensures small { unsigned_abs result ≤ 2 ^ 40 }
{
    let ab = product(z.a, z.b);
    let bc = product(z.b, z.c);
    let cd = product(z.c, z.d);
    let da = product(z.d, z.a);
    difference(sum(sum(ab, bc), cd), da)
}

/// The square of the absolute value of a number, which is `N(z) + (ab + bc + cd - da) root2`.
pub fn size(z: Zw) -> SurdParts
    requires { IsBelow 19 (value_of z) }
    ensures value { surd_of result ≡ size (value_of z) }
    ensures within { IsWithin (2 ^ 40) (surd_of result) }
{
    let whole = norm(z);
    let root = crossed(z);
    SurdParts { whole, root }
}
