//! Arithmetic of small parts: their products, sums and differences fit.
ghost use Rattle.std.specs.Prelude.{◌≡◌, ◌≤◌, ◌<◌, ◌^◌, ◌+◌, ◌+ℤ◌, ◌-ℤ◌, ◌*ℤ◌, unsigned_abs};

/// The product of two small components.
#[tactic(auto, using(crate::proofs::Products::small_product))]
pub(crate) fn product(x: i128, y: i128) -> i128
    requires x { unsigned_abs x < 2 ^ 19 }
    requires y { unsigned_abs y < 2 ^ 19 }
    ensures value { result ≡ x *ℤ y }
    ensures small { unsigned_abs result ≤ 2 ^ 38 }
{
    x * y
}

/// The sum of two small numbers.
pub(crate) fn sum(x: i128, y: i128) -> i128
    requires x { unsigned_abs x ≤ 2 ^ 40 }
    requires y { unsigned_abs y ≤ 2 ^ 40 }
    ensures value { result ≡ x +ℤ y }
    ensures small { unsigned_abs result ≤ unsigned_abs x + unsigned_abs y }
{
    x + y
}

/// The difference of two small numbers.
pub(crate) fn difference(x: i128, y: i128) -> i128
    requires x { unsigned_abs x ≤ 2 ^ 40 }
    requires y { unsigned_abs y ≤ 2 ^ 40 }
    ensures value { result ≡ x -ℤ y }
    ensures small { unsigned_abs result ≤ unsigned_abs x + unsigned_abs y }
{
    x - y
}
