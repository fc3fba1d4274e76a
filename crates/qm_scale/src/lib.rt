//! The common power of root2 of a list of numerators: the reduced form of a vector over a power of root2.
#![tactic(auto)]

pub mod generic;

ghost use Rattle.std.specs.Prelude.{◌↔◌, IsTrue};
ghost use Rattle.qm_zomega.specs.NumberLists.{Reduces, IsReducedList};

use qm_zomega::Zw;

/// Leaves the reduced form of the vector over `root2^exponent`: its numbers over the least power of root2 for which they are whole.
///
/// The exponent of a vector of zeros is 0.
pub fn reduce(numerators: &mut [Zw], exponent: &mut u64)
    ensures { Reduces numerators.old exponent.old numerators.new exponent.new }
{
    generic::reduce(numerators, exponent);
}

/// Whether the vector over `root2^exponent` is reduced: the exponent is 0, or root2 does not divide some number.
pub fn is_reduced(numerators: &[Zw], exponent: u64) -> bool
    ensures { IsTrue result ↔ IsReducedList numerators.now exponent }
{
    generic::is_reduced(numerators, exponent)
}
