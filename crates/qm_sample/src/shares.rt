//! What outcome a word gives at a measurement.
ghost use Rattle.std.specs.Prelude.{◌≡◌, ◌≤◌, ◌^◌, ◌↔◌, Contains, IsSome, IfSome, None};
ghost use Rattle.qm_zomega.specs.Numbers.{norm};
ghost use Rattle.qm_sizes.specs.Parts.{surd_of};
ghost use Rattle.qm_denot.specs.Wires.{no_wires};
ghost use Rattle.qm_denot.specs.Weights.{total};
ghost use Rattle.qm_denot.specs.Circuits.{Circuit};
ghost use Rattle.qm_denot.specs.Stores.{StandsFor};
ghost use Rattle.qm_sample.specs.Shares.{all_sizes, sizes_with, IsGiven, IsHeavy};

use qm_denot::{Amps, Wire, bit_at, place_of, power};
use qm_limits::MOST_CAPACITY;
use qm_sizes::Sums;

/// The sums of the sizes of a store's numerators, with those where a wire is one marked.
///
/// `None` exactly where they are too large to be compared.
fn sums<A: Amps>(amps: &A, w: Wire) -> Option<Sums>
    requires live { Contains (A.store amps.now).live w }
    requires few { (A.store amps.now).capacity ≤ MOST_CAPACITY }
    ensures light { IsSome result ↔ (total (A.store amps.now).live
        (λ x. norm ((A.store amps.now).value x)) no_wires ≤ 2 ^ 37) }
    ensures all { IfSome result (λ s. surd_of s.all
        ≡ all_sizes (A.store amps.now).live (A.store amps.now).value) }
    ensures marked { IfSome result (λ s. surd_of s.marked
        ≡ sizes_with (A.store amps.now).live w (A.store amps.now).value) }
{
    let place = place_of(amps.live(), w);
    let count = power(amps.live().len() as u32);
    let mut sums = Sums::none();
    for index in 0..count {
        sums = sums.add(amps.numerator(index), bit_at(place, index))?;
    }
    Some(sums)
}

/// The outcome that a word gives for a measurement of a live wire: one exactly where its upper 24 bits, over 2^24, are below the share of
/// the branches with a one in the sum of the squares of all amplitudes' absolute values.
///
/// `None` exactly where the measurement is heavy: the whole part of that sum, over the numerators, is above 2^37.
pub fn outcome_of<A: Amps>(amps: &A, w: Wire, word: u32) -> Option<bool>
    requires live { Contains (A.store amps.now).live w }
    requires few { (A.store amps.now).capacity ≤ MOST_CAPACITY }
    ensures heavy { (c : Circuit) → StandsFor (A.store amps.now) c
        → (result ≡ None) ↔ IsHeavy c }
    ensures given { IfSome result (λ m. (c : Circuit) → StandsFor (A.store amps.now) c
        → IsGiven c w word m) }
{
    let sums = sums(amps, w)?;
    Some(sums.is_below(word >> 8))
}
