//! `Had` and the division of its results by root2 in one pass.
ghost use Rattle.std.specs.Prelude.{◌≡◌, ◌≢◌, ℕ, ◌<◌, ◌^◌, length, IsTrue, ◌↔◌};
ghost use Rattle.qm_zomega.specs.Numbers.{zero_number, ◌⊕◌, ◌⊖◌, IsDivisible};
ghost use Rattle.qm_zomega.specs.NumberLists.{meant_at, IsListBy};
ghost use Rattle.qm_denot.specs.Places.{HasPlace};
ghost use Rattle.qm_denot.specs.LettersByPlace.{had_at};
ghost use Rattle.qm_kernels.specs.Done.{IsComputed, AllHeld};
ghost use Rattle.qm_kernels.specs.Halved.{half_of, halved_had};

use crate::blocks::{Step, half_block, on_blocks};
use qm_zomega::Numerator;

/// Whether root2 divides every sum and difference.
fn all_sums_halvable<Z: Numerator>(low: &[Z], high: &[Z]) -> bool
    requires same { length low.now ≡ length high.now }
    requires fits { (i : ℕ) → i < length low.now
        → Z.holds (meant_at Z.meaning low.now i ⊕ meant_at Z.meaning high.now i)
        × Z.holds (meant_at Z.meaning low.now i ⊖ meant_at Z.meaning high.now i) }
    ensures { IsTrue result ↔ ((i : ℕ) → i < length low.now
        → IsDivisible (meant_at Z.meaning low.now i ⊕ meant_at Z.meaning high.now i)
        × IsDivisible (meant_at Z.meaning low.now i ⊖ meant_at Z.meaning high.now i)) }
{
    for i in 0..low.len() {
        if !low[i].plus(high[i]).is_halvable() {
            return false;
        }
    }
    true
}

/// Puts the quotients of the sums into `low` and those of the differences into `high`.
fn mix_halved<Z: Numerator>(low: &mut [Z], high: &mut [Z])
    requires same { length low.old ≡ length high.old }
    requires fits { (i : ℕ) → i < length low.old
        → Z.holds (meant_at Z.meaning low.old i ⊕ meant_at Z.meaning high.old i)
        × Z.holds (meant_at Z.meaning low.old i ⊖ meant_at Z.meaning high.old i) }
    requires divisible { (i : ℕ) → i < length low.old
        → IsDivisible (meant_at Z.meaning low.old i ⊕ meant_at Z.meaning high.old i)
        × IsDivisible (meant_at Z.meaning low.old i ⊖ meant_at Z.meaning high.old i) }
    ensures sums { IsListBy Z.meaning zero_number low.new (length low.old)
        (λ i. half_of (meant_at Z.meaning low.old i ⊕ meant_at Z.meaning high.old i)) }
    ensures differences { IsListBy Z.meaning zero_number high.new (length low.old)
        (λ i. half_of (meant_at Z.meaning low.old i ⊖ meant_at Z.meaning high.old i)) }
{
    for i in 0..low.len() {
        let p = low[i];
        let q = high[i];
        let sum = p.plus(q);
        let difference = p.minus(q);
        low[i] = sum.halved();
        high[i] = difference.halved();
    }
}

/// Whether root2 divides every number that `Had` on a place makes.
pub fn had_divides<Z: Numerator>(list: &[Z], place: u32) -> bool
    requires place { HasPlace (length list.now) place }
    requires fits { AllHeld Z.meaning Z.holds (had_at place) list.now }
    ensures { IsTrue result ↔ AllHeld Z.meaning IsDivisible (had_at place) list.now }
{
    let half = half_block(list.len(), place);
    let mut start = 0;
    while start < list.len() {
        let (_, rest) = list.split_at(start);
        let (low, rest) = rest.split_at(half);
        let (high, _) = rest.split_at(half);
        if !all_sums_halvable(low, high) {
            return false;
        }
        start += 2 * half;
    }
    true
}

/// The step of `Had` whose results root2 divides: quotients of sums below, of differences above.
#[derive(Clone, Copy)]
struct MixHalved {
    place: u32,
}

impl<Z: Numerator> Step<Z> for MixHalved {
    ghost use Rattle.qm_kernels.specs.DoneLaws.{done_nothing};
    ghost use Rattle.qm_kernels.specs.JoinLaws.{blocks_held};
    ghost use Rattle.qm_kernels.specs.Halved.{halved_joined};

    ghost half = { λ s. 2 ^ s.place };

    ghost may = { λ s xs. AllHeld Z.meaning (λ z. Z.holds z × IsDivisible z) (had_at s.place) xs };

    ghost done = { λ s xs us. IsComputed Z.meaning (halved_had s.place) xs us };

    fn step(&self, low: &mut [Z], high: &mut [Z]) {
        mix_halved(low, high);
    }

    ghost none = { λ s. done_nothing Z.meaning zero_number (halved_had s.place) };

    ghost joined = { λ s. halved_joined s.place Z.meaning };

    ghost parts = { λ s. blocks_held Z.meaning (λ z. Z.holds z × IsDivisible z) s.place };
}

/// `Had` on a place with each number that it makes divided by root2, where all fit and root2 divides them.
pub fn had_halved<Z: Numerator>(list: &mut [Z], place: u32)
    requires place { HasPlace (length list.old) place }
    requires fits { AllHeld Z.meaning Z.holds (had_at place) list.old }
    requires divisible { AllHeld Z.meaning IsDivisible (had_at place) list.old }
    ensures { IsComputed Z.meaning (halved_had place) list.old list.new }
{
    let half = half_block(list.len(), place);
    on_blocks(&MixHalved { place }, list, half);
}
