//! Whether some branch is not zero, on lists of any numbers.
ghost use Rattle.std.specs.Prelude.{◌≡◌, ◌≢◌, ℕ, ◌<◌, ◌≤◌, ◌^◌, true, false, length};
ghost use Rattle.qm_zomega.specs.Numbers.{zero_number};
ghost use Rattle.qm_zomega.specs.NumberLists.{meant_at};
ghost use Rattle.qm_denot.specs.Places.{HasPlace, has_place};

use qm_denot::bit_at;
use qm_limits::MOST_CAPACITY;
use qm_zomega::Numerator;

/// Whether some non-zero numerator has this bit at a place.
pub(crate) fn any_with<Z: Numerator>(numerators: &[Z], place: u32, bit: bool) -> bool
    requires small { length numerators.now ≤ 2 ^ MOST_CAPACITY }
    requires place { HasPlace (length numerators.now) place }
    ensures yes { result ≡ true
        → (k : ℕ) × (k < length numerators.now) × (has_place place k ≡ bit)
        × (meant_at Z.meaning numerators.now k ≢ zero_number) }
    ensures no { result ≡ false → (k : ℕ) → k < length numerators.now → has_place place k ≡ bit
        → meant_at Z.meaning numerators.now k ≡ zero_number }
{
    for k in 0..numerators.len() {
        if bit_at(place, k) == bit && !numerators[k].is_nought() {
            return true;
        }
    }
    false
}

/// Whether some non-zero numerator has two different bits at two places.
pub(crate) fn any_unequal<Z: Numerator>(numerators: &[Z], one: u32, other: u32) -> bool
    requires small { length numerators.now ≤ 2 ^ MOST_CAPACITY }
    requires one { HasPlace (length numerators.now) one }
    requires other { HasPlace (length numerators.now) other }
    ensures yes { result ≡ true
        → (k : ℕ) × (k < length numerators.now) × (has_place one k ≢ has_place other k)
        × (meant_at Z.meaning numerators.now k ≢ zero_number) }
    ensures no { result ≡ false → (k : ℕ) → k < length numerators.now
        → has_place one k ≢ has_place other k
        → meant_at Z.meaning numerators.now k ≡ zero_number }
{
    for k in 0..numerators.len() {
        if bit_at(one, k) != bit_at(other, k) && !numerators[k].is_nought() {
            return true;
        }
    }
    false
}
