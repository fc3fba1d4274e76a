//! Indices by their bits: place p of an index is its bit of value `2^p`.
ghost use Rattle.std.specs.Prelude.{◌≡◌, ◌<◌, ◌^◌, not};
ghost use Rattle.qm_denot.specs.Places.{has_place, set_place, insert_place};

/// `2^place`.
#[tactic(auto, using(crate::proofs::PlaceLaws::power_fits))]
pub fn power(place: u32) -> usize
    requires { place < 32 }
    ensures value { result ≡ 2 ^ place }
    ensures bound { result < 2 ^ 32 }
{
    1 << place
}

/// The bit of `k` at a place.
#[tactic(auto, using(crate::proofs::PlaceLaws::has_place_closed))]
pub fn bit_at(place: u32, k: usize) -> bool
    requires { place < 32 }
    ensures { result ≡ has_place place k }
{
    k / power(place) % 2 == 1
}

/// `k` with this bit at a place.
pub(crate) fn with_bit(place: u32, bit: bool, k: usize) -> usize
    requires place { place < 32 }
    requires small { k < 2 ^ 32 }
    ensures { result ≡ set_place place bit k }
{
    let old = bit_at(place, k);
    if old == bit {
        return k;
    }
    if bit {
        k + power(place)
    } else {
        k - power(place)
    }
}

/// `k` with the bit at a place exchanged.
pub(crate) fn with_other_bit(place: u32, k: usize) -> usize
    requires place { place < 32 }
    requires small { k < 2 ^ 32 }
    ensures { result ≡ set_place place (not (has_place place k)) k }
{
    with_bit(place, !bit_at(place, k), k)
}

/// `k` with this bit put in at a place: the higher bits move up.
pub(crate) fn with_bit_put_in(place: u32, bit: bool, k: usize) -> usize
    requires place { place < 32 }
    requires small { k < 2 ^ 32 }
    ensures { result ≡ insert_place place bit k }
{
    let low = k % power(place);
    let high = k / power(place) * 2 + usize::from(bit);
    high * power(place) + low
}
