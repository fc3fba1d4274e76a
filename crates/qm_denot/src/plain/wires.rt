//! Places of wires in a list of live wires, and indices of sets of them.
ghost use Rattle.std.specs.Prelude.{◌≡◌, ◌<◌, ◌≤◌, ◌^◌, IsTrue, length, All, Contains};
ghost use Rattle.qm_denot.specs.Places.{IsFirstAt, index_of, is_within};
ghost use Rattle.qm_denot.specs.WireLists.{Distinct, wires_of};

use crate::Wire;
use crate::plain::places::with_bit;
use qm_limits::MOST_CAPACITY;

/// The place of a live wire: its position in the list.
pub fn place_of(live: &[Wire], w: Wire) -> u32
    requires live { Contains live.now w }
    requires few { length live.now ≤ MOST_CAPACITY }
    ensures below { result < length live.now }
    ensures first { IsFirstAt live.now result w }
{
    for i in 0..live.len() {
        if live[i] == w {
            return i as u32;
        }
    }
    unreachable!()
}

/// The index of the set of these wires: the sum of `2^p` over their places p.
pub fn index_at(live: &[Wire], ones: &[Wire]) -> usize
    requires ones { All (Contains live.now) ones.now }
    requires few { length live.now ≤ MOST_CAPACITY }
    requires distinct { Distinct live.now }
    ensures value { result ≡ index_of live.now (wires_of ones.now) }
    ensures within { IsTrue (is_within (wires_of ones.now) live.now) }
    ensures below { result < 2 ^ length live.now }
{
    let mut k = 0;
    for w in ones {
        k = with_bit(place_of(live, *w), true, k);
    }
    k
}
