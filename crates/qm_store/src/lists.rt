//! Lists of numerators that grow and shrink within the memory that they have.
ghost use Rattle.std.specs.Prelude.{◌≡◌, ℕ, ◌*◌, ◌/◌, ◌<◌, ◌≤◌, ◌^◌, length};
ghost use Rattle.std.specs.Vec.{vec_capacity};
ghost use Rattle.qm_zomega.specs.Numbers.{zero_number};
ghost use Rattle.qm_zomega.specs.NumberLists.{meant_at, IsListOf, IsListBy};
ghost use Rattle.qm_denot.specs.Places.{HasPlace};
ghost use Rattle.qm_denot.specs.LettersByPlace.{take_at, pair_at};

use qm_kernels::bounded;
use qm_kernels::slim::Slim;
use qm_limits::MOST_CAPACITY;
use qm_zomega::Zw;

/// Appends as many zeros as there are numerators.
pub(crate) fn double<Z: Slim>(numerators: &mut Vec<Z>)
    requires small { length numerators.old.items ≤ 2 ^ MOST_CAPACITY }
    requires room { 2 * length numerators.old.items ≤ vec_capacity numerators.old }
    ensures size { length numerators.new.items ≡ 2 * length numerators.old.items }
    ensures numbers { (k : ℕ) → meant_at Z.meaning numerators.new.items k
        ≡ meant_at Z.meaning numerators.old.items k }
    ensures room { vec_capacity numerators.old ≤ vec_capacity numerators.new }
{
    let size = numerators.len();
    let _ = numerators.resize(2 * size, Z::zero());
}

/// `Pair` on a list of `2^n` numerators.
pub(crate) fn pair_list<Z: Slim>(numerators: &mut Vec<Z>, n: u32)
    requires few { n ≤ MOST_CAPACITY }
    requires size { length numerators.old.items ≡ 2 ^ n }
    requires room { 4 * length numerators.old.items ≤ vec_capacity numerators.old }
    ensures paired { IsListBy Z.meaning zero_number numerators.new.items
        (length numerators.old.items * 4)
        (pair_at zero_number n (meant_at Z.meaning numerators.old.items)) }
    ensures room { vec_capacity numerators.old ≤ vec_capacity numerators.new }
{
    let size = numerators.len();
    let _ = numerators.resize(4 * size, Z::zero());
    bounded::pair_up(numerators, n);
}

/// `Take` of `m` at a place.
pub(crate) fn take_list<Z: Slim>(numerators: &mut Vec<Z>, place: u32, m: bool)
    requires { HasPlace (length numerators.old.items) place }
    ensures taken { IsListBy Z.meaning zero_number numerators.new.items
        (length numerators.old.items / 2)
        (take_at place m (meant_at Z.meaning numerators.old.items)) }
    ensures room { vec_capacity numerators.old ≤ vec_capacity numerators.new }
{
    bounded::gather(numerators, place, m);
    let half = numerators.len() / 2;
    numerators.truncate(half);
}

/// Fills the wide list with the numbers of the slim one.
pub(crate) fn widen_list<Z: Slim>(slim: &[Z], wide: &mut Vec<Zw>)
    requires { length slim.now ≤ vec_capacity wide.old }
    ensures numbers { IsListOf wide.new.items (length slim.now) (meant_at Z.meaning slim.now) }
    ensures room { vec_capacity wide.old ≤ vec_capacity wide.new }
{
    wide.clear();
    for k in 0..slim.len() {
        let z = slim[k].widened();
        let _ = wide.push(z);
    }
}
