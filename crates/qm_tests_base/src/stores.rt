//! What the tests of the stores share: wires, letters applied where they may be, and what a store answers.
ghost use Rattle.std.specs.Prelude.{◌≡◌, ◌≢◌, ◌+◌, ◌≤◌, true, length, Contains};
ghost use Rattle.qm_denot.specs.Stores.{MayApply};

use qm_denot::{Amps, Letter, Wire};
use std::process::Abort;

fn may_pair<A: Amps>(amps: &A, a: Wire, b: Wire) -> bool
    ensures { result ≡ true
        → (¬ (Contains (A.store amps.now).live a))
        × (¬ (Contains (A.store amps.now).live b))
        × (a ≢ b)
        × (length (A.store amps.now).live + 2 ≤ (A.store amps.now).capacity) }
{
    a != b && amps.room() >= 2 && !amps.is_live(a) && !amps.is_live(b)
}

fn may_apply<A: Amps>(amps: &A, letter: Letter) -> bool
    ensures { result ≡ true → MayApply letter (A.store amps.now) }
{
    let may_grow = amps.exponent() < u64::MAX;
    match letter {
        Letter::Phase { k, w } => k < 8 && amps.is_live(w),
        Letter::Flip { w } | Letter::Keep { w, .. } | Letter::Take { w, .. } => amps.is_live(w),
        Letter::Had { w } => may_grow && amps.is_live(w),
        Letter::Cx { c, t } | Letter::Cz { c, t } => c != t && amps.is_live(c) && amps.is_live(t),
        Letter::Pair { a, b } => may_grow && may_pair(amps, a, b),
        Letter::Rename { a, b } => amps.is_live(a) && !amps.is_live(b),
    }
}

/// Makes the wires live, and applies the letters; whether the last of them didn't overflow.
pub(crate) fn run<A: Amps>(
    rt: &impl Abort,
    amps: &mut A,
    wires: &[Wire],
    letters: &[Letter],
) -> bool
    requires { A.able }
{
    for w in wires {
        let free = amps.room() > 0 && !amps.is_live(*w);
        assert!(rt; free, "{w:?} may become live");
        amps.fresh(*w);
    }
    let mut fits = true;
    for letter in letters {
        let may = fits && may_apply(amps, *letter);
        assert!(rt; may, "{letter:?} may be applied");
        fits = amps.apply(*letter).is_ok();
    }
    fits
}

/// Whether three wires are live and differ.
fn are_live<A: Amps>(amps: &A, u: Wire, v: Wire, w: Wire) -> bool
    ensures { result ≡ true
        → (u ≢ v) × (u ≢ w) × (v ≢ w)
        × Contains (A.store amps.now).live u × Contains (A.store amps.now).live v
        × Contains (A.store amps.now).live w }
{
    u != v && u != w && v != w && amps.is_live(u) && amps.is_live(v) && amps.is_live(w)
}

/// Whether four wires are live and differ.
fn four_live<A: Amps>(amps: &A, t: Wire, u: Wire, v: Wire, w: Wire) -> bool
    ensures { result ≡ true
        → (t ≢ u) × (t ≢ v) × (t ≢ w) × (u ≢ v) × (u ≢ w) × (v ≢ w)
        × Contains (A.store amps.now).live t × Contains (A.store amps.now).live u
        × Contains (A.store amps.now).live v × Contains (A.store amps.now).live w }
{
    t != u && t != v && t != w && amps.is_live(t) && are_live(amps, u, v, w)
}

/// Whether five wires are live and differ.
fn five_live<A: Amps>(amps: &A, s: Wire, t: Wire, u: Wire, v: Wire, w: Wire) -> bool
    ensures { result ≡ true
        → (s ≢ t) × (s ≢ u) × (s ≢ v) × (s ≢ w) × (t ≢ u) × (t ≢ v) × (t ≢ w)
        × (u ≢ v) × (u ≢ w) × (v ≢ w) × Contains (A.store amps.now).live s
        × Contains (A.store amps.now).live t × Contains (A.store amps.now).live u
        × Contains (A.store amps.now).live v × Contains (A.store amps.now).live w }
{
    s != t && s != u && s != v && s != w && amps.is_live(s) && four_live(amps, t, u, v, w)
}

/// The components of the numerator where just these wires are one; nothing where one of them isn't live.
pub(crate) fn components<A: Amps>(amps: &A, ones: &[Wire]) -> Option<[i128; 4]> {
    let z = match *ones {
        [] => amps.value(&[]),
        [w] if amps.is_live(w) => amps.value(&[w]),
        [v, w] if v != w && amps.is_live(v) && amps.is_live(w) => amps.value(&[v, w]),
        [u, v, w] if are_live(amps, u, v, w) => amps.value(&[u, v, w]),
        [t, u, v, w] if four_live(amps, t, u, v, w) => amps.value(&[t, u, v, w]),
        [s, t, u, v, w] if five_live(amps, s, t, u, v, w) => amps.value(&[s, t, u, v, w]),
        _ => return None,
    };
    Some([z.a, z.b, z.c, z.d])
}

/// Whether `v` can be zero, can be one, is always zero, and always equals `w`; nothing unless these are two live wires.
pub(crate) fn branches<A: Amps>(amps: &A, v: Wire, w: Wire) -> Option<[bool; 4]>
    requires { A.able }
{
    if v == w || !amps.is_live(v) || !amps.is_live(w) {
        return None;
    }
    Some([
        amps.can_be(v, false),
        amps.can_be(v, true),
        amps.always_zero(v),
        amps.always_equal(v, w),
    ])
}
