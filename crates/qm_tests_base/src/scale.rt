//! Vectors whose reduced forms are known.
use qm_scale::{is_reduced, reduce};
use qm_zomega::Zw;

const TWO: Zw = Zw {
    a: 2,
    b: 0,
    c: 0,
    d: 0,
};

/// root2: omega - omega^3.
const ROOT: Zw = Zw {
    a: 0,
    b: 1,
    c: 0,
    d: -1,
};

#[test]
fn reduced_forms(rt: HostRuntime) {
    for (numbers, exponent, reduced, left) in [
        // 2 is divided twice, where the exponent allows it.
        ([TWO, Zw::ZERO], 5, [Zw::ONE, Zw::ZERO], 3),
        ([TWO, Zw::ZERO], 1, [ROOT, Zw::ZERO], 0),
        // One number that root2 does not divide ends it.
        ([TWO, Zw::ONE], 5, [TWO, Zw::ONE], 5),
        ([TWO, ROOT], 5, [ROOT, Zw::ONE], 4),
        ([Zw::ZERO, Zw::ZERO], 5, [Zw::ZERO, Zw::ZERO], 0),
        ([TWO, TWO], 0, [TWO, TWO], 0),
    ] {
        let mut list = numbers;
        let mut k = exponent;
        let was_reduced = is_reduced(&list, k);
        reduce(&mut list, &mut k);
        let is_so = list == reduced && k == left && is_reduced(&list, k);
        assert!(rt; is_so && was_reduced == (numbers == reduced && exponent == left));
    }
}
