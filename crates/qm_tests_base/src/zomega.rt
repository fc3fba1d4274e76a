//! Powers of omega, halves, and sums at the ends of the range.
use qm_zomega::*;

/// omega^0 to omega^7.
const POWERS: [(i128, i128, i128, i128); 8] = [
    (1, 0, 0, 0),
    (0, 1, 0, 0),
    (0, 0, 1, 0),
    (0, 0, 0, 1),
    (-1, 0, 0, 0),
    (0, -1, 0, 0),
    (0, 0, -1, 0),
    (0, 0, 0, -1),
];

#[test]
fn powers_halves_and_ends(rt: HostRuntime) {
    for e in 0..8 {
        let power = Zw::ONE.times_omega(e);
        let parts = (power.a, power.b, power.c, power.d);
        assert!(rt; parts == POWERS[usize::from(e)], "omega^{e}");
    }

    let two = Zw::ONE.add(Zw::ONE).expect(&rt, "1 + 1 fits");
    assert!(rt; two.halvable() && !Zw::ONE.halvable());
    let root = two.root_half();
    assert!(rt; (root.a, root.b, root.c, root.d) == (0, 1, 0, -1) && root.halvable());
    assert!(rt; root.root_half() == Zw::ONE);

    let end = Zw {
        a: i128::MAX,
        b: 0,
        c: 0,
        d: 0,
    };
    let sums = [end.add(Zw::ONE), end.neg().sub(Zw::ONE), end.sub(end)];
    assert!(rt; sums == [None, None, Some(Zw::ZERO)]);
    let zeros = [Some(Zw::ZERO), Some(Zw::ONE), end.sub(Zw::ONE)].map(|z| z.map(Zw::is_zero));
    assert!(rt; zeros == [Some(true), Some(false), Some(false)]);
    let weights = [Zw::ZERO, Zw::ONE, two, end].map(Zw::weight_bits);
    assert!(rt; weights == [0, 1, 2, 127]);
}
