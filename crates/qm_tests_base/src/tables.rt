//! The turns of one number, and the case of each letter.
use qm_denot::{Letter, Wire};
use qm_tables::{Case, letter_case, turn, turn_by};
use qm_zomega::Zw;

const W: Wire = Wire {
    rank: 0,
    made: 0,
    near: false,
};

const V: Wire = Wire {
    rank: 1,
    made: 0,
    near: false,
};

/// `1 + 2 omega + 3 omega^2 + 4 omega^3`.
const Z: Zw = Zw {
    a: 1,
    b: 2,
    c: 3,
    d: 4,
};

#[test]
fn turns_and_cases(rt: HostRuntime) {
    for (e, parts) in [
        (0, (1, 2, 3, 4)),
        (1, (-4, 1, 2, 3)),
        (2, (-3, -4, 1, 2)),
        (3, (-2, -3, -4, 1)),
        (4, (-1, -2, -3, -4)),
        (5, (4, -1, -2, -3)),
        (6, (3, 4, -1, -2)),
        (7, (2, 3, 4, -1)),
    ] {
        let turned = turn_by(e, Z);
        let found = (turned.a, turned.b, turned.c, turned.d);
        assert!(rt; found == parts, "omega^{e}");
    }
    assert!(rt; turn::<5>(Z) == turn_by(5, Z));
    for (letter, case) in [
        (Letter::Phase { k: 3, w: W }, Case::Turn { e: 3 }),
        (Letter::Flip { w: W }, Case::Swap),
        (Letter::Had { w: W }, Case::Mix),
        (Letter::Cx { c: W, t: V }, Case::Cross),
        (Letter::Cz { c: W, t: V }, Case::Sign),
        (Letter::Pair { a: W, b: V }, Case::Double),
        (Letter::Keep { w: W, m: true }, Case::Hold),
        (Letter::Take { w: W, m: false }, Case::Shrink),
        (Letter::Rename { a: W, b: V }, Case::Name),
    ] {
        assert!(rt; letter_case(letter) == case, "{letter:?}");
    }
}
