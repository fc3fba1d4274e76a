//! Circuits whose amplitudes were worked out by hand, run on the plain store.
use crate::stores::{branches, components, run};
use qm_denot::{Amps, Letter, PlainAmps, Wire};
use std::test::Fail;

const Q: Wire = Wire {
    rank: 0,
    made: 0,
    near: false,
};

const E: Wire = Wire {
    rank: 0,
    made: 1,
    near: true,
};

const F: Wire = Wire {
    rank: 1,
    made: 1,
    near: false,
};

/// The sets of wires that are looked at.
const SETS: [&'static [Wire]; 4] = [&[], &[Q], &[F], &[Q, F]];

#[test]
fn amplitudes_are_as_worked_by_hand(rt: HostRuntime) -> Result<(), Fail> {
    let had = Letter::Had { w: Q };
    let turn = Letter::Phase { k: 1, w: Q };
    let pair = Letter::Pair { a: E, b: F };
    let parity = Letter::Cx { c: Q, t: E };
    let one = [1, 0, 0, 0];
    let zero = [0, 0, 0, 0];
    for (letters, exponent, amplitudes) in [
        (&[had][..], 1, [Some(one), Some(one), None, None]),
        (&[had, had][..], 0, [Some(one), Some(zero), None, None]),
        (
            &[had, turn, had][..],
            2,
            [Some([1, 1, 0, 0]), Some([1, -1, 0, 0]), None, None],
        ),
        // A copy, by either outcome.
        (
            &[had, pair, parity, Letter::Take { w: E, m: false }][..],
            2,
            [Some(one), Some(zero), Some(zero), Some(one)],
        ),
        (
            &[
                had,
                pair,
                parity,
                Letter::Take { w: E, m: true },
                Letter::Flip { w: F },
            ][..],
            2,
            [Some(one), Some(zero), Some(zero), Some(one)],
        ),
        // A move.
        (
            &[
                had,
                turn,
                pair,
                parity,
                had,
                Letter::Take { w: E, m: true },
                Letter::Take { w: Q, m: true },
                Letter::Flip { w: F },
                Letter::Phase { k: 4, w: F },
            ][..],
            3,
            [Some(one), None, Some([0, 1, 0, 0]), None],
        ),
        // A sign where both are one, of which the half where the first is one is kept under a new name.
        (
            &[
                pair,
                Letter::Had { w: F },
                Letter::Cz { c: E, t: F },
                Letter::Keep { w: E, m: true },
                Letter::Take { w: Q, m: false },
                Letter::Rename { a: E, b: Q },
            ][..],
            2,
            [Some(zero), Some(one), Some(zero), Some(one)],
        ),
    ] {
        let mut amps = PlainAmps::start(rt.alloc(), 3)?;
        let fits = run(&rt, &mut amps, &[Q], letters);
        let found = SETS.map(|ones| components(&amps, ones));
        assert!(rt;
            fits && amps.exponent() == exponent && found == amplitudes,
            "{letters:?}"
        );
    }
    Ok(())
}

#[test]
fn answers_about_branches_are_as_worked_by_hand(rt: HostRuntime) -> Result<(), Fail> {
    let pair = Letter::Pair { a: E, b: F };
    let copy = [
        Letter::Had { w: Q },
        pair,
        Letter::Cx { c: Q, t: E },
        Letter::Take { w: E, m: false },
    ];
    // the letters, the wire that the first wire is compared with, and the answers about it
    let cases = [
        (&copy[..], F, [true, true, false, true]),
        (&[pair][..], E, [true, false, true, false]),
        (
            &[pair, Letter::Flip { w: Q }][..],
            E,
            [false, true, false, false],
        ),
    ];
    for (letters, other, answers) in cases {
        let mut amps = PlainAmps::start(rt.alloc(), 3)?;
        let fits = run(&rt, &mut amps, &[Q], letters);
        assert!(rt;
            fits && branches(&amps, Q, other) == Some(answers),
            "{letters:?}"
        );
    }
    Ok(())
}
