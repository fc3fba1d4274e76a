//! The scaled store against the plain one, letter by letter.
use crate::stores::{branches, components, run};
use qm_denot::{Amps, Letter, PlainAmps, Wire};
use qm_store::ScaledAmps;
use std::alloc::{AllocError, Global};
use std::process::Abort;
use std::test::Fail;

const P: Wire = Wire {
    rank: 0,
    made: 0,
    near: false,
};

const Q: Wire = Wire {
    rank: 0,
    made: 1,
    near: false,
};

const R: Wire = Wire {
    rank: 1,
    made: 0,
    near: false,
};

const E: Wire = Wire {
    rank: 1,
    made: 1,
    near: true,
};

const F: Wire = Wire {
    rank: 1,
    made: 1,
    near: false,
};

/// Ten letters that leave no numerator of the wires `P`, `Q` and `R` zero and no two of them equal.
const TEN: [Letter; 10] = [
    Letter::Had { w: P },
    Letter::Phase { k: 1, w: P },
    Letter::Had { w: Q },
    Letter::Cx { c: P, t: R },
    Letter::Flip { w: R },
    Letter::Had { w: P },
    Letter::Cz { c: R, t: Q },
    Letter::Flip { w: Q },
    Letter::Had { w: R },
    Letter::Phase { k: 6, w: Q },
];

/// The sets of the five wires; those of the first eight are the sets of `P`, `Q` and `R`.
const SETS: [&'static [Wire]; 32] = [
    &[],
    &[P],
    &[Q],
    &[R],
    &[P, Q],
    &[P, R],
    &[Q, R],
    &[P, Q, R],
    &[E],
    &[E, P],
    &[E, Q],
    &[E, R],
    &[E, P, Q],
    &[E, P, R],
    &[E, Q, R],
    &[E, P, Q, R],
    &[F],
    &[F, P],
    &[F, Q],
    &[F, R],
    &[F, P, Q],
    &[F, P, R],
    &[F, Q, R],
    &[F, P, Q, R],
    &[E, F],
    &[E, F, P],
    &[E, F, Q],
    &[E, F, R],
    &[E, F, P, Q],
    &[E, F, P, R],
    &[E, F, Q, R],
    &[E, F, P, Q, R],
];

/// Whether two stores keep the same live wires, exponent and numerators, and give the same answers about branches.
fn agree<A: Amps, B: Amps>(one: &A, other: &B) -> bool
    requires one { A.able }
    requires other { B.able }
{
    if one.live() != other.live() || one.exponent() != other.exponent() {
        return false;
    }
    for ones in SETS {
        if components(one, ones) != components(other, ones) {
            return false;
        }
    }
    for (v, w) in [(P, Q), (Q, R), (R, P), (E, F), (F, E), (E, P)] {
        if branches(one, v, w) != branches(other, v, w) {
            return false;
        }
    }
    true
}

/// Both stores after the letters, where the last of them fits or not, agree; and the scaled one.
fn both(
    rt: &impl Abort,
    alloc: Global,
    letters: &[Letter],
    last: Letter,
) -> Result<(ScaledAmps, bool), AllocError> {
    let mut scaled = ScaledAmps::start(alloc, 5)?;
    let mut plain = PlainAmps::start(alloc, 5)?;
    let fit = run(rt, &mut scaled, &[P, Q, R], letters) && run(rt, &mut plain, &[P, Q, R], letters);
    let fits = run(rt, &mut scaled, &[], &[last]);
    let as_plain = run(rt, &mut plain, &[], &[last]) == fits;
    assert!(rt; fit && as_plain && agree(&scaled, &plain), "{last:?}");
    Ok((scaled, fits))
}

/// Every letter on the wires `P`, `Q` and `R`, and the pair of `E` and `F`.
fn each_letter(alloc: Global) -> Result<Vec<Letter>, Fail> {
    let mut letters = Vec::new(alloc);
    letters.push(Letter::Pair { a: E, b: F })?;
    for w in [P, Q, R] {
        for k in 0..8 {
            letters.push(Letter::Phase { k, w })?;
        }
        for m in [false, true] {
            letters.extend_from_slice(&[Letter::Keep { w, m }, Letter::Take { w, m }])?;
        }
        letters.extend_from_slice(&[
            Letter::Flip { w },
            Letter::Had { w },
            Letter::Rename { a: w, b: E },
        ])?;
    }
    for (c, t) in [(P, Q), (P, R), (Q, P), (Q, R), (R, P), (R, Q)] {
        letters.extend_from_slice(&[Letter::Cx { c, t }, Letter::Cz { c, t }])?;
    }
    Ok(letters)
}

#[test]
fn both_stores_agree_after_each_letter(rt: HostRuntime) -> Result<(), Fail> {
    for letter in each_letter(rt.alloc())? {
        let (_, fits) = both(&rt, rt.alloc(), &TEN, letter)?;
        assert!(rt; fits, "{letter:?}");
    }
    Ok(())
}

#[test]
fn answers_of_the_scaled_store(rt: HostRuntime) -> Result<(), Fail> {
    // Ten letters leave eight numerators that differ.
    let (amps, _) = both(&rt, rt.alloc(), &TEN[..9], TEN[9])?;
    let mut seen = [Some([0; 4]); 9];
    for j in 0..8 {
        let z = components(&amps, SETS[j]);
        assert!(rt; z.is_some() && !seen[..=j].contains(&z), "at {j}");
        seen[j + 1] = z;
    }
    // Two wires that are equal, and one that is always zero.
    let (amps, _) = both(
        &rt,
        rt.alloc(),
        &[Letter::Had { w: P }],
        Letter::Cx { c: P, t: Q },
    )?;
    let answers = [branches(&amps, P, Q), branches(&amps, R, P)];
    let wanted = [
        Some([true, true, false, true]),
        Some([true, false, true, false]),
    ];
    assert!(rt; answers == wanted);
    Ok(())
}

/// So many times a Hadamard and a T on `P`: twice as many letters make its numbers about `2^(turns / 4)`.
fn turned(alloc: Global, turns: usize) -> Result<Vec<Letter>, AllocError> {
    let mut letters = Vec::new(alloc);
    for _ in 0..turns {
        letters.extend_from_slice(&[Letter::Had { w: P }, Letter::Phase { k: 1, w: P }])?;
    }
    Ok(letters)
}

#[test]
fn both_stores_agree_while_numbers_leave_32_bits(rt: HostRuntime) -> Result<(), Fail> {
    let each = each_letter(rt.alloc())?;
    for turns in 86..130 {
        let mut letters = turned(rt.alloc(), turns)?;
        letters.extend_from_slice(&TEN)?;
        for letter in &each {
            let (_, fits) = both(&rt, rt.alloc(), &letters, *letter)?;
            assert!(rt; fits, "{letter:?} after {turns} turns");
        }
    }
    Ok(())
}

#[test]
fn an_overflow_leaves_both_stores_as_they_were(rt: HostRuntime) -> Result<(), Fail> {
    let had = Letter::Had { w: P };
    let letters = turned(rt.alloc(), 507)?;
    let turn = Letter::Phase { k: 0, w: P };
    let (before, _) = both(&rt, rt.alloc(), &letters, turn)?;
    let (after, fits) = both(&rt, rt.alloc(), &letters, had)?;
    assert!(rt; !fits && agree(&before, &after));
    Ok(())
}
