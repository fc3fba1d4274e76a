//! Tests of qm_sample: the outcomes that words give, on both sides of thresholds that were worked out by hand.
ghost use Rattle.std.specs.Prelude.{◌≤◌, IfOk};
ghost use Rattle.qm_limits.specs.declared.TheConstants.{MOST_CAPACITY};

use crate::fixtures::ready_of;
use qm_denot::{Amps, PlainAmps, Wire};
use qm_eval::evaluate;
use qm_ideal::mono;
use qm_limits::MOST_CAPACITY;
use qm_sample::outcome_of;
use std::alloc::Global;
use std::process::Abort;
use std::test::Fail;

/// The first wire of rank 0.
const WIRE: Wire = Wire {
    rank: 0,
    made: 0,
    near: false,
};

/// The store that the one circuit of a rank's instructions leaves.
fn amps_of(rt: &impl Abort, alloc: Global, instructions: &str) -> Result<PlainAmps, Fail>
    ensures { IfOk result (λ s. (⟦<PlainAmps as Amps>⟧.store s).capacity ≤ MOST_CAPACITY) }
{
    let text = format!(in alloc; "qmpi 1 ranks 1 qubits 2 buffer 1 rank 0 {instructions} end")?;
    let ready = ready_of(rt, alloc, &text)?;
    let circuit = mono(alloc, &ready)?;
    let width = circuit.width();
    assert!(rt; width <= MOST_CAPACITY, "a narrow store");
    Ok(evaluate(&circuit, &ready, PlainAmps::start(alloc, width)?)?)
}

/// What a word gives for the first wire after a rank's instructions.
fn given(
    rt: &impl Abort,
    alloc: Global,
    instructions: &str,
    word: u32,
) -> Result<Option<bool>, Fail> {
    let amps = amps_of(rt, alloc, instructions)?;
    assert!(rt; amps.is_live(WIRE), "a live wire");
    Ok(outcome_of(&amps, WIRE, word))
}

/// Instructions, and the last word that gives one. One has the shares 1, 1/2, (2 - root2)/4, (2 + root2)/4, 1/2 (a half of a pair, and
/// a qubit beside another), and 0.
const LAST: [(&str, Option<u32>); 7] = [
    ("alloc 0 x 0", Some(u32::MAX)),
    ("alloc 0 h 0", Some(2_147_483_647)),
    ("alloc 0 h 0 t 0 h 0", Some(628_983_551)),
    ("alloc 0 h 0 t 0 h 0 x 0", Some(3_665_983_999)),
    ("alloc 0 h 0 alloc 1 cx 0 1", Some(2_147_483_647)),
    ("alloc 0 alloc 1 x 1 h 0 t 0 h 0", Some(628_983_551)),
    ("alloc 0 h 0 h 0", None),
];

#[test]
fn words_give_one_up_to_these(rt: HostRuntime) -> Result<(), Fail> {
    let alloc = rt.alloc();
    for (instructions, last) in LAST {
        let mut next = Some(0);
        if let Some(word) = last {
            assert_eq!(rt;
                given(&rt, alloc, instructions, word)?,
                Some(true),
                "at {instructions}"
            );
            next = word.checked_add(1);
        }
        if let Some(word) = next {
            assert_eq!(rt;
                given(&rt, alloc, instructions, word)?,
                Some(false),
                "at {instructions}"
            );
        }
    }
    Ok(())
}

/// After 73 turns by `h` and `t` the norms of the numerators come to 2^37, after 74 to twice as much.
#[test]
fn a_measurement_is_heavy_from_here_on(rt: HostRuntime) -> Result<(), Fail> {
    let alloc = rt.alloc();
    for (turns, is_heavy) in [(72u32, false), (73, false), (74, true), (250, true)] {
        let instructions = format!(in alloc; "alloc 0 for i in 0..{turns} {{ h 0 t 0 }}")?;
        let outcome = given(&rt, alloc, &instructions, 0)?;
        assert_eq!(rt; outcome.is_none(), is_heavy, "{turns} turns");
    }
    Ok(())
}
