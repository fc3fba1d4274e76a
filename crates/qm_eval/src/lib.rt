//! The amplitudes of the one circuit: its letters, done on a store.
#![tactic(auto)]

ghost use Rattle.std.specs.Prelude.{◌≡◌, ◌≤◌, [], IfOk, IfErr};
ghost use Rattle.qm_denot.specs.Stores.{StandsFor};
ghost use Rattle.qm_ideal.specs.OneCircuits.{IsOneCircuit};
ghost use Rattle.qm_eval.specs.Holding.{HoldsCircuit};
ghost use Rattle.qm_eval.specs.Overflows.{IsFirstOverflow};

pub mod laws;
mod letters;
mod wires;

use letters::do_letters;
use qm_check::Ready;
use qm_denot::Amps;
use qm_ideal::OneCircuit;
use thiserror::Error;
use wires::make_slots_live;

/// The amplitudes leave the range of the numbers at a letter of the circuit: its number, from 0.
#[derive(Clone, Copy, PartialEq, Eq, Debug, Error)]
#[error("letter {at} leaves the range of the numbers")]
pub struct LetterOverflow {
    pub at: u32,
}

/// Does the letters of the one circuit of ready programs on a store that stands for the empty circuit and in which no wire is live.
///
/// The store's capacity is at least the circuit's width. A wire is made fresh just before the first letter that names it, but the second
/// wire of a `Rename` takes the place of the first; the wires in slots that no letter names are made fresh after the last letter. So each
/// wire in a slot is live in the store that is given back. No call in it takes memory.
///
/// `LetterOverflow` comes exactly where a component of the unreduced result of a `Had` leaves the range, and names the first such letter.
pub fn evaluate<A: Amps>(circuit: &OneCircuit, ready: &Ready, amps: A) -> Result<A, LetterOverflow>
    requires able { A.able }
    requires circuit { IsOneCircuit ready.now circuit.now }
    requires stands { StandsFor (A.store amps) [] }
    requires live { (A.store amps).live ≡ [] }
    requires room { circuit.now.width ≤ (A.store amps).capacity }
    ensures ok { IfOk result (λ s. HoldsCircuit circuit.now (A.store s)) }
    ensures capacity { IfOk result (λ s. (A.store s).capacity ≡ (A.store amps).capacity) }
    ensures err { IfErr result (λ e. IsFirstOverflow circuit.now.letters e.at) }
{
    let ranks = ready.input().ranks();
    let mut amps = amps;
    do_letters(&mut amps, circuit.letters())?;
    for rank in 0..ranks {
        make_slots_live(&mut amps, circuit, rank);
    }
    Ok(amps)
}
