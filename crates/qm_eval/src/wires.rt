//! Wires that a store makes live where they aren't yet.
ghost use Rattle.std.specs.Prelude.{[], ◌∷◌, Contains};
ghost use Rattle.qm_ideal.specs.OneCircuits.{slot_of, wires_below};
ghost use Rattle.qm_proto.specs.Model.Ideal.{made_fresh};
ghost use Rattle.qm_eval.specs.Live.{HasRoomFor, MakesLive};

use qm_denot::{Amps, Letter, Wire};
use qm_ideal::OneCircuit;
use qm_limits::SLOTS;

/// Makes a wire live, where it isn't yet.
fn make_live<A: Amps>(amps: &mut A, w: Wire)
    requires able { A.able }
    requires room { HasRoomFor (w ∷ []) (A.store amps.old) }
    ensures { MakesLive (w ∷ []) (A.store amps.old) (A.store amps.new) }
{
    if !amps.is_live(w) {
        amps.fresh(w);
    }
}

/// Makes two wires live, where they aren't yet.
fn make_both_live<A: Amps>(amps: &mut A, v: Wire, w: Wire)
    requires able { A.able }
    requires room { HasRoomFor (v ∷ w ∷ []) (A.store amps.old) }
    ensures { MakesLive (v ∷ w ∷ []) (A.store amps.old) (A.store amps.new) }
{
    make_live(amps, v);
    make_live(amps, w);
}

/// Makes the wires live that a letter needs, but for those that it makes live itself: both wires of a pair, and a renamed wire's new name.
pub(crate) fn make_operands_live<A: Amps>(amps: &mut A, letter: Letter)
    requires able { A.able }
    requires room { HasRoomFor (made_fresh letter) (A.store amps.old) }
    ensures { MakesLive (made_fresh letter) (A.store amps.old) (A.store amps.new) }
{
    match letter {
        Letter::Phase { w, .. }
        | Letter::Flip { w }
        | Letter::Had { w }
        | Letter::Keep { w, .. }
        | Letter::Take { w, .. }
        | Letter::Rename { a: w, .. } => make_live(amps, w),
        Letter::Cx { c, t } | Letter::Cz { c, t } => make_both_live(amps, c, t),
        Letter::Pair { .. } => {}
    }
}

/// Makes the wires live that stand in a rank's slots at the circuit's end.
pub(crate) fn make_slots_live<A: Amps>(amps: &mut A, circuit: &OneCircuit, rank: u16)
    requires able { A.able }
    requires room { HasRoomFor (wires_below (slot_of circuit.now rank) SLOTS) (A.store amps.old) }
    ensures { MakesLive (wires_below (slot_of circuit.now rank) SLOTS)
        (A.store amps.old) (A.store amps.new) }
{
    for q in 0..SLOTS {
        if let Some(wire) = circuit.slot(rank, q) {
            make_live(amps, wire);
        }
    }
}
