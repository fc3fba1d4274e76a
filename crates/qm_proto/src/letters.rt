//! The letters of gates.
ghost use Rattle.std.specs.Prelude.{◌≡◌, ◌<◌, ◌^◌, ℕ};
ghost use Rattle.qm_denot.specs.declared.Wire.{Wire};
ghost use Rattle.qm_proto.specs.Model.Rows.{one_letter, gate_letter};

use qm_denot::{Letter, Wire};
use qm_instr::{Gate, OneGate};

/// The letter of a gate on one qubit.
fn one_letter(gate: OneGate, w: Wire) -> Letter
    ensures { result ≡ one_letter gate w }
{
    match gate {
        OneGate::X => Letter::Flip { w },
        OneGate::Z => Letter::Phase { k: 4, w },
        OneGate::H => Letter::Had { w },
        OneGate::S => Letter::Phase { k: 2, w },
        OneGate::Sdg => Letter::Phase { k: 6, w },
        OneGate::T => Letter::Phase { k: 1, w },
        OneGate::Tdg => Letter::Phase { k: 7, w },
    }
}

/// The letter of a gate on slots of which this tells the wires.
pub fn gate_letter<F: Fn(u8) -> Wire>(gate: Gate, wire_in: F) -> Letter
    requires { F.IsAlwaysCallable wire_in }
    ensures { (wires : ℕ → Wire)
        → ((q : ℕ) (w : Wire) → q < 2 ^ 8 → F.post wire_in q w → w ≡ wires q)
        → result ≡ gate_letter wires gate }
{
    match gate {
        Gate::One { g, q } => one_letter(g, wire_in(q)),
        Gate::Cx { c, t } => Letter::Cx {
            c: wire_in(c),
            t: wire_in(t),
        },
        Gate::Cz { c, t } => Letter::Cz {
            c: wire_in(c),
            t: wire_in(t),
        },
    }
}
