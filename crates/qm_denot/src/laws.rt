//! Laws of circuits, each the contract of a function that does nothing.
ghost use Rattle.std.specs.Prelude.{◌≡◌, [], ◌∷◌, ◌++◌};
ghost use Rattle.qm_denot.specs.declared.Letter.{Letter};
ghost use Rattle.qm_denot.specs.Wires.{Wires};
ghost use Rattle.qm_denot.specs.Circuits.{Circuit, amp, with_letter};
ghost use Rattle.qm_denot.specs.ReducedForms.{ReducedFormLaw};

/// Each circuit has one reduced form: its amplitudes over root2 once for each halving, divided by root2 as long as root2 divides all of
/// them.
pub fn reduced_form_law()
    ensures { ReducedFormLaw }
{}

/// The amplitude of a circuit with one more letter is given by that letter's line of `with_letter`.
pub fn last_letter_law()
    ensures { (c : Circuit) (l : Letter) (x : Wires)
        → amp (c ++ l ∷ []) x ≡ with_letter l (amp c) x }
{}
