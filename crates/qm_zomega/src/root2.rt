//! The law of root2, the contract of a function that does nothing.

ghost use Rattle.std.specs.Prelude.{◌≡◌};
ghost use Rattle.qm_zomega.specs.Numbers.{Number, ◌⊕◌, ◌⊖◌, omega_times, root2_of};

/// root2 is omega - omega^3, and its square is 2.
pub fn root2_law()
    ensures value { (z : Number) → root2_of z ≡ omega_times 1 z ⊖ omega_times 3 z }
    ensures square { (z : Number) → root2_of (root2_of z) ≡ z ⊕ z }
{}
