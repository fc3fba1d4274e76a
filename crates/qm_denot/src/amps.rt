//! What every store of amplitudes does: the letters of circuits, and questions about branches.
ghost use Rattle.std.specs.Prelude.{◌≡◌, ◌≢◌, ◌+◌, ◌<◌, ◌^◌, ◌↔◌, true, false, List, [], ◌∷◌, ◌++◌, length, All, Contains, IsTrue, OnOk, OnErr, IsErr};
ghost use Rattle.qm_zomega.specs.Zw.{value_of};
ghost use Rattle.qm_zomega.specs.Numbers.{zero_number};
ghost use Rattle.qm_denot.specs.Wires.{Wires, has};
ghost use Rattle.qm_denot.specs.WireLists.{Distinct, wires_of};
ghost use Rattle.qm_denot.specs.Places.{set_at};
ghost use Rattle.qm_denot.specs.Circuits.{Circuit};
ghost use Rattle.qm_denot.specs.Stores.{Store, StandsFor, IsSound, MayApply, Overflows, live_after};

use crate::{Letter, Wire};
use qm_zomega::Zw;

/// A component of a Hadamard's unreduced result leaves the range of the numbers.
#[derive(Clone, Copy, PartialEq, Eq, Debug)]
pub struct Overflow;

/// A store of amplitudes: live wires, an exponent `k`, and for each set of live wires a numerator over `root2^k`.
///
/// No call takes memory, and none changes the capacity.
pub trait Amps: Drop {
    /// What the type must be for the calls that go over the numerators: nothing for a store of one thread, and for one that works in
    /// threads, that they may share its runtime.
    ghost able: { Type 0 };

    /// What the store contains, however it is kept.
    ghost store: { Self → Store };

    /// The live wires, each once, in the order in which they became live.
    fn live(&self) -> &[Wire]
        ensures live { result.now ≡ (store self.now).live }
        ensures once { Distinct result.now };

    /// Whether a wire is live.
    fn is_live(&self, w: Wire) -> bool
        ensures { IsTrue result ↔ Contains (store self.now).live w }
    {
        self.live().contains(&w)
    }

    /// The capacity less the number of live wires.
    fn room(&self) -> u32
        ensures { result + length (store self.now).live ≡ (store self.now).capacity };

    /// Makes `w` live, as a qubit that is zero.
    fn fresh(&mut self, w: Wire)
        requires able { able }
        requires absent { ¬ (Contains (store self.old).live w) }
        requires room { length (store self.old).live < (store self.old).capacity }
        ensures stands { (c : Circuit) → StandsFor (store self.old) c
            → StandsFor (store self.new) c }
        ensures live { (store self.new).live ≡ (store self.old).live ++ w ∷ [] }
        ensures capacity { (store self.new).capacity ≡ (store self.old).capacity };

    /// Does the letter.
    ///
    /// `Overflow` comes exactly where the letter is `Had` and a component of the unreduced result leaves the range; the store is
    /// unchanged then.
    fn apply(&mut self, letter: Letter) -> Result<(), Overflow>
        requires able { able }
        requires may { MayApply letter (store self.old) }
        ensures stands { OnOk result
            ((c : Circuit) → StandsFor (store self.old) c
            → StandsFor (store self.new) (c ++ letter ∷ [])) }
        ensures live { OnOk result ((store self.new).live
            ≡ live_after letter (store self.old).live) }
        ensures capacity { (store self.new).capacity ≡ (store self.old).capacity }
        ensures overflow { IsErr result ↔ Overflows letter (store self.old) }
        ensures unchanged { OnErr result (store self.new ≡ store self.old) };

    /// Whether some non-zero branch has `w` equal to `m`.
    fn can_be(&self, w: Wire, m: bool) -> bool
        requires able { able }
        requires live { Contains (store self.now).live w }
        ensures yes { result ≡ true
            → (x : Wires) × (has x w ≡ m) × ((store self.now).value x ≢ zero_number) }
        ensures no { result ≡ false → (x : Wires) → has x w ≡ m
            → (store self.now).value x ≡ zero_number };

    /// Whether every non-zero branch has `w` zero.
    fn always_zero(&self, w: Wire) -> bool
        requires able { able }
        requires live { Contains (store self.now).live w }
        ensures yes { result ≡ true → (x : Wires) → has x w ≡ true
            → (store self.now).value x ≡ zero_number }
        ensures no { result ≡ false
            → (x : Wires) × (has x w ≡ true) × ((store self.now).value x ≢ zero_number) };

    /// Whether every non-zero branch has `w` equal to `v`.
    fn always_equal(&self, w: Wire, v: Wire) -> bool
        requires able { able }
        requires live { Contains (store self.now).live w × Contains (store self.now).live v }
        requires distinct { w ≢ v }
        ensures yes { result ≡ true → (x : Wires) → has x w ≢ has x v
            → (store self.now).value x ≡ zero_number }
        ensures no { result ≡ false
            → (x : Wires) × (has x w ≢ has x v) × ((store self.now).value x ≢ zero_number) };

    /// The exponent of the reduced form.
    fn exponent(&self) -> u64
        ensures { result ≡ (store self.now).exponent };

    /// The numerator where just these wires are one.
    fn value(&self, ones: &[Wire]) -> Zw
        requires live { All (Contains (store self.now).live) ones.now }
        requires distinct { Distinct ones.now }
        ensures { value_of result ≡ (store self.now).value (wires_of ones.now) };

    /// The numerator at an index: place p of an index is the live wire at position p.
    fn numerator(&self, index: usize) -> Zw
        requires { index < 2 ^ length (store self.now).live }
        ensures { value_of result ≡ (store self.now).value (set_at (store self.now).live index) };

    /// Every value of the type keeps each live wire once, room for them, zeros outside the live wires, and a reduced form.
    ghost sound: { (s : Self) → IsSound (store s) };
}
