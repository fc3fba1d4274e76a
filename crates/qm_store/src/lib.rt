//! A store of amplitudes in one thread, in place.
//!
//! It keeps the numerators of the sets of live wires in one list, of which place p of an index is the live wire at position p, so the
//! wire that became live last has the highest place. The list is reserved once, in narrow and in wide numbers, and each letter
//! rewrites one of the two in place: the narrow one while a bound on its components allows it, and from then on the wide one.
#![tactic(auto)]

ghost use Rattle.std.specs.Prelude.{◌≡◌, ◌≤◌, ◌^◌, length};
ghost use Rattle.std.specs.Vec.{vec_capacity};
ghost use Rattle.qm_limits.specs.declared.TheConstants.{MOST_CAPACITY};
ghost use Rattle.qm_denot.specs.Sound.{Keeps, Keeps-prop};
ghost use Rattle.qm_store.specs.Numerators.{items_of};

mod branches;
mod lists;
mod numerators;

use numerators::Numerators;
use qm_denot::{Amps, Letter, Overflow, Wire, index_at, place_of, power};
use qm_limits::MOST_CAPACITY;
use qm_zomega::Zw;
use std::alloc::{AllocError, Global};

/// A store of amplitudes in one thread, in place.
///
/// Letters that cannot make the numbers divisible by root2 leave the form reduced; after the others it is reduced, by a test that ends
/// at the first number that root2 does not divide. A Hadamard tests all sums before it writes the first of them.
#[derive(Drop)]
pub struct ScaledAmps {
    capacity: u32,
    live: Vec<Wire>,
    numerators: Numerators,
    exponent: u64,
    ghost small: { capacity ≤ MOST_CAPACITY },
    ghost few: { length live.items ≤ capacity },
    ghost live_room: { capacity ≤ vec_capacity live },
    ghost size: { length (items_of numerators) ≡ 2 ^ length live.items },
    ghost room: { 2 ^ capacity ≤ numerators.room },
    ghost kept: { Keeps live.items (items_of numerators) exponent } by { Keeps-prop _ _ _ },
}

impl ScaledAmps {
    ghost use Rattle.std.specs.Prelude.{◌≡◌, ◌≢◌, ◌+◌, ◌<◌, ◌≤◌, ◌↔◌, [], length, Contains, IfOk, IsErr, OnOk, OnErr};
    ghost use Rattle.qm_denot.specs.Stores.{StandsFor, Overflows, MayApply};
    ghost use Rattle.qm_denot.specs.ListStores.{Does, listed_store};

    /// A store with room for so many live wires, that stands for the empty circuit.
    ///
    /// All memory is taken here, and `AllocError` comes only for want of it.
    pub fn start(alloc: Global, capacity: u32) -> Result<ScaledAmps, AllocError>
        requires { capacity ≤ MOST_CAPACITY }
        ensures stands { IfOk result (λ s. StandsFor (⟦<ScaledAmps as Amps>⟧.store s) []) }
        ensures live { IfOk result (λ s. (⟦<ScaledAmps as Amps>⟧.store s).live ≡ []) }
        ensures capacity { IfOk result (λ s. (⟦<ScaledAmps as Amps>⟧.store s).capacity ≡ capacity) }
    {
        let numerators = Numerators::one(alloc, power(capacity))?;
        Ok(ScaledAmps {
            capacity,
            live: Vec::with_capacity(alloc, capacity as usize)?,
            numerators,
            exponent: 0,
        })
    }

    /// Multiplies the numerators where `w` is one by omega^`k`.
    fn phase(&mut self, k: u8, w: Wire)
        requires may { MayApply (Letter.Phase k w) (⟦<ScaledAmps as Amps>⟧.store self.old) }
        ensures { Does (Letter.Phase k w) (⟦<ScaledAmps as Amps>⟧.store self.old)
            (⟦<ScaledAmps as Amps>⟧.store self.new) }
    {
        let place = place_of(&self.live, w);
        self.numerators.phase(place, k);
    }

    /// Exchanges the branches of `w`.
    fn flip(&mut self, w: Wire)
        requires may { MayApply (Letter.Flip w) (⟦<ScaledAmps as Amps>⟧.store self.old) }
        ensures { Does (Letter.Flip w) (⟦<ScaledAmps as Amps>⟧.store self.old)
            (⟦<ScaledAmps as Amps>⟧.store self.new) }
    {
        let place = place_of(&self.live, w);
        self.numerators.flip(place);
    }

    /// Exchanges the branches of `t` where `c` is one.
    fn cx(&mut self, c: Wire, t: Wire)
        requires may { MayApply (Letter.Cx c t) (⟦<ScaledAmps as Amps>⟧.store self.old) }
        ensures { Does (Letter.Cx c t) (⟦<ScaledAmps as Amps>⟧.store self.old)
            (⟦<ScaledAmps as Amps>⟧.store self.new) }
    {
        let control = place_of(&self.live, c);
        let target = place_of(&self.live, t);
        self.numerators.cross(control, target);
    }

    /// Changes the sign where both are one.
    fn cz(&mut self, c: Wire, t: Wire)
        requires may { MayApply (Letter.Cz c t) (⟦<ScaledAmps as Amps>⟧.store self.old) }
        ensures { Does (Letter.Cz c t) (⟦<ScaledAmps as Amps>⟧.store self.old)
            (⟦<ScaledAmps as Amps>⟧.store self.new) }
    {
        let one = place_of(&self.live, c);
        let other = place_of(&self.live, t);
        self.numerators.sign(one, other);
    }

    /// Keeps the branches where `w` is `m`; the others are zero.
    fn keep(&mut self, w: Wire, m: bool)
        requires may { MayApply (Letter.Keep w m) (⟦<ScaledAmps as Amps>⟧.store self.old) }
        ensures { Does (Letter.Keep w m) (⟦<ScaledAmps as Amps>⟧.store self.old)
            (⟦<ScaledAmps as Amps>⟧.store self.new) }
    {
        let place = place_of(&self.live, w);
        self.numerators.keep(place, m);
        self.numerators.reduce(&mut self.exponent);
    }

    /// Puts the sum and the difference of each two branches that differ in `w` alone in their stead, unless one leaves the range.
    fn had(&mut self, w: Wire) -> Result<(), Overflow>
        requires may { MayApply (Letter.Had w) (⟦<ScaledAmps as Amps>⟧.store self.old) }
        ensures does { OnOk result (Does (Letter.Had w) (⟦<ScaledAmps as Amps>⟧.store self.old)
            (⟦<ScaledAmps as Amps>⟧.store self.new)) }
        ensures overflow { IsErr result
            ↔ Overflows (Letter.Had w) (⟦<ScaledAmps as Amps>⟧.store self.old) }
        ensures unchanged { OnErr result
            (⟦<ScaledAmps as Amps>⟧.store self.new ≡ ⟦<ScaledAmps as Amps>⟧.store self.old) }
    {
        let place = place_of(&self.live, w);
        if !self.numerators.had(place, &mut self.exponent) {
            return Err(Overflow);
        }
        Ok(())
    }

    /// Makes `a` and `b` live as an EPR pair.
    fn pair(&mut self, a: Wire, b: Wire)
        requires may { MayApply (Letter.Pair a b) (⟦<ScaledAmps as Amps>⟧.store self.old) }
        ensures { Does (Letter.Pair a b) (⟦<ScaledAmps as Amps>⟧.store self.old)
            (⟦<ScaledAmps as Amps>⟧.store self.new) }
    {
        let count = self.live.len() as u32;
        self.numerators.pair(count);
        let _ = self.live.push(a);
        let _ = self.live.push(b);
        self.exponent += 1;
        self.numerators.reduce(&mut self.exponent);
    }

    /// Keeps the branches where `w` is `m`, after which it isn't live any more.
    fn take(&mut self, w: Wire, m: bool)
        requires may { MayApply (Letter.Take w m) (⟦<ScaledAmps as Amps>⟧.store self.old) }
        ensures { Does (Letter.Take w m) (⟦<ScaledAmps as Amps>⟧.store self.old)
            (⟦<ScaledAmps as Amps>⟧.store self.new) }
    {
        let place = place_of(&self.live, w);
        self.numerators.take(place, m);
        let _ = self.live.remove(place as usize);
        self.numerators.reduce(&mut self.exponent);
    }

    /// Makes `b` live in the place of `a`.
    fn rename(&mut self, a: Wire, b: Wire)
        requires may { MayApply (Letter.Rename a b) (⟦<ScaledAmps as Amps>⟧.store self.old) }
        ensures { Does (Letter.Rename a b) (⟦<ScaledAmps as Amps>⟧.store self.old)
            (⟦<ScaledAmps as Amps>⟧.store self.new) }
    {
        let place = place_of(&self.live, a);
        self.live[place as usize] = b;
    }
}

impl Amps for ScaledAmps {
    ghost use Rattle.qm_denot.specs.ListStores.{listed_store};
    ghost use Rattle.qm_denot.specs.Sound.{listed_sound};
    ghost use Rattle.qm_store.specs.Numerators.{items_of};

    ghost able = { Unit {0} };

    ghost store = { λ s. listed_store s.capacity s.live.items s.exponent (items_of s.numerators) };

    fn live(&self) -> &[Wire] {
        self.live.as_slice()
    }

    fn room(&self) -> u32 {
        self.capacity - self.live.len() as u32
    }

    fn fresh(&mut self, w: Wire) {
        let _ = self.live.push(w);
        self.numerators.double();
    }

    fn apply(&mut self, letter: Letter) -> Result<(), Overflow> {
        match letter {
            Letter::Phase { k, w } => {
                self.phase(k, w);
                Ok(())
            }
            Letter::Flip { w } => {
                self.flip(w);
                Ok(())
            }
            Letter::Had { w } => self.had(w),
            Letter::Cx { c, t } => {
                self.cx(c, t);
                Ok(())
            }
            Letter::Cz { c, t } => {
                self.cz(c, t);
                Ok(())
            }
            Letter::Pair { a, b } => {
                self.pair(a, b);
                Ok(())
            }
            Letter::Keep { w, m } => {
                self.keep(w, m);
                Ok(())
            }
            Letter::Take { w, m } => {
                self.take(w, m);
                Ok(())
            }
            Letter::Rename { a, b } => {
                self.rename(a, b);
                Ok(())
            }
        }
    }

    fn can_be(&self, w: Wire, m: bool) -> bool {
        self.numerators.any_with(place_of(&self.live, w), m)
    }

    fn always_zero(&self, w: Wire) -> bool {
        !self.numerators.any_with(place_of(&self.live, w), true)
    }

    fn always_equal(&self, w: Wire, v: Wire) -> bool {
        let one = place_of(&self.live, w);
        let other = place_of(&self.live, v);
        !self.numerators.any_unequal(one, other)
    }

    fn exponent(&self) -> u64 {
        self.exponent
    }

    fn value(&self, ones: &[Wire]) -> Zw {
        self.numerators.number(index_at(&self.live, ones))
    }

    fn numerator(&self, index: usize) -> Zw {
        self.numerators.number(index)
    }

    ghost sound = { λ s. listed_sound s.capacity s.live.items s.exponent (items_of s.numerators)
        s.few s.kept };
}
