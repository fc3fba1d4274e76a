//! The plain store: its numerators in one list, and every letter a plain loop from one list into another.
ghost use Rattle.std.specs.Prelude.{◌≡◌, ◌≤◌, ◌^◌, length};
ghost use Rattle.std.specs.Vec.{vec_capacity};
ghost use Rattle.qm_limits.specs.declared.TheConstants.{MOST_CAPACITY};
ghost use Rattle.qm_denot.specs.Sound.{Keeps, Keeps-prop};

pub(crate) mod branches;
pub(crate) mod places;
pub(crate) mod rules;
pub(crate) mod vectors;
pub(crate) mod wires;

use crate::amps::{Amps, Overflow};
use crate::plain::branches::{any_unequal, any_with};
use crate::plain::places::power;
use crate::plain::rules::{Rule, rewrite};
use crate::plain::vectors::{double, fill_had, reduce};
use crate::plain::wires::{index_at, place_of};
use crate::{Letter, Wire};
use qm_limits::MOST_CAPACITY;
use qm_zomega::Zw;
use std::alloc::{AllocError, Global};
use std::mem;

/// A store of amplitudes in one thread.
///
/// It keeps the numerators of the sets of live wires in one list: place p of an index is the live wire at position p. A letter
/// fills a second list, which takes as much memory again, and the two change places.
#[derive(Drop)]
pub struct PlainAmps {
    capacity: u32,
    live: Vec<Wire>,
    numerators: Vec<Zw>,
    spare: Vec<Zw>,
    exponent: u64,
    ghost small: { capacity ≤ MOST_CAPACITY },
    ghost few: { length live.items ≤ capacity },
    ghost live_room: { capacity ≤ vec_capacity live },
    ghost size: { length numerators.items ≡ 2 ^ length live.items },
    ghost room: { 2 ^ capacity ≤ vec_capacity numerators },
    ghost spare_room: { 2 ^ capacity ≤ vec_capacity spare },
    ghost kept: { Keeps live.items numerators.items exponent } by { Keeps-prop _ _ _ },
}

impl PlainAmps {
    ghost use Rattle.std.specs.Prelude.{◌≡◌, ◌≢◌, ◌+◌, ◌<◌, ◌≤◌, ◌↔◌, [], length, Contains, IfOk, IsErr, OnOk, OnErr};
    ghost use Rattle.qm_denot.specs.Stores.{StandsFor, Overflows, MayApply};
    ghost use Rattle.qm_denot.specs.ListStores.{Does, listed_store};

    /// A store with room for so many live wires, that stands for the empty circuit.
    ///
    /// All memory is taken here, and `AllocError` comes only for want of it.
    pub fn start(alloc: Global, capacity: u32) -> Result<PlainAmps, AllocError>
        requires { capacity ≤ MOST_CAPACITY }
        ensures stands { IfOk result (λ s. StandsFor (⟦<PlainAmps as Amps>⟧.store s) []) }
        ensures live { IfOk result (λ s. (⟦<PlainAmps as Amps>⟧.store s).live ≡ []) }
        ensures capacity { IfOk result (λ s. (⟦<PlainAmps as Amps>⟧.store s).capacity ≡ capacity) }
    {
        let size = power(capacity);
        let mut numerators = Vec::with_capacity(alloc, size)?;
        let _ = numerators.push(Zw::ONE);
        Ok(PlainAmps {
            capacity,
            live: Vec::with_capacity(alloc, capacity as usize)?,
            numerators,
            spare: Vec::with_capacity(alloc, size)?,
            exponent: 0,
        })
    }

    /// Multiplies the numerators where `w` is one by omega^`k`.
    fn phase(&mut self, k: u8, w: Wire)
        requires may { MayApply (Letter.Phase k w) (⟦<PlainAmps as Amps>⟧.store self.old) }
        ensures { Does (Letter.Phase k w) (⟦<PlainAmps as Amps>⟧.store self.old)
            (⟦<PlainAmps as Amps>⟧.store self.new) }
    {
        let place = place_of(&self.live, w);
        rewrite(
            Rule::Phase { k, place },
            &mut self.numerators,
            &mut self.spare,
        );
    }

    /// Exchanges the branches of `w`.
    fn flip(&mut self, w: Wire)
        requires may { MayApply (Letter.Flip w) (⟦<PlainAmps as Amps>⟧.store self.old) }
        ensures { Does (Letter.Flip w) (⟦<PlainAmps as Amps>⟧.store self.old)
            (⟦<PlainAmps as Amps>⟧.store self.new) }
    {
        let place = place_of(&self.live, w);
        rewrite(Rule::Flip { place }, &mut self.numerators, &mut self.spare);
    }

    /// Exchanges the branches of `t` where `c` is one.
    fn cx(&mut self, c: Wire, t: Wire)
        requires may { MayApply (Letter.Cx c t) (⟦<PlainAmps as Amps>⟧.store self.old) }
        ensures { Does (Letter.Cx c t) (⟦<PlainAmps as Amps>⟧.store self.old)
            (⟦<PlainAmps as Amps>⟧.store self.new) }
    {
        let control = place_of(&self.live, c);
        let target = place_of(&self.live, t);
        rewrite(
            Rule::Cx { control, target },
            &mut self.numerators,
            &mut self.spare,
        );
    }

    /// Changes the sign where both are one.
    fn cz(&mut self, c: Wire, t: Wire)
        requires may { MayApply (Letter.Cz c t) (⟦<PlainAmps as Amps>⟧.store self.old) }
        ensures { Does (Letter.Cz c t) (⟦<PlainAmps as Amps>⟧.store self.old)
            (⟦<PlainAmps as Amps>⟧.store self.new) }
    {
        let one = place_of(&self.live, c);
        let other = place_of(&self.live, t);
        rewrite(
            Rule::Cz { one, other },
            &mut self.numerators,
            &mut self.spare,
        );
    }

    /// Keeps the branches where `w` is `m`; the others are zero.
    fn keep(&mut self, w: Wire, m: bool)
        requires may { MayApply (Letter.Keep w m) (⟦<PlainAmps as Amps>⟧.store self.old) }
        ensures { Does (Letter.Keep w m) (⟦<PlainAmps as Amps>⟧.store self.old)
            (⟦<PlainAmps as Amps>⟧.store self.new) }
    {
        let place = place_of(&self.live, w);
        rewrite(
            Rule::Keep { place, m },
            &mut self.numerators,
            &mut self.spare,
        );
        self.exponent = reduce(&mut self.numerators, self.exponent);
    }

    /// Puts the sum and the difference of each two branches that differ in `w` alone in their stead, unless one leaves the range.
    fn had(&mut self, w: Wire) -> Result<(), Overflow>
        requires may { MayApply (Letter.Had w) (⟦<PlainAmps as Amps>⟧.store self.old) }
        ensures does { OnOk result (Does (Letter.Had w) (⟦<PlainAmps as Amps>⟧.store self.old)
            (⟦<PlainAmps as Amps>⟧.store self.new)) }
        ensures overflow { IsErr result
            ↔ Overflows (Letter.Had w) (⟦<PlainAmps as Amps>⟧.store self.old) }
        ensures unchanged { OnErr result
            (⟦<PlainAmps as Amps>⟧.store self.new ≡ ⟦<PlainAmps as Amps>⟧.store self.old) }
    {
        let place = place_of(&self.live, w);
        fill_had(&self.numerators, &mut self.spare, place)?;
        mem::swap(&mut self.numerators, &mut self.spare);
        self.exponent = reduce(&mut self.numerators, self.exponent + 1);
        Ok(())
    }

    /// Makes `a` and `b` live as an EPR pair.
    fn pair(&mut self, a: Wire, b: Wire)
        requires may { MayApply (Letter.Pair a b) (⟦<PlainAmps as Amps>⟧.store self.old) }
        ensures { Does (Letter.Pair a b) (⟦<PlainAmps as Amps>⟧.store self.old)
            (⟦<PlainAmps as Amps>⟧.store self.new) }
    {
        let count = self.live.len() as u32;
        rewrite(Rule::Pair { count }, &mut self.numerators, &mut self.spare);
        let _ = self.live.push(a);
        let _ = self.live.push(b);
        self.exponent = reduce(&mut self.numerators, self.exponent + 1);
    }

    /// Keeps the branches where `w` is `m`, after which it isn't live any more.
    fn take(&mut self, w: Wire, m: bool)
        requires may { MayApply (Letter.Take w m) (⟦<PlainAmps as Amps>⟧.store self.old) }
        ensures { Does (Letter.Take w m) (⟦<PlainAmps as Amps>⟧.store self.old)
            (⟦<PlainAmps as Amps>⟧.store self.new) }
    {
        let place = place_of(&self.live, w);
        rewrite(
            Rule::Take { place, m },
            &mut self.numerators,
            &mut self.spare,
        );
        let _ = self.live.remove(place as usize);
        self.exponent = reduce(&mut self.numerators, self.exponent);
    }

    /// Makes `b` live in the place of `a`.
    fn rename(&mut self, a: Wire, b: Wire)
        requires may { MayApply (Letter.Rename a b) (⟦<PlainAmps as Amps>⟧.store self.old) }
        ensures { Does (Letter.Rename a b) (⟦<PlainAmps as Amps>⟧.store self.old)
            (⟦<PlainAmps as Amps>⟧.store self.new) }
    {
        let place = place_of(&self.live, a);
        self.live[place as usize] = b;
    }
}

impl Amps for PlainAmps {
    ghost use Rattle.qm_denot.specs.ListStores.{listed_store};
    ghost use Rattle.qm_denot.specs.Sound.{listed_sound};

    ghost able = { Unit {0} };

    ghost store = { λ s. listed_store s.capacity s.live.items s.exponent s.numerators.items };

    fn live(&self) -> &[Wire] {
        self.live.as_slice()
    }

    fn room(&self) -> u32 {
        self.capacity - self.live.len() as u32
    }

    fn fresh(&mut self, w: Wire) {
        let _ = self.live.push(w);
        double(&mut self.numerators);
    }

    fn apply(&mut self, letter: Letter) -> Result<(), Overflow> {
        match letter {
            Letter::Phase { k, w } => {
                self.phase(k, w);
                Ok(())
            }
            Letter::Flip { w } => {
                self.flip(w);
                Ok(())
            }
            Letter::Had { w } => self.had(w),
            Letter::Cx { c, t } => {
                self.cx(c, t);
                Ok(())
            }
            Letter::Cz { c, t } => {
                self.cz(c, t);
                Ok(())
            }
            Letter::Pair { a, b } => {
                self.pair(a, b);
                Ok(())
            }
            Letter::Keep { w, m } => {
                self.keep(w, m);
                Ok(())
            }
            Letter::Take { w, m } => {
                self.take(w, m);
                Ok(())
            }
            Letter::Rename { a, b } => {
                self.rename(a, b);
                Ok(())
            }
        }
    }

    fn can_be(&self, w: Wire, m: bool) -> bool {
        any_with(&self.numerators, place_of(&self.live, w), m)
    }

    fn always_zero(&self, w: Wire) -> bool {
        !any_with(&self.numerators, place_of(&self.live, w), true)
    }

    fn always_equal(&self, w: Wire, v: Wire) -> bool {
        let one = place_of(&self.live, w);
        let other = place_of(&self.live, v);
        !any_unequal(&self.numerators, one, other)
    }

    fn exponent(&self) -> u64 {
        self.exponent
    }

    fn value(&self, ones: &[Wire]) -> Zw {
        self.numerators[index_at(&self.live, ones)]
    }

    fn numerator(&self, index: usize) -> Zw {
        self.numerators[index]
    }

    ghost sound = { λ s. listed_sound s.capacity s.live.items s.exponent s.numerators.items
        s.few s.kept };
}
