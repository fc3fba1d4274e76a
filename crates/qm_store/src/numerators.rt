//! A list of numerators that is kept in narrow numbers while they suffice, and in wide ones from then on.
ghost use Rattle.std.specs.Prelude.{◌≡◌, ◌+◌, ◌<◌, ◌≤◌, length};
ghost use Rattle.std.specs.Vec.{vec_capacity};
ghost use Rattle.qm_kernels.specs.Below.{AllBelow};
ghost use Rattle.qm_kernels.specs.Narrow.{narrow_value};

use crate::branches::{any_unequal, any_with};
use crate::lists::{double, pair_list, take_list, widen_list};
use qm_kernels::narrow::Narrow;
use qm_kernels::slim::Slim;
use qm_kernels::{bounded, numbers};
use qm_zomega::Zw;
use std::alloc::{AllocError, Global};

/// The bound on the components after a Hadamard: one bit more, where there is one.
fn doubled(bits: u32) -> u32
    requires { bits ≤ 30 }
    ensures most { result ≤ 30 }
    ensures more { bits < 30 → result ≡ bits + 1 }
    ensures end { bits ≡ 30 → result ≡ 30 }
{
    if bits < Narrow::MOST_BITS {
        bits + 1
    } else {
        bits
    }
}

/// Numerators in one of two lists.
///
/// `bits` bounds the components of the narrow ones: a Hadamard adds one to it, and no other letter does. Where it is at its end, one
/// pass over the list tells whether the components are light, and else one whether all numbers that the Hadamard makes are narrow. Where
/// one isn't, the numerators go over to the wide list, and stay there.
#[derive(Drop)]
pub(crate) struct Numerators {
    room: usize,
    is_wide: bool,
    narrow: Vec<Narrow>,
    wide: Vec<Zw>,
    bits: u32,
    ghost few: { length narrow.items ≤ room },
    ghost narrow_room: { room ≤ vec_capacity narrow },
    ghost wide_room: { room ≤ vec_capacity wide },
    ghost bits_fit: { bits ≤ 30 },
    ghost below: { AllBelow narrow_value bits narrow.items },
}

impl Numerators {
    ghost use Rattle.std.specs.Prelude.{◌≡◌, ◌≢◌, ℕ, List, ◌+◌, ◌*◌, ◌/◌, ◌<◌, ◌≤◌, ◌^◌, ◌↔◌, true, false, IsTrue, [], ◌∷◌, length, IfOk, OnOk};
    ghost use Rattle.qm_limits.specs.declared.TheConstants.{MOST_CAPACITY};
    ghost use Rattle.qm_zomega.specs.Numbers.{zero_number, one_number};
    ghost use Rattle.qm_zomega.specs.NumberLists.{number_at, IsListOf, Reduces};
    ghost use Rattle.qm_zomega.specs.Range.{FitsZw, IsBelow};
    ghost use Rattle.qm_zomega.specs.Zw.{value_of};
    ghost use Rattle.qm_denot.specs.Places.{HasPlace, has_place};
    ghost use Rattle.qm_denot.specs.LettersByPlace.{phase_at, flip_at, had_at, cross_at, sign_at, keep_at, take_at, pair_at};
    ghost use Rattle.qm_kernels.specs.Done.{AllHeld};
    ghost use Rattle.qm_store.specs.Numerators.{items_of};

    /// The one numerator 1, with room for so many.
    pub(crate) fn one(alloc: Global, room: usize) -> Result<Numerators, AllocError>
        requires { 0 < room }
        ensures numbers { IfOk result (λ s. (z : Zw) × (items_of s ≡ z ∷ []) × (value_of z ≡ one_number)) }
        ensures room { IfOk result (λ s. s.room ≡ room) }
    {
        let mut narrow = Vec::with_capacity(alloc, room)?;
        let _ = narrow.push(Narrow::ONE);
        Ok(Numerators {
            room,
            is_wide: false,
            narrow,
            wide: Vec::with_capacity(alloc, room)?,
            bits: 1,
        })
    }

    /// `Flip` on a place.
    pub(crate) fn flip(&mut self, place: u32)
        requires { HasPlace (length (items_of self.old)) place }
        ensures done { IsListOf (items_of self.new) (length (items_of self.old))
            (flip_at place (number_at (items_of self.old))) }
        ensures room { self.new.room ≡ self.old.room }
    {
        if self.is_wide {
            qm_kernels::flip(&mut self.wide, place);
        } else {
            bounded::flip(&mut self.narrow, place);
        }
    }

    /// `Phase` of `omega^k` on a place, for `k` below 8.
    pub(crate) fn phase(&mut self, place: u32, k: u8)
        requires place { HasPlace (length (items_of self.old)) place }
        requires turns { k < 8 }
        ensures done { IsListOf (items_of self.new) (length (items_of self.old))
            (phase_at k place (number_at (items_of self.old))) }
        ensures room { self.new.room ≡ self.old.room }
    {
        if self.is_wide {
            qm_kernels::phase(&mut self.wide, place, k);
        } else {
            bounded::phase(&mut self.narrow, place, k);
        }
    }

    /// `Cx` on a control and a target.
    pub(crate) fn cross(&mut self, control: u32, target: u32)
        requires control { HasPlace (length (items_of self.old)) control }
        requires target { HasPlace (length (items_of self.old)) target }
        requires distinct { control ≢ target }
        ensures done { IsListOf (items_of self.new) (length (items_of self.old))
            (cross_at control target (number_at (items_of self.old))) }
        ensures room { self.new.room ≡ self.old.room }
    {
        if self.is_wide {
            qm_kernels::cross(&mut self.wide, control, target);
        } else {
            bounded::cross(&mut self.narrow, control, target);
        }
    }

    /// `Cz` on two places.
    pub(crate) fn sign(&mut self, one: u32, other: u32)
        requires one { HasPlace (length (items_of self.old)) one }
        requires other { HasPlace (length (items_of self.old)) other }
        requires distinct { one ≢ other }
        ensures done { IsListOf (items_of self.new) (length (items_of self.old))
            (sign_at one other (number_at (items_of self.old))) }
        ensures room { self.new.room ≡ self.old.room }
    {
        if self.is_wide {
            qm_kernels::sign(&mut self.wide, one, other);
        } else {
            bounded::sign(&mut self.narrow, one, other);
        }
    }

    /// `Keep` on a place: zero where it disagrees with `m`.
    pub(crate) fn keep(&mut self, place: u32, m: bool)
        requires { HasPlace (length (items_of self.old)) place }
        ensures done { IsListOf (items_of self.new) (length (items_of self.old))
            (keep_at zero_number place m (number_at (items_of self.old))) }
        ensures room { self.new.room ≡ self.old.room }
    {
        if self.is_wide {
            qm_kernels::keep(&mut self.wide, place, m);
        } else {
            bounded::keep(&mut self.narrow, place, m);
        }
    }

    /// Leaves the reduced form of the numerators over `root2^exponent`.
    pub(crate) fn reduce(&mut self, exponent: &mut u64)
        ensures done { Reduces (items_of self.old) exponent.old (items_of self.new) exponent.new }
        ensures room { self.new.room ≡ self.old.room }
    {
        if self.is_wide {
            qm_scale::reduce(&mut self.wide, exponent);
        } else {
            bounded::reduce(&mut self.narrow, exponent);
        }
    }

    /// Brings the numerators over to the wide list.
    fn widen(&mut self)
        requires { self.old.is_wide ≡ false }
        ensures size { length (items_of self.new) ≡ length (items_of self.old) }
        ensures numbers { (i : ℕ) → number_at (items_of self.new) i ≡ number_at (items_of self.old) i }
        ensures wide { self.new.is_wide ≡ true }
        ensures room { self.new.room ≡ self.old.room }
    {
        widen_list(&self.narrow, &mut self.wide);
        self.narrow.clear();
        self.is_wide = true;
    }

    /// Brings narrow numerators over to the wide list where some number that `Had` on a place makes of them isn't narrow, and only there.
    fn make_fit(&mut self, place: u32)
        requires { HasPlace (length (items_of self.old)) place }
        ensures size { length (items_of self.new) ≡ length (items_of self.old) }
        ensures numbers { (i : ℕ) → number_at (items_of self.new) i ≡ number_at (items_of self.old) i }
        ensures fits { self.new.is_wide ≡ false
            → AllHeld narrow_value (IsBelow 30) (had_at place) self.new.narrow.items }
        ensures over { self.old.is_wide ≡ false → self.new.is_wide ≡ true
            → ¬ (AllHeld narrow_value (IsBelow 30) (had_at place) self.old.narrow.items) }
        ensures room { self.new.room ≡ self.old.room }
    {
        if self.is_wide {
            return;
        }
        if self.bits < Narrow::MOST_BITS {
            return;
        }
        if bounded::are_light(&self.narrow) {
            self.bits = Narrow::LIGHT_BITS;
            return;
        }
        if !numbers::had_fits(&self.narrow, place) {
            self.widen();
        }
    }

    /// `Had` on a place, where every number that it makes stays in the range of wide numbers, and the reduced form of the result over
    /// `root2^(exponent + 1)`. Else the numerators and the exponent stay the same.
    pub(crate) fn had(&mut self, place: u32, exponent: &mut u64) -> bool
        requires place { HasPlace (length (items_of self.old)) place }
        requires more { exponent.old + 1 < 2 ^ 64 }
        ensures done { result ≡ true → (mid : List Zw)
            × IsListOf mid (length (items_of self.old)) (had_at place (number_at (items_of self.old)))
            × Reduces mid (exponent.old + 1) (items_of self.new) exponent.new }
        ensures fits { IsTrue result ↔ ((i : ℕ) → i < length (items_of self.old)
            → FitsZw (had_at place (number_at (items_of self.old)) i)) }
        ensures same { result ≡ false → (i : ℕ) → number_at (items_of self.new) i
            ≡ number_at (items_of self.old) i }
        ensures exponent { result ≡ false → exponent.new ≡ exponent.old }
        ensures size { length (items_of self.new) ≡ length (items_of self.old) }
        ensures room { self.new.room ≡ self.old.room }
    {
        self.make_fit(place);
        if !self.is_wide {
            bounded::had_reduced(&mut self.narrow, place, exponent);
            self.bits = doubled(self.bits);
            return true;
        }
        if !qm_kernels::had_fits(&self.wide, place) {
            return false;
        }
        let list = self.wide.as_mut_slice();
        qm_kernels::had(list, place);
        *exponent += 1;
        qm_scale::reduce(list, exponent);
        true
    }

    /// Appends as many zeros as there are numerators.
    pub(crate) fn double(&mut self)
        requires small { length (items_of self.old) ≤ 2 ^ MOST_CAPACITY }
        requires room { 2 * length (items_of self.old) ≤ self.old.room }
        ensures size { length (items_of self.new) ≡ 2 * length (items_of self.old) }
        ensures numbers { (k : ℕ) → number_at (items_of self.new) k ≡ number_at (items_of self.old) k }
        ensures room { self.new.room ≡ self.old.room }
    {
        if self.is_wide {
            double(&mut self.wide);
        } else {
            double(&mut self.narrow);
        }
    }

    /// `Pair` on `2^n` numerators.
    pub(crate) fn pair(&mut self, n: u32)
        requires few { n ≤ MOST_CAPACITY }
        requires size { length (items_of self.old) ≡ 2 ^ n }
        requires room { 4 * length (items_of self.old) ≤ self.old.room }
        ensures paired { IsListOf (items_of self.new) (length (items_of self.old) * 4)
            (pair_at zero_number n (number_at (items_of self.old))) }
        ensures room { self.new.room ≡ self.old.room }
    {
        if self.is_wide {
            pair_list(&mut self.wide, n);
        } else {
            pair_list(&mut self.narrow, n);
        }
    }

    /// `Take` of `m` at a place.
    pub(crate) fn take(&mut self, place: u32, m: bool)
        requires { HasPlace (length (items_of self.old)) place }
        ensures taken { IsListOf (items_of self.new) (length (items_of self.old) / 2)
            (take_at place m (number_at (items_of self.old))) }
        ensures room { self.new.room ≡ self.old.room }
    {
        if self.is_wide {
            take_list(&mut self.wide, place, m);
        } else {
            take_list(&mut self.narrow, place, m);
        }
    }

    /// Whether some non-zero numerator has this bit at a place.
    pub(crate) fn any_with(&self, place: u32, bit: bool) -> bool
        requires small { length (items_of self.now) ≤ 2 ^ MOST_CAPACITY }
        requires place { HasPlace (length (items_of self.now)) place }
        ensures yes { result ≡ true
            → (k : ℕ) × (k < length (items_of self.now)) × (has_place place k ≡ bit)
            × (number_at (items_of self.now) k ≢ zero_number) }
        ensures no { result ≡ false → (k : ℕ) → k < length (items_of self.now)
            → has_place place k ≡ bit → number_at (items_of self.now) k ≡ zero_number }
    {
        if self.is_wide {
            any_with(&self.wide, place, bit)
        } else {
            any_with(&self.narrow, place, bit)
        }
    }

    /// Whether some non-zero numerator has two different bits at two places.
    pub(crate) fn any_unequal(&self, one: u32, other: u32) -> bool
        requires small { length (items_of self.now) ≤ 2 ^ MOST_CAPACITY }
        requires one { HasPlace (length (items_of self.now)) one }
        requires other { HasPlace (length (items_of self.now)) other }
        ensures yes { result ≡ true
            → (k : ℕ) × (k < length (items_of self.now)) × (has_place one k ≢ has_place other k)
            × (number_at (items_of self.now) k ≢ zero_number) }
        ensures no { result ≡ false → (k : ℕ) → k < length (items_of self.now)
            → has_place one k ≢ has_place other k → number_at (items_of self.now) k ≡ zero_number }
    {
        if self.is_wide {
            any_unequal(&self.wide, one, other)
        } else {
            any_unequal(&self.narrow, one, other)
        }
    }

    /// The numerator at an index.
    pub(crate) fn number(&self, index: usize) -> Zw
        requires { index < length (items_of self.now) }
        ensures { value_of result ≡ number_at (items_of self.now) index }
    {
        if self.is_wide {
            self.wide[index]
        } else {
            self.narrow[index].widened()
        }
    }
}
