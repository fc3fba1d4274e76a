//! The steps of the letters that move entries, on the two halves of a block.
ghost use Rattle.std.specs.Prelude.{◌≡◌, ℕ, ◌<◌, ◌^◌, List, ◌++◌, length, true, false};
ghost use Rattle.qm_denot.specs.LettersByPlace.{flip_at, keep_at, cross_at};
ghost use Rattle.qm_denot.specs.Places.{HasPlace};
ghost use Rattle.qm_kernels.specs.Done.{IsMoved, IsExchanged};

use crate::blocks::Step;
use crate::moves::{clear, exchange, flip};

/// The step of `Flip`: the halves change places.
#[derive(Clone, Copy)]
pub(crate) struct Swap {
    pub(crate) place: u32,
}

impl<Z> Step<Z> for Swap {
    ghost use Rattle.qm_kernels.specs.DoneLaws.{done_nothing};
    ghost use Rattle.qm_kernels.specs.JoinLaws.{flip_joined};

    ghost half = { λ s. 2 ^ s.place };

    ghost may = { λ s xs. Unit {0} };

    ghost done = { λ s xs us. IsMoved (flip_at s.place) xs us };

    fn step(&self, low: &mut [Z], high: &mut [Z]) {
        low.swap_with_slice(high);
    }

    ghost none = { λ s past. done_nothing (λ x. x) past (flip_at s.place) };

    ghost joined = { λ s. flip_joined s.place };

    ghost parts = { λ s m xs ys size all. (tt, tt) };
}

/// The step of `Keep`: the half that disagrees with `kept` becomes zero.
#[derive(Clone, Copy)]
pub(crate) struct Clear<Z> {
    pub(crate) place: u32,
    pub(crate) kept: bool,
    pub(crate) zero: Z,
}

impl<Z: Copy> Step<Z> for Clear<Z> {
    ghost use Rattle.qm_kernels.specs.DoneLaws.{done_nothing};
    ghost use Rattle.qm_kernels.specs.JoinLaws.{keep_joined};

    ghost half = { λ s. 2 ^ s.place };

    ghost may = { λ s xs. Unit {0} };

    ghost done = { λ s xs us. IsMoved (keep_at s.zero s.place s.kept) xs us };

    fn step(&self, low: &mut [Z], high: &mut [Z]) {
        if self.kept {
            clear(low, self.zero);
        } else {
            clear(high, self.zero);
        }
    }

    ghost none = { λ s past. done_nothing (λ x. x) past (keep_at s.zero s.place s.kept) };

    ghost joined = { λ s. keep_joined s.place s.zero s.kept };

    ghost parts = { λ s m xs ys size all. (tt, tt) };
}

/// The step of `Cx` with the control at the higher place: the upper half is flipped.
#[derive(Clone, Copy)]
pub(crate) struct FlipUpper {
    pub(crate) control: u32,
    pub(crate) target: u32,
}

impl<Z> Step<Z> for FlipUpper {
    ghost use Rattle.qm_kernels.specs.DoneLaws.{done_nothing};
    ghost use Rattle.qm_kernels.specs.JoinLaws.{upper_joined};

    ghost half = { λ s. 2 ^ s.control };

    ghost may = { λ s xs. s.target < s.control };

    ghost done = { λ s xs us. s.target < s.control → IsMoved (cross_at s.control s.target) xs us };

    fn step(&self, low: &mut [Z], high: &mut [Z]) {
        flip(high, self.target);
    }

    ghost none = { λ s below past. done_nothing (λ x. x) past (cross_at s.control s.target) };

    ghost joined = { λ s. upper_joined s.control s.target };

    ghost parts = { λ s m xs ys size below. (below, below) };
}

/// The step of `Cx` with the target at the higher place: entries with the control's bit change halves.
#[derive(Clone, Copy)]
pub(crate) struct Exchange {
    pub(crate) control: u32,
    pub(crate) target: u32,
}

impl<Z> Step<Z> for Exchange {
    ghost use Rattle.qm_kernels.specs.DoneLaws.{done_nothing};
    ghost use Rattle.qm_kernels.specs.JoinLaws.{lower_joined};

    ghost half = { λ s. 2 ^ s.target };

    ghost may = { λ s xs. s.control < s.target };

    ghost done = { λ s xs us. s.control < s.target → IsMoved (cross_at s.control s.target) xs us };

    fn step(&self, low: &mut [Z], high: &mut [Z]) {
        exchange(low, high, self.control);
    }

    ghost none = { λ s below past. done_nothing (λ x. x) past (cross_at s.control s.target) };

    ghost joined = { λ s. lower_joined s.control s.target };

    ghost parts = { λ s m xs ys size below. (below, below) };
}
