//! The steps of the letters that compute, on the two halves of a block.
ghost use Rattle.std.specs.Prelude.{◌≡◌, ℕ, ◌<◌, ◌^◌, List, ◌++◌, length};
ghost use Rattle.qm_zomega.specs.Numbers.{zero_number};
ghost use Rattle.qm_denot.specs.LettersByPlace.{phase_at, sign_at, had_at};
ghost use Rattle.qm_kernels.specs.Done.{IsComputed, AllHeld};

use crate::blocks::Step;
use crate::numbers::{mix, phase, turn_each};
use qm_zomega::Numerator;

/// The step of `Phase`: the upper half is turned by `omega^E`.
#[derive(Clone, Copy)]
pub(crate) struct Turn<const E: u8> {
    pub(crate) place: u32,
}

impl<Z: Numerator, const E: u8> Step<Z> for Turn<E> {
    ghost use Rattle.qm_kernels.specs.DoneLaws.{done_nothing};
    ghost use Rattle.qm_kernels.specs.JoinLaws.{phase_joined};

    ghost half = { λ s. 2 ^ s.place };

    ghost may = { λ s xs. E < 8 };

    ghost done = { λ s xs us. IsComputed Z.meaning (phase_at E s.place) xs us };

    fn step(&self, low: &mut [Z], high: &mut [Z]) {
        turn_each::<Z, E>(high);
    }

    ghost none = { λ s. done_nothing Z.meaning zero_number (phase_at E s.place) };

    ghost joined = { λ s. phase_joined s.place Z.meaning E };

    ghost parts = { λ s m xs ys size small. (small, small) };
}

/// The step of `Had`: sums below, differences above.
#[derive(Clone, Copy)]
pub(crate) struct Mix {
    pub(crate) place: u32,
}

impl<Z: Numerator> Step<Z> for Mix {
    ghost use Rattle.qm_kernels.specs.DoneLaws.{done_nothing};
    ghost use Rattle.qm_kernels.specs.JoinLaws.{had_joined, blocks_held};

    ghost half = { λ s. 2 ^ s.place };

    ghost may = { λ s xs. AllHeld Z.meaning Z.holds (had_at s.place) xs };

    ghost done = { λ s xs us. IsComputed Z.meaning (had_at s.place) xs us };

    fn step(&self, low: &mut [Z], high: &mut [Z]) {
        mix(low, high);
    }

    ghost none = { λ s. done_nothing Z.meaning zero_number (had_at s.place) };

    ghost joined = { λ s. had_joined s.place Z.meaning };

    ghost parts = { λ s. blocks_held Z.meaning Z.holds s.place };
}

/// The step of `Cz`: the upper half has its sign changed at the lower place.
#[derive(Clone, Copy)]
pub(crate) struct SignUpper {
    pub(crate) high: u32,
    pub(crate) low: u32,
}

impl<Z: Numerator> Step<Z> for SignUpper {
    ghost use Rattle.qm_kernels.specs.DoneLaws.{done_nothing};
    ghost use Rattle.qm_kernels.specs.JoinLaws.{below_joined};

    ghost half = { λ s. 2 ^ s.high };

    ghost may = { λ s xs. s.low < s.high };

    ghost done = { λ s xs us. s.low < s.high → IsComputed Z.meaning (sign_at s.high s.low) xs us };

    fn step(&self, low: &mut [Z], high: &mut [Z]) {
        phase(high, self.low, 4);
    }

    ghost none = { λ s below. done_nothing Z.meaning zero_number (sign_at s.high s.low) };

    ghost joined = { λ s. below_joined Z.meaning s.high s.low };

    ghost parts = { λ s m xs ys size below. (below, below) };
}
