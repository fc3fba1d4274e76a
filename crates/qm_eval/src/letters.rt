//! The letters of a circuit, done on a store that makes their wires live in time.
ghost use Rattle.std.specs.Prelude.{◌≡◌, ◌≤◌, [], length, IfErr, OnOk};
ghost use Rattle.qm_denot.specs.Stores.{StandsFor};
ghost use Rattle.qm_ideal.specs.OneCircuits.{most_letters};
ghost use Rattle.qm_eval.specs.Live.{AllMayFollow, live_through};
ghost use Rattle.qm_eval.specs.Overflows.{IsFirstOverflow, NeverOverflows};

use crate::LetterOverflow;
use crate::wires::make_operands_live;
use qm_denot::{Amps, Letter};

/// Does the letters on a store that stands for the empty circuit. `LetterOverflow` comes exactly where one of them leaves the range.
pub(crate) fn do_letters<A: Amps>(amps: &mut A, letters: &[Letter]) -> Result<(), LetterOverflow>
    requires able { A.able }
    requires stands { StandsFor (A.store amps.old) [] }
    requires follow { AllMayFollow (A.store amps.old).capacity (A.store amps.old).live letters.now }
    requires few { length letters.now ≤ most_letters }
    ensures fits { OnOk result (NeverOverflows letters.now) }
    ensures stands { OnOk result (StandsFor (A.store amps.new) letters.now) }
    ensures live { OnOk result
        ((A.store amps.new).live ≡ live_through (A.store amps.old).live letters.now) }
    ensures capacity { (A.store amps.new).capacity ≡ (A.store amps.old).capacity }
    ensures err { IfErr result (λ e. IsFirstOverflow letters.now e.at) }
{
    for (at, letter) in letters.iter().enumerate() {
        make_operands_live(amps, *letter);
        if amps.apply(*letter).is_err() {
            return Err(LetterOverflow { at: at as u32 });
        }
    }
    Ok(())
}
