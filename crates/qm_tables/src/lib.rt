//! Turns by powers of omega, and what each letter does to a list of numerators.
#![tactic(auto)]

ghost use Rattle.std.specs.Prelude.{◌≡◌, ◌<◌};
ghost use Rattle.qm_zomega.specs.Zw.{value_of};
ghost use Rattle.qm_zomega.specs.Numbers.{omega_times};
ghost use Rattle.qm_tables.specs.Cases.{case_of};

mod laws;

pub use laws::{case_law, turn_law};
use qm_denot::Letter;
use qm_zomega::Zw;

/// What a letter does to a list of numerators with an entry for each choice of its places, with the constants that it needs.
#[derive(Clone, Copy, PartialEq, Eq, Debug)]
pub enum Case {
    /// `Phase`: turns the entries whose place is one by `omega^e`.
    Turn { e: u8 },
    /// `Flip`: the two entries of each pair change places.
    Swap,
    /// `Had`: the two entries of each pair become their sum and difference.
    Mix,
    /// `Cx`: the two entries of each pair change places where the control is one.
    Cross,
    /// `Cz`: the sign of the entries whose two places are one.
    Sign,
    /// `Pair`: the list becomes four times as long.
    Double,
    /// `Keep`: the entries of one half become zero.
    Hold,
    /// `Take`: the entries of one half go.
    Shrink,
    /// `Rename`: no entry changes.
    Name,
}

/// `omega^E` times the number, for `E` below 8.
#[inline(always)]
pub fn turn<const E: u8>(z: Zw) -> Zw
    requires { E < 8 }
    ensures { value_of result ≡ omega_times E (value_of z) }
{
    z.times_omega(E)
}

/// Calls the function of each number of turns of a table.
macro_rules! by_turns {
    ($turns:ident, $z:ident, $($e:literal)*) => {
        match $turns {
            $($e => turn::<$e>($z),)*
            _ => unreachable!(),
        }
    };
}

/// `omega^e` times the number, for `e` below 8.
pub fn turn_by(e: u8, z: Zw) -> Zw
    requires { e < 8 }
    ensures { value_of result ≡ omega_times e (value_of z) }
{
    by_turns!(e, z, 0 1 2 3 4 5 6 7)
}

/// Gives the case of each letter of a table.
macro_rules! by_letters {
    ($letter:ident, $($name:ident => $case:ident)*) => {
        match $letter {
            Letter::Phase { k, .. } => Case::Turn { e: k },
            $(Letter::$name { .. } => Case::$case,)*
        }
    };
}

/// The case of a letter, with its constants.
pub fn letter_case(letter: Letter) -> Case
    ensures { result ≡ case_of letter }
{
    by_letters!(letter,
        Flip => Swap
        Had => Mix
        Cx => Cross
        Cz => Sign
        Pair => Double
        Keep => Hold
        Take => Shrink
        Rename => Name)
}
