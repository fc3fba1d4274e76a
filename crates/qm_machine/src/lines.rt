//! What the lines of the table of the events are made of.
ghost use Rattle.std.specs.Prelude.{◌≡◌};
ghost use Rattle.qm_proto.specs.Model.Rows.{row, letter, letter_checks, few_if};

use qm_denot::Letter;
use qm_proto::{Act, Check, Event, Few, Row, Rule};

/// The act of a letter.
pub(crate) fn letter(l: Letter) -> Few<Act>
    ensures { result ≡ letter l }
{
    Few::One(Act::Apply { letter: l })
}

/// The tests of a letter: a `Had` must fit.
pub(crate) fn letter_checks(l: Letter) -> Few<Check>
    ensures { result ≡ letter_checks l }
{
    match l {
        Letter::Had { w } => Few::One(Check::Fits { w }),
        _ => Few::Empty,
    }
}

/// The act of a letter that is done where the bit is one.
pub(crate) fn letter_if(set: bool, l: Letter) -> Few<Act>
    ensures { result ≡ few_if set (letter l) }
{
    if set { letter(l) } else { Few::Empty }
}

/// The tests of a letter that is done where the bit is one.
pub(crate) fn checks_if(set: bool, l: Letter) -> Few<Check>
    ensures { result ≡ few_if set (letter_checks l) }
{
    if set { letter_checks(l) } else { Few::Empty }
}

/// A line that waits for nothing and has no test.
pub(crate) fn plain(event: Event, acts: Few<Act>) -> Row
    ensures { result ≡ row event Rule.Always Few.Empty acts }
{
    Row {
        event,
        rule: Rule::Always,
        checks: Few::Empty,
        acts,
    }
}

/// A line that tests.
pub(crate) fn tested(event: Event, checks: Few<Check>, acts: Few<Act>) -> Row
    ensures { result ≡ row event Rule.Always checks acts }
{
    Row {
        event,
        rule: Rule::Always,
        checks,
        acts,
    }
}

/// A line that waits.
pub(crate) fn waiting(event: Event, rule: Rule, acts: Few<Act>) -> Row
    ensures { result ≡ row event rule Few.Empty acts }
{
    Row {
        event,
        rule,
        checks: Few::Empty,
        acts,
    }
}
