//! Tests of qm_machine.
use crate::fixtures::{follow, go_on, machine_of, shown};
use crate::rows::{Run, runs};
use qm_denot::{Amps, PlainAmps};
use qm_machine::{Machine, State};
use std::alloc::{AllocError, Global};
use std::process::Abort;
use std::test::Fail;

/// A machine before its first event runs, and has the text that it was given; a rank that there isn't has no wire.
fn is_fresh(rt: &impl Abort, machine: &Machine<PlainAmps>, text: &str) {
    assert!(rt;
        machine.text() == text.as_bytes() && machine.schedule().is_empty(),
        "at {text}"
    );
    assert!(rt; matches!(machine.state(), State::Running) && machine.slot(9, 0).is_none());
}

/// The steps of a run answer so.
fn answers_so(
    rt: &impl Abort,
    alloc: Global,
    machine: &mut Machine<PlainAmps>,
    run: Run,
) -> Result<(), AllocError> {
    let answers = follow(rt, alloc, machine, run.turns)?;
    assert_eq!(rt; answers.as_str(), run.answers, "at {}", run.text);
    Ok(())
}

/// What the machine shows.
fn shows_so(
    rt: &impl Abort,
    alloc: Global,
    machine: &Machine<PlainAmps>,
    last: &str,
) -> Result<(), AllocError> {
    let found = shown(rt, alloc, machine)?;
    assert_eq!(rt; found.as_str(), last);
    Ok(())
}

/// No rank of a machine that has ended, or was halted, does anything more.
fn stays(
    rt: &impl Abort,
    alloc: Global,
    machine: &mut Machine<PlainAmps>,
) -> Result<(), AllocError> {
    let turns = if machine.ready().input().ranks() == 1 {
        "00"
    } else {
        "10"
    };
    let answers = follow(rt, alloc, machine, turns)?;
    let ended = answers.as_str() == "Ended 00 Ended 00 ";
    assert!(rt;
        ended || answers.as_str() == "Halted 00 Halted 00 ",
        "{answers}"
    );
    Ok(())
}

/// A run with this text goes so, and comes to this.
fn goes_so(rt: &impl Abort, alloc: Global, text: &str, run: Run, last: &str) -> Result<(), Fail> {
    let mut machine = machine_of(rt, alloc, text)?;
    is_fresh(rt, &machine, text);
    answers_so(rt, alloc, &mut machine, run)?;
    go_on(rt, &mut machine);
    shows_so(rt, alloc, &machine, last)?;
    stays(rt, alloc, &mut machine)?;
    Ok(shows_so(rt, alloc, &machine, last)?)
}

/// Every end of a run.
fn ends_so(rt: &impl Abort, alloc: Global, run: Run) -> Result<(), Fail> {
    for (end, last) in run.ends {
        let text = format!(in alloc; "{}{end}", run.text)?;
        goes_so(rt, alloc, &text, run, last)?;
    }
    Ok(())
}

#[test]
fn every_run_answers_and_ends_so(rt: HostRuntime) -> Result<(), Fail> {
    for run in runs() {
        ends_so(&rt, rt.alloc(), run)?;
    }
    Ok(())
}

/// What may go to another thread.
fn is_sent<T: Send>(value: T) -> T {
    value
}

/// A machine may go there where its store may.
fn sent<A: Amps + Send>(machine: Machine<A>) -> Machine<A> {
    is_sent(machine)
}

#[test]
fn a_machine_may_go_to_another_thread(rt: HostRuntime) -> Result<(), Fail> {
    let text = "qmpi 1 ranks 1 qubits 1 buffer 1 rank 0 end";
    let machine = sent(machine_of(&rt, rt.alloc(), text)?);
    assert_eq!(rt; machine.letters(), 0);
    Ok(())
}
