//! Programs under every order of turns, every size of buffer and every protocol tape: what they leave is the same.
use super::calls::answer;
use super::programs::{CROSSED, PROGRAMS, Program};
use super::watched::WatchedSink;
use std::alloc::Global;
use std::process::Abort;
use std::test::Fail;

/// Tries that a command on a program with this buffer and these outcomes leaves what is due.
fn try_order(
    rt: &impl Abort,
    alloc: Global,
    line: &str,
    program: &Program,
    run: (u32, u32),
    due: &[u8],
) -> Result<(), Fail> {
    let (buffer, number) = run;
    let (code, sink) = answer(alloc, line, program.text(alloc, buffer, number)?.as_bytes())?;
    assert!(rt;
        code == 0 && sink.taken() == due,
        "{line}, buffers of {buffer}, tapes {number}: {}",
        program.body
    );
    Ok(())
}

/// What `mono amps` writes of a program, which is what was worked out by hand, where that was.
fn one_circuits_state(
    rt: &impl Abort,
    alloc: Global,
    program: &Program,
) -> Result<WatchedSink, Fail> {
    let text = program.text(alloc, program.buffers.0, 0)?;
    let (code, sink) = answer(alloc, "mono amps", text.as_bytes())?;
    let is_due = program.due.is_none_or(|due| due.as_bytes() == sink.taken());
    assert!(rt; code == 0 && is_due, "{}", program.body);
    Ok(sink)
}

#[test]
fn every_tape_leaves_the_one_circuits_state(rt: HostRuntime) -> Result<(), Fail> {
    for program in &PROGRAMS {
        let one = one_circuits_state(&rt, rt.alloc(), program)?;
        let outcomes = program.outcomes();
        assert!(rt; outcomes <= 8, "few tapes: {}", program.body);
        for number in 0..1u32 << outcomes {
            let run = (program.buffers.0, number);
            try_order(&rt, rt.alloc(), "plain", program, run, one.taken())?;
        }
    }
    Ok(())
}

#[test]
fn every_order_leaves_the_one_circuits_state(rt: HostRuntime) -> Result<(), Fail> {
    for program in &PROGRAMS {
        let one = one_circuits_state(&rt, rt.alloc(), program)?;
        for buffer in program.buffers.0..=program.buffers.1 {
            for seed in 0..50 {
                let line = format!(in rt.alloc(); "sched {seed}")?;
                try_order(
                    &rt,
                    rt.alloc(),
                    line.as_str(),
                    program,
                    (buffer, 0),
                    one.taken(),
                )?;
            }
        }
    }
    Ok(())
}

/// Whether `check` says of a program that it comes to its end with buffers of one.
fn meets(alloc: Global, program: &Program, buffer: u32) -> Result<bool, Fail> {
    let (_, sink) = answer(alloc, "check", program.text(alloc, buffer, 0)?.as_bytes())?;
    Ok(sink.taken().ends_with(b"rendezvous yes\nend\n"))
}

#[test]
fn what_ends_with_buffers_of_one_is_never_stuck(rt: HostRuntime) -> Result<(), Fail> {
    for program in &PROGRAMS {
        for buffer in 1..=program.buffers.1 {
            assert!(rt;
                meets(rt.alloc(), program, buffer)? == program.meets,
                "{}",
                program.body
            );
        }
    }
    Ok(())
}

#[test]
fn what_is_stuck_with_buffers_of_one_may_end_with_wider_ones(rt: HostRuntime) -> Result<(), Fail> {
    let alloc = rt.alloc();
    for program in &CROSSED {
        for buffer in 1..4 {
            let (code, sink) = answer(alloc, "plain", program.text(alloc, buffer, 0)?.as_bytes())?;
            let ends = program.buffers.0 <= buffer;
            let is_stuck = sink.taken().ends_with(b" stuck\n");
            assert!(rt;
                (code == 0, is_stuck) == (ends, !ends),
                "buffers of {buffer}: {}",
                program.body
            );
            assert!(rt;
                !meets(alloc, program, buffer)?,
                "buffers of {buffer}: {}",
                program.body
            );
        }
    }
    Ok(())
}
