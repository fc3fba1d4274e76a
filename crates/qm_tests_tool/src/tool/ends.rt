//! Commands over ends that fail.
use super::calls::{answer, status_of, try_failing};
use super::costs::{COPY_COST, COSTS};
use super::made::MADE;
use super::refusals::REFUSALS;
use super::runs::{CIRCUITS, STATES, STOPS, TRACES};
use super::texts::{COPIED, COPIED_IN_TURN, COPY_ONE, PLUS, PLUS_STATE};
use super::watched::{Blanks, WatchedSink};
use qm_io::{MemSource, SureSource};
use qm_limits::MOST_BYTES;
use std::alloc::{AllocError, Global};
use std::process::Abort;
use std::test::Fail;

/// The commands that read a program.
const READING: [&str; 7] = [
    "plain",
    "sched 3",
    "trace 3",
    "mono",
    "mono amps",
    "check",
    "cost 3 1 10 5",
];

/// Tries that a command over a text that is read 16 bytes a call, where the call `failing` fails, ends as a failed read does, unless the
/// text was read to its end before.
fn try_failed_read(
    rt: &impl Abort,
    alloc: Global,
    line: &str,
    text: &[u8],
    failing: u64,
) -> Result<(), Fail> {
    let fails = [failing].to_vec(alloc)?;
    let mut source = MemSource::start(text.to_vec(alloc)?, fails, 16);
    let mut sink = WatchedSink::start(alloc, 400, 0, 8)?;
    let code = status_of(alloc, line, &mut source, &mut sink)?;
    let reads = text.len().div_ceil(16) as u64 + 1;
    let is_fault = code == 3 && sink.taken() == "read fault\n".as_bytes();
    assert!(rt;
        is_fault == (failing <= reads) && (is_fault || code == 0) && sink.is_flushed_once(),
        "read {failing} of {line}"
    );
    Ok(())
}

#[test]
fn a_failed_read_is_a_read_fault(rt: HostRuntime) -> Result<(), Fail> {
    for line in READING {
        for failing in 1..=6 {
            try_failed_read(&rt, rt.alloc(), line, PLUS.as_bytes(), failing)?;
        }
        for failing in 1..=9 {
            try_failed_read(&rt, rt.alloc(), line, COPY_ONE.as_bytes(), failing)?;
        }
    }
    Ok(())
}

/// A text with blanks behind it, up to so many bytes.
fn padded(alloc: Global, text: &str, bytes: usize) -> Result<Vec<u8>, AllocError> {
    let mut padded = text.as_bytes().to_vec(alloc)?;
    padded.resize(bytes, b' ')?;
    Ok(padded)
}

// The limit counts all bytes, also blanks behind a program.
#[test]
fn a_text_past_the_limit_is_too_long(rt: HostRuntime) -> Result<(), Fail> {
    for (text, bytes, due) in [
        ("", MOST_BYTES, (5, "refused unended line 1\n")),
        ("", MOST_BYTES + 1, (4, "too long\n")),
        (PLUS, MOST_BYTES, (0, PLUS_STATE)),
        (PLUS, MOST_BYTES + 1, (4, "too long\n")),
    ] {
        let mut source = SureSource::start(padded(rt.alloc(), text, bytes)?, 65_536);
        let mut sink = WatchedSink::start(rt.alloc(), 400, 0, 8)?;
        let code = status_of(rt.alloc(), "plain", &mut source, &mut sink)?;
        assert!(rt;
            (code, sink.taken()) == (due.0, due.1.as_bytes()) && sink.is_flushed_once(),
            "{bytes} bytes"
        );
    }
    Ok(())
}

// No more is read than it takes to see that the text is too long.
#[test]
fn a_source_without_end_is_too_long(rt: HostRuntime) -> Result<(), Fail> {
    let mut source = Blanks { reads: 0 };
    let mut sink = WatchedSink::start(rt.alloc(), 400, 0, 8)?;
    let code = status_of(rt.alloc(), "check", &mut source, &mut sink)?;
    assert!(rt; code == 4 && source.reads == 257 && sink.taken() == "too long\n".as_bytes());
    Ok(())
}

#[test]
fn a_text_that_is_cut_off_is_refused(rt: HostRuntime) -> Result<(), Fail> {
    for end in 0..COPY_ONE.len() {
        let (code, sink) = answer(rt.alloc(), "plain", &COPY_ONE.as_bytes()[..end])?;
        assert!(rt;
            code == 5 && sink.taken().starts_with(b"refused ") && sink.is_flushed_once(),
            "after {end} bytes"
        );
    }
    Ok(())
}

#[test]
fn a_sink_that_fails_has_a_front_of_what_is_due(rt: HostRuntime) -> Result<(), Fail> {
    for rows in [
        &STATES[..],
        &STOPS,
        &TRACES,
        &CIRCUITS,
        &COSTS,
        &REFUSALS,
        &MADE,
    ] {
        for (line, text, _, _) in rows {
            try_failing(&rt, rt.alloc(), line, text.as_bytes(), 8)?;
        }
    }
    try_failing(&rt, rt.alloc(), "run", b"", 8)?;
    try_failing(
        &rt,
        rt.alloc(),
        "plain",
        &padded(rt.alloc(), "", MOST_BYTES + 1)?,
        8,
    )
}

/// The words, the text, a read that fails, if there is one, what is due, and the room of a sink, which ends inside it.
const FULL: [(&str, &str, u64, &str, usize); 9] = [
    ("plain", COPY_ONE, 0, COPIED, 0),
    ("plain", COPY_ONE, 0, COPIED, 20),
    ("mono amps", COPY_ONE, 0, COPIED, 100),
    ("trace 3", COPY_ONE, 0, COPIED_IN_TURN, 107),
    ("trace 3", COPY_ONE, 0, COPIED_IN_TURN, 150),
    ("cost 3 1 10 5", COPY_ONE, 0, COPY_COST, 30),
    ("check", "qmpi 3", 0, "refused unexpected line 1\n", 12),
    ("run", "", 0, "usage\n", 5),
    ("sched 1", COPY_ONE, 1, "read fault\n", 4),
];

#[test]
fn a_sink_that_is_full_has_what_there_was_room_for(rt: HostRuntime) -> Result<(), Fail> {
    for (line, text, failing, due, room) in FULL {
        let fails = [failing].to_vec(rt.alloc())?;
        let mut source = MemSource::start(text.as_bytes().to_vec(rt.alloc())?, fails, 7);
        let mut sink = WatchedSink::start(rt.alloc(), room, 0, 8)?;
        let code = status_of(rt.alloc(), line, &mut source, &mut sink)?;
        assert!(rt;
            code == 7 && sink.late == 0 && sink.flushes == 0,
            "room {room} under {line}"
        );
        let is_front = due.as_bytes().starts_with(sink.taken()) && sink.taken().len() == room;
        assert!(rt; is_front, "room {room} under {line}");
    }
    Ok(())
}
