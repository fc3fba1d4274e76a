//! How a command is called, and what is looked at when it has ended.
ghost use Rattle.std.specs.Prelude.{◌<◌};

use super::watched::WatchedSink;
use qm_io::{Sink, Source, SureSource};
use qm_ranks::Turnstile;
use qm_tool::{tool, tool_plain};
use std::alloc::{AllocError, Global};
use std::process::Abort;
use std::sync::Wait;
use std::test::Fail;
use std::thread::Threads;

/// The words, the source's text, the exit status, and the bytes that the sink takes.
pub(super) type Row = (&'static str, &'static str, u8, &'static str);

/// Room for every answer of the tests.
const ROOM: usize = 2_000_000;

/// The words of a line.
pub(super) fn words_of(alloc: Global, line: &str) -> Result<Vec<String>, AllocError> {
    let mut words = Vec::new(alloc);
    for word in line.split_whitespace() {
        words.push(String::from_str(alloc, word)?)?;
    }
    Ok(words)
}

/// The exit status of a command over these ends.
pub(super) fn status_of<I: Source, O: Sink>(
    alloc: Global,
    line: &str,
    source: &mut I,
    sink: &mut O,
) -> Result<u8, AllocError> {
    let words = words_of(alloc, line)?;
    Ok(tool_plain(alloc, &words, source, sink).code())
}

/// The same of a command that may start threads, which pass this gate.
pub(super) fn threaded_status_of<R: Threads + Wait + Sync, I: Source, O: Sink, G: Turnstile + Sync>(
    rt: &R,
    alloc: Global,
    line: &str,
    ends: (&mut I, &mut O),
    gate: &G,
) -> Result<u8, AllocError> {
    let words = words_of(alloc, line)?;
    let (source, sink) = ends;
    Ok(tool(rt, alloc, &words, source, sink, gate).code())
}

/// A source of a text, of which it gives 7 bytes a call, and a sink that takes 8 bytes a call and doesn't fail.
fn sure_ends(alloc: Global, text: &[u8]) -> Result<(SureSource, WatchedSink), AllocError> {
    let source = SureSource::start(text.to_vec(alloc)?, 7);
    Ok((source, WatchedSink::start(alloc, ROOM, 0, 8)?))
}

/// The exit status of a command over a text that is read 7 bytes a call, and the sink, which takes 8 bytes a call and doesn't fail.
pub(super) fn answer(
    alloc: Global,
    line: &str,
    text: &[u8],
) -> Result<(u8, WatchedSink), AllocError> {
    let (mut source, mut sink) = sure_ends(alloc, text)?;
    let code = status_of(alloc, line, &mut source, &mut sink)?;
    Ok((code, sink))
}

/// The same of a command that may start threads, which pass this gate.
pub(super) fn answer_by_threads<R: Threads + Wait + Sync, G: Turnstile + Sync>(
    rt: &R,
    alloc: Global,
    line: &str,
    text: &[u8],
    gate: &G,
) -> Result<(u8, WatchedSink), AllocError> {
    let (mut source, mut sink) = sure_ends(alloc, text)?;
    let code = threaded_status_of(rt, alloc, line, (&mut source, &mut sink), gate)?;
    Ok((code, sink))
}

/// Tries that a command over a text has this status, that the sink takes these bytes, and that it is flushed once, at the end.
pub(super) fn expect(
    rt: &impl Abort,
    alloc: Global,
    line: &str,
    text: &[u8],
    due: (u8, &str),
) -> Result<(), Fail> {
    expect_answer(rt, line, answer(alloc, line, text)?, due)
}

/// Tries that this is the answer of a command, and that its sink was flushed once, at the end.
pub(super) fn expect_answer(
    rt: &impl Abort,
    line: &str,
    answer: (u8, WatchedSink),
    due: (u8, &str),
) -> Result<(), Fail> {
    let (code, sink) = answer;
    assert_eq!(rt;
        str::from_utf8(sink.taken()).unwrap_or("no text"),
        due.1,
        "{line}"
    );
    assert!(rt;
        code == due.0 && sink.is_flushed_once(),
        "status {code}, {} flushes, {} late calls: {line}",
        sink.flushes,
        sink.late
    );
    Ok(())
}

/// Tries rows.
pub(super) fn try_rows(rt: &impl Abort, alloc: Global, rows: &[Row]) -> Result<(), Fail> {
    for (line, text, code, due) in rows {
        expect(rt, alloc, line, text.as_bytes(), (*code, due))?;
    }
    Ok(())
}

/// Tries that a command over a text, wherever a call of its sink fails, ends with the status of a write that failed, that the sink took a
/// front of what is due, and that nothing more was called on it.
pub(super) fn try_failing(
    rt: &impl Abort,
    alloc: Global,
    line: &str,
    text: &[u8],
    most: usize,
) -> Result<(), Fail>
    requires { 0 < most }
{
    let mut source = SureSource::start(text.to_vec(alloc)?, 65_536);
    let mut whole = WatchedSink::start(alloc, ROOM, 0, most)?;
    let _ = status_of(alloc, line, &mut source, &mut whole)?;
    let calls = whole.calls;
    assert!(rt; calls < 100_000, "a short answer");
    for failing in 1..calls + 1 {
        let mut source = SureSource::start(text.to_vec(alloc)?, 65_536);
        let mut sink = WatchedSink::start(alloc, ROOM, failing, most)?;
        let code = status_of(alloc, line, &mut source, &mut sink)?;
        let is_front = whole.taken().starts_with(sink.taken());
        let is_whole = whole.taken().len() == sink.taken().len();
        assert!(rt;
            code == 7 && sink.late == 0 && is_front && is_whole == (failing == whole.calls),
            "call {failing} of {line}"
        );
    }
    Ok(())
}
