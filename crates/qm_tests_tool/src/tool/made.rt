//! Commands on made programs.
use super::calls::{Row, answer, expect, status_of, try_rows};
use super::watched::{Blanks, WatchedSink};
use std::test::Fail;

/// The text of two ranks that share a GHZ state, with the outcome that the number 5 gives.
const PAIR: &str =
    "qmpi 1\nranks 2\nqubits 1\nbuffer 1\nrank 0\nalloc 0\nh 0\ncopyto 0 1 1\nend\nrank 1\ncopyfrom 0 0 1\nend\nprotocol 0 b1\n";

/// The state in which a qubit comes back from two rounds over four ranks: that in which it went.
const GONE_ROUND: &str = "state 1\nranks 4\n\
        protocol 16\nscale 17\nbits 0 00000000\nbits 1 00000000\nbits 2 00000000\nbits 3 00000000\n\
        live 0.0\n0 1 0 0 0\n1 0 1 0 0\nend\n";

/// Whole texts. The source is not read, so it may be no program.
pub(super) const MADE: [Row; 12] = [
    ("gen ghz 2 5", "no program", 0, PAIR),
    ("gen ghz 000000002 00000000000000000005", "", 0, PAIR),
    (
        "job ring 10 7",
        "no program",
        0,
        "job ring 10 7\nevents 323\nprotocol 80\nscale 81\nlines 2\nend\n",
    ),
    (
        "job ring 000000001 18446744073709551615",
        "",
        0,
        "job ring 1 18446744073709551615\nevents 35\nprotocol 8\nscale 9\nlines 2\nend\n",
    ),
    (
        "job parity 3 5",
        "",
        0,
        "job parity 3 5\nevents 109\nprotocol 18\nscale 23\nlines 4\nend\n",
    ),
    (
        "job parity 4 5",
        "",
        0,
        "job parity 4 5\nevents 144\nprotocol 24\nscale 28\nlines 1\nend\n",
    ),
    (
        "job parity 1 0",
        "",
        0,
        "job parity 1 0\nevents 39\nprotocol 6\nscale 9\nlines 4\nend\n",
    ),
    (
        "job parity 000000001 0",
        "",
        0,
        "job parity 1 0\nevents 39\nprotocol 6\nscale 9\nlines 4\nend\n",
    ),
    (
        "job parity 12 34",
        "",
        0,
        "job parity 12 34\nevents 424\nprotocol 72\nscale 84\nlines 1\nend\n",
    ),
    (
        "job ghz 10 3",
        "",
        0,
        "job ghz 10 3\nevents 47\nprotocol 9\nscale 10\nlines 2\nend\n",
    ),
    (
        "job ghz 000000010 5",
        "",
        0,
        "job ghz 10 5\nevents 47\nprotocol 9\nscale 10\nlines 2\nend\n",
    ),
    (
        "job ghz 2 3",
        "",
        0,
        "job ghz 2 3\nevents 7\nprotocol 1\nscale 2\nlines 2\nend\n",
    ),
];

/// Runs of many rounds, up to the largest sizes.
const LONGEST: [Row; 4] = [
    (
        "job ring 1000 7",
        "",
        0,
        "job ring 1000 7\nevents 32003\nprotocol 8000\nscale 8001\nlines 2\nend\n",
    ),
    (
        "job parity 100 5",
        "",
        0,
        "job parity 100 5\nevents 3504\nprotocol 600\nscale 700\nlines 1\nend\n",
    ),
    (
        "job ring 10000 7",
        "",
        0,
        "job ring 10000 7\nevents 320003\nprotocol 80000\nscale 80001\nlines 2\nend\n",
    ),
    (
        "job parity 9000 5",
        "",
        0,
        "job parity 9000 5\nevents 315004\nprotocol 54000\nscale 63000\nlines 1\nend\n",
    ),
];

#[test]
fn made_programs_are_written_and_summed_up(rt: HostRuntime) -> Result<(), Fail> {
    try_rows(&rt, rt.alloc(), &MADE)
}

#[test]
fn runs_of_the_largest_sizes_are_summed_up(rt: HostRuntime) -> Result<(), Fail> {
    try_rows(&rt, rt.alloc(), &LONGEST)
}

/// The sizes at both ends of each kind's range, and how long their texts are.
const LENGTHS: [(&str, usize); 6] = [
    ("gen ring 1 1", 337),
    ("gen ring 10000 1", 80_345),
    ("gen ghz 2 1", 109),
    ("gen ghz 10 1", 482),
    ("gen parity 1 1", 373),
    ("gen parity 9000 18446744073709551615", 63_378),
];

#[test]
fn the_least_and_the_largest_are_made(rt: HostRuntime) -> Result<(), Fail> {
    for (line, bytes) in LENGTHS {
        let (code, sink) = answer(rt.alloc(), line, b"")?;
        assert!(rt;
            code == 0 && sink.taken().len() == bytes && sink.is_flushed_once(),
            "{line}"
        );
    }
    Ok(())
}

// What is written under `gen` is a program: `plain` runs it.
#[test]
fn a_made_program_is_run(rt: HostRuntime) -> Result<(), Fail> {
    let (_, made) = answer(rt.alloc(), "gen ring 2 5", b"")?;
    expect(&rt, rt.alloc(), "plain", made.taken(), (0, GONE_ROUND))
}

#[test]
fn nothing_is_read_for_a_made_program(rt: HostRuntime) -> Result<(), Fail> {
    for (line, due) in [("gen ghz 2 5", 0u8), ("job ghz 2 5", 0), ("gen ghz 1 5", 2)] {
        let mut source = Blanks { reads: 0 };
        let mut sink = WatchedSink::start(rt.alloc(), 400, 0, 8)?;
        let code = status_of(rt.alloc(), line, &mut source, &mut sink)?;
        assert!(rt;
            code == due && source.reads == 0 && sink.is_flushed_once(),
            "{line}"
        );
    }
    Ok(())
}
