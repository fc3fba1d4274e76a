//! The reading of words, at both sides of each bound.
use super::calls::expect;
use super::texts::{EIGHT_EACH, PLUS};
use super::watched::WatchedSink;
use qm_io::SureSource;
use qm_tool::{Status, tool_plain};
use std::alloc::Global;
use std::process::Abort;
use std::test::Fail;

/// Words that are no command.
const USAGE: [&str; 44] = [
    "",
    "run more",
    "run turns more",
    "amps",
    "trace",
    "trace x",
    "mono more",
    "mono amps 1",
    "check 1",
    "plain more",
    "plain 7",
    "sched",
    "sched x",
    "sched +1",
    "sched 18446744073709551616",
    "sched 000000000000000000002",
    "sched 1 1",
    "Sched 1",
    "gen",
    "job",
    "gen ghz",
    "gen ghz 3",
    "job ghz 3",
    "gen ring 0 1",
    "job ghz +3 1",
    "gen ghz 3 1 1",
    "gen parity 3 1 1",
    "gen ghz 3 1 1 1",
    "job job ghz 3 1",
    "Gen ghz 3 1",
    "JOB ghz 3 1",
    "make ghz 3 1",
    "plain ghz 3 1",
    "ghz 3 1",
    "gen 3 ghz 1",
    "cost",
    "cost 1",
    "cost 1 1 1",
    "cost 1 1 1 1 1",
    "cost 1 1 1 +1",
    "Cost 1 1 1 1",
    "costs 1 1 1 1",
    "trace 1 1 1 1",
    "cost ghz 3 1",
];

#[test]
fn other_words_are_usage(rt: HostRuntime) -> Result<(), Fail> {
    for line in USAGE {
        expect(&rt, rt.alloc(), line, PLUS.as_bytes(), (2, "usage\n"))?;
    }
    Ok(())
}

/// Numbers as they are written, as they are printed, and the ranks of the first 16 turns that they choose as seeds.
const NUMBERS: [(&str, &str, &str); 7] = [
    ("0", "0", "1101110010011000"),
    ("9", "9", "0111010101001010"),
    ("007", "7", "0001111110110000"),
    ("00000000000000000000", "0", "1101110010011000"),
    ("00000000000000000010", "10", "0100011000011111"),
    (
        "09999999999999999999",
        "9999999999999999999",
        "0001000001111111",
    ),
    (
        "18446744073709551615",
        "18446744073709551615",
        "1011111110000000",
    ),
];

/// What they leave, up to their turns.
const EIGHT_DONE: &str =
    "state 1\nranks 2\nprotocol 0\nscale 0\nbits 0 00000000\nbits 1 00000000\nlive\n- 1 0 0 0\nend\nturns 16\n";

#[test]
fn a_number_has_1_to_20_digits(rt: HostRuntime) -> Result<(), Fail> {
    let alloc = rt.alloc();
    for (word, number, turns) in NUMBERS {
        let line = format!(in alloc; "job ghz 2 {word}")?;
        let due = format!(in alloc;
            "job ghz 2 {number}\nevents 7\nprotocol 1\nscale 2\nlines 2\nend\n"
        )?;
        expect(&rt, alloc, line.as_str(), b"", (0, due.as_str()))?;
        let line = format!(in alloc; "trace {word}")?;
        let mut due = String::from_str(alloc, EIGHT_DONE)?;
        for turn in turns.chars() {
            due.push(turn)?;
            due.push_str(" set\n")?;
        }
        due.push_str("end\n")?;
        expect(
            &rt,
            alloc,
            line.as_str(),
            EIGHT_EACH.as_bytes(),
            (0, due.as_str()),
        )?;
    }
    Ok(())
}

/// Tries that these words are no command.
fn try_usage(rt: &impl Abort, alloc: Global, words: &[&str]) -> Result<(), Fail> {
    let mut command = Vec::new(alloc);
    for word in words {
        command.push(String::from_str(alloc, word)?)?;
    }
    let mut source = SureSource::start(PLUS.as_bytes().to_vec(alloc)?, 7);
    let mut sink = WatchedSink::start(alloc, 100, 0, 8)?;
    let code = tool_plain(alloc, &command, &mut source, &mut sink).code();
    assert!(rt;
        code == 2 && sink.taken() == "usage\n".as_bytes() && sink.is_flushed_once(),
        "{words:?}"
    );
    Ok(())
}

/// Words that are no number.
const NO_NUMBERS: [&str; 18] = [
    "",
    "18446744073709551616",
    "99999999999999999999",
    "000000000000000000001",
    "100000000000000000000",
    "1a",
    "a1",
    "0x1",
    "1e3",
    "+1",
    "-1",
    "1.0",
    "1_000",
    " 1",
    "1 ",
    "1/",
    "1:",
    "\u{ff11}",
];

#[test]
fn no_other_word_is_a_number(rt: HostRuntime) -> Result<(), Fail> {
    for word in NO_NUMBERS {
        for words in [
            &["sched", word][..],
            &["trace", word],
            &["gen", "ghz", "2", word],
            &["job", "ghz", "2", word],
            &["cost", word, "1", "1", "1"],
            &["cost", "1", word, "1", "1"],
            &["cost", "1", "1", word, "1"],
            &["cost", "1", "1", "1", word],
        ] {
            try_usage(&rt, rt.alloc(), words)?;
        }
    }
    Ok(())
}

/// Numbers that are no delay: they are too large, or have too many digits.
const NO_DELAYS: [&str; 5] = [
    "1000001",
    "9999999",
    "00000001",
    "10000000",
    "18446744073709551615",
];

#[test]
fn a_delay_has_1_to_7_digits(rt: HostRuntime) -> Result<(), Fail> {
    for word in NO_DELAYS {
        for words in [
            &["cost", "1", word, "1", "1"][..],
            &["cost", "1", "1", word, "1"],
            &["cost", "1", "1", "1", word],
        ] {
            try_usage(&rt, rt.alloc(), words)?;
        }
    }
    Ok(())
}

/// Kinds and sizes that a kind doesn't have, and words that are no kind.
const NO_RECIPES: [(&str, &str); 23] = [
    ("ring", "0"),
    ("ring", "10001"),
    ("ghz", "1"),
    ("ghz", "11"),
    ("parity", "0"),
    ("parity", "9001"),
    ("ring", "999999999"),
    ("ring", "0000000001"),
    ("ring", "1000000000"),
    ("ring", "4294967297"),
    ("ring", "18446744073709551617"),
    ("ring", ""),
    ("ghz", "3x"),
    ("ghz", "-3"),
    ("ghz", "+3"),
    ("ghz", " 3"),
    ("", "3"),
    ("star", "3"),
    ("Ring", "3"),
    ("GHZ", "3"),
    ("rin", "3"),
    ("rings", "3"),
    ("ring ", "3"),
];

#[test]
fn no_other_words_are_a_kind_and_a_size(rt: HostRuntime) -> Result<(), Fail> {
    for (kind, size) in NO_RECIPES {
        for verb in ["gen", "job"] {
            try_usage(&rt, rt.alloc(), &[verb, kind, size, "1"])?;
        }
    }
    Ok(())
}

#[test]
fn no_memory_is_a_status_of_its_own(rt: HostRuntime) {
    assert_eq!(rt; Status::OutOfMemory.code(), 8);
}
