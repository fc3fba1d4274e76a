//! Words, and how large each of their operands may be.
use super::{fault, one_rank};
use qm_expand::ReadError;
use std::test::Fail;

/// Each word, a letter for the kind of each of its operands (a slot, a bit, a truth value, a peer, a root, a tag), and what may stand
/// behind them.
const KINDS: [(&str, &str, &str); 33] = [
    ("alloc", "s", ""),
    ("free", "s", ""),
    ("x", "s", ""),
    ("z", "s", ""),
    ("h", "s", ""),
    ("s", "s", ""),
    ("sdg", "s", ""),
    ("t", "s", ""),
    ("tdg", "s", ""),
    ("cx", "ss", ""),
    ("cz", "ss", ""),
    ("measure", "sb", ""),
    ("set", "bv", ""),
    ("xor", "bb", ""),
    ("when", "b", "x 0"),
    ("sendbit", "bpt", ""),
    ("recvbit", "bpt", ""),
    ("copyto", "spt", ""),
    ("copyfrom", "spt", ""),
    ("undoto", "spt", ""),
    ("undofrom", "spt", ""),
    ("moveto", "spt", ""),
    ("movefrom", "spt", ""),
    ("reachto", "spt", ""),
    ("reachfrom", "spt", ""),
    ("bcast", "srt", ""),
    ("unbcast", "srt", ""),
    ("scatter", "srt", ""),
    ("gather", "srt", ""),
    ("unscatter", "srt", ""),
    ("ungather", "srt", ""),
    ("reduce", "ssrt", ""),
    ("unreduce", "ssrt", ""),
];

/// The first number that is no operand of a kind, in the program of one rank with twelve slots.
fn end_of(kind: char) -> u32 {
    match kind {
        's' => 12,
        'b' => 32,
        'v' => 2,
        'r' => 1,
        _ => 65_536,
    }
}

/// A word with zeros for its operands, but a number at one place, and something behind that.
fn with_operand(
    rt: &HostRuntime,
    row: &(&str, &str, &str),
    place: usize,
    number: u32,
    later: &str,
) -> Result<String, Fail> {
    let (word, kinds, behind) = row;
    let mut text = String::from_str(rt.alloc(), word)?;
    for (at, _) in kinds.chars().enumerate() {
        if at < place {
            text.push_str(" 0")?;
        } else if at == place {
            text.push_str(format!(in rt.alloc(); " {number}")?.as_str())?;
        } else {
            text.push_str(later)?;
        }
    }
    text.push_str(format!(in rt.alloc(); " {behind}")?.as_str())?;
    Ok(text)
}

// An operand that is too large is told before what stands behind it is looked at.
#[test]
fn operands_are_below_what_their_kinds_say(rt: HostRuntime) -> Result<(), Fail> {
    for row in &KINDS {
        for (place, kind) in row.1.chars().enumerate() {
            let end = end_of(kind);
            for (number, later, wanted) in [
                (end.saturating_sub(1), " 0", None),
                (end, " j", Some(ReadError::OutOfRange { line: 2 })),
            ] {
                let body = with_operand(&rt, row, place, number, later)?;
                let text = one_rank(&rt, body.as_str())?;
                assert_eq!(rt; fault(&rt, text.as_bytes())?, wanted, "at {body}");
            }
        }
    }
    Ok(())
}
