//! Texts and what they are read as, and the line of each first fault.
mod sizes;
mod trees;
mod words;

use qm_expand::{ReadError, read};
use qm_instr::{Gate, Input, Instr, OneGate};
use qm_limits::MOST_BYTES;
use std::test::Fail;

/// The programs of a text.
fn programs(rt: &HostRuntime, text: &[u8]) -> Result<Input, Fail> {
    if text.len() > MOST_BYTES {
        return Err(Fail::from("a text that is too long"));
    }
    Ok(read(rt.alloc(), text)?)
}

/// The fault of a text; none where it has programs.
fn fault(rt: &HostRuntime, text: &[u8]) -> Result<Option<ReadError>, Fail> {
    if text.len() > MOST_BYTES {
        return Err(Fail::from("a text that is too long"));
    }
    Ok(read(rt.alloc(), text).err())
}

/// The text of one rank with twelve slots; its body begins on line 2.
fn one_rank(rt: &HostRuntime, body: &str) -> Result<String, Fail> {
    Ok(format!(in rt.alloc(); "qmpi 1 ranks 1 qubits 12 buffer 1 rank 0\n{body}\nend")?)
}

/// The text of three ranks with twelve slots; the body of all of them begins on line 2.
fn three_ranks(rt: &HostRuntime, body: &str) -> Result<String, Fail> {
    Ok(format!(in rt.alloc(); "qmpi 1 ranks 3 qubits 12 buffer 1 all\n{body}\nend")?)
}

/// The instructions of a rank; none where there is no such rank.
fn program(rt: &HostRuntime, input: &Input, rank: u16) -> Result<Vec<Instr>, Fail> {
    let mut found = Vec::new(rt.alloc());
    if rank < input.ranks() {
        for j in 0..input.count(rank) {
            if let Some(i) = input.instr(rank, j) {
                found.push(i)?;
            }
        }
    }
    Ok(found)
}

fn one(g: OneGate) -> Instr {
    Instr::Do {
        g: Gate::One { g, q: 3 },
    }
}

#[test]
fn each_word_is_its_instruction(rt: HostRuntime) -> Result<(), Fail> {
    let (q, b, to, from, tag) = (3, 31, 65_535, 400, 7);
    let cx = Gate::Cx { c: 3, t: 4 };
    let cz = Gate::Cz { c: 3, t: 4 };
    for (text, wanted) in [
        ("alloc 3", Instr::Alloc { q }),
        ("free 3", Instr::Free { q }),
        ("x 3", one(OneGate::X)),
        ("z 3", one(OneGate::Z)),
        ("h 3", one(OneGate::H)),
        ("s 3", one(OneGate::S)),
        ("sdg 3", one(OneGate::Sdg)),
        ("t 3", one(OneGate::T)),
        ("tdg 3", one(OneGate::Tdg)),
        ("cx 3 4", Instr::Do { g: cx }),
        ("cz 3 4", Instr::Do { g: cz }),
        ("measure 3 31", Instr::Measure { q, b }),
        ("set 31 1", Instr::Set { b, v: true }),
        ("set 31 0", Instr::Set { b, v: false }),
        ("xor 31 4", Instr::Xor { b, c: 4 }),
        ("when 31 cx 3 4", Instr::When { b, g: cx }),
        ("when 31 cz 3 4", Instr::When { b, g: cz }),
        ("sendbit 31 65535 7", Instr::SendBit { b, to, tag }),
        ("recvbit 31 400 7", Instr::RecvBit { b, from, tag }),
        ("copyto 3 65535 7", Instr::CopyTo { q, to, tag }),
        ("copyfrom 3 400 7", Instr::CopyFrom { q, from, tag }),
        ("undoto 3 65535 7", Instr::UndoTo { q, to, tag }),
        ("undofrom 3 400 7", Instr::UndoFrom { q, from, tag }),
        ("moveto 3 65535 7", Instr::MoveTo { q, to, tag }),
        ("movefrom 3 400 7", Instr::MoveFrom { q, from, tag }),
        ("reachto 3 65535 7", Instr::ReachTo { q, to, tag }),
        ("reachfrom 3 400 7", Instr::ReachFrom { t: q, from, tag }),
    ] {
        let input = programs(&rt, one_rank(&rt, text)?.as_bytes())?;
        let found = program(&rt, &input, 0)?;
        assert_eq!(rt; found.as_slice(), [wanted].as_slice(), "at {text}");
    }
    Ok(())
}

/// Loops and expressions, each with the same body spelled out.
#[test]
fn bodies_are_expanded(rt: HostRuntime) -> Result<(), Fail> {
    for (body, wanted) in [
        ("for i in 0-2..1 { set i * i 1 }", "set 4 1 set 1 1 set 0 1"),
        (
            "for i in 5..3 { alloc k } for i in 3..3 { alloc k } x 1",
            "x 1",
        ),
        (
            "for i in 0..2 { for k in i..2 { cz i + 5 k } }",
            "cz 5 0 cz 5 1 cz 6 1",
        ),
        // an inner name hides an outer one, up to its loop's end
        (
            "for i in 0..2 { set i 0 for i in 7..8 { set i 1 for k in 0..1 { set i + 1 0 } } set i 1 }",
            "set 0 0 set 7 1 set 8 0 set 0 1 set 1 0 set 7 1 set 8 0 set 1 1",
        ),
        // bounds don't see the name of their own loop
        (
            "for i in 2..3 { for i in i..i + 2 { set i 0 } }",
            "set 2 0 set 3 0",
        ),
        (
            "for b in 1..2 { for b01 in 2..3 { set b * 10 + b01 1 } }",
            "set 12 1",
        ),
        ("set size * 10 + rank 1", "set 10 1"),
        // a quotient is truncated towards zero, and a rest has the sign of its left side
        ("set 7 / 2 0 set 7 % 4 0", "set 3 0 set 3 0"),
        (
            "set 10 + (0 - 7) / 2 0 set 10 + 7 / (0 - 2) 0",
            "set 7 0 set 7 0",
        ),
        (
            "set 10 + (0 - 7) % 2 0 set 10 + 7 % (0 - 2) 0",
            "set 9 0 set 11 0",
        ),
        // operators of one level group from the left
        ("set 20 - 3 - 4 0 set 20 / 3 * 2 % 7 0", "set 13 0 set 5 0"),
        ("set 2 + 3 * (4 + 1) - 1 0", "set 16 0"),
        ("set 2147483647 - 2147483647 0", "set 0 0"),
        ("set 0 - 2147483647 + 2147483647 0", "set 0 0"),
        ("set 46340 * 46340 * 0 0", "set 0 0"),
    ] {
        let input = programs(&rt, one_rank(&rt, body)?.as_bytes())?;
        let found = program(&rt, &input, 0)?;
        assert!(rt; !found.is_empty(), "at {body}");
        let spelled = programs(&rt, one_rank(&rt, wanted)?.as_bytes())?;
        assert_eq!(rt; found, program(&rt, &spelled, 0)?, "at {body}");
    }
    Ok(())
}

/// Collectives, each with the programs of three ranks spelled out.
#[test]
fn collectives_are_expanded(rt: HostRuntime) -> Result<(), Fail> {
    for (body, wanted) in [
        (
            "bcast 4 1 7",
            [
                "copyfrom 4 1 7",
                "copyto 4 0 7 copyto 4 2 7",
                "copyfrom 4 1 7",
            ],
        ),
        (
            "unbcast 4 1 7",
            [
                "undoto 4 1 7",
                "undofrom 4 0 7 undofrom 4 2 7",
                "undoto 4 1 7",
            ],
        ),
        (
            "scatter 4 1 7",
            [
                "movefrom 4 1 7",
                "moveto 4 0 7 moveto 6 2 7",
                "movefrom 4 1 7",
            ],
        ),
        (
            "gather 4 1 7",
            [
                "moveto 4 1 7",
                "movefrom 4 0 7 movefrom 6 2 7",
                "moveto 4 1 7",
            ],
        ),
        (
            "unscatter 4 1 7",
            [
                "moveto 4 1 7",
                "movefrom 4 0 7 movefrom 6 2 7",
                "moveto 4 1 7",
            ],
        ),
        (
            "ungather 4 1 7",
            [
                "movefrom 4 1 7",
                "moveto 4 0 7 moveto 6 2 7",
                "movefrom 4 1 7",
            ],
        ),
        (
            "reduce 4 5 1 7",
            [
                "reachto 4 1 7",
                "cx 4 5 reachfrom 5 0 7 reachfrom 5 2 7",
                "reachto 4 1 7",
            ],
        ),
        (
            "unreduce 4 5 1 7",
            [
                "reachto 4 1 7",
                "cx 4 5 reachfrom 5 0 7 reachfrom 5 2 7",
                "reachto 4 1 7",
            ],
        ),
        // the slot of the root's own qubit is in no instruction
        (
            "scatter 10 2 7",
            [
                "movefrom 10 2 7",
                "movefrom 10 2 7",
                "moveto 10 0 7 moveto 11 1 7",
            ],
        ),
        (
            "set rank + 9 * size 1",
            ["set 27 1", "set 28 1", "set 29 1"],
        ),
    ] {
        let input = programs(&rt, three_ranks(&rt, body)?.as_bytes())?;
        for rank in 0..3 {
            let found = program(&rt, &input, rank)?;
            assert!(rt; !found.is_empty(), "at {body}");
            let spelled = one_rank(&rt, wanted[rank as usize])?;
            let spelled = programs(&rt, spelled.as_bytes())?;
            assert_eq!(rt; found, program(&rt, &spelled, 0)?, "at {body}");
        }
    }
    Ok(())
}

#[test]
fn the_first_fault_of_a_body_is_told_with_its_line(rt: HostRuntime) -> Result<(), Fail> {
    for (body, line) in [
        ("alloc j", 2),
        ("for i in i..3 { }", 2),
        ("for i in 0..i { }", 2),
        // a name is gone behind its loop
        ("for i in 0..1 { }\nalloc i", 3),
        // operands are looked at from left to right, and the first fault decides
        ("\n\ncx\nj 12", 4),
        ("set 31 1\nwhen 31\nx\nj", 3),
        ("for i in 0..1 {\nset i j }\nalloc 12", 3),
    ] {
        let text = one_rank(&rt, body)?;
        assert_eq!(rt;
            fault(&rt, text.as_bytes())?,
            Some(ReadError::UnknownName { line }),
            "at {body}"
        );
    }
    for (body, line) in [
        ("alloc 1 / 0", 2),
        ("alloc 1 % 0", 2),
        ("set 2147483647 + 1 - 2147483647 0", 2),
        ("set 0 - 2147483647 - 1 + 2147483647 0", 2),
        ("set 46341 * 46341 * 0 0", 2),
        ("alloc 12", 2),
        ("alloc 0 - 1", 2),
        ("set 32 1", 2),
        ("set 0 2", 2),
        ("measure 1 32", 2),
        ("measure 12 0", 2),
        ("xor 0 32", 2),
        ("sendbit 0 65536 0", 2),
        ("sendbit 0 0 65536", 2),
        ("bcast 0 1 0", 2),
        ("bcast 12 0 0", 2),
        ("reduce 0 12 0 0", 2),
        ("cx 12 j", 2),
        ("\nwhen 32\nx j", 3),
        ("when 31\nx 12", 2),
        ("for\ni in 1 / 0..j { }", 2),
        ("reduce 0 1 1 j", 2),
        // the root of one rank has nobody to whom it scatters, but its slot is tested
        ("scatter 12 0 0", 2),
        ("for i in 11..14 {\nalloc i }", 3),
    ] {
        let text = one_rank(&rt, body)?;
        assert_eq!(rt;
            fault(&rt, text.as_bytes())?,
            Some(ReadError::OutOfRange { line }),
            "at {body}"
        );
    }
    Ok(())
}

#[test]
fn a_fault_of_any_rank_is_found(rt: HostRuntime) -> Result<(), Fail> {
    for (body, line) in [
        // a slot that the expansion makes
        ("\nscatter\n11 1 7", 3),
        ("gather 10 0 7", 2),
        ("unscatter 10 1 7", 2),
        // a leaf tests the target that it doesn't use
        ("for i in 0..rank {\nreduce 0 12 0 7 }", 3),
        ("bcast 0 3 7", 2),
        ("for i in 2..3 { alloc 10 + rank }", 2),
    ] {
        let text = three_ranks(&rt, body)?;
        assert_eq!(rt;
            fault(&rt, text.as_bytes())?,
            Some(ReadError::OutOfRange { line }),
            "at {body}"
        );
    }
    // ranks one by one, each body in its order
    let two =
        b"qmpi 1 ranks 2 qubits 1 buffer 1 rank 0\nalloc 0\nend rank 1\nalloc j\nalloc 1\nend";
    assert_eq!(rt; fault(&rt, two)?, Some(ReadError::UnknownName { line: 4 }));
    Ok(())
}

/// So many instructions over two ranks, and then a body of the second one.
fn after_instructions(rt: &HostRuntime, count: u32, body: &str) -> Result<String, Fail> {
    Ok(format!(in rt.alloc();
        "qmpi 1 ranks 3 qubits 12 buffer 1 rank 0 set 0 1 end rank 1\nfor i in 1..{count} {{ set i % 32 1 }}\n{body} end rank 2 end"
    )?)
}

#[test]
fn a_hundred_thousand_instructions_are_the_most(rt: HostRuntime) -> Result<(), Fail> {
    let most = 100_000;
    for (count, body, wanted) in [
        (most, "", None),
        (most + 1, "", Some(ReadError::TooMany { line: 2 })),
        (most, "\nx 0", Some(ReadError::TooMany { line: 4 })),
        // the operands of the instruction that is one too many are looked at first
        (most, "alloc j", Some(ReadError::UnknownName { line: 3 })),
        (most, "alloc 12", Some(ReadError::OutOfRange { line: 3 })),
        // a collective: its operands, and for each instruction first its slot and then its count
        (
            most,
            "scatter 9 1 j",
            Some(ReadError::UnknownName { line: 3 }),
        ),
        (most, "scatter 10 1 7", Some(ReadError::TooMany { line: 3 })),
        (
            most - 1,
            "scatter 10 1 7",
            Some(ReadError::OutOfRange { line: 3 }),
        ),
        (
            most - 1,
            "scatter 9 1 7",
            Some(ReadError::TooMany { line: 3 }),
        ),
        (most - 2, "scatter 9 1 7", None),
        (most, "for i in 3..3 { x i }", None),
    ] {
        let text = after_instructions(&rt, count, body)?;
        assert_eq!(rt;
            fault(&rt, text.as_bytes())?,
            wanted,
            "at {count} and {body}"
        );
    }
    Ok(())
}

/// So many turns over two ranks, and then a body of the second one.
fn after_turns(rt: &HostRuntime, count: u32, body: &str) -> Result<String, Fail> {
    Ok(format!(in rt.alloc();
        "qmpi 1 ranks 2 qubits 12 buffer 1 rank 0 for i in 0..1 {{ }} end rank 1\nfor i in 1..{count} {{ }}\n{body} end"
    )?)
}

#[test]
fn a_million_turns_are_the_most(rt: HostRuntime) -> Result<(), Fail> {
    let most = 1_000_000;
    for (count, body, wanted) in [
        (most, "", None),
        (most + 1, "", Some(ReadError::TooMany { line: 2 })),
        (
            most,
            "for i in 0..1 { }",
            Some(ReadError::TooMany { line: 3 }),
        ),
        (most, "for i in 1..1 { alloc j }", None),
        // both bounds go before the count, and the count before the body
        (
            most,
            "for i in 0..j { }",
            Some(ReadError::UnknownName { line: 3 }),
        ),
        (
            most,
            "for i in 0..1 { alloc j }",
            Some(ReadError::TooMany { line: 3 }),
        ),
        (
            most - 1,
            "for i in 0..1 { alloc j }",
            Some(ReadError::UnknownName { line: 3 }),
        ),
    ] {
        let text = after_turns(&rt, count, body)?;
        assert_eq!(rt;
            fault(&rt, text.as_bytes())?,
            wanted,
            "at {count} and {body}"
        );
    }
    Ok(())
}

#[test]
fn bytes_go_before_the_grammar_and_the_grammar_before_the_expansion(
    rt: HostRuntime,
) -> Result<(), Fail> {
    for (text, wanted) in [
        ("qmpi 3", ReadError::Unexpected { line: 1 }),
        ("qmpi 3\n$", ReadError::BadByte { line: 2 }),
        (
            "qmpi 3 ranks 1 qubits 1 buffer 1 all end",
            ReadError::Unexpected { line: 1 },
        ),
        ("qmpi 99999999999", ReadError::NumberTooLarge { line: 1 }),
        (
            "qmpi 1\nranks 1\nqubits 1\nbuffer 1\nrank 0\nalloc 0\n",
            ReadError::Unended { line: 7 },
        ),
        (
            "qmpi 1 ranks 1 qubits 1 buffer 1 rank 0 alloc 1 / 0 end",
            ReadError::OutOfRange { line: 1 },
        ),
        (
            "qmpi 1 ranks 1 qubits 1 buffer 1 rank 0 alloc j end",
            ReadError::UnknownName { line: 1 },
        ),
        (
            "qmpi 1 ranks 1 qubits 1 buffer 1 rank 0\nalloc j\n}",
            ReadError::Unexpected { line: 3 },
        ),
        (
            "qmpi 1 ranks 1 qubits 1 buffer 1 rank 0\nalloc j\n}\n$",
            ReadError::BadByte { line: 4 },
        ),
        (
            "qmpi 1 ranks 1 qubits 1 buffer 1 all alloc j\nalloc ((((((((((((((((((((((((((((((((\n(",
            ReadError::TooDeep { line: 3 },
        ),
    ] {
        assert_eq!(rt; fault(&rt, text.as_bytes())?, Some(wanted), "at {text}");
    }
    Ok(())
}

/// As many instructions as there may be, spelled out, and blanks up to the largest size of a text.
#[test]
fn the_largest_text_is_read(rt: HostRuntime) -> Result<(), Fail> {
    let mut text = String::new(rt.alloc());
    text.push_str("qmpi 1 ranks 1 qubits 1 buffer 1 all ")?;
    for _ in 0..100_000 {
        text.push_str("x 0\n")?;
    }
    text.push_str("end")?;
    for _ in text.len()..MOST_BYTES {
        text.push_str(" ")?;
    }
    assert_eq!(rt; text.len(), MOST_BYTES);
    assert_eq!(rt; fault(&rt, text.as_bytes())?, None);
    Ok(())
}
