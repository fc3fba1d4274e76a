//! Texts that have a tree, and the line of each first fault.
mod largest;

use qm_lex::lex;
use qm_limits::MOST_BYTES;
use qm_parse::*;
use std::alloc::Global;
use std::process::Abort;
use std::test::Fail;

/// A text, and what it has in place of a tree.
type Row = (&'static str, Option<ParseError>);

fn unexpected(line: u32) -> Option<ParseError> {
    Some(ParseError::Unexpected { line })
}

fn too_large(line: u32) -> Option<ParseError> {
    Some(ParseError::NumberTooLarge { line })
}

fn unended(line: u32) -> Option<ParseError> {
    Some(ParseError::Unended { line })
}

fn too_deep(line: u32) -> Option<ParseError> {
    Some(ParseError::TooDeep { line })
}

/// What a text without bad bytes has in place of a tree, if it has none.
fn fault_of(alloc: Global, text: &[u8]) -> Result<Option<ParseError>, Fail> {
    if text.len() > MOST_BYTES {
        return Err(Fail::from("a text that is too long"));
    }
    let Ok(tokens) = lex(alloc, text) else {
        return Err(Fail::from("a bad byte, or out of memory"));
    };
    match parse(alloc, text, &tokens) {
        Ok(_) => Ok(None),
        Err(ParseError::Memory) => Err(Fail::from("out of memory")),
        Err(error) => Ok(Some(error)),
    }
}

#[test]
fn the_first_fault_of_a_frame_is_told(rt: HostRuntime) -> Result<(), Fail> {
    let rows: [Row; 38] = [
        ("qmpi 1 ranks 1 qubits 1 buffer 1 all end", None),
        (
            "qmpi 01 ranks 016 qubits 16 buffer 8 all end own 15 b protocol 0 b01",
            None,
        ),
        (
            "qmpi 1 ranks 2 qubits 1 buffer 1 rank 0 end rank 1 end",
            None,
        ),
        ("", unended(1)),
        ("# no token\n\n", unended(3)),
        ("qmpi 2", unended(1)),
        ("qmpi\n3", unexpected(2)),
        ("qmpi 0", unexpected(1)),
        ("qmpi\n99999999999", too_large(2)),
        ("qmpi\n2147483647", unexpected(2)),
        ("qmpi\n2147483648", too_large(2)),
        ("\n99999999999", unexpected(2)),
        ("qmpi 1 ranks 0", unexpected(1)),
        ("qmpi 1 ranks 17", unexpected(1)),
        ("qmpi 1 ranks\n4294967297", too_large(2)),
        ("qmpi 1 ranks 1 qubits 0", unexpected(1)),
        ("qmpi 1 ranks 1 qubits 17", unexpected(1)),
        ("qmpi 1 ranks 1 qubits 1 buffer 0", unexpected(1)),
        ("qmpi 1 ranks 1 qubits 1 buffer 9", unexpected(1)),
        (
            "qmpi 1 ranks 1 qubits 1 buffer 18446744073709551617",
            too_large(1),
        ),
        ("qmpi 1 ranks 1 qubits 1 buffer 1", unended(1)),
        ("qmpi 1 ranks 1 qubits 1 buffer 1\nrank 1", unexpected(2)),
        (
            "qmpi 1 ranks 1 qubits 1 buffer 1 rank 2147483648",
            too_large(1),
        ),
        ("qmpi 1 ranks 2 qubits 1 buffer 1 rank 0 end", unended(1)),
        (
            "qmpi 1 ranks 2 qubits 1 buffer 1 rank 0 end own 0 b",
            unexpected(1),
        ),
        (
            "qmpi 1 ranks 1 qubits 1 buffer 1 rank 0 end\nrank 1 end",
            unexpected(2),
        ),
        (
            "qmpi 1 ranks 1 qubits 1 buffer 1 rank 0\nalloc 0\n",
            unended(3),
        ),
        (
            "qmpi 1 ranks 1 qubits 1 buffer 1 all end all end",
            unexpected(1),
        ),
        (
            "qmpi 1 ranks 1 qubits 1 buffer 1 all end own 1 b",
            unexpected(1),
        ),
        (
            "qmpi 1 ranks 1 qubits 1 buffer 1 all end own 2147483648 b",
            too_large(1),
        ),
        (
            "qmpi 1 ranks 1 qubits 1 buffer 1 all end own 0 b2",
            unexpected(1),
        ),
        (
            "qmpi 1 ranks 1 qubits 1 buffer 1 all end own 0 x",
            unexpected(1),
        ),
        ("qmpi 1 ranks 1 qubits 1 buffer 1 all end own 0", unended(1)),
        (
            "qmpi 1 ranks 1 qubits 1 buffer 1 all end own 0 b1 b0",
            unexpected(1),
        ),
        (
            "qmpi 1 ranks 1 qubits 1 buffer 1 all end own 0 b1 own 0 b0",
            None,
        ),
        ("Qmpi 1", unexpected(1)),
        ("qmpi 1 rank", unexpected(1)),
        ("# one\n# two\nqmpi 1 # three\n\n ranks 2 2", unexpected(5)),
    ];
    for (text, fault) in rows {
        let found = fault_of(rt.alloc(), text.as_bytes())?;
        assert_eq!(rt; found, fault, "at {text}");
    }
    Ok(())
}

#[test]
fn each_rank_of_version_2_has_its_sizes(rt: HostRuntime) -> Result<(), Fail> {
    let rows: [Row; 25] = [
        ("qmpi 2 ranks 1 qubits 16 buffer 8 all end", None),
        ("qmpi 02 ranks 3 qubits 1 16 7 buffer 8 1 08 all end", None),
        ("qmpi 2 ranks 2 qubits 1\n16 buffer 8", unended(2)),
        ("qmpi 2 ranks 2 qubits 1\nbuffer 1 1 all end", unexpected(2)),
        (
            "qmpi 2 ranks 2 qubits 1 1\n1 buffer 1 1 all end",
            unexpected(2),
        ),
        ("qmpi 2 ranks 2 qubits 1 1 buffer 1\nall end", unexpected(2)),
        (
            "qmpi 2 ranks 2 qubits 1 1 buffer 1 1\n1 all end",
            unexpected(2),
        ),
        ("qmpi 2 ranks 2 qubits 1\n0", unexpected(2)),
        ("qmpi 2 ranks 2 qubits 1\n17", unexpected(2)),
        ("qmpi 2 ranks 2 qubits\n0 1", unexpected(2)),
        ("qmpi 2 ranks 2 qubits 1 1 buffer 8\n0", unexpected(2)),
        ("qmpi 2 ranks 2 qubits 1 1 buffer 8\n9", unexpected(2)),
        ("qmpi 2 ranks 2 qubits 1\n2147483648", too_large(2)),
        ("qmpi 2 ranks 2 qubits 1 1\n2147483648", unexpected(2)),
        ("qmpi 2 ranks 2 qubits 1 1 buffer 1", unended(1)),
        ("qmpi 2 ranks 17", unexpected(1)),
        ("qmpi 1 ranks 2 qubits 1\n1 buffer 1 1", unexpected(2)),
        (
            "qmpi 2 ranks 2 qubits 3 3 buffer 1 1 all reduce 0 1 0 5\nunreduce 0 1 0 5 end",
            unexpected(2),
        ),
        (
            "qmpi 2 ranks 1 qubits 1 buffer 1 all treecast 0 0 5 untreecast 0 0 6 end",
            None,
        ),
        (
            "qmpi 2 ranks 1 qubits 1 buffer 1 all for\ntreecast in 0..1 { } end",
            unexpected(2),
        ),
        (
            "qmpi 2 ranks 1 qubits 1 buffer 1 all for\nuntreecast in 0..1 { } end",
            unexpected(2),
        ),
        (
            "qmpi 2 ranks 1 qubits 1 buffer 1 all for tree in 0..1 { alloc treecasts } end",
            None,
        ),
        (
            "qmpi 2 ranks 1 qubits 1 buffer 1 all treecast 0 0\nend",
            unexpected(2),
        ),
        (
            "qmpi 2 ranks 1 qubits 1 buffer 1 all treecast 0 0 5\n6 end",
            unexpected(2),
        ),
        (
            "qmpi 2 ranks 2 qubits 3 3 buffer 1 1 all for\nunreduce in 0..1 { } end",
            unexpected(2),
        ),
    ];
    for (text, fault) in rows {
        let found = fault_of(rt.alloc(), text.as_bytes())?;
        assert_eq!(rt; found, fault, "at {text}");
    }
    Ok(())
}

/// The frame of one rank round a body.
fn framed(alloc: Global, body: &str) -> Result<String, Fail> {
    Ok(format!(in alloc; "qmpi 1 ranks 1 qubits 1 buffer 1 all {body} end")?)
}

#[test]
fn the_first_fault_of_a_body_is_told(rt: HostRuntime) -> Result<(), Fail> {
    let rows: [Row; 45] = [
        ("alloc 0", None),
        ("alloc b01 free i x H", None),
        ("cx 1 2 cz rank size", None),
        ("alloc", unexpected(1)),
        ("alloc 0 0", unexpected(1)),
        ("alloc 1 + 2", None),
        ("alloc 1 +", unexpected(1)),
        ("alloc - 1", unexpected(1)),
        ("alloc 1 - 2 * 3 / 4 % 5 + (6)", None),
        ("alloc (1", unexpected(1)),
        ("alloc ()", unexpected(1)),
        ("alloc 1)", unexpected(1)),
        ("alloc 2147483647", None),
        ("alloc\n2147483648", too_large(2)),
        ("alloc 1 + 99999999999999999999999999", too_large(1)),
        // a number that may not stand there is unexpected, however large
        ("alloc 0\n99999999999", unexpected(2)),
        ("for 99999999999", unexpected(1)),
        ("when 1 x 2", None),
        ("when 1 cx 2 3", None),
        ("when 1\nalloc 2", unexpected(2)),
        ("when 1 when 2 x 3", unexpected(1)),
        ("when 1", unexpected(1)),
        ("measure 0 0 set 0 1 xor 0 1", None),
        (
            "sendbit 0 1 2 recvbit 0 1 2 copyto 0 1 2 copyfrom 0 1 2",
            None,
        ),
        (
            "undoto 0 1 2 undofrom 0 1 2 moveto 0 1 2 movefrom 0 1 2",
            None,
        ),
        ("reachto 0 1 2 reachfrom 0 1 2", None),
        ("bcast 0 1 2 unbcast 0 1 2 scatter 0 1 2 gather 0 1 2", None),
        (
            "unscatter 0 1 2 ungather 0 1 2 reduce 0 1 2 3 unreduce 0 1 2 3",
            None,
        ),
        ("s 0 sdg 0 t 0 tdg 0 z 0 h 0", None),
        ("bcast 0 1", unexpected(1)),
        ("for i in 0..3 { }", None),
        ("for b in 0..3 { alloc b }", None),
        // a body that has no turn keeps to the grammar
        ("for i in 5..3 {\nalloc }", unexpected(2)),
        ("for i in i..3 { alloc i }", None),
        ("for t in 0..2 { }", unexpected(1)),
        ("for rank in 0..2 { }", unexpected(1)),
        ("for treecast in 0..2 { alloc untreecast }", None),
        ("for untreecast in treecast..2 { }", None),
        ("treecast 0 0 5", unexpected(1)),
        ("for i in 0 3 { }", unexpected(1)),
        ("for i 0..3 { }", unexpected(1)),
        ("for i in 0..3 alloc i", unexpected(1)),
        ("for i in 0..3 { end }", unexpected(1)),
        ("for i in 0..3 {", unexpected(1)),
        ("alloc ranks", unexpected(1)),
    ];
    for (body, fault) in rows {
        let text = framed(rt.alloc(), body)?;
        let found = fault_of(rt.alloc(), text.as_bytes())?;
        assert_eq!(rt; found, fault, "at {body}");
    }
    Ok(())
}

#[test]
fn reserved_words_are_no_names(rt: HostRuntime) -> Result<(), Fail> {
    for word in [
        "qmpi",
        "ranks",
        "qubits",
        "buffer",
        "rank",
        "size",
        "all",
        "end",
        "own",
        "protocol",
        "for",
        "in",
        "alloc",
        "free",
        "x",
        "z",
        "h",
        "s",
        "sdg",
        "t",
        "tdg",
        "cx",
        "cz",
        "measure",
        "set",
        "xor",
        "when",
        "sendbit",
        "recvbit",
        "copyto",
        "copyfrom",
        "undoto",
        "undofrom",
        "moveto",
        "movefrom",
        "reachto",
        "reachfrom",
        "bcast",
        "unbcast",
        "scatter",
        "gather",
        "unscatter",
        "ungather",
        "reduce",
        "unreduce",
    ] {
        let text = format!(in rt.alloc();
            "qmpi 1 ranks 1 qubits 1 buffer 1 all for\n{word} in 0..1 {{ }} end"
        )?;
        let found = fault_of(rt.alloc(), text.as_bytes())?;
        assert_eq!(rt; found, unexpected(2), "at {word}");
        let text = format!(in rt.alloc();
            "qmpi 1 ranks 1 qubits 1 buffer 1 all for\n{word}_ in 0..1 {{ }} end"
        )?;
        let found = fault_of(rt.alloc(), text.as_bytes())?;
        assert_eq!(rt; found, None, "at {word}_");
    }
    Ok(())
}

/// So many loops and parentheses, one in the other, each opening on a line of its own.
fn nested(alloc: Global, loops: u32, parentheses: u32) -> Result<String, Fail> {
    let mut text = String::new(alloc);
    text.push_str("qmpi 1 ranks 1 qubits 1 buffer 1 all")?;
    for _ in 0..loops {
        text.push_str(" for i in 0..1\n{")?;
    }
    text.push_str(" alloc ")?;
    for _ in 0..parentheses {
        text.push_str("\n(")?;
    }
    text.push_str("0")?;
    for _ in 0..parentheses {
        text.push_str(")")?;
    }
    for _ in 0..loops {
        text.push_str("}")?;
    }
    text.push_str(" end")?;
    Ok(text)
}

#[test]
fn thirty_two_are_open(rt: HostRuntime) -> Result<(), Fail> {
    for (loops, parentheses, fault) in [
        (0, 32, None),
        (0, 33, too_deep(34)),
        (32, 0, None),
        (33, 0, too_deep(34)),
        (16, 16, None),
        (16, 17, too_deep(34)),
        (31, 2, too_deep(34)),
        (0, 100, too_deep(34)),
    ] {
        let text = nested(rt.alloc(), loops, parentheses)?;
        let found = fault_of(rt.alloc(), text.as_bytes())?;
        assert_eq!(rt;
            found,
            fault,
            "at {loops} loops and {parentheses} parentheses"
        );
    }
    Ok(())
}

/// What a node stands for, its token, its value, and the first node behind what belongs to it.
type Parts = (What, u32, u32, u32);

/// Tries that the tree of a text has just these nodes.
fn try_nodes(rt: &impl Abort, alloc: Global, text: &[u8], nodes: &[Parts]) -> Result<(), Fail> {
    assert!(rt; text.len() <= MOST_BYTES, "a short text");
    let Ok(tokens) = lex(alloc, text) else {
        return Err(Fail::from("no tokens"));
    };
    let Ok(tree) = parse(alloc, text, &tokens) else {
        return Err(Fail::from("no tree"));
    };
    let mut j = 0u32;
    for (what, token, value, stop) in nodes {
        let node = Node {
            what: *what,
            token: *token,
            value: *value,
            stop: *stop,
        };
        assert_eq!(rt; tree.node(j), Some(node), "at {j}");
        j = j.saturating_add(1);
    }
    assert_eq!(rt; tree.len(), j);
    assert_eq!(rt; tree.node(j), None);
    Ok(())
}

#[test]
fn nodes_follow_the_text(rt: HostRuntime) -> Result<(), Fail> {
    let text = b"qmpi 1 ranks 1 qubits 1 buffer 1 all alloc 1-2*3-4 end";
    let nodes = [
        (What::Num, 1, 1, 1),
        (What::Num, 3, 1, 2),
        (What::Num, 5, 1, 3),
        (What::Num, 7, 1, 4),
        (What::All, 8, 0, 14),
        (What::Instr, 9, 0, 14),
        (What::Num, 10, 1, 7),
        (What::Num, 12, 2, 8),
        (What::Num, 14, 3, 9),
        (What::Times, 13, 0, 10),
        (What::Minus, 11, 0, 11),
        (What::Num, 16, 4, 12),
        (What::Minus, 15, 0, 13),
        (What::Arg, 10, 0, 14),
    ];
    try_nodes(&rt, rt.alloc(), text, &nodes)
}

#[test]
fn each_size_of_version_2_has_its_node(rt: HostRuntime) -> Result<(), Fail> {
    let text = b"qmpi 2 ranks 3 qubits 3 16 5 buffer 4 1 8 all end protocol 2 b1";
    let nodes = [
        (What::Num, 1, 2, 1),
        (What::Num, 3, 3, 2),
        (What::Num, 5, 3, 3),
        (What::Num, 6, 16, 4),
        (What::Num, 7, 5, 5),
        (What::Num, 9, 4, 6),
        (What::Num, 10, 1, 7),
        (What::Num, 11, 8, 8),
        (What::All, 12, 0, 9),
        (What::Protocol, 14, 0, 12),
        (What::Num, 15, 2, 11),
        (What::Bits, 16, 0, 12),
    ];
    try_nodes(&rt, rt.alloc(), text, &nodes)
}

#[test]
fn blocks_loops_and_tapes_have_their_nodes(rt: HostRuntime) -> Result<(), Fail> {
    let text = b"qmpi 1 ranks 2 qubits 1 buffer 1 \
            rank 0 for i in rank..size { when 1 x i / 1 % 2 + 0 } end rank 1 end own 0 b1 protocol 1 b";
    let nodes = [
        (What::Num, 1, 1, 1),
        (What::Num, 3, 2, 2),
        (What::Num, 5, 1, 3),
        (What::Num, 7, 1, 4),
        (What::Block, 8, 0, 22),
        (What::For, 10, 0, 22),
        (What::Rank, 13, 0, 7),
        (What::Arg, 13, 0, 8),
        (What::Size, 15, 0, 9),
        (What::Arg, 15, 0, 10),
        (What::Instr, 17, 0, 22),
        (What::Num, 18, 1, 12),
        (What::Arg, 18, 0, 13),
        (What::Instr, 19, 0, 22),
        (What::Name, 20, 0, 15),
        (What::Num, 22, 1, 16),
        (What::Over, 21, 0, 17),
        (What::Num, 24, 2, 18),
        (What::Rest, 23, 0, 19),
        (What::Num, 26, 0, 20),
        (What::Plus, 25, 0, 21),
        (What::Arg, 20, 0, 22),
        (What::Block, 29, 0, 23),
        (What::Own, 32, 0, 26),
        (What::Num, 33, 0, 25),
        (What::Bits, 34, 0, 26),
        (What::Protocol, 35, 0, 29),
        (What::Num, 36, 1, 28),
        (What::Bits, 37, 0, 29),
    ];
    try_nodes(&rt, rt.alloc(), text, &nodes)
}
