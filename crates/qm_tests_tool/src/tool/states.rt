//! One rank alone: gates, classical bits and tapes of its own, each under a machine and in the one circuit.
use super::calls::{Row, expect, try_rows};
use std::alloc::Global;
use std::process::Abort;
use std::test::Fail;

/// What a rank with two slots does, and its state behind the words `scale`: the scale, its bits, its slots and the amplitudes.
type OneRank = (&'static str, &'static str);

/// The nine gates. A qubit that is zero and one at once shows by how much its one is turned.
const GATES: [OneRank; 19] = [
    ("end", "0\nbits 0 00000000\nlive\n- 1 0 0 0\n"),
    ("alloc 0 end", "0\nbits 0 00000000\nlive 0.0\n0 1 0 0 0\n"),
    (
        "alloc 0 x 0 end",
        "0\nbits 0 00000000\nlive 0.0\n1 1 0 0 0\n",
    ),
    (
        "alloc 0 h 0 end",
        "1\nbits 0 00000000\nlive 0.0\n0 1 0 0 0\n1 1 0 0 0\n",
    ),
    (
        "alloc 0 x 0 h 0 end",
        "1\nbits 0 00000000\nlive 0.0\n0 1 0 0 0\n1 -1 0 0 0\n",
    ),
    (
        "alloc 0 h 0 h 0 end",
        "0\nbits 0 00000000\nlive 0.0\n0 1 0 0 0\n",
    ),
    (
        "alloc 0 h 0 z 0 end",
        "1\nbits 0 00000000\nlive 0.0\n0 1 0 0 0\n1 -1 0 0 0\n",
    ),
    (
        "alloc 0 h 0 s 0 end",
        "1\nbits 0 00000000\nlive 0.0\n0 1 0 0 0\n1 0 0 1 0\n",
    ),
    (
        "alloc 0 h 0 sdg 0 end",
        "1\nbits 0 00000000\nlive 0.0\n0 1 0 0 0\n1 0 0 -1 0\n",
    ),
    (
        "alloc 0 h 0 t 0 end",
        "1\nbits 0 00000000\nlive 0.0\n0 1 0 0 0\n1 0 1 0 0\n",
    ),
    (
        "alloc 0 h 0 tdg 0 end",
        "1\nbits 0 00000000\nlive 0.0\n0 1 0 0 0\n1 0 0 0 -1\n",
    ),
    (
        "alloc 0 h 0 t 0 x 0 end",
        "1\nbits 0 00000000\nlive 0.0\n0 0 1 0 0\n1 1 0 0 0\n",
    ),
    (
        "alloc 0 h 0 t 0 h 0 end",
        "2\nbits 0 00000000\nlive 0.0\n0 1 1 0 0\n1 1 -1 0 0\n",
    ),
    (
        "alloc 0 alloc 1 x 0 cx 0 1 end",
        "0\nbits 0 00000000\nlive 0.0 0.1\n11 1 0 0 0\n",
    ),
    (
        "alloc 0 alloc 1 x 0 cx 1 0 end",
        "0\nbits 0 00000000\nlive 0.0 0.1\n10 1 0 0 0\n",
    ),
    (
        "alloc 0 alloc 1 x 1 cx 0 1 end",
        "0\nbits 0 00000000\nlive 0.0 0.1\n01 1 0 0 0\n",
    ),
    (
        "alloc 0 alloc 1 x 1 cx 1 0 end",
        "0\nbits 0 00000000\nlive 0.0 0.1\n11 1 0 0 0\n",
    ),
    (
        "alloc 0 alloc 1 h 0 h 1 cz 0 1 end",
        "2\nbits 0 00000000\nlive 0.0 0.1\n00 1 0 0 0\n01 1 0 0 0\n10 1 0 0 0\n11 -1 0 0 0\n",
    ),
    (
        "alloc 0 for i in 0..250 { h 0 t 0 } end",
        "126\nbits 0 00000000\nlive 0.0\n\
            0 -3933770060094836469 -1656034560885360599 -4404456393203843922 -3260358630694204200\n\
            1 3260358630694204200 -2789672297585196747 2789672297585196747 -3260358630694204200\n",
    ),
];

/// The same gates where a bit is 1, and some where it isn't.
const GATES_BY_BITS: [OneRank; 13] = [
    (
        "set 3 1 alloc 0 h 0 t 0 when 3 x 0 end",
        "1\nbits 0 00000008\nlive 0.0\n0 0 1 0 0\n1 1 0 0 0\n",
    ),
    (
        "set 3 1 alloc 0 h 0 when 3 z 0 end",
        "1\nbits 0 00000008\nlive 0.0\n0 1 0 0 0\n1 -1 0 0 0\n",
    ),
    (
        "set 3 1 alloc 0 when 3 h 0 end",
        "1\nbits 0 00000008\nlive 0.0\n0 1 0 0 0\n1 1 0 0 0\n",
    ),
    (
        "set 3 1 alloc 0 h 0 when 3 s 0 end",
        "1\nbits 0 00000008\nlive 0.0\n0 1 0 0 0\n1 0 0 1 0\n",
    ),
    (
        "set 3 1 alloc 0 h 0 when 3 sdg 0 end",
        "1\nbits 0 00000008\nlive 0.0\n0 1 0 0 0\n1 0 0 -1 0\n",
    ),
    (
        "set 3 1 alloc 0 h 0 when 3 t 0 end",
        "1\nbits 0 00000008\nlive 0.0\n0 1 0 0 0\n1 0 1 0 0\n",
    ),
    (
        "set 3 1 alloc 0 h 0 when 3 tdg 0 end",
        "1\nbits 0 00000008\nlive 0.0\n0 1 0 0 0\n1 0 0 0 -1\n",
    ),
    (
        "set 3 1 alloc 0 alloc 1 x 0 when 3 cx 0 1 end",
        "0\nbits 0 00000008\nlive 0.0 0.1\n11 1 0 0 0\n",
    ),
    (
        "set 3 1 alloc 0 alloc 1 x 0 when 3 cx 1 0 end",
        "0\nbits 0 00000008\nlive 0.0 0.1\n10 1 0 0 0\n",
    ),
    (
        "set 3 1 alloc 0 alloc 1 h 0 h 1 when 3 cz 0 1 end",
        "2\nbits 0 00000008\nlive 0.0 0.1\n00 1 0 0 0\n01 1 0 0 0\n10 1 0 0 0\n11 -1 0 0 0\n",
    ),
    (
        "set 3 1 alloc 0 when 0 x 0 when 2 x 0 when 4 x 0 end",
        "0\nbits 0 00000008\nlive 0.0\n0 1 0 0 0\n",
    ),
    (
        "set 3 1 alloc 0 h 0 when 4 tdg 0 end",
        "1\nbits 0 00000008\nlive 0.0\n0 1 0 0 0\n1 1 0 0 0\n",
    ),
    (
        "set 3 1 alloc 0 alloc 1 x 0 when 1 cx 0 1 end",
        "0\nbits 0 00000008\nlive 0.0 0.1\n10 1 0 0 0\n",
    ),
];

/// Bits that are set, cleared and added up, and measured ones. All are 0 at the start.
const BITS: [OneRank; 10] = [
    (
        "xor 0 1 xor 31 5 end",
        "0\nbits 0 00000000\nlive\n- 1 0 0 0\n",
    ),
    (
        "set 3 1 set 0 1 set 31 1 end",
        "0\nbits 0 80000009\nlive\n- 1 0 0 0\n",
    ),
    (
        "set 3 1 set 4 1 set 3 0 set 5 0 end",
        "0\nbits 0 00000010\nlive\n- 1 0 0 0\n",
    ),
    (
        "set 31 1 xor 2 31 xor 3 2 xor 31 31 end",
        "0\nbits 0 0000000c\nlive\n- 1 0 0 0\n",
    ),
    (
        "set 2 1 set 3 1 xor 2 3 end",
        "0\nbits 0 00000008\nlive\n- 1 0 0 0\n",
    ),
    (
        "alloc 0 alloc 1 h 1 measure 1 3 h 1 measure 1 4 end own 0 b10",
        "2\nbits 0 00000008\nlive 0.0 0.1\n00 1 0 0 0\n",
    ),
    (
        "alloc 0 alloc 1 h 1 measure 1 3 h 1 measure 1 4 end own 0 b0 own 0 b1",
        "2\nbits 0 00000010\nlive 0.0 0.1\n01 1 0 0 0\n",
    ),
    (
        "set 4 1 alloc 0 x 0 measure 0 3 alloc 1 measure 1 4 end own 0 b10",
        "0\nbits 0 00000008\nlive 0.0 0.1\n10 1 0 0 0\n",
    ),
    (
        "alloc 0 h 0 measure 0 3 alloc 1 when 3 h 1 set 4 1 xor 3 4 when 3 x 1 xor 3 4 end own 0 b0",
        "1\nbits 0 00000010\nlive 0.0 0.1\n01 1 0 0 0\n",
    ),
    (
        "alloc 0 h 0 measure 0 3 alloc 1 when 3 h 1 set 4 1 xor 3 4 when 3 x 1 xor 3 4 end own 0 b1",
        "2\nbits 0 00000018\nlive 0.0 0.1\n10 1 0 0 0\n11 1 0 0 0\n",
    ),
];

/// The letters of all gates, with and without a bit.
const LETTERS: [Row; 2] = [
    (
        "mono",
        "qmpi 1 ranks 1 qubits 2 buffer 1 rank 0 alloc 0 alloc 1 \
            x 0 z 0 h 0 s 0 sdg 0 t 0 tdg 0 cx 0 1 cz 0 1 cx 1 0 cz 1 0 end",
        0,
        "circuit 1\nranks 1\nprotocol 0\nbits 0 00000000\nletters 11\n\
            flip 0.0\nphase 4 0.0\nhad 0.0\nphase 2 0.0\nphase 6 0.0\nphase 1 0.0\nphase 7 0.0\n\
            cx 0.0 0.1\ncz 0.0 0.1\ncx 0.1 0.0\ncz 0.1 0.0\nslot 0 0 0.0\nslot 0 1 0.1\nend\n",
    ),
    (
        "mono",
        "qmpi 1 ranks 1 qubits 2 buffer 1 rank 0 alloc 0 alloc 1 set 7 1 \
            when 7 x 0 when 7 z 0 when 7 h 0 when 7 s 0 when 7 sdg 0 when 7 t 0 when 7 tdg 0 \
            when 7 cx 0 1 when 7 cz 0 1 when 6 x 0 when 8 cx 0 1 end",
        0,
        "circuit 1\nranks 1\nprotocol 0\nbits 0 00000080\nletters 9\n\
            flip 0.0\nphase 4 0.0\nhad 0.0\nphase 2 0.0\nphase 6 0.0\nphase 1 0.0\nphase 7 0.0\n\
            cx 0.0 0.1\ncz 0.0 0.1\nslot 0 0 0.0\nslot 0 1 0.1\nend\n",
    ),
];

/// Tries what a rank does, where the state is the same under a machine and in the one circuit.
fn try_rank(rt: &impl Abort, alloc: Global, row: &OneRank) -> Result<(), Fail> {
    let (body, rest) = row;
    let text = format!(in alloc; "qmpi 1 ranks 1 qubits 2 buffer 1 rank 0 {body}")?;
    let due = format!(in alloc; "state 1\nranks 1\nprotocol 0\nscale {rest}end\n")?;
    for line in ["plain", "sched 5", "mono amps"] {
        expect(rt, alloc, line, text.as_bytes(), (0, due.as_str()))?;
    }
    Ok(())
}

#[test]
fn one_rank_comes_to_its_state(rt: HostRuntime) -> Result<(), Fail> {
    for rows in [&GATES[..], &GATES_BY_BITS[..], &BITS[..]] {
        for row in rows {
            try_rank(&rt, rt.alloc(), row)?;
        }
    }
    try_rows(&rt, rt.alloc(), &LETTERS)
}
