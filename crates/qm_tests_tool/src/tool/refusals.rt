//! Texts that are refused, each for its first fault.
use super::calls::{Row, try_rows};
use std::test::Fail;

/// Texts that are no programs that may run.
pub(super) const REFUSALS: [Row; 29] = [
    (
        "plain",
        "qmpi 1\nranks 1\nqubits 1\nbuffer 1\nrank 0\nalloc 0\n",
        5,
        "refused unended line 7\n",
    ),
    (
        "sched 1",
        "qmpi 1 ranks 1 qubits 1 buffer 1 rank 0 alloc 0 measure 0 0 end",
        5,
        "refused tape-length rank 0 own needs 1 has 0\n",
    ),
    (
        "plain",
        "qmpi 1 ranks 2 qubits 1 buffer 1 rank 0 alloc 0 copyto 0 1 7 end rank 1 copyfrom 0 0 7 end protocol 0 b",
        5,
        "refused tape-length rank 0 protocol needs 1 has 0\n",
    ),
    (
        "plain",
        "qmpi 1 ranks 2 qubits 1 buffer 1 rank 0 alloc 0 copyto 0 1 3 end rank 1 end protocol 0 b0",
        5,
        "refused unmatched-lane from 0 to 1 copy tag 3 sends 1 receives 0\n",
    ),
    (
        "plain",
        "qmpi 1 ranks 1 qubits 1 buffer 1 rank 0 h 0 end",
        5,
        "refused slot-empty rank 0 instruction 0\n",
    ),
    (
        "plain",
        "qmpi 1 ranks 1 qubits 1 buffer 1 rank 0 alloc 0 alloc 0 end",
        5,
        "refused slot-full rank 0 instruction 1\n",
    ),
    (
        "plain",
        "qmpi 1 ranks 1 qubits 2 buffer 1 rank 0 alloc 0 cx 0 0 end",
        5,
        "refused same-slot rank 0 instruction 1\n",
    ),
    (
        "plain",
        "qmpi 1 ranks 1 qubits 1 buffer 1 rank 0 sendbit 0 0 1 end",
        5,
        "refused self-message rank 0 instruction 0\n",
    ),
    (
        "plain",
        "qmpi 1 ranks 1 qubits 1 buffer 1 rank 0 sendbit 0 1 1 end",
        5,
        "refused bad-rank rank 0 instruction 0\n",
    ),
    (
        "plain",
        "qmpi 1 ranks 1 qubits 1 buffer 1 rank 0 alloc 1 / 0 end",
        5,
        "refused out-of-range line 1\n",
    ),
    (
        "plain",
        "qmpi 1 ranks 1 qubits 1 buffer 1 rank 0 alloc j end",
        5,
        "refused unknown-name line 1\n",
    ),
    ("plain", "qmpi\n$ 3", 5, "refused bad-byte line 2\n"),
    ("plain", "qmpi 3", 5, "refused unexpected line 1\n"),
    (
        "plain",
        "qmpi\n99999999999",
        5,
        "refused number-too-large line 2\n",
    ),
    (
        "plain",
        "qmpi 1 ranks 1 qubits 1 buffer 1 rank 0 alloc ((((((((((((((((((((((((((((((((( end",
        5,
        "refused too-deep line 1\n",
    ),
    (
        "plain",
        "qmpi 1 ranks 3 qubits 6 buffer 1 all end",
        5,
        "refused too-wide capacity 21\n",
    ),
    (
        "plain",
        "qmpi 1 ranks 16 qubits 16 buffer 8 all end",
        5,
        "refused too-wide capacity 384\n",
    ),
    ("trace 1", "qmpi 3", 5, "refused unexpected line 1\n"),
    ("mono", "qmpi\n$ 3", 5, "refused bad-byte line 2\n"),
    (
        "mono amps",
        "qmpi 1 ranks 3 qubits 6 buffer 1 all end",
        5,
        "refused too-wide capacity 21\n",
    ),
    (
        "check",
        "qmpi 1 ranks 1 qubits 1 buffer 1 rank 0 h 0 end",
        5,
        "refused slot-empty rank 0 instruction 0\n",
    ),
    // A lane is named before a tape, and the lowest of the lanes.
    (
        "plain",
        "qmpi 1 ranks 2 qubits 1 buffer 1 rank 0 alloc 0 copyto 0 1 3 end rank 1 end",
        5,
        "refused unmatched-lane from 0 to 1 copy tag 3 sends 1 receives 0\n",
    ),
    (
        "plain",
        "qmpi 1 ranks 3 qubits 1 buffer 1 rank 0 sendbit 0 2 1 sendbit 0 1 9 end rank 1 end rank 2 end",
        5,
        "refused unmatched-lane from 0 to 1 bit tag 9 sends 1 receives 0\n",
    ),
    (
        "plain",
        "qmpi 1 ranks 2 qubits 1 buffer 1 rank 0 recvbit 0 1 2 end rank 1 recvbit 0 0 4 recvbit 0 0 4 end",
        5,
        "refused unmatched-lane from 0 to 1 bit tag 4 sends 0 receives 2\n",
    ),
    (
        "plain",
        "qmpi 1 ranks 2 qubits 1 buffer 1 rank 0 alloc 0 copyto 0 1 1 sendbit 0 1 2 sendbit 0 1 5 end rank 1 end",
        5,
        "refused unmatched-lane from 0 to 1 bit tag 2 sends 1 receives 0\n",
    ),
    // The lowest rank's tape is named, and its own one first.
    (
        "plain",
        "qmpi 1 ranks 2 qubits 1 buffer 1 all alloc 0 measure 0 0 end",
        5,
        "refused tape-length rank 0 own needs 1 has 0\n",
    ),
    (
        "plain",
        "qmpi 1 ranks 2 qubits 1 buffer 1 all alloc 0 measure 0 0 end own 0 b0 own 1 b01",
        5,
        "refused tape-length rank 1 own needs 1 has 2\n",
    ),
    (
        "plain",
        "qmpi 1 ranks 2 qubits 1 buffer 1 rank 0 alloc 0 measure 0 0 copyto 0 1 7 end rank 1 copyfrom 0 0 7 end",
        5,
        "refused tape-length rank 0 own needs 1 has 0\n",
    ),
    (
        "plain",
        "qmpi 1 ranks 2 qubits 1 buffer 1 rank 0 alloc 0 copyto 0 1 7 end rank 1 copyfrom 0 0 7 end own 1 b1",
        5,
        "refused tape-length rank 0 protocol needs 1 has 0\n",
    ),
];

/// A text of one turn more than there may be.
const TURNS: [Row; 1] = [(
    "plain",
    "qmpi 1 ranks 1 qubits 1 buffer 1 rank 0 for i in 0..1000001 { } end",
    5,
    "refused too-many line 1\n",
)];

#[test]
fn a_text_is_refused_for_its_first_fault(rt: HostRuntime) -> Result<(), Fail> {
    try_rows(&rt, rt.alloc(), &REFUSALS)?;
    try_rows(&rt, rt.alloc(), &TURNS)
}
