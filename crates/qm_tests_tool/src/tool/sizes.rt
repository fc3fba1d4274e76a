//! Texts of version 2, in which each rank has its own number of slots and its own buffer.
use super::calls::{Row, try_rows};
use std::test::Fail;

/// What each rank has, and what all have together, decides; the limits are those of the version.
const SIZES: [Row; 16] = [
    (
        "plain",
        "qmpi 2 ranks 2 qubits 2 2 buffer 1 2 rank 0 alloc 0 copyto 0 1 1 copyfrom 1 1 1 end rank 1 alloc 0 copyto 0 0 1 copyfrom 1 0 1 end protocol 0 b0 protocol 1 b1",
        0,
        "state 1\nranks 2\nprotocol 2\nscale 2\nbits 0 00000000\nbits 1 00000000\nlive 0.0 0.1 1.0 1.1\n0000 1 0 0 0\nend\n",
    ),
    (
        "plain",
        "qmpi 2 ranks 2 qubits 2 2 buffer 1 1 rank 0 alloc 0 copyto 0 1 1 copyfrom 1 1 1 end rank 1 alloc 0 copyto 0 0 1 copyfrom 1 0 1 end protocol 0 b0 protocol 1 b1",
        6,
        "stopped rank 0 turns 2 stuck\n",
    ),
    (
        "plain",
        "qmpi 2 ranks 2 qubits 1 1 buffer 1 2 rank 0 alloc 0 copyto 0 1 1 sendbit 0 1 2 end rank 1 recvbit 0 0 2 copyfrom 0 0 1 end protocol 0 b0",
        0,
        "state 1\nranks 2\nprotocol 1\nscale 1\nbits 0 00000000\nbits 1 00000000\nlive 0.0 1.0\n00 1 0 0 0\nend\n",
    ),
    (
        "plain",
        "qmpi 2 ranks 2 qubits 1 1 buffer 2 1 rank 0 alloc 0 copyto 0 1 1 sendbit 0 1 2 end rank 1 recvbit 0 0 2 copyfrom 0 0 1 end protocol 0 b0",
        6,
        "stopped rank 0 turns 1 stuck\n",
    ),
    (
        "plain",
        "qmpi 2 ranks 2 qubits 16 4 buffer 1 1 all end",
        0,
        "state 1\nranks 2\nprotocol 0\nscale 0\nbits 0 00000000\nbits 1 00000000\nlive\n- 1 0 0 0\nend\n",
    ),
    (
        "plain",
        "qmpi 2 ranks 2 qubits 16 5 buffer 1 1 all end",
        5,
        "refused too-wide capacity 23\n",
    ),
    (
        "plain",
        "qmpi 1 ranks 2 qubits 9 buffer 2 all end",
        5,
        "refused too-wide capacity 22\n",
    ),
    (
        "check",
        "qmpi 2 ranks 11 qubits 1 1 1 1 1 1 1 1 1 1 1 buffer 1 1 1 1 1 1 1 1 1 1 1 all end",
        0,
        "check 1\nranks 11\ncapacity 22\ninstructions 0\nevents 0\nown 0\nprotocol 0\nrendezvous yes\nend\n",
    ),
    (
        "check",
        "qmpi 2 ranks 12 qubits 1 1 1 1 1 1 1 1 1 1 1 1 buffer 1 1 1 1 1 1 1 1 1 1 1 1 all end",
        5,
        "refused too-wide capacity 24\n",
    ),
    (
        "mono amps",
        "qmpi 1 ranks 2 qubits 1 buffer 1 rank 0 alloc 0 for i in 0..20 { copyto 0 1 1 } end rank 1 for i in 0..20 { copyfrom 0 0 1 free 0 } end protocol 0 b00000000000000000000",
        10,
        "wide 21\n",
    ),
    (
        "mono amps",
        "qmpi 2 ranks 2 qubits 1 1 buffer 1 1 rank 0 alloc 0 for i in 0..20 { copyto 0 1 1 } end rank 1 for i in 0..20 { copyfrom 0 0 1 free 0 } end protocol 0 b00000000000000000000",
        0,
        "state 1\nranks 2\nprotocol 20\nscale 20\nbits 0 00000000\nbits 1 00000000\nlive 0.0\n0 1 0 0 0\nend\n",
    ),
    (
        "mono amps",
        "qmpi 2 ranks 2 qubits 1 1 buffer 1 1 rank 0 alloc 0 for i in 0..22 { copyto 0 1 1 } end rank 1 for i in 0..22 { copyfrom 0 0 1 free 0 } end protocol 0 b0000000000000000000000",
        10,
        "wide 23\n",
    ),
    (
        "plain",
        "qmpi 2 ranks 2 qubits 1 2 buffer 1 1 all\nalloc 1 end",
        5,
        "refused out-of-range line 2\n",
    ),
    (
        "plain",
        "qmpi 2 ranks 2 qubits 1 2 buffer 1 1 rank 0 end rank 1 alloc 1 end",
        0,
        "state 1\nranks 2\nprotocol 0\nscale 0\nbits 0 00000000\nbits 1 00000000\nlive 1.1\n0 1 0 0 0\nend\n",
    ),
    (
        "plain",
        "qmpi 2 ranks 2 qubits 2 2 buffer 1 1 all alloc 0 alloc 1\nunreduce 0 1 0 5 end",
        5,
        "refused unexpected line 2\n",
    ),
    (
        "check",
        "qmpi 2 ranks 2 qubits 1 1 buffer 1\nall end",
        5,
        "refused unexpected line 2\n",
    ),
];

#[test]
fn sizes_by_rank_decide(rt: HostRuntime) -> Result<(), Fail> {
    try_rows(&rt, rt.alloc(), &SIZES)
}
