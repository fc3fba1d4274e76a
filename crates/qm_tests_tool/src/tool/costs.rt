//! The cost of runs: how long they take, and the chain of events that makes it so.
use super::calls::{Row, try_rows};
use super::texts::{BOTH_WAIT, COPY_ONE, COPY_ZERO, EIGHT_EACH};
use std::test::Fail;

/// What a copy costs with delays of 1, 10 and 5.
pub(super) const COPY_COST: &str =
    "cost 1\nevents 7\ntime 21\nchain 7\n0 0 alloc 1\n1 0 gate 2\n2 0 pair 12\n3 0 cx 13\n\
        4 0 post 14\n5 1 deliver 20\n6 1 fix-x 21\nend\n";

/// Runs that end, runs that stop, and texts that are refused.
pub(super) const COSTS: [Row; 16] = [
    ("cost 1 1 10 5", COPY_ONE, 0, COPY_COST),
    // The events of a copy have one order.
    (
        "cost 00000000000000000007 0000001 0000010 0000005",
        COPY_ZERO,
        0,
        COPY_COST,
    ),
    (
        "cost 1 10 1 5",
        COPY_ONE,
        0,
        "cost 1\nevents 7\ntime 66\nchain 7\n0 0 alloc 10\n1 0 gate 20\n2 0 pair 21\n3 0 cx 31\n\
            4 0 post 41\n5 1 deliver 56\n6 1 fix-x 66\nend\n",
    ),
    // This takes as long as with the last two delays the other way round.
    (
        "cost 1 1 5 10",
        COPY_ONE,
        0,
        "cost 1\nevents 7\ntime 21\nchain 7\n0 0 alloc 1\n1 0 gate 2\n2 0 pair 7\n3 0 cx 8\n\
            4 0 post 9\n5 1 deliver 20\n6 1 fix-x 21\nend\n",
    ),
    (
        "cost 1 1000000 0 0",
        COPY_ONE,
        0,
        "cost 1\nevents 7\ntime 6000000\nchain 7\n0 0 alloc 1000000\n1 0 gate 2000000\n2 0 pair 2000000\n\
            3 0 cx 3000000\n4 0 post 4000000\n5 1 deliver 5000000\n6 1 fix-x 6000000\nend\n",
    ),
    // The last event adds nothing.
    (
        "cost 18446744073709551615 0 1000000 1000000",
        COPY_ONE,
        0,
        "cost 1\nevents 7\ntime 2000000\nchain 6\n0 0 alloc 0\n1 0 gate 0\n2 0 pair 1000000\n\
            3 0 cx 1000000\n4 0 post 1000000\n5 1 deliver 2000000\nend\n",
    ),
    (
        "cost 1 0 0 0",
        COPY_ONE,
        0,
        "cost 1\nevents 7\ntime 0\nchain 1\n0 0 alloc 0\nend\n",
    ),
    (
        "cost 1 1 1 1",
        "qmpi 1 ranks 1 qubits 1 buffer 1 rank 0 end",
        0,
        "cost 1\nevents 0\ntime 0\nchain 0\nend\n",
    ),
    // Neither rank waits for the other, and the seed chooses which is done first.
    (
        "cost 0 1 1 1",
        EIGHT_EACH,
        0,
        "cost 1\nevents 16\ntime 8\nchain 8\n0 1 set 1\n1 1 set 2\n3 1 set 3\n4 1 set 4\n5 1 set 5\n\
            8 1 set 6\n11 1 set 7\n12 1 set 8\nend\n",
    ),
    (
        "cost 7 1 1 1",
        EIGHT_EACH,
        0,
        "cost 1\nevents 16\ntime 8\nchain 8\n3 1 set 1\n4 1 set 2\n5 1 set 3\n6 1 set 4\n7 1 set 5\n\
            8 1 set 6\n10 1 set 7\n11 1 set 8\nend\n",
    ),
    (
        "cost 1 1 1 1",
        "qmpi 1 ranks 1 qubits 1 buffer 1 rank 0 alloc 0 x 0 free 0 end",
        6,
        "stopped rank 0 turns 2 not-zero\n",
    ),
    (
        "cost 9 1 10 5",
        BOTH_WAIT,
        6,
        "stopped rank 0 turns 0 stuck\n",
    ),
    ("cost 1 1 1 1", "", 5, "refused unended line 1\n"),
    ("cost 1 1 1 1", "qmpi 3", 5, "refused unexpected line 1\n"),
    (
        "cost 1 1 1 1",
        "qmpi 1 ranks 1 qubits 1 buffer 1 rank 0 h 0 end",
        5,
        "refused slot-empty rank 0 instruction 0\n",
    ),
    ("cost 1 1 1 1000001", COPY_ONE, 2, "usage\n"),
];

#[test]
fn a_run_tells_its_cost(rt: HostRuntime) -> Result<(), Fail> {
    try_rows(&rt, rt.alloc(), &COSTS)
}
