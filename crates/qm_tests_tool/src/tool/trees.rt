//! Broadcast along a tree, in whole commands.
use super::calls::{Row, expect, try_rows};
use super::texts::{
    BROADCAST_STATE, TREE, TREE_TURNED, TREE_TURNED_STATE, TREE_UNDONE, TREE_UNDONE_STATE,
};
use std::test::Fail;

/// What is printed of trees, and of texts in which their words may not stand.
const TREES: [Row; 11] = [
    ("plain", TREE, 0, BROADCAST_STATE),
    ("sched 3", TREE, 0, BROADCAST_STATE),
    ("plain", TREE_UNDONE, 0, TREE_UNDONE_STATE),
    ("sched 3", TREE_UNDONE, 0, TREE_UNDONE_STATE),
    ("plain", TREE_TURNED, 0, TREE_TURNED_STATE),
    (
        "check",
        TREE,
        0,
        "check 1\nranks 4\ncapacity 8\ninstructions 8\nevents 17\nown 0\nprotocol 3\nrendezvous yes\nend\n",
    ),
    (
        "check",
        TREE_UNDONE,
        0,
        "check 1\nranks 4\ncapacity 8\ninstructions 14\nevents 29\nown 0\nprotocol 6\nrendezvous yes\nend\n",
    ),
    (
        "plain",
        "qmpi 2 ranks 2 qubits 1 1 buffer 1 1 all\ntreecast 0 2 5 end",
        5,
        "refused out-of-range line 2\n",
    ),
    (
        "plain",
        "qmpi 2 ranks 1 qubits 2 buffer 1 all for\ntreecast in 0..2 { alloc treecast } end",
        5,
        "refused unexpected line 2\n",
    ),
    (
        "plain",
        "qmpi 1 ranks 1 qubits 2 buffer 1 all for treecast in 0..2 { alloc treecast } end",
        0,
        "state 1\nranks 1\nprotocol 0\nscale 0\nbits 0 00000000\nlive 0.0 0.1\n00 1 0 0 0\nend\n",
    ),
    (
        "plain",
        "qmpi 1 ranks 1 qubits 1 buffer 1 all\ntreecast 0 0 5 end",
        5,
        "refused unexpected line 2\n",
    ),
];

#[test]
fn trees_are_cast_and_undone(rt: HostRuntime) -> Result<(), Fail> {
    try_rows(&rt, rt.alloc(), &TREES)
}

#[test]
fn every_order_of_a_tree_leaves_the_one_circuits_state(rt: HostRuntime) -> Result<(), Fail> {
    for (text, due) in [
        (TREE, BROADCAST_STATE),
        (TREE_UNDONE, TREE_UNDONE_STATE),
        (TREE_TURNED, TREE_TURNED_STATE),
    ] {
        expect(&rt, rt.alloc(), "mono amps", text.as_bytes(), (0, due))?;
        for seed in 0..20 {
            let line = format!(in rt.alloc(); "sched {seed}")?;
            expect(&rt, rt.alloc(), line.as_str(), text.as_bytes(), (0, due))?;
        }
    }
    Ok(())
}
