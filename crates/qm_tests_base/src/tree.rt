//! The tree of the ranks, worked out from how far each rank is behind the root.
use qm_instr::Instr;
use qm_limits::MOST_RANKS;
use qm_tree::{TreeCall, TreeOp, count, depth, instr_at};
use std::process::Abort;

/// In the place of a rank that isn't there.
const NONE: u16 = 16;

/// A rank has just these instructions: those for its parent and for its two children, of which each may be missing.
fn does(rt: &impl Abort, call: TreeCall, rank: u16, ranks: u16, near: [u16; 3]) {
    assert!(rt; rank < ranks && ranks <= MOST_RANKS && call.root < ranks);
    let TreeCall { q, tag, .. } = call;
    let [parent, low, high] = near;
    let messages = match call.op {
        TreeOp::Cast => [
            (
                parent,
                Instr::CopyFrom {
                    q,
                    from: parent,
                    tag,
                },
            ),
            (low, Instr::CopyTo { q, to: low, tag }),
            (high, Instr::CopyTo { q, to: high, tag }),
        ],
        TreeOp::Uncast => [
            (low, Instr::UndoFrom { q, from: low, tag }),
            (high, Instr::UndoFrom { q, from: high, tag }),
            (parent, Instr::UndoTo { q, to: parent, tag }),
        ],
    };
    let mut long = 0;
    for (other, wanted) in messages {
        if other != NONE {
            assert!(rt;
                instr_at(call, rank, ranks, long) == Some(wanted),
                "rank {rank} of {ranks}"
            );
            assert!(rt; long < 3);
            long += 1;
        }
    }
    assert!(rt; count(call, rank, ranks) == long, "rank {rank} of {ranks}");
    for past in [long, 4_294_967_295] {
        assert!(rt;
            instr_at(call, rank, ranks, past).is_none(),
            "rank {rank} of {ranks}"
        );
    }
}

/// A root, and for each rank its parent and its children, the lower place first.
type Tree = (u16, &'static [[u16; 3]]);

/// Up to seven ranks, with the first, the second and the last rank as the root.
const SMALL: [Tree; 12] = [
    (0, &[[NONE, NONE, NONE]]),
    (0, &[[NONE, 1, NONE], [0, NONE, NONE]]),
    (1, &[[1, NONE, NONE], [NONE, 0, NONE]]),
    (0, &[[NONE, 1, 2], [0, NONE, NONE], [0, NONE, NONE]]),
    (1, &[[1, NONE, NONE], [NONE, 2, 0], [1, NONE, NONE]]),
    (2, &[[2, NONE, NONE], [2, NONE, NONE], [NONE, 0, 1]]),
    (
        0,
        &[
            [NONE, 1, 2],
            [0, 3, 4],
            [0, NONE, NONE],
            [1, NONE, NONE],
            [1, NONE, NONE],
        ],
    ),
    (
        1,
        &[
            [2, NONE, NONE],
            [NONE, 2, 3],
            [1, 4, 0],
            [1, NONE, NONE],
            [2, NONE, NONE],
        ],
    ),
    (
        4,
        &[
            [4, 2, 3],
            [4, NONE, NONE],
            [0, NONE, NONE],
            [0, NONE, NONE],
            [NONE, 0, 1],
        ],
    ),
    (
        0,
        &[
            [NONE, 1, 2],
            [0, 3, 4],
            [0, 5, 6],
            [1, NONE, NONE],
            [1, NONE, NONE],
            [2, NONE, NONE],
            [2, NONE, NONE],
        ],
    ),
    (
        1,
        &[
            [3, NONE, NONE],
            [NONE, 2, 3],
            [1, 4, 5],
            [1, 6, 0],
            [2, NONE, NONE],
            [2, NONE, NONE],
            [3, NONE, NONE],
        ],
    ),
    (
        6,
        &[
            [6, 2, 3],
            [6, 4, 5],
            [0, NONE, NONE],
            [0, NONE, NONE],
            [1, NONE, NONE],
            [1, NONE, NONE],
            [NONE, 0, 1],
        ],
    ),
];

/// Sixteen ranks, with the first, the second and the last rank as the root.
const LARGE: [Tree; 3] = [
    (
        0,
        &[
            [NONE, 1, 2],
            [0, 3, 4],
            [0, 5, 6],
            [1, 7, 8],
            [1, 9, 10],
            [2, 11, 12],
            [2, 13, 14],
            [3, 15, NONE],
            [3, NONE, NONE],
            [4, NONE, NONE],
            [4, NONE, NONE],
            [5, NONE, NONE],
            [5, NONE, NONE],
            [6, NONE, NONE],
            [6, NONE, NONE],
            [7, NONE, NONE],
        ],
    ),
    (
        1,
        &[
            [8, NONE, NONE],
            [NONE, 2, 3],
            [1, 4, 5],
            [1, 6, 7],
            [2, 8, 9],
            [2, 10, 11],
            [3, 12, 13],
            [3, 14, 15],
            [4, 0, NONE],
            [4, NONE, NONE],
            [5, NONE, NONE],
            [5, NONE, NONE],
            [6, NONE, NONE],
            [6, NONE, NONE],
            [7, NONE, NONE],
            [7, NONE, NONE],
        ],
    ),
    (
        15,
        &[
            [15, 2, 3],
            [15, 4, 5],
            [0, 6, 7],
            [0, 8, 9],
            [1, 10, 11],
            [1, 12, 13],
            [2, 14, NONE],
            [2, NONE, NONE],
            [3, NONE, NONE],
            [3, NONE, NONE],
            [4, NONE, NONE],
            [4, NONE, NONE],
            [5, NONE, NONE],
            [5, NONE, NONE],
            [6, NONE, NONE],
            [NONE, 0, 1],
        ],
    ),
];

/// Each rank of a tree does its part of both calls.
fn all_do(rt: &impl Abort, tree: Tree) {
    let (root, near) = tree;
    assert!(rt; near.len() <= 16);
    let ranks = near.len() as u16;
    for (rank, row) in near.iter().enumerate() {
        for op in [TreeOp::Cast, TreeOp::Uncast] {
            let call = TreeCall {
                op,
                q: 15,
                root,
                tag: 65_535,
            };
            does(rt, call, rank as u16, ranks, *row);
        }
    }
}

#[test]
fn each_of_few_ranks_does_its_part(rt: HostRuntime) {
    for tree in SMALL {
        all_do(&rt, tree);
    }
}

#[test]
fn each_of_sixteen_ranks_does_its_part(rt: HostRuntime) {
    for tree in LARGE {
        all_do(&rt, tree);
    }
}

#[test]
fn ranks_are_as_deep_as_their_places(rt: HostRuntime) {
    let wanted = [0, 1, 1, 2, 2, 2, 2, 3, 3, 3, 3, 3, 3, 3, 3, 4];
    for (v, deep) in wanted.iter().enumerate() {
        assert!(rt; v < 16);
        let v = v as u16;
        // behind the roots 0, 1 and 15
        for (root, rank) in [(0, v), (1, (v + 1) % 16), (15, (v + 15) % 16)] {
            assert!(rt; root < 16 && rank < 16);
            assert!(rt; depth(rank, root, 16) == *deep, "place {v} from {root}");
        }
    }
    assert!(rt; depth(0, 0, 1) == 0);
    assert!(rt; depth(1, 2, 3) == 1);
}
