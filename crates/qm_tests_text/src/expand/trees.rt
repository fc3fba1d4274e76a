//! Calls along a tree, each with the programs of its ranks spelled out.
use super::{fault, one_rank, program, programs};
use qm_expand::ReadError;
use std::test::Fail;

#[test]
fn trees_are_expanded(rt: HostRuntime) -> Result<(), Fail> {
    for (body, wanted) in [
        (
            "treecast 4 3 7",
            [
                "copyfrom 4 3 7",
                "copyfrom 4 4 7",
                "copyfrom 4 4 7",
                "copyto 4 4 7 copyto 4 0 7",
                "copyfrom 4 3 7 copyto 4 1 7 copyto 4 2 7",
            ],
        ),
        (
            "untreecast 4 3 7",
            [
                "undoto 4 3 7",
                "undoto 4 4 7",
                "undoto 4 4 7",
                "undofrom 4 4 7 undofrom 4 0 7",
                "undofrom 4 1 7 undofrom 4 2 7 undoto 4 3 7",
            ],
        ),
        (
            "treecast 4 size - 5 65535",
            [
                "copyto 4 1 65535 copyto 4 2 65535",
                "copyfrom 4 0 65535 copyto 4 3 65535 copyto 4 4 65535",
                "copyfrom 4 0 65535",
                "copyfrom 4 1 65535",
                "copyfrom 4 1 65535",
            ],
        ),
    ] {
        let text = format!(in rt.alloc();
            "qmpi 2 ranks 5 qubits 5 6 7 8 9 buffer 1 1 1 1 1 all {body} end"
        )?;
        let input = programs(&rt, text.as_bytes())?;
        for rank in 0..5 {
            let found = program(&rt, &input, rank)?;
            assert!(rt; !found.is_empty(), "at {body}");
            let spelled = one_rank(&rt, wanted[rank as usize])?;
            let spelled = programs(&rt, spelled.as_bytes())?;
            assert_eq!(rt; found, program(&rt, &spelled, 0)?, "at {body}");
        }
    }
    Ok(())
}

#[test]
fn operands_of_trees_are_in_their_ranges(rt: HostRuntime) -> Result<(), Fail> {
    let at = |line| Some(ReadError::OutOfRange { line });
    for (body, wanted) in [
        ("treecast 0 2 5", None),
        ("treecast 0 3 5", at(2)),
        ("\nuntreecast 0\n3 5", at(3)),
        // the last rank has one slot
        ("untreecast 1 0 5", at(2)),
        ("treecast 0 0 65536", at(2)),
        // the first fault decides
        ("treecast 0 3 j", at(2)),
        ("treecast 0 2 j", Some(ReadError::UnknownName { line: 2 })),
    ] {
        let text = format!(in rt.alloc();
            "qmpi 2 ranks 3 qubits 2 4 1 buffer 1 1 1 all\n{body} end"
        )?;
        assert_eq!(rt; fault(&rt, text.as_bytes())?, wanted, "at {body}");
    }
    Ok(())
}
