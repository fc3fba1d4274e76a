//! Sizes of the ranks, and their tapes.
use super::{fault, programs};
use qm_expand::ReadError;
use std::test::Fail;

#[test]
fn sizes_and_tapes_are_read(rt: HostRuntime) -> Result<(), Fail> {
    let text =
        b"qmpi 01 ranks 2 qubits 9 buffer 7 # $ \xff\xfe\x80 end\nall end own 1 b01 protocol 1 b own 0 b1 own 1 b1 protocol 1 b00";
    let input = programs(&rt, text)?;
    assert_eq!(rt; (input.version(), input.ranks()), (1, 2));
    for rank in 0..input.ranks() {
        let sizes = (input.qubits(rank), input.buffer(rank), input.count(rank));
        assert_eq!(rt; sizes, (9, 7, 0));
    }
    assert!(rt; input.ranks() > 1);
    assert_eq!(rt; input.own(0), [true].as_slice());
    assert_eq!(rt; input.own(1), [false, true, true].as_slice());
    assert_eq!(rt; input.protocol(0).len(), 0);
    assert_eq!(rt; input.protocol(1), [false, false].as_slice());
    Ok(())
}

#[test]
fn sizes_of_version_2_are_read_by_rank(rt: HostRuntime) -> Result<(), Fail> {
    let text = b"qmpi 2 ranks 3 qubits 9 1 16 buffer 7 8 1 all alloc size - 3 end";
    let input = programs(&rt, text)?;
    assert_eq!(rt; (input.version(), input.ranks()), (2, 3));
    let mut rank = 0;
    for sizes in [(9, 7), (1, 8), (16, 1)] {
        assert!(rt; rank < input.ranks());
        assert_eq!(rt; (input.qubits(rank), input.buffer(rank)), sizes);
        assert_eq!(rt; input.count(rank), 1);
        rank += 1;
    }
    Ok(())
}

#[test]
fn slots_of_version_2_range_by_rank(rt: HostRuntime) -> Result<(), Fail> {
    let at = |line| Some(ReadError::OutOfRange { line });
    for (body, wanted) in [
        ("rank 0\nend rank 1\nalloc 3 end rank 2\nend", None),
        ("rank 0\nalloc 3 end rank 1\nend rank 2\nend", at(2)),
        ("rank 0\nend rank 1\nalloc 4 end rank 2\nend", at(3)),
        ("rank 0\nend rank 1\nend rank 2\nalloc 3 end", at(4)),
        ("all\nalloc 2 end", at(2)),
        ("all\nalloc rank end", at(2)),
        ("all\nscatter 0 1 5 end", None),
        ("all\nscatter 0 0 5 end", at(2)),
        ("all\nscatter 0 2 5 end", at(2)),
        (
            "rank 0\nscatter 0 1 5 end rank 1\nscatter 1 1 5 end rank 2\nscatter 0 1 5 end",
            None,
        ),
        (
            "rank 0\nscatter 0 1 5 end rank 1\nscatter 2 1 5 end rank 2\nscatter 0 1 5 end",
            at(3),
        ),
    ] {
        let text = format!(in rt.alloc(); "qmpi 2 ranks 3 qubits 2 4 1 buffer 1 1 1 {body}")?;
        assert_eq!(rt; fault(&rt, text.as_bytes())?, wanted, "at {body}");
    }
    Ok(())
}
