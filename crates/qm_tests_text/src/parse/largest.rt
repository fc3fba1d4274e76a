//! Texts of the largest size.
use super::{fault_of, too_large, unended, unexpected};
use qm_limits::MOST_BYTES;
use std::alloc::Global;
use std::test::Fail;

/// The largest text that repeats a piece behind a front.
fn filled(alloc: Global, front: &str, piece: &str) -> Result<String, Fail> {
    let mut text = String::new(alloc);
    text.push_str(front)?;
    let room = MOST_BYTES.saturating_sub(front.len());
    for _ in 0..room.checked_div(piece.len()).unwrap_or(0) {
        text.push_str(piece)?;
    }
    Ok(text)
}

#[test]
fn the_largest_texts_have_a_tree_or_a_fault(rt: HostRuntime) -> Result<(), Fail> {
    for (front, piece, fault) in [
        ("", "\n", unended(1_048_577)),
        ("", "a", unexpected(1)),
        ("qmpi ", "9", too_large(1)),
        ("qmpi ", "0", unexpected(1)),
        ("", "#", unended(1)),
        ("", "(", unexpected(1)),
        (
            "qmpi 1 ranks 1 qubits 1 buffer 1 all alloc 1",
            "+1",
            unended(1),
        ),
        ("qmpi 1 ranks 1 qubits 1 buffer 1 all ", "x 0 ", unended(1)),
        (
            "qmpi 1 ranks 1 qubits 1 buffer 1 all ",
            "for i in 0..1{}",
            unended(1),
        ),
        (
            "qmpi 1 ranks 1 qubits 1 buffer 1 all end ",
            "own 0 b ",
            None,
        ),
        (
            "qmpi 1 ranks 1 qubits 1 buffer 1 all end own 0 b",
            "1",
            None,
        ),
    ] {
        let text = filled(rt.alloc(), front, piece)?;
        let found = fault_of(rt.alloc(), text.as_bytes())?;
        assert_eq!(rt; found, fault, "at {piece} behind {front}");
    }
    Ok(())
}
