//! Tapes that are read to their ends.
use qm_limits::MOST_OUTCOMES;
use qm_tape::Tape;
use std::alloc::{AllocError, Global};
use std::test::Fail;

/// As many bits as there are asked for, of which each third is true.
fn thirds(alloc: Global, count: usize) -> Result<Vec<bool>, AllocError> {
    let mut bits = Vec::new(alloc);
    for k in 0..count {
        bits.push(k % 3 == 0)?;
    }
    Ok(bits)
}

#[test]
fn bits_come_in_their_order_to_the_end(rt: HostRuntime) -> Result<(), Fail> {
    for count in [0, 1, 4, MOST_OUTCOMES] {
        let bits = thirds(rt.alloc(), count)?;
        assert!(rt; bits.len() == count && count <= MOST_OUTCOMES);
        let mut tape = Tape::start(rt.alloc(), &bits)?;
        for k in 0..count {
            let first = tape.first();
            assert!(rt; tape.left() as usize == count - k && first.is_some());
            assert_eq!(rt; (first, tape.next()), (Some(k % 3 == 0), k % 3 == 0));
        }
        assert!(rt; tape.left() == 0 && tape.first().is_none());
    }
    Ok(())
}
