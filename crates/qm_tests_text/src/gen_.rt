//! Texts that were written down by hand, with tapes from the generator's published algorithm.
use qm_gen::*;
use std::alloc::Global;
use std::process::Abort;
use std::test::Fail;

/// The made program, for a size that its kind has.
fn made(
    rt: &impl Abort,
    alloc: Global,
    kind: GenKind,
    size: u32,
    number: u64,
) -> Result<Vec<u8>, Fail> {
    assert!(rt; kind.has_size(size), "a size of the kind");
    Ok(make(alloc, kind, size, number)?)
}

#[test]
fn a_ring_of_one_round_is_made(rt: HostRuntime) -> Result<(), Fail> {
    let text = made(&rt, rt.alloc(), GenKind::Ring, 1, 7)?;
    let wanted = b"qmpi 1\nranks 4\nqubits 1\nbuffer 1\n\
            rank 0\nalloc 0\nh 0\nt 0\nfor i in 0..1 {\nmoveto 0 1 1\nmovefrom 0 3 1\n}\nend\n\
            rank 1\nfor i in 0..1 {\nmovefrom 0 0 1\nmoveto 0 2 1\n}\nend\n\
            rank 2\nfor i in 0..1 {\nmovefrom 0 1 1\nmoveto 0 3 1\n}\nend\n\
            rank 3\nfor i in 0..1 {\nmovefrom 0 2 1\nmoveto 0 0 1\n}\nend\nprotocol 0 b00\n\
            protocol 1 b01\nprotocol 2 b11\nprotocol 3 b11\n";
    assert_eq!(rt; text.as_slice(), wanted.as_slice());
    Ok(())
}

#[test]
fn a_ghz_state_of_two_ranks_is_made(rt: HostRuntime) -> Result<(), Fail> {
    let text = made(&rt, rt.alloc(), GenKind::Ghz, 2, 1)?;
    let wanted =
        b"qmpi 1\nranks 2\nqubits 1\nbuffer 1\nrank 0\nalloc 0\nh 0\ncopyto 0 1 1\nend\nrank 1\ncopyfrom 0 0 1\nend\nprotocol 0 b1\n";
    assert_eq!(rt; text.as_slice(), wanted.as_slice());
    Ok(())
}

#[test]
fn a_ghz_state_of_five_ranks_is_made(rt: HostRuntime) -> Result<(), Fail> {
    let text = made(&rt, rt.alloc(), GenKind::Ghz, 5, 2026)?;
    let wanted =
        b"qmpi 1\nranks 5\nqubits 1\nbuffer 1\nrank 0\nalloc 0\nh 0\ncopyto 0 1 1\ncopyto 0 2 1\nend\n\
            rank 1\ncopyfrom 0 0 1\ncopyto 0 3 1\ncopyto 0 4 1\nend\nrank 2\ncopyfrom 0 0 1\nend\n\
            rank 3\ncopyfrom 0 1 1\nend\nrank 4\ncopyfrom 0 1 1\nend\nprotocol 0 b10\nprotocol 1 b10\n";
    assert_eq!(rt; text.as_slice(), wanted.as_slice());
    Ok(())
}

#[test]
fn a_parity_of_one_round_is_made(rt: HostRuntime) -> Result<(), Fail> {
    let text = made(&rt, rt.alloc(), GenKind::Parity, 1, 3)?;
    let wanted = b"qmpi 1\nranks 4\nqubits 1\nbuffer 1\n\
            rank 0\nalloc 0\nfor i in 0..1 {\nreachfrom 0 1 1\nreachfrom 0 2 1\nreachfrom 0 3 1\n\
            measure 0 0\nwhen 0 x 0\n}\nend\n\
            rank 1\nalloc 0\nfor i in 0..1 {\nh 0\nreachto 0 0 1\n}\nend\n\
            rank 2\nalloc 0\nfor i in 0..1 {\nh 0\nreachto 0 0 1\n}\nend\n\
            rank 3\nalloc 0\nfor i in 0..1 {\nh 0\nreachto 0 0 1\n}\nend\nown 0 b1\nprotocol 0 b110\n\
            protocol 1 b1\nprotocol 2 b1\nprotocol 3 b0\n";
    assert_eq!(rt; text.as_slice(), wanted.as_slice());
    Ok(())
}

#[test]
fn a_parity_of_two_rounds_is_made(rt: HostRuntime) -> Result<(), Fail> {
    let text = made(&rt, rt.alloc(), GenKind::Parity, 2, 18446744073709551615)?;
    let wanted = b"qmpi 1\nranks 4\nqubits 1\nbuffer 1\n\
            rank 0\nalloc 0\nfor i in 0..2 {\nreachfrom 0 1 1\nreachfrom 0 2 1\nreachfrom 0 3 1\n\
            measure 0 0\nwhen 0 x 0\n}\nend\n\
            rank 1\nalloc 0\nfor i in 0..2 {\nh 0\nreachto 0 0 1\n}\nend\n\
            rank 2\nalloc 0\nfor i in 0..2 {\nh 0\nreachto 0 0 1\n}\nend\n\
            rank 3\nalloc 0\nfor i in 0..2 {\nh 0\nreachto 0 0 1\n}\nend\nown 0 b10\n\
            protocol 0 b111111\nprotocol 1 b10\nprotocol 2 b00\nprotocol 3 b11\n";
    assert_eq!(rt; text.as_slice(), wanted.as_slice());
    Ok(())
}

#[test]
fn the_largest_sizes_are_made(rt: HostRuntime) -> Result<(), Fail> {
    let ring = made(&rt, rt.alloc(), GenKind::Ring, MOST_RING, 9)?;
    assert_eq!(rt; ring.len(), 80_345);
    assert!(rt; ring.ends_with(b"00011111100\n"));
    let ghz = made(&rt, rt.alloc(), GenKind::Ghz, MOST_GHZ, 9)?;
    assert_eq!(rt; ghz.len(), 482);
    assert!(rt; ghz.ends_with(b"protocol 4 b0\n"));
    let parity = made(&rt, rt.alloc(), GenKind::Parity, MOST_PARITY, 9)?;
    assert_eq!(rt; parity.len(), 63_378);
    assert!(rt; parity.ends_with(b"01101111010\n"));
    Ok(())
}

#[test]
fn each_kind_has_the_sizes_from_its_least_to_its_most(rt: HostRuntime) {
    let rows = [
        (GenKind::Ring, 1, 10_000),
        (GenKind::Ghz, 2, 10),
        (GenKind::Parity, 1, 9_000),
    ];
    for (kind, least, most) in rows {
        assert!(rt; kind.has_size(least) && kind.has_size(most));
        assert!(rt; !kind.has_size(least - 1) && !kind.has_size(most + 1));
    }
}
