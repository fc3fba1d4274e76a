//! Buffers of the smallest and the largest size, filled half by half.
use qm_buffers::Halves;

#[test]
fn pairs_find_room_by_the_receivers_own_size(rt: HostRuntime) {
    // beside a buffer of the largest size
    for size in [1, 2, 8] {
        assert!(rt; 1 <= size && size <= 8);
        let mut halves = Halves::start(&[8, size]);
        for held in 0..size - 1 {
            assert!(rt; halves.may_pair(1, false) && halves.halves(1) == u32::from(held));
            halves.add(1);
        }
        // a wanted pair alone may take the last place
        assert!(rt; halves.may_pair(1, true) && !halves.may_pair(1, false));
        assert!(rt; halves.may_pair(0, false) && halves.halves(0) == 0);
        assert!(rt; halves.halves(1) == u32::from(size) - 1);
    }
}

#[test]
fn halves_come_and_go(rt: HostRuntime) {
    let mut halves = Halves::start(&[8, 8, 8, 8, 8, 8, 8, 8, 8, 8, 8, 8, 8, 8, 8, 2]);
    halves.add(15);
    halves.add(15);
    assert!(rt; halves.halves(15) == 2 && halves.halves(14) == 0);
    halves.drop_half(15);
    assert!(rt; halves.halves(15) == 1 && !halves.may_pair(15, false));
}
