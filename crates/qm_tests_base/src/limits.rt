//! The limits, each by its value.
use qm_limits::*;

#[test]
fn limits_are_as_stated(rt: HostRuntime) {
    for (limit, value) in [
        (MOST_BYTES, 1_048_576),
        (LARGEST_VALUE as usize, 2_147_483_647),
        (MOST_OPEN as usize, 32),
        (MOST_TURNS as usize, 1_000_000),
        (MOST_RANKS as usize, 16),
        (SLOTS as usize, 16),
        (MOST_HALVES as usize, 8),
        (MOST_CAPACITY as usize, 22),
        (MOST_CAPACITY_1 as usize, 20),
        (BITS as usize, 32),
        (PEERS as usize, 65_536),
        (TAGS as usize, 65_536),
        (MOST_INSTRUCTIONS as usize, 100_000),
        (MOST_EVENTS as usize, 500_000),
        (MOST_PROTOCOL as usize, 200_000),
        (MOST_OUTCOMES, 1_048_576),
    ] {
        assert_eq!(rt; limit, value);
    }
}
