//! Numbers of bits.
use qm_instr::bits::{BITS, number_of_bits};

#[test]
fn the_lowest_bit_stands_first(rt: HostRuntime) {
    let none = [false; BITS];
    let mut ends = none;
    ends[0] = true;
    ends[31] = true;
    let mut fourth = none;
    fourth[4] = true;
    for (bits, number) in [
        (none, 0),
        ([true; BITS], u32::MAX),
        (ends, 0x8000_0001),
        (fourth, 0x10),
    ] {
        assert_eq!(rt; number_of_bits(&bits), number);
    }
}
