//! Sums at the end of the range of the numbers.
use qm_kernels::fits;
use qm_kernels::narrow::Narrow;
use qm_kernels::numbers::all_fit;
use qm_zomega::Zw;

/// The largest integer that a component can be.
const LARGEST: Zw = Zw {
    a: i128::MAX,
    b: 0,
    c: 0,
    d: 0,
};

#[test]
fn sums_fit_up_to_the_largest_number(rt: HostRuntime) {
    for (low, high, fit) in [
        ([Zw::ZERO, Zw::ZERO], [LARGEST, Zw::ONE], true),
        ([LARGEST, Zw::ONE], [Zw::ZERO, Zw::ZERO], true),
        ([Zw::ONE, Zw::ZERO], [LARGEST, Zw::ZERO], false),
        ([LARGEST, Zw::ZERO], [Zw::ONE, Zw::ZERO], false),
        ([Zw::ZERO, Zw::ONE], [LARGEST, LARGEST], false),
    ] {
        assert!(rt; fits(&low, &high) == fit);
    }
}

/// The largest integer that a narrow component can be.
const LARGEST_NARROW: Narrow = Narrow {
    a: (1 << 30) - 1,
    b: 0,
    c: 0,
    d: 0,
};

#[test]
fn narrow_sums_fit_up_to_the_largest_narrow_number(rt: HostRuntime) {
    for (low, high, fit) in [
        ([Narrow::ZERO; 2], [LARGEST_NARROW, Narrow::ONE], true),
        ([LARGEST_NARROW, Narrow::ONE], [Narrow::ZERO; 2], true),
        (
            [Narrow::ONE, Narrow::ZERO],
            [LARGEST_NARROW, Narrow::ZERO],
            false,
        ),
        (
            [LARGEST_NARROW, Narrow::ZERO],
            [Narrow::ONE, Narrow::ZERO],
            false,
        ),
        ([Narrow::ZERO, Narrow::ONE], [LARGEST_NARROW; 2], false),
    ] {
        assert!(rt; all_fit(&low, &high) == fit);
    }
}
