//! Sizes, shares and sums that were worked out by hand, on both sides of each bound.
use qm_sizes::{Sums, SurdParts, is_positive};
use qm_zomega::Zw;

/// A number of small components.
fn number(a: i32, b: i32, c: i32, d: i32) -> Zw {
    Zw {
        a: i128::from(a),
        b: i128::from(b),
        c: i128::from(c),
        d: i128::from(d),
    }
}

/// The two parts of a sum.
fn parts(x: SurdParts) -> (i128, i128) {
    (x.whole, x.root)
}

/// Numbers by their components, and the two parts of their sizes, where they can be compared: the whole part is at most 2^37.
/// 370727 and 370728 are the whole numbers next to its root.
const SIZES: [((i32, i32, i32, i32), Option<(i128, i128)>); 11] = [
    ((0, 0, 0, 0), Some((0, 0))),
    ((0, 0, 0, 1), Some((1, 0))),
    ((1, 1, 0, 0), Some((2, 1))),
    ((1, -1, 0, 0), Some((2, -1))),
    ((1, 2, 3, 4), Some((30, 16))),
    ((1 << 18, 0, -1 << 18, 0), Some((1 << 37, 0))),
    ((1 << 18, 0, -1 << 18, 1), None),
    ((370727, 0, 0, 0), Some((137438508529, 0))),
    ((370728, 0, 0, 0), None),
    ((0, (1 << 19) - 1, 0, 0), None),
    ((0, 0, 1 << 19, 0), None),
];

/// The two parts of a number, and whether it is above 0: 3 is above 2 root2, and 7 is below 5 root2.
const SIGNS: [(i16, i16, bool); 11] = [
    (0, 0, false),
    (1, 0, true),
    (0, 1, true),
    (-1, 0, false),
    (0, -1, false),
    (1, 1, true),
    (-1, -1, false),
    (3, -2, true),
    (-3, 2, false),
    (7, -5, false),
    (-7, 5, true),
];

/// A number, another that is marked, the last word whose upper 24 bits are below the share of its size, and the next word.
/// A fair coin: the share is one half. After h, t and h it is (2 - root2) / 4, and after x besides (2 + root2) / 4; times 2^24 these
/// are 2456966.39 and 14320249.60.
const SHARES: [((i32, i32), (i32, i32), [u32; 2]); 3] = [
    ((1, 0), (1, 0), [2147483647, 2147483648]),
    ((1, 1), (1, -1), [628983551, 628983552]),
    ((1, -1), (1, 1), [3665983999, 3665984000]),
];

/// Whether the upper 24 bits of a word are below the share of the marked numbers.
fn is_word_below(sums: Sums, word: u32) -> bool {
    sums.is_below(word / 256)
}

#[test]
fn sizes_and_signs(rt: HostRuntime) {
    for ((a, b, c, d), size) in SIZES {
        let sums = Sums::none().add(number(a, b, c, d), false);
        assert!(rt; sums.map(|s| parts(s.all)) == size, "{a} {b} {c} {d}");
        assert!(rt; sums.is_none_or(|s| parts(s.marked) == (0, 0)));
    }
    for (whole, root, above) in SIGNS {
        let parts = SurdParts {
            whole: i128::from(whole),
            root: i128::from(root),
        };
        assert!(rt; is_positive(parts) == above, "{whole} {root}");
    }
}

#[test]
fn shares_and_words(rt: HostRuntime) {
    for ((a, b), (c, d), words) in SHARES {
        let others = Sums::none().add(number(a, b, 0, 0), false);
        let below = match others.and_then(|s| s.add(number(c, d, 0, 0), true)) {
            Some(sums) => words.map(|word| is_word_below(sums, word)),
            None => [false, false],
        };
        assert!(rt; below == [true, false], "{a} {b}");
    }
}
