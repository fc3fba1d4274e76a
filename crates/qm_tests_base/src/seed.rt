//! Words that the generator's published algorithm gives.
use qm_seed::SeedWords;

#[test]
fn seeds_give_their_words(rt: HostRuntime) {
    for (seed, words) in [
        (0, [257813417, 407017181, 896943092, 4175973425, 2864827017]),
        (
            7,
            [2215483850, 315054046, 1954657312, 4195553631, 1808639637],
        ),
        (
            u64::MAX,
            [3795398737, 3572406950, 1916827069, 3687248187, 3217546645],
        ),
    ] {
        let mut left = SeedWords::start(seed);
        for word in words {
            assert_eq!(rt; left.draw(), word, "seed {seed}");
        }
    }
}
