//! Steps on each block of a list. A block of a place has two halves, which differ in that place alone.
ghost use Rattle.std.specs.Prelude.{◌≡◌, ◌≢◌, ℕ, ◌+◌, ◌*◌, ◌<◌, ◌≤◌, ◌^◌, List, [], ◌++◌, length};
ghost use Rattle.qm_denot.specs.Places.{HasPlace};

/// What is done to each block of a list.
pub trait Step<Z> {
    /// How many entries a half of a block has.
    ghost half: { Self → ℕ };

    /// What has to hold of a list of blocks.
    ghost may: { Self → List Z → Type 0 };

    /// What is done to a list of blocks.
    ghost done: { Self → List Z → List Z → Type 0 };

    /// Does the step on the two halves of one block.
    fn step(&self, low: &mut [Z], high: &mut [Z])
        requires low_half { length low.old ≡ half self.now }
        requires high_half { length high.old ≡ half self.now }
        requires may { may self.now (low.old ++ high.old) }
        ensures low_half { length low.new ≡ length low.old }
        ensures high_half { length high.new ≡ length high.old }
        ensures done { done self.now (low.old ++ high.old) (low.new ++ high.new) };

    /// Nothing is done to no block.
    ghost none: { (s : Self) → done s [] [] };

    /// What is done to two lists of blocks is done to both.
    ghost joined: { (s : Self) (m : ℕ) (xs ys us vs : List Z)
        → length xs ≡ m * (2 * half s) → length us ≡ length xs
        → done s xs us → done s ys vs → done s (xs ++ ys) (us ++ vs) };

    /// What may be done to a list may be done to its parts.
    ghost parts: { (s : Self) (m : ℕ) (xs ys : List Z)
        → length xs ≡ m * (2 * half s) → may s (xs ++ ys) → may s xs × may s ys };
}

/// Does the step on each block of a list.
pub fn on_blocks<Z, S: Step<Z>>(step: &S, list: &mut [Z], half: usize)
    requires half { half ≡ S.half step.now }
    requires some { half ≢ 0 }
    requires blocks { (m : ℕ) × (length list.old ≡ m * (2 * half)) }
    requires may { S.may step.now list.old }
    ensures size { length list.new ≡ length list.old }
    ensures done { S.done step.now list.old list.new }
{
    let mut start = 0;
    while start < list.len() {
        let (_, rest) = list.split_at_mut(start);
        let (low, rest) = rest.split_at_mut(half);
        let (high, _) = rest.split_at_mut(half);
        step.step(low, high);
        start += 2 * half;
    }
}

/// How many entries half a block of a place has: `2^place`.
#[inline]
pub(crate) fn half_block(size: usize, place: u32) -> usize
    requires { HasPlace size place }
    ensures value { result ≡ 2 ^ place }
    ensures some { result ≢ 0 }
    ensures whole { (m : ℕ) × (size ≡ m * (2 * result)) }
{
    1 << place
}
