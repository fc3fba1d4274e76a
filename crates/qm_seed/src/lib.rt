//! The words of a seed: the numbers by which turns are given and outcomes are made, drawn one after another.
#![tactic(auto)]

ghost use Rattle.std.specs.Prelude.{◌≡◌};
ghost use Rattle.qm_seed.specs.Seeds.{seed_words, words_after, words_of};

use rand_core::utils::NextWord;
use rand_pcg::Lcg64Xsh32;
use std::marker::Model;

/// The stream of the generator that gives the words.
const STREAM: u64 = 1;

/// The words of a seed that are still to be drawn. They have no end.
#[derive(Drop)]
pub struct SeedWords {
    generator: Lcg64Xsh32,
}

impl Model for SeedWords {
    ghost use Rattle.rand_pcg.specs.Lcg.{Lcg};

    ghost Value = { Lcg };

    ghost view = { λ s. s.generator };
}

impl SeedWords {
    /// All words of a seed: those that the generator `Lcg64Xsh32::new(seed, 1)` gives.
    pub fn start(seed: u64) -> SeedWords
        ensures { words_of result ≡ seed_words seed }
    {
        SeedWords {
            generator: Lcg64Xsh32::new(seed, STREAM),
        }
    }

    /// Draws the first word that is left.
    pub fn draw(&mut self) -> u32
        ensures word { result ≡ words_of self.old 0 }
        ensures left { words_of self.new ≡ words_after (words_of self.old) }
    {
        self.generator.next_word()
    }
}
