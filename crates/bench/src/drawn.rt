//! What is drawn by a seed.
ghost use Rattle.std.specs.Prelude.{◌<◌};

use rand_core::utils::NextWord;
use rand_pcg::Pcg32;

/// The stream of the generator: any number, the same for each seed.
const STREAM: u64 = 0x7868_6369;

/// Draws numbers, the same for a seed in each run.
#[derive(Drop)]
pub(crate) struct Dice {
    words: Pcg32,
}

impl Dice {
    pub(crate) fn new(seed: u64) -> Dice {
        Dice {
            words: Pcg32::new(seed, STREAM),
        }
    }

    /// A number from 0 up to one less than the count; 0 of a count 0.
    pub(crate) fn below(&mut self, count: u32) -> u32
        ensures { 0 < count → result < count }
    {
        self.words.next_word() % count.max(1)
    }

    /// Any word.
    pub(crate) fn word(&mut self) -> u32 {
        self.words.next_word()
    }

    /// Whether something comes that comes so often in a hundred times.
    pub(crate) fn chance(&mut self, percent: u8) -> bool {
        self.below(100) < u32::from(percent)
    }

    /// One of these; 0 where there are none.
    pub(crate) fn one_of(&mut self, choices: &[u8]) -> u8 {
        let count = u32::try_from(choices.len()).unwrap_or(u32::MAX);
        choices
            .get(self.below(count) as usize)
            .copied()
            .unwrap_or(0)
    }
}
