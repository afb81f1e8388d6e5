ghost use Rattle.std.specs.Prelude.{◌≡◌, ◌<◌, ◌^◌, ◌==◌, ◌&&◌};

/// So many words from an address on that are watched: whether one of them was changed in a later step than that in which the
/// control word of a block was last written.
#[derive(Clone, Copy)]
pub struct Watch {
    /// The address of the block.
    pub(crate) block: u64,
    /// The address of the first word, and how many there are.
    pub(crate) first: u64,
    pub(crate) words: u64,
    /// A word was changed so.
    pub(crate) is_changed: bool,
    ghost few: { words < 2 ^ 32 },
}

impl Watch {
    ghost use Rattle.controller_model.specs.Watches.{may_touch};

    /// Whether these are the block and the words that are watched.
    pub(crate) fn is_of(&self, block: u64, first: u64, words: u64) -> bool
        ensures { result ≡ (((self.now.block == block) && (self.now.first == first)) && (self.now.words == words)) }
    {
        self.block == block && self.first == first && self.words == words
    }

    /// Whether a write of the word at an address may alter the answer.
    pub(crate) fn may_be_touched(&self, at: u64, is_changed: bool) -> bool
        ensures { result ≡ may_touch self.now.block self.now.first self.now.words at is_changed }
    {
        let is_control = at >= 12 && at - 12 == self.block;
        let is_watched = at >= self.first && (at - self.first) / 4 < self.words;
        is_control || is_changed && is_watched
    }
}
