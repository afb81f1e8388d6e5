//! A block as it stands after a write.
ghost use Rattle.std.specs.Prelude.{◌≡◌, ◌+◌, ◌≤◌, ◌^◌, ◌%◌, ℕ};
ghost use Rattle.guest_memory.specs.Memory.{put};
ghost use Rattle.trb.specs.Block.{block_at};

use guest_memory::{Addr, WordMemory};
use trb::Block;

/// The block at an address, after the write of a word.
pub fn block_after<M: WordMemory>(memory: &M, at: Addr, word: u32, base: u64) -> Block
    requires aligned { base % 16 ≡ 0 }
    requires ends { base + 16 ≤ 2 ^ 64 }
    ensures { result ≡ block_at (put (M.words memory.now) at word) base }
{
    let words = memory.block(Addr::new(base).unwrap());
    let a = word_after(at, word, base, words[0]);
    let b = word_after(at, word, base + 4, words[1]);
    let c = word_after(at, word, base + 8, words[2]);
    let d = word_after(at, word, base + 12, words[3]);
    Block { w: [a, b, c, d] }
}

/// The word at an address, which was an old one, after the write of a word.
fn word_after(at: Addr, word: u32, address: u64, old: u32) -> u32
    ensures { (memory : ℕ → ℕ) → old ≡ memory address → result ≡ put memory at word address }
{
    if address == at.get() { word } else { old }
}
