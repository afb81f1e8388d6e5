ghost use Rattle.std.specs.Prelude.{◌≡◌, ◌+◌, ◌%◌, ℕ, [], ◌∷◌, OnOk, OnErr};
ghost use Rattle.guest_memory.specs.Memory.{put};

use crate::addr::Addr;
use std::alloc::AllocError;

/// Memory of 32-bit words.
pub trait WordMemory {
    /// The word at each address.
    ghost words: { Self → ℕ → ℕ };

    /// The word at an address; 0 where none was written.
    fn word(&self, at: Addr) -> u32
        ensures same { result ≡ words self.now at };

    /// The four words of a block at an address.
    fn block(&self, base: Addr) -> [u32; 4]
        requires aligned { base % 16 ≡ 0 }
        ensures block { result ≡ words self.now base ∷ words self.now (base + 4) ∷ words self.now (base + 8) ∷ words self.now (base + 12) ∷ [] }
    {
        let first = self.word(base);
        let second = self.word(base.next(4));
        let third = self.word(base.next(8));
        let fourth = self.word(base.next(12));
        [first, second, third, fourth]
    }

    /// Writes a word. Want of memory changes nothing.
    fn set(&mut self, at: Addr, value: u32) -> Result<(), AllocError>
        ensures ok { OnOk result ((a : ℕ) → words self.new a ≡ put (words self.old) at value a) }
        ensures err { OnErr result ((a : ℕ) → words self.new a ≡ words self.old a) };
}
