ghost use Rattle.std.specs.Prelude.{◌≡◌, ℕ, bit_and, OnOk, OnErr};
ghost use Rattle.std.specs.Int.{bit_not, w64};
ghost use Rattle.guest_memory.specs.Memory.{put};
ghost use Rattle.trace_record.specs.RangeWords.Bits.{bits_of};

use std::alloc::{AllocError, Global};
use std::collections::BTreeMap;

/// 64 bits for each number, most of them 0, in the order of the numbers: no choice of numbers makes it slow.
#[derive(Drop)]
pub struct Bits {
    kept: BTreeMap<u64, u64>,
}

impl Bits {
    /// All are 0.
    pub fn new(alloc: Global) -> Bits
        ensures { (n : ℕ) → bits_of result n ≡ 0 }
    {
        Bits {
            kept: BTreeMap::new(alloc),
        }
    }

    /// The bits of a number.
    #[inline(always)]
    pub fn of(&self, number: u64) -> u64
        ensures { result ≡ bits_of self.now number }
    {
        self.kept.get(&number).copied().unwrap_or(0)
    }

    /// A number has these bits. Want of memory changes nothing.
    #[inline(always)]
    pub fn set(&mut self, number: u64, bits: u64) -> Result<(), AllocError>
        ensures ok { OnOk result ((n : ℕ) → bits_of self.new n ≡ put (bits_of self.old) number bits n) }
        ensures err { OnErr result ((n : ℕ) → bits_of self.new n ≡ bits_of self.old n) }
    {
        self.kept.insert(number, bits)?;
        Ok(())
    }

    /// Those bits of a number are 0 that are 1 here.
    pub fn clear(&mut self, number: u64, bits: u64)
        ensures { (n : ℕ) → bits_of self.new n ≡ put (bits_of self.old) number (bit_and (bits_of self.old number) (bit_not w64 bits)) n }
    {
        if let Some(kept) = self.kept.get_mut(&number) {
            *kept &= !bits;
        }
    }
}
