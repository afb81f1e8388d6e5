ghost use Rattle.std.specs.Prelude.{◌≡◌, ◌<◌, ◌+◌, ◌-◌, if◌then◌else◌};
ghost use Rattle.trb.specs.Bits.{bits, is_set};

/// `count` bits of a word, from bit `low` on.
pub(crate) fn bits(word: u32, low: u32, count: u32) -> u32
    requires low { low < 32 }
    requires count { count < 32 }
    ensures { result ≡ bits word low count }
{
    word >> low & ((1 << count) - 1)
}

/// Whether a bit of a word is 1.
pub(crate) fn is_set(word: u32, bit: u32) -> bool
    requires { bit < 32 }
    ensures { result ≡ is_set word bit }
{
    bits(word, bit, 1) == 1
}

/// A word with this lowest bit.
pub(crate) fn with_lowest_bit(word: u32, bit: bool) -> u32
    ensures { result ≡ word - bits word 0 1 + (if bit then 1 else 0) }
{
    word & !1 | u32::from(bit)
}
