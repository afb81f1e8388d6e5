//! Fields of words.

ghost use Rattle.std.specs.Prelude.{◌≡◌, ◌<◌, ◌+◌, ◌*◌, ◌/◌, ◌%◌, ◌^◌};
ghost use Rattle.contexts.specs.Contexts.{has_flag};

/// `count` bits of a word, from bit `low` on.
pub(crate) fn bits(word: u32, low: u32, count: u32) -> u32
    requires low { low < 32 }
    requires count { count < 32 }
    ensures { result ≡ word / 2 ^ low % 2 ^ count }
{
    word >> low & ((1 << count) - 1)
}

/// Whether bit `i` of a word is 1.
pub(crate) fn has_flag(word: u32, i: u32) -> bool
    requires { i < 32 }
    ensures { result ≡ has_flag word i }
{
    bits(word, i, 1) == 1
}

/// The address in two words, the lower one first, of which bits 3:0 are left out.
pub(crate) fn pointer(low: u32, high: u32) -> u64
    ensures { result ≡ (low + 2 ^ 32 * high) / 16 * 16 }
{
    (u64::from(high) << 32 | u64::from(low)) & !0xf
}
