ghost use Rattle.std.specs.Prelude.{◌≡◌, ◌<◌, ◌≤◌, ℕ, true, false};
ghost use Rattle.contexts.specs.Contexts.{has_flag};

/// The least index from `from` on whose bit of a word is 1; one above 31 where there is none.
pub fn next_flag(word: u32, from: u8) -> u8
    requires { from ≤ 32 }
    ensures behind { from ≤ result }
    ensures set { result < 32 → has_flag word result ≡ true }
    ensures clear { (i : ℕ) → from ≤ i → i < result → i < 32 → has_flag word i ≡ false }
{
    let rest = u64::from(word) >> from;
    from + rest.trailing_zeros() as u8
}
