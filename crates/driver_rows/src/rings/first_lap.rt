ghost use Rattle.std.specs.Prelude.{◌≡◌, ◌==◌, ◌+◌, ◌*◌, ◌%◌, ◌^◌, ◌≤◌, ℕ};
ghost use Rattle.ring_knowledge.specs.Known.{Known};
ghost use Rattle.ownership_rules.specs.Rings.{shows_first_lap};

use guest_memory::{Addr, WordMemory};
use segments::Segment;

/// Whether the control word of a block of the segment shows the Cycle bit of the first lap (xHCI 4.9.2).
pub(crate) fn shows_first_lap<M: WordMemory>(memory: &M, segment: Segment) -> bool
    requires aligned { segment.base % 16 ≡ 0 }
    requires inside { segment.base + 16 * segment.count ≤ 2 ^ 64 }
    ensures { (k : Known) → ((a : ℕ) → k.memory a ≡ M.words memory.now a) → result ≡ shows_first_lap k segment }
{
    for block in 0..segment.count {
        if has_cycle_bit(memory, segment.base + 16 * u64::from(block) + 12) {
            return true;
        }
    }
    false
}

/// Whether the Cycle bit of a control word is 1 (xHCI 6.4).
fn has_cycle_bit<M: WordMemory>(memory: &M, control: u64) -> bool
    requires { control % 4 ≡ 0 }
    ensures { result ≡ (M.words memory.now control % 2 == 1) }
{
    match Addr::new(control) {
        Some(at) => memory.word(at) % 2 == 1,
        None => false,
    }
}
