//! The Event Ring Segment Table in guest memory (xHCI 6.5).

ghost use Rattle.std.specs.Prelude.{◌≡◌, ◌+◌, ◌*◌, ◌/◌, ◌%◌, ◌^◌, ◌≤◌, length};
ghost use Rattle.guest_memory.specs.Memory.{long_at};
ghost use Rattle.event_ring.specs.EventRing.{lists};

use guest_memory::{Addr, WordMemory};
use segments::Segment;

fn word<M: WordMemory>(memory: &M, address: u64) -> u32
    requires { address % 4 ≡ 0 }
    ensures { result ≡ M.words memory.now address }
{
    memory.word(Addr::new(address).unwrap())
}

/// The segment that the entry at this address names. Reserved bits aren't looked at.
fn segment_at<M: WordMemory>(memory: &M, entry: u64) -> Segment
    requires aligned { entry % 4 ≡ 0 }
    requires inside { entry + 16 ≤ 2 ^ 64 }
    ensures base { result.base ≡ long_at (M.words memory.now) entry / 64 * 64 }
    ensures count { result.count ≡ M.words memory.now (entry + 8) % 2 ^ 16 }
{
    let low = u64::from(word(memory, entry));
    let high = u64::from(word(memory, entry + 4));
    Segment {
        base: (high << 32 | low) / 64 * 64,
        count: (word(memory, entry + 8) & 0xffff) as u16,
    }
}

/// Whether the entries from `base` on name these segments, in order.
pub(crate) fn lists<M: WordMemory>(memory: &M, base: u64, segments: &[Segment]) -> bool
    requires aligned { base % 4 ≡ 0 }
    requires inside { base + 16 * length segments.now ≤ 2 ^ 64 }
    ensures { result ≡ lists (M.words memory.now) base segments.now }
{
    for (number, segment) in segments.iter().enumerate() {
        if segment_at(memory, base + 16 * number as u64) != *segment {
            return false;
        }
    }
    true
}
