//! Rings that come or go: which endpoint has one, and where a segment shows the Cycle bit of the first lap.
ghost use Rattle.std.specs.Prelude.{◌≡◌, ◌≢◌, ◌+◌, ◌*◌, ◌%◌, ◌^◌, ◌≤◌, ◌<◌, ℕ, Some, IfSome, IfNone, true, false};
ghost use Rattle.ring_knowledge.specs.Known.{Known};
ghost use Rattle.trace_record.specs.DeviceSlots.Devices.{FollowsDevices};

use guest_memory::{Addr, WordMemory};
use segments::Segment;
use trace_record::DeviceRecord;

/// An endpoint, by its slot and its DCI.
#[derive(Clone, Copy, Debug, PartialEq, Eq)]
pub struct Endpoint {
    pub slot: u8,
    pub endpoint: u8,
}

/// The first endpoint that has this ring.
pub fn endpoint_with(devices: &DeviceRecord, ring: u8) -> Option<Endpoint>
    ensures had { IfSome result (λ found. (k : Known) → FollowsDevices k devices.now → k.ring_of found.slot found.endpoint ≡ Some ring) }
    ensures none { IfNone result ((k : Known) (s i : ℕ) → FollowsDevices k devices.now → 1 ≤ s → s < 256 → 1 ≤ i → i < 32 → k.ring_of s i ≢ Some ring) }
{
    for slot in 1..=255u8 {
        if let Some(endpoint) = index_with(devices, slot, ring) {
            return Some(Endpoint { slot, endpoint });
        }
    }
    None
}

/// The DCI of the slot's first endpoint that has this ring.
fn index_with(devices: &DeviceRecord, slot: u8, ring: u8) -> Option<u8>
    ensures had { IfSome result (λ endpoint. (k : Known) → FollowsDevices k devices.now → k.ring_of slot endpoint ≡ Some ring) }
    ensures none { IfNone result ((k : Known) (i : ℕ) → FollowsDevices k devices.now → 1 ≤ i → i < 32 → k.ring_of slot i ≢ Some ring) }
{
    for endpoint in 1..32u8 {
        if devices.ring_of(slot, endpoint) == Some(ring) {
            return Some(endpoint);
        }
    }
    None
}

/// The address of the first control word of a segment that shows Cycle bit 1, the first lap's (xHCI 4.9.2).
pub fn shown_first_lap<M: WordMemory>(memory: &M, segment: Segment) -> Option<u64>
    ensures shown { IfSome result (λ address. M.words memory.now address % 2 ≡ 1) }
    ensures none { IfNone result ((i : ℕ) → i < segment.count → segment.base % 4 ≡ 0 → segment.base + 16 * i + 12 < 2 ^ 64 →
        M.words memory.now (segment.base + 16 * i + 12) % 2 ≢ 1) }
{
    for block in 0..u64::from(segment.count) {
        let control = segment.base.saturating_add(16 * block + 12);
        if has_cycle_bit(memory, control) {
            return Some(control);
        }
    }
    None
}

/// Whether the word at an address is there and has bit 0.
fn has_cycle_bit<M: WordMemory>(memory: &M, control: u64) -> bool
    ensures shown { result ≡ true → M.words memory.now control % 2 ≡ 1 }
    ensures none { result ≡ false → control % 4 ≡ 0 → M.words memory.now control % 2 ≢ 1 }
{
    match Addr::new(control) {
        Some(at) => memory.word(at) % 2 == 1,
        None => false,
    }
}
