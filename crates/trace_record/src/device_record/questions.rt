ghost use Rattle.std.specs.Prelude.{◌≡◌, ◌≢◌, ◌<◌, ℕ, Some, true, false, IfNone, IfSome};
ghost use Rattle.ring_knowledge.specs.Known.{Known};
ghost use Rattle.ring_knowledge.specs.Rings.{code_told};
ghost use Rattle.trace_record.specs.DeviceSlots.Holders.{HasEndpoint, HasOneHolder};

use crate::device_record::kept::DeviceRecord;
use commands::{EndpointState, SlotState};
use traces::Header;
use trb::{Block, counted_code};

impl DeviceRecord {
    ghost use Rattle.trace_record.specs.DeviceSlots.Devices.{FollowsDevices};

    /// The state of a slot (xHCI 4.5.3).
    pub fn slot_state(&self, slot: u8) -> SlotState
        ensures { (k : Known) → FollowsDevices k self.now → result ≡ k.slot_state slot }
    {
        self.slot(slot).state
    }

    /// The address of the slot's device context under lease.
    pub fn device(&self, slot: u8) -> Option<u64>
        ensures { (k : Known) → FollowsDevices k self.now → result ≡ k.device slot }
    {
        self.slot(slot).device
    }

    /// The state of an endpoint (xHCI 4.8.3) by its slot and index (DCI).
    pub fn endpoint_state(&self, slot: u8, index: u8) -> EndpointState
        ensures { (k : Known) → FollowsDevices k self.now → result ≡ k.endpoint_state slot index }
    {
        self.endpoint(slot, index).state
    }

    /// The ID of an endpoint's ring.
    pub fn ring_of(&self, slot: u8, index: u8) -> Option<u8>
        ensures { (k : Known) → FollowsDevices k self.now → result ≡ k.ring_of slot index }
    {
        self.endpoint(slot, index).ring
    }

    /// Whether an endpoint halted and its ring wasn't moved since (xHCI 4.6.8, 4.6.10).
    pub fn must_move(&self, slot: u8, index: u8) -> bool
        ensures { (k : Known) → FollowsDevices k self.now → result ≡ k.must_move slot index }
    {
        self.endpoint(slot, index).must_move
    }

    /// Whether a Stopped event was read whose Stop Endpoint hasn't completed yet (xHCI 4.6.9).
    pub fn stop_seen(&self, slot: u8, index: u8) -> bool
        ensures { (k : Known) → FollowsDevices k self.now → result ≡ k.stop_seen slot index }
    {
        self.endpoint(slot, index).stop_seen
    }

    /// Whether an endpoint is isochronous, by the context that added it last (xHCI 6.2.3).
    pub fn is_isochronous(&self, slot: u8, index: u8) -> bool
        ensures { (k : Known) → FollowsDevices k self.now → result ≡ k.isochronous slot index }
    {
        self.endpoint(slot, index).isochronous
    }

    /// How the code of a Transfer Event counts: by its endpoint, where the trace's version has isochronous transfers (xHCI 4.10.2).
    #[inline(always)]
    pub fn code_told(&self, header: &Header, event: Block) -> u8
        ensures { (k : Known) → FollowsDevices k self.now → result ≡ code_told header.now k event }
    {
        let (slot, index) = (event.slot(), event.endpoint());
        let is_isochronous = header.version.has_isoch() && self.is_isochronous(slot, index);
        counted_code(is_isochronous, event.code())
    }

    /// Whether an endpoint was bound to a ring.
    pub fn was_bound(&self, ring: u8) -> bool
        ensures { (k : Known) → FollowsDevices k self.now → result ≡ k.was_bound ring }
    {
        self.bound[usize::from(ring)]
    }

    /// Whether an endpoint has the ring.
    pub fn has_endpoint(&self, ring: u8) -> bool
        ensures some { result ≡ true → (k : Known) → FollowsDevices k self.now → HasEndpoint k ring }
        ensures none { result ≡ false → (k : Known) → FollowsDevices k self.now → (s i : ℕ) → k.ring_of s i ≢ Some ring }
    {
        self.holders.has(ring)
    }

    /// The endpoint that has the ring, by its slot and index: none where no endpoint has it. None may be told where several have it.
    pub fn holder(&self, ring: u8) -> Option<(u8, u8)>
        ensures within { IfSome result (λ e. e.1 < 32) }
        ensures some { IfSome result (λ e. (k : Known) → FollowsDevices k self.now → k.ring_of e.0 e.1 ≡ Some ring) }
        ensures none { IfNone result ((k : Known) → FollowsDevices k self.now → HasOneHolder k ring → (s i : ℕ) → k.ring_of s i ≢ Some ring) }
    {
        let number = self.holders.number(ring);
        if number >= 256 * 32 {
            return None;
        }
        let slot = (number / 32) as u8;
        let index = (number % 32) as u8;
        if self.endpoint(slot, index).ring == Some(ring) {
            Some((slot, index))
        } else {
            None
        }
    }
}
