ghost use Rattle.std.specs.Prelude.{◌≡◌, ℕ, ◌*◌, ◌<◌, IfOk, None, false, length, replicate};
ghost use Rattle.commands.specs.declared.state.SlotState.TheVariants.{Disabled};
ghost use Rattle.commands.specs.declared.state.EndpointState.TheVariants.{Disabled as Off};
ghost use Rattle.traces.specs.declared.header.Header.{Header};
ghost use Rattle.ring_knowledge.specs.Known.{Known, nothing};
ghost use Rattle.ring_knowledge.specs.Resets.{reset};
ghost use Rattle.trace_record.specs.DeviceSlots.Holders.{AreCounted, AreSummed};

use crate::device_record::holders::Holders;
use commands::{EndpointState, SlotState};
use std::alloc::{AllocError, Global};

/// What is known of a device slot.
#[derive(Clone, Copy, Debug)]
pub struct Slot {
    pub(crate) state: SlotState,
    /// The address of the device context under lease.
    pub(crate) device: Option<u64>,
}

/// What is known of an endpoint.
#[derive(Clone, Copy, Debug)]
pub struct Endpoint {
    pub(crate) state: EndpointState,
    /// The ID of its ring.
    pub(crate) ring: Option<u8>,
    pub(crate) must_move: bool,
    pub(crate) stop_seen: bool,
    /// The context that added it last says so (xHCI 6.2.3).
    pub(crate) isochronous: bool,
}

/// What one pass over a trace keeps of slots and endpoints: their states (xHCI 4.5.3, 4.8.3), the ring of each endpoint, the
/// device context of each slot, and which rings were bound and have endpoints. Contracts compare it with what is `Known`.
#[derive(Drop)]
pub struct DeviceRecord {
    /// By slot.
    pub(crate) slots: Vec<Slot>,
    /// By slot and endpoint index (DCI), 32 endpoints a slot.
    pub(crate) endpoints: Vec<Endpoint>,
    /// By ring ID: an endpoint was bound to it.
    pub(crate) bound: Vec<bool>,
    /// By ring ID: which endpoints have it.
    pub(crate) holders: Holders,
    ghost slots_many: { length slots.items ≡ 256 },
    ghost endpoints_many: { length endpoints.items ≡ 256 * 32 },
    ghost bound_many: { length bound.items ≡ 256 },
    ghost counted: { AreCounted endpoints.items holders },
    ghost summed: { AreSummed endpoints.items holders },
}

impl DeviceRecord {
    ghost use Rattle.trace_record.specs.DeviceSlots.Devices.{FollowsDevices, IsWithBound, IsWithEndpoint, IsWithSlot, endpoint_at, slot_at};

    /// The record before the first row. `AllocError` where memory is wanting.
    pub fn new(alloc: Global) -> Result<DeviceRecord, AllocError>
        ensures { IfOk result (FollowsDevices nothing) }
    {
        Ok(DeviceRecord {
            slots: slots(alloc, unused())?,
            endpoints: endpoints(alloc, untouched())?,
            bound: vec![in alloc; false; 256]?,
            holders: Holders::new(alloc)?,
        })
    }

    /// Notes that the controller was reset (xHCI 4.2): of slots and endpoints nothing is known. Which rings were bound stays.
    pub fn clear(&mut self)
        ensures { (h : Header) (k : Known) → FollowsDevices k self.old → FollowsDevices (reset h k) self.new }
    {
        self.slots.fill(unused());
        self.endpoints.fill(untouched());
        self.holders.clear();
    }

    /// What is kept of a slot.
    pub(crate) fn slot(&self, slot: u8) -> Slot
        ensures { result ≡ slot_at self.now.slots.items slot }
    {
        self.slots[usize::from(slot)]
    }

    /// What is kept of an endpoint. There is none with an index above 31.
    pub(crate) fn endpoint(&self, slot: u8, index: u8) -> Endpoint
        ensures { result ≡ endpoint_at self.now.endpoints.items slot index }
    {
        if index >= 32 {
            return untouched();
        }
        self.endpoints[usize::from(slot) * 32 + usize::from(index)]
    }

    /// Keeps this of a slot from now on.
    pub(crate) fn set_slot(&mut self, slot: u8, kept: Slot)
        ensures { IsWithSlot self.old self.new slot kept }
    {
        self.slots[usize::from(slot)] = kept;
    }

    /// Keeps this of an endpoint from now on.
    #[inline(always)]
    pub(crate) fn set_endpoint(&mut self, slot: u8, index: u8, kept: Endpoint)
        requires { index < 32 }
        ensures { IsWithEndpoint self.old self.new slot index kept }
    {
        let number = usize::from(slot) * 32 + usize::from(index);
        self.holders
            .pass_on(self.endpoints[number].ring, kept.ring, number);
        self.endpoints[number] = kept;
    }

    /// Notes that an endpoint was bound to a ring, if it was.
    pub(crate) fn note_bound(&mut self, ring: Option<u8>)
        ensures { IsWithBound self.old self.new ring }
    {
        match ring {
            None => {}
            Some(ring) => self.bound[usize::from(ring)] = true,
        }
    }
}

/// A slot before the first row.
fn unused() -> Slot
    ensures { result ≡ record { state = Disabled; device = None } }
{
    Slot {
        state: SlotState::Disabled,
        device: None,
    }
}

/// An endpoint before the first row.
pub(crate) fn untouched() -> Endpoint
    ensures { result ≡ record { state = Off; ring = None; must_move = false; stop_seen = false; isochronous = false } }
{
    Endpoint {
        state: EndpointState::Disabled,
        ring: None,
        must_move: false,
        stop_seen: false,
        isochronous: false,
    }
}

/// The slots before the first row, all alike.
fn slots(alloc: Global, slot: Slot) -> Result<Vec<Slot>, AllocError>
    ensures { IfOk result (λ slots. slots.items ≡ replicate 256 slot) }
{
    vec![in alloc; slot; 256]
}

/// The endpoints before the first row, all alike.
fn endpoints(alloc: Global, endpoint: Endpoint) -> Result<Vec<Endpoint>, AllocError>
    ensures { IfOk result (λ endpoints. endpoints.items ≡ replicate (256 * 32) endpoint) }
{
    vec![in alloc; endpoint; 256 * 32]
}
