//! What a controller beside rows shows of itself to who chooses its next step (xHCI 4.5, 4.9).
ghost use Rattle.std.specs.Prelude.{◌≡◌, ◌==◌, ◌&&◌, ◌<◌, ℕ, nat_lt, if◌then◌else◌, None, Some, true, false, not, IfSome, option_map};
ghost use Rattle.contexts.specs.Contexts.{device_context};
ghost use Rattle.segments.specs.Places.{cycle_of};
ghost use Rattle.event_ring.specs.EventRing.{has_room};
ghost use Rattle.traces.specs.Header.{event_shape, event_size, is_ring};
ghost use Rattle.traces.specs.Register.{register_or_zero};
ghost use Rattle.traces.specs.declared.register.Register.TheVariants.{Dcbaap};
ghost use Rattle.world_state.specs.Scenes.{Scene};
ghost use Rattle.world_state.specs.Takes.{unreported};
ghost use Rattle.controller_model.specs.Controllers.{IsBeside};
ghost use Rattle.controller_model.specs.Following.{IsEndpoint, under_way_of};

use crate::controller::Controller;
use crate::endpoints::endpoint_of;
use crate::kept::Pending;
use crate::posts::{event_cycle, has_event_room};
use crate::rings::ring_state;
use crate::scribbles::device_context;
use commands::EndpointState;
use guest_memory::WordMemory;
use std::collections::VecDeque;
use traces::Header;
use world_state::Take;

impl<M: WordMemory + Drop> Controller<M> {
    /// The memory, as the rows and steps so far left it.
    pub fn memory(&self) -> &M
        ensures { (x : Scene) → IsBeside M.words self.now x → M.words result.now ≡ x.world.memory }
    {
        &self.memory
    }

    /// The rings that live.
    pub fn live(&self) -> &Header
        ensures { (x : Scene) → IsBeside M.words self.now x → result.now ≡ x.live }
    {
        &self.lists.live
    }

    /// The controller was started, and hasn't stopped or halted since: else it looks at nothing and posts nothing.
    pub fn is_running(&self) -> bool
        ensures { (x : Scene) → IsBeside M.words self.now x → result ≡ (x.world.started && not x.world.stopped && not x.world.halted) }
    {
        let progress = self.kept.progress;
        progress.started && !progress.stopped && !progress.halted
    }

    /// R/S was cleared in a run, and the controller hasn't halted since: it may halt (xHCI 5.4.1.1).
    pub fn is_halting(&self) -> bool
        ensures { (x : Scene) → IsBeside M.words self.now x → result ≡ (x.world.halting && not x.world.halted) }
    {
        self.kept.progress.halting && !self.kept.progress.halted
    }

    /// The controller may look at a ring.
    pub fn is_active(&self, ring: u8) -> bool
        ensures { (x : Scene) → IsBeside M.words self.now x → result ≡ x.world.is_active ring }
    {
        ring_state(&self.kept, ring).is_active
    }

    /// The dequeue pointer of a ring.
    pub fn pointer(&self, ring: u8) -> u64
        ensures { (x : Scene) → IsBeside M.words self.now x → result ≡ x.world.pointer_of ring }
    {
        ring_state(&self.kept, ring).pointer
    }

    /// What was taken of a ring, and no event has reported, the oldest first.
    pub fn unreported(&self, ring: u8) -> &VecDeque<Take>
        ensures { (x : Scene) → IsBeside M.words self.now x → result.now.items ≡ unreported x.world ring }
    {
        ring_state(&self.kept, ring).history.unreported_takes()
    }

    /// The endpoint that has a ring, by its slot and DCI: none where no endpoint has it.
    pub fn holder(&self, ring: u8) -> Option<(u8, u8)>
        ensures below { IfSome result (λ e. e.1 < 32) }
        ensures held { (x : Scene) → IsBeside M.words self.now x → IfSome result (λ e. is_ring ring (x.world.ring_of e.0 e.1) ≡ true) }
        ensures free { (x : Scene) → IsBeside M.words self.now x → result ≡ None →
            (slot endpoint : ℕ) → IsEndpoint slot endpoint → is_ring ring (x.world.ring_of slot endpoint) ≡ false }
    {
        match ring_state(&self.kept, ring).holder {
            Some(holder) if holder.index < 32 => Some((holder.slot, holder.index)),
            _ => None,
        }
    }

    /// The state of an endpoint, by its slot and DCI.
    pub fn endpoint_state(&self, slot: u8, endpoint: u8) -> EndpointState
        requires { endpoint < 32 }
        ensures { (x : Scene) → IsBeside M.words self.now x → result ≡ x.world.endpoint_state slot endpoint }
    {
        endpoint_of(&self.kept, slot, endpoint).state
    }

    /// Whether an endpoint is isochronous, by its slot and DCI: the context that added it last says so (xHCI 6.2.3).
    pub fn is_isochronous(&self, slot: u8, endpoint: u8) -> bool
        requires { endpoint < 32 }
        ensures { (x : Scene) → IsBeside M.words self.now x → result ≡ x.world.isochronous slot endpoint }
    {
        endpoint_of(&self.kept, slot, endpoint).is_isochronous
    }

    /// The command that was taken and isn't finished.
    pub fn under_way(&self) -> Option<Pending>
        ensures { (x : Scene) → IsBeside M.words self.now x → option_map under_way_of result ≡ x.world.under_way }
    {
        self.kept.under_way
    }

    /// The Event Ring has room for one more event (xHCI 4.9.4).
    pub fn has_event_room(&self) -> bool
        ensures { (x : Scene) → IsBeside M.words self.now x → result ≡ (nat_lt 0 (event_size x.header) && has_room (event_size x.header) x.world.posted x.world.dequeue) }
    {
        has_event_room(&self.lists.declared, &self.kept)
    }

    /// The Cycle bit of the next event.
    pub fn event_cycle(&self) -> bool
        ensures { (x : Scene) → IsBeside M.words self.now x → result ≡ (cycle_of (event_shape x.header) x.world.posted == 1) }
    {
        event_cycle(&self.lists.declared, &self.kept)
    }

    /// Where the device context of a slot lies, where the controller may write it.
    pub fn device_context(&self, slot: u8) -> Option<u64>
        ensures { (x : Scene) → IsBeside M.words self.now x →
            result ≡ (if x.world.scribbles slot then Some (device_context x.world.memory (register_or_zero x.world.register Dcbaap) slot) else None) }
    {
        if self.kept.slots[usize::from(slot)].scribbles {
            Some(device_context(&self.memory, self.kept.registers.dcbaap, slot))
        } else {
            None
        }
    }
}
