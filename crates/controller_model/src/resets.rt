//! What a reset does to what is kept (xHCI 4.2, HCRST).
ghost use Rattle.std.specs.Prelude.{◌≡◌, ℕ, None, false, length, replicate};
ghost use Rattle.commands.specs.declared.state.SlotState.TheVariants.{Disabled};
ghost use Rattle.commands.specs.declared.state.EndpointState.TheVariants.{Disabled as Off};
ghost use Rattle.traces.specs.declared.header.Header.{Header as HeaderValue};
ghost use Rattle.world_state.specs.World.{World};
ghost use Rattle.world_state.specs.DriverRows.{reset};
ghost use Rattle.controller_model.specs.Following.{AreLeft, Follows, IsLeft};

use crate::kept::{Endpoint, Events, Kept, Registers, RingState, Slot};
use commands::{EndpointState, SlotState};

/// No endpoint has the ring, and the controller looks at it no more; what was taken of it stays told.
fn leave_ring(state: &mut RingState)
    ensures { IsLeft state.old state.new }
{
    state.is_active = false;
    state.holder = None;
}

/// So it is of all rings.
fn leave_rings(rings: &mut [RingState])
    ensures { AreLeft rings.old rings.new }
{
    for state in rings.iter_mut() {
        leave_ring(state);
    }
}

/// The slots are Disabled, and their device contexts are written no more.
fn disable_slots(slots: &mut [Slot])
    ensures { slots.new ≡ replicate (length slots.old) (record { state = Disabled; scribbles = false }) }
{
    slots.fill(Slot {
        state: SlotState::Disabled,
        scribbles: false,
    });
}

/// The endpoints are Disabled, and have no rings.
fn disable_endpoints(endpoints: &mut [Endpoint])
    ensures { endpoints.new ≡ replicate (length endpoints.old) (record { state = Off; ring = None; is_isochronous = false }) }
{
    endpoints.fill(Endpoint {
        state: EndpointState::Disabled,
        ring: None,
        is_isochronous: false,
    });
}

/// The controller forgets all but what lies in memory.
pub(crate) fn reset(kept: &mut Kept)
    ensures { (h : HeaderValue) (words : ℕ → ℕ) (w : World) → Follows h words kept.old w →
        Follows h words kept.new (reset w) }
{
    kept.progress.started = false;
    kept.progress.halting = false;
    kept.progress.halted = false;
    kept.registers = Registers {
        dcbaap: 0,
        config: 0,
    };
    leave_rings(&mut kept.rings);
    disable_slots(&mut kept.slots);
    disable_endpoints(&mut kept.endpoints);
    kept.events = Events {
        posted: 0,
        reads: 0,
        dequeue: 0,
    };
    kept.under_way = None;
}
