ghost use Rattle.std.specs.Prelude.{◌≡◌, ℕ, ◌*◌, All, IfOk, None, false, length, replicate};
ghost use Rattle.commands.specs.declared.state.SlotState.TheVariants.{Disabled};
ghost use Rattle.commands.specs.declared.state.EndpointState.TheVariants.{Disabled as Off};
ghost use Rattle.traces.specs.declared.header.Header.{Header as HeaderValue};
ghost use Rattle.world_state.specs.World.{opening};
ghost use Rattle.controller_model.specs.Following.{Follows, FollowsRing, ring_held};

use crate::declared::Declarations;
use crate::history::History;
use crate::kept::{Endpoint, Events, Kept, Progress, Registers, RingState, Slot};
use crate::stamps::Stamps;
use commands::{EndpointState, SlotState};
use std::alloc::{AllocError, Global};

/// What is kept before the first row.
pub(crate) fn opening(alloc: Global) -> Result<Kept, AllocError>
    ensures { IfOk result (λ kept. (h : HeaderValue) (words : ℕ → ℕ) → ((a : ℕ) → words a ≡ 0) → Follows h words kept opening) }
{
    Ok(Kept {
        progress: Progress {
            steps: 0,
            started: false,
            stopped: false,
            halting: false,
            halted: false,
        },
        registers: Registers {
            dcbaap: 0,
            config: 0,
        },
        stamps: Stamps::new(alloc),
        rings: rings(alloc)?,
        slots: slots(alloc)?,
        endpoints: endpoints(alloc)?,
        events: Events {
            posted: 0,
            reads: 0,
            dequeue: 0,
        },
        under_way: None,
        looked_outside: false,
        posted_nowhere: false,
    })
}

/// The rings by ID, before the first row.
fn rings(alloc: Global) -> Result<Vec<RingState>, AllocError>
    ensures many { IfOk result (λ rings. length rings.items ≡ 256) }
    ensures each { IfOk result (λ rings. All (λ x. (h : HeaderValue) (r : ℕ) → FollowsRing h r (ring_held opening r) x) rings.items) }
{
    let mut rings = Vec::new(alloc);
    for _id in 0..256_usize {
        rings.push(ring(alloc))?;
    }
    Ok(rings)
}

/// A ring before the first row.
fn ring(alloc: Global) -> RingState
    ensures { (h : HeaderValue) (r : ℕ) → FollowsRing h r (ring_held opening r) result }
{
    RingState {
        declared: Declarations::new(alloc),
        history: History::new(alloc),
        pointer: 0,
        cycle: false,
        is_active: false,
        holder: None,
    }
}

/// The slots, before the first row.
fn slots(alloc: Global) -> Result<Vec<Slot>, AllocError>
    ensures { IfOk result (λ slots. slots.items ≡ replicate 256 (record { state = Disabled; scribbles = false })) }
{
    let slot = Slot {
        state: SlotState::Disabled,
        scribbles: false,
    };
    vec![in alloc; slot; 256]
}

/// The endpoints, before the first row.
fn endpoints(alloc: Global) -> Result<Vec<Endpoint>, AllocError>
    ensures { IfOk result (λ endpoints. endpoints.items ≡ replicate (256 * 32) (record { state = Off; ring = None; is_isochronous = false })) }
{
    let endpoint = Endpoint {
        state: EndpointState::Disabled,
        ring: None,
        is_isochronous: false,
    };
    vec![in alloc; endpoint; 256 * 32]
}
