ghost use Rattle.std.specs.Prelude.{◌≡◌, ℕ, ◌+◌, ◌*◌, ◌<◌, ◌||◌, ◌&&◌, ◌==◌, Option, Some, None, if◌then◌else◌};
ghost use Rattle.commands.specs.States.{is_running, is_stopped};
ghost use Rattle.traces.specs.declared.header.Header.{Header as HeaderValue};
ghost use Rattle.world_state.specs.World.{World};
ghost use Rattle.world_state.specs.DriverRows.{activated, endpoint_bell, bell_row};
ghost use Rattle.controller_model.specs.Following.{Follows};

use crate::endpoints::{endpoint_of, set_state};
use crate::kept::Kept;
use crate::looks::command_ring;
use commands::EndpointState;
use traces::Header;

/// The controller may look at a ring from now on.
#[tactic(auto, using(crate::proofs::RingLemmas::with_rings, crate::proofs::RingLemmas::ring_changed, crate::proofs::RingSteps::activated_other, crate::proofs::RingSteps::activated_here), unfolding(world_state::specs::DriverRows::activated))]
fn activate(kept: &mut Kept, ring: u8)
    ensures { (h : HeaderValue) (words : ℕ → ℕ) (w : World) → Follows h words kept.old w →
        Follows h words kept.new (activated h w ring) }
{
    let state = &mut kept.rings[usize::from(ring)];
    state.is_active = true;
}

/// Whether a doorbell does something at an endpoint in this state (xHCI 4.8.3).
fn answers_bell(state: EndpointState) -> bool
    ensures { result ≡ (is_running state || is_stopped state) }
{
    matches!(state, EndpointState::Running | EndpointState::Stopped)
}

/// The doorbell of an endpoint: where it is Running or Stopped and has a ring, it is Running, and the ring active.
pub(crate) fn ring_endpoint(kept: &mut Kept, slot: u8, target: u8)
    ensures { (h : HeaderValue) (words : ℕ → ℕ) (w : World) → Follows h words kept.old w →
        Follows h words kept.new (endpoint_bell h w slot target (w.ring_of slot target)) }
{
    if target >= 32 {
        return;
    }
    let endpoint = endpoint_of(kept, slot, target);
    let ring = match endpoint.ring {
        None => return,
        Some(ring) => ring,
    };
    if !answers_bell(endpoint.state) {
        return;
    }
    activate(kept, ring);
    set_state(kept, slot, target, EndpointState::Running);
}

/// The driver rings a doorbell (xHCI 4.7, 5.6): that of the host controller makes the command ring active, once the
/// controller runs.
#[tactic(auto, unfolding(world_state::specs::DriverRows::bell_row))]
pub(crate) fn ring_bell(header: &Header, kept: &mut Kept, slot: u8, target: u8)
    ensures { (words : ℕ → ℕ) (w : World) → Follows header.now words kept.old w →
        Follows header.now words kept.new (bell_row header.now w slot target) }
{
    if slot != 0 {
        ring_endpoint(kept, slot, target);
        return;
    }
    if !starts_commands(kept, target) {
        return;
    }
    match command_ring(header) {
        None => {}
        Some(ring) => activate(kept, ring.id),
    }
}

/// Whether the host controller's doorbell with this target starts the command ring.
fn starts_commands(kept: &Kept, target: u8) -> bool
    ensures { result ≡ ((target == 0) && kept.now.progress.started) }
{
    target == 0 && kept.progress.started
}
