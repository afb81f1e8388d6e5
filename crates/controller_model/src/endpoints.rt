ghost use Rattle.std.specs.Prelude.{◌≡◌, ℕ, ◌==◌, ◌<◌};
ghost use Rattle.traces.specs.declared.header.Header.{Header};
ghost use Rattle.world_state.specs.World.{World};
ghost use Rattle.world_state.specs.Bindings.{in_state, typed};
ghost use Rattle.controller_model.specs.Following.{Follows, KeepsRun};

use crate::kept::{Endpoint, Kept};
use commands::EndpointState;

/// What is kept of an endpoint.
pub(crate) fn endpoint_of(kept: &Kept, slot: u8, index: u8) -> Endpoint
    requires { index < 32 }
    ensures { (h : Header) (words : ℕ → ℕ) (w : World) → Follows h words kept.now w →
        (w.endpoint_state slot index ≡ result.state) × (w.ring_of slot index ≡ result.ring) × (w.isochronous slot index ≡ result.is_isochronous) }
{
    kept.endpoints[usize::from(slot) * 32 + usize::from(index)]
}

/// An endpoint is in this state from now on.
pub(crate) fn set_state(kept: &mut Kept, slot: u8, index: u8, state: EndpointState)
    requires { index < 32 }
    ensures change { (h : Header) (words : ℕ → ℕ) (w : World) → Follows h words kept.old w →
        Follows h words kept.new (in_state w slot index state) }
    ensures rest { KeepsRun kept.old kept.new }
{
    let endpoint = &mut kept.endpoints[usize::from(slot) * 32 + usize::from(index)];
    endpoint.state = state;
}

/// An endpoint is isochronous from now on, or isn't.
pub(crate) fn set_type(kept: &mut Kept, slot: u8, index: u8, is_isochronous: bool)
    requires { index < 32 }
    ensures change { (h : Header) (words : ℕ → ℕ) (w : World) → Follows h words kept.old w →
        Follows h words kept.new (typed w slot (λ i. i == index) (λ i. is_isochronous)) }
    ensures rest { KeepsRun kept.old kept.new }
{
    let endpoint = &mut kept.endpoints[usize::from(slot) * 32 + usize::from(index)];
    endpoint.is_isochronous = is_isochronous;
}
