ghost use Rattle.std.specs.Prelude.{◌≡◌, ℕ, ◌<◌, ◌≤◌, ◌&&◌, ◌==◌, Option, false};
ghost use Rattle.traces.specs.declared.header.Header.{Header};
ghost use Rattle.traces.specs.Header.{is_ring};
ghost use Rattle.world_state.specs.World.{World};
ghost use Rattle.world_state.specs.Bindings.{disabled};
ghost use Rattle.controller_model.specs.Following.{Follows, IsEndpoint, KeepsRun, named_by, turned_off};

use crate::bindings::free;
use crate::kept::{Endpoint, Kept};
use commands::EndpointState;

/// Which endpoints of a slot a command disables.
#[derive(Clone, Copy, Debug)]
pub enum Named {
    All,
    /// All but the default control endpoint (xHCI 4.6.6 with DC, 4.6.11).
    AboveControl,
    /// Those of them whose bits are 1 in this word of Drop Context flags (xHCI 6.2.5.1).
    Dropped(u32),
}

/// Whether an endpoint is among them.
pub(crate) fn is_named(named: Named, index: u8) -> bool
    requires { index < 32 }
    ensures { result ≡ named_by named index }
{
    match named {
        Named::All => true,
        Named::AboveControl => index >= 2,
        Named::Dropped(flags) => index >= 2 && (flags >> u32::from(index)) % 2 == 1,
    }
}

/// An endpoint without a ring is Disabled; slot 0 and index 0 may have one.
#[tactic(auto, using(crate::proofs::RingLemmas::with_endpoints, crate::proofs::EndpointLemmas::endpoints_set, crate::proofs::DisabledRings::rings_off))]
fn turn_off(kept: &mut Kept, slot: u8, index: u8)
    requires { index < 32 }
    ensures change { (h : Header) (words : ℕ → ℕ) (w : World) →
        ((r : ℕ) → IsEndpoint slot index → is_ring r (w.ring_of slot index) ≡ false) → Follows h words kept.old w →
        Follows h words kept.new (turned_off w slot index) }
    ensures rest { KeepsRun kept.old kept.new }
{
    let endpoint = &mut kept.endpoints[usize::from(slot) * 32 + usize::from(index)];
    endpoint.state = EndpointState::Disabled;
    endpoint.ring = None;
}

/// One endpoint is disabled, and its ring inactive.
fn disable_one(kept: &mut Kept, slot: u8, index: u8)
    requires { index < 32 }
    ensures change { (h : Header) (words : ℕ → ℕ) (w : World) → Follows h words kept.old w →
        Follows h words kept.new (disabled w slot (λ i. i == index)) }
    ensures rest { KeepsRun kept.old kept.new }
{
    if index == 0 {
        turn_off(kept, slot, index);
        return;
    }
    free(kept, slot, index);
    turn_off(kept, slot, index);
}

/// The endpoint with this index is disabled, where it is among them.
fn disable_named(kept: &mut Kept, slot: u8, named: Named, index: u8)
    requires { index < 32 }
    ensures change { (h : Header) (words : ℕ → ℕ) (w : World) → Follows h words kept.old w →
        Follows h words kept.new (disabled w slot (λ i. named_by named i && i == index)) }
    ensures rest { KeepsRun kept.old kept.new }
{
    if !is_named(named, index) {
        return;
    }
    disable_one(kept, slot, index);
}

/// These endpoints of a slot are disabled, and their rings inactive.
pub(crate) fn disable(kept: &mut Kept, slot: u8, named: Named)
    ensures change { (h : Header) (words : ℕ → ℕ) (w : World) → Follows h words kept.old w →
        Follows h words kept.new (disabled w slot (named_by named)) }
    ensures rest { KeepsRun kept.old kept.new }
{
    for index in 0..32 {
        disable_named(kept, slot, named, index);
    }
}
