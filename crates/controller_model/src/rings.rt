ghost use Rattle.std.specs.Prelude.{◌≡◌, ℕ, Some};
ghost use Rattle.traces.specs.declared.header.Header.{Header};
ghost use Rattle.world_state.specs.World.{World};
ghost use Rattle.world_state.specs.Bindings.{inactive};
ghost use Rattle.controller_model.specs.Following.{Follows, FollowsRing, KeepsRun, ring_held};

use crate::kept::{Kept, RingState};

/// What is kept of a ring.
pub(crate) fn ring_state(kept: &Kept, ring: u8) -> &RingState
    ensures { (h : Header) (words : ℕ → ℕ) (w : World) → Follows h words kept.now w →
        FollowsRing h ring (ring_held w ring) result.now }
{
    &kept.rings[usize::from(ring)]
}

/// The controller looks at a ring no more.
#[tactic(auto, using(crate::proofs::RingLemmas::with_rings, crate::proofs::RingLemmas::ring_changed, crate::proofs::RingSteps::inactive_other, crate::proofs::RingSteps::inactive_here), unfolding(world_state::specs::Bindings::inactive))]
pub(crate) fn deactivate(kept: &mut Kept, ring: u8)
    ensures change { (h : Header) (words : ℕ → ℕ) (w : World) → Follows h words kept.old w →
        Follows h words kept.new (inactive w (Some ring)) }
    ensures rest { KeepsRun kept.old kept.new }
{
    let state = &mut kept.rings[usize::from(ring)];
    state.is_active = false;
}
