//! The controller's one pointer into command rings, which CRCR sets (xHCI 4.9.3, 5.4.5).
ghost use Rattle.std.specs.Prelude.{◌≡◌, ℕ, ◌∷◌, []};
ghost use Rattle.traces.specs.declared.header.Header.{Header as HeaderValue};
ghost use Rattle.traces.specs.Header.{command_id};
ghost use Rattle.world_state.specs.World.{World};
ghost use Rattle.world_state.specs.DriverRows.{command_placed};
ghost use Rattle.controller_model.specs.Following.{Follows, idle, pointed};

use crate::kept::Kept;
use crate::looks::{command_ring, is_command_kind};
use crate::rings::deactivate;
use traces::{Header, Ring};

/// A ring is inactive, if it is a command ring.
fn idle_one(kept: &mut Kept, ring: &Ring)
    ensures { (h : HeaderValue) (words : ℕ → ℕ) (w : World) → Follows h words kept.old w →
        Follows h words kept.new (idle w (ring.now ∷ [])) }
{
    if is_command_kind(ring.shape.kind()) {
        deactivate(kept, ring.id);
    }
}

/// The command rings among these are inactive.
fn idle_all(kept: &mut Kept, rings: &[Ring])
    ensures { (h : HeaderValue) (words : ℕ → ℕ) (w : World) → Follows h words kept.old w →
        Follows h words kept.new (idle w rings.now) }
{
    for ring in rings {
        idle_one(kept, ring);
    }
}

/// A ring's pointer and cycle state are those of a value of CRCR.
#[tactic(auto, using(crate::proofs::RingLemmas::with_rings, crate::proofs::RingLemmas::ring_changed, crate::proofs::RegisterLemmas::pointed_other, crate::proofs::RegisterLemmas::pointed_here, crate::proofs::RegisterLemmas::lowest_bit))]
fn point(kept: &mut Kept, ring: u8, value: u64)
    ensures { (h : HeaderValue) (words : ℕ → ℕ) (w : World) → Follows h words kept.old w →
        Follows h words kept.new (pointed w ring value) }
{
    let state = &mut kept.rings[usize::from(ring)];
    state.pointer = value / 64 * 64;
    state.cycle = value % 2 == 1;
}

/// The newest command ring's pointer and cycle state are those of a value of CRCR.
fn point_newest(header: &Header, kept: &mut Kept, value: u64)
    ensures { (words : ℕ → ℕ) (w : World) → Follows header.now words kept.old w →
        Follows header.now words kept.new (pointed w (command_id header.now) value) }
{
    match command_ring(header) {
        None => {}
        Some(ring) => point(kept, ring.id, value),
    }
}

/// CRCR is written of a controller that doesn't run: the newest command ring is placed there, and works once its doorbell is rung.
pub(crate) fn place_commands(header: &Header, kept: &mut Kept, value: u64)
    ensures { (words : ℕ → ℕ) (w : World) → Follows header.now words kept.old w →
        Follows header.now words kept.new (command_placed header.now w value) }
{
    idle_all(kept, header.rings.as_slice());
    point_newest(header, kept, value);
}
