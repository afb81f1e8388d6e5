//! Rows by which rings come and go, and descriptors are withdrawn.
ghost use Rattle.std.specs.Prelude.{◌≡◌, ◌≢◌, ◌<◌, ◌==◌, if◌then◌else◌, ℕ, List, IfSome, OnOk, length, position, remove};
ghost use Rattle.std.specs.List.{list_any};
ghost use Rattle.traces.specs.declared.header.Header.{Header as HeaderValue};
ghost use Rattle.traces.specs.declared.row.Row.{Row as RowValue};
ghost use Rattle.traces.specs.Header.{is_transfer_kind, ring_with};
ghost use Rattle.world_state.specs.World.{World};
ghost use Rattle.world_state.specs.RingRows.{is_in_way, listed, may_come, resting, without_descriptor};
ghost use Rattle.traces.specs.LivingRings.{with_ring, without_ring};
ghost use Rattle.controller_model.specs.RingHarms.{FollowsScene};
ghost use Rattle.world_state.specs.Scenes.{Scene, with_coming};
ghost use Rattle.controller_model.specs.declared.kept.Kept.{Kept as KeptValue};
ghost use Rattle.controller_model.specs.Following.{Follows};

use crate::kept::Kept;
use crate::life::Rings;
use std::alloc::AllocError;
use traces::{Header, Ring};
use trb::RingKind;

/// Nothing is declared on the ring with this ID any more, nothing has happened, and the controller doesn't look at it.
fn empty(kept: &mut Kept, id: u8)
    ensures { (h g : HeaderValue) (words : ℕ → ℕ) (w : World) → ((r : ℕ) → r ≢ id → ring_with g r ≡ ring_with h r) →
        Follows h words kept.old w → Follows g words kept.new (resting w id) }
{
    let state = &mut kept.rings[usize::from(id)];
    state.declared.clear();
    state.history.clear();
    state.is_active = false;
}

/// Which ring is the first with this ID.
fn place_of(header: &Header, id: u8) -> Option<usize>
    ensures value { result ≡ position (λ r. r.id == id) header.now.rings }
    ensures below { IfSome result (λ n. n < length header.now.rings) }
{
    header
        .rings
        .as_slice()
        .iter()
        .position(|ring| ring.id == id)
}

/// The ring with this number isn't there any more.
fn drop_at(header: &mut Header, number: usize)
    requires { number < length header.old.rings }
    ensures { header.new ≡ record header.old { rings = remove header.old.rings number } }
{
    header.rings.remove(number);
}

/// The ring with this ID isn't there any more.
fn drop_ring(header: &mut Header, id: u8)
    ensures { header.new ≡ without_ring header.old id }
{
    for _ in 0..header.rings.as_slice().len() {
        match place_of(header, id) {
            None => return,
            Some(number) => drop_at(header, number),
        }
    }
}

fn is_transfer_kind(kind: RingKind) -> bool
    ensures { result ≡ is_transfer_kind kind }
{
    match kind {
        RingKind::Xfer => true,
        RingKind::Cmd | RingKind::Evt => false,
    }
}

/// The header lists the ring, in place of one that had its ID. Of command and of event rings the newest stands first: the controller
/// uses that.
fn list(header: &mut Header, ring: &Ring) -> Result<(), AllocError>
    ensures { OnOk result (header.new ≡ listed header.old ring.now) }
{
    drop_ring(header, ring.id);
    if is_transfer_kind(ring.shape.kind()) {
        add(header, ring)?;
        return Ok(());
    }
    let copy = ring.copy()?;
    header.rings.push_first(copy)?;
    Ok(())
}

/// The header has one ring more.
fn add(header: &mut Header, ring: &Ring) -> Result<(), AllocError>
    ensures { OnOk result (header.new ≡ with_ring header.old ring.now) }
{
    let copy = ring.copy()?;
    header.rings.push(copy)?;
    Ok(())
}

/// Whether both have the ID, or a segment of one overlaps one of the other.
fn is_in_way(ring: &Ring, other: &Ring) -> bool
    ensures { result ≡ is_in_way ring.now other.now }
{
    other.id == ring.id || other.shape.overlaps_ring(&ring.shape)
}

fn some_in_way(ring: &Ring, others: &[Ring]) -> bool
    ensures { result ≡ list_any (is_in_way ring.now) others.now }
{
    others.iter().any(|other| is_in_way(ring, other))
}

/// Whether none of the rings that live is in the way of one that comes.
fn may_come(live: &Header, ring: &Ring) -> bool
    ensures { result ≡ may_come live.now ring.now }
{
    !some_in_way(ring, live.rings.as_slice())
}

/// A ring comes, nothing has happened on it, and the controller doesn't look at it; where one that lives is in its way nothing is changed (xHCI 4.9).
pub(crate) fn add_ring(rings: &mut Rings, kept: &mut Kept, ring: &Ring) -> Result<(), AllocError>
    ensures { OnOk result ((rows : List RowValue) (words : ℕ → ℕ) (x : Scene) → FollowsScene rings.old rows words kept.old x →
        FollowsScene rings.new rows words kept.new (if may_come x.live ring.now then with_coming x ring.now else x)) }
{
    if !may_come(&rings.live, ring) {
        return Ok(());
    }
    list(&mut rings.declared, ring)?;
    add(&mut rings.live, ring)?;
    empty(kept, ring.id);
    Ok(())
}

/// The life of the ring with this ID ends: it is declared still, with all that happened on it (xHCI 4.9).
pub(crate) fn end_life(rings: &mut Rings, id: u8)
    ensures { (rows : List RowValue) (words : ℕ → ℕ) (k : KeptValue) (x : Scene) → FollowsScene rings.old rows words k x →
        FollowsScene rings.new rows words k (record x { live = without_ring x.live id }) }
{
    drop_ring(&mut rings.live, id);
}

/// The descriptor that begins at a position of a ring is withdrawn (xHCI 4.6.9, 6.4.1.4.1).
pub(crate) fn withdraw(kept: &mut Kept, ring: u8, position: u64)
    ensures { (h : HeaderValue) (words : ℕ → ℕ) (w : World) → Follows h words kept.old w →
        Follows h words kept.new (without_descriptor w ring position) }
{
    let state = &mut kept.rings[usize::from(ring)];
    state.declared.withdraw(position);
}
