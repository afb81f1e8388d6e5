ghost use Rattle.std.specs.Prelude.{◌≡◌, ℕ, ◌==◌, ◌&&◌, ◌<◌, ◌%◌, not, if◌then◌else◌, false, OnOk, Option, IsSome};
ghost use Rattle.segments.specs.Places.{is_inside};
ghost use Rattle.traces.specs.declared.header.Header.{Header as HeaderValue};
ghost use Rattle.traces.specs.Header.{ring_having, ring_with, shape_of, is_transfer_kind};
ghost use Rattle.world_state.specs.World.{World};
ghost use Rattle.world_state.specs.Bindings.{is_had_by_another, placed_on};
ghost use Rattle.controller_model.specs.Following.{Follows, KeepsRun, Lists, bound, freed, is_endpoint, is_other, may_get, released};

use crate::endpoints::endpoint_of;
use crate::kept::{Endpoint, Holder, Kept};
use crate::looks::{is_inside, ring_with};
use crate::rings::ring_state;
use commands::EndpointState;
use segments::RingShape;
use std::alloc::AllocError;
use traces::Header;
use trb::RingKind;

/// Slot 0 and index 0 are no endpoint's (xHCI 4.5.1).
fn is_endpoint(slot: u8, index: u8) -> bool
    ensures { result ≡ is_endpoint slot index }
{
    slot != 0 && index != 0
}

/// Who has a ring that an endpoint gets.
fn holder_of(slot: u8, index: u8) -> Option<Holder>
    ensures { result ≡ (if is_endpoint slot index then Some (record { slot = slot; index = index }) else None) }
{
    if is_endpoint(slot, index) {
        Some(Holder { slot, index })
    } else {
        None
    }
}

/// Who has a ring that an endpoint had.
fn left_by(holder: Option<Holder>, slot: u8, index: u8) -> Option<Holder>
    ensures { result ≡ (if is_endpoint slot index then None else holder) }
{
    if is_endpoint(slot, index) {
        None
    } else {
        holder
    }
}

/// The endpoint has this ring no more, and the ring is inactive.
fn release(kept: &mut Kept, slot: u8, index: u8, ring: u8)
    requires { index < 32 }
    ensures change { (h : HeaderValue) (words : ℕ → ℕ) (w : World) → w.ring_of slot index ≡ Some ring → Follows h words kept.old w →
        Follows h words kept.new (released w slot index ring) }
    ensures rest { KeepsRun kept.old kept.new }
{
    let state = &mut kept.rings[usize::from(ring)];
    state.is_active = false;
    state.holder = left_by(state.holder, slot, index);
    let endpoint = &mut kept.endpoints[usize::from(slot) * 32 + usize::from(index)];
    endpoint.ring = None;
}

/// The endpoint has no ring, and the one that it had is inactive.
pub(crate) fn free(kept: &mut Kept, slot: u8, index: u8)
    requires { index < 32 }
    ensures change { (h : HeaderValue) (words : ℕ → ℕ) (w : World) → Follows h words kept.old w →
        Follows h words kept.new (freed w slot index (w.ring_of slot index)) }
    ensures rest { KeepsRun kept.old kept.new }
{
    match endpoint_of(kept, slot, index).ring {
        None => {}
        Some(ring) => release(kept, slot, index, ring),
    }
}

/// An endpoint that has no ring gets this one, from this address on and with this cycle state; nothing is active, and all
/// takes count as reported.
#[expect(clippy::too_many_arguments)]
fn bind(
    kept: &mut Kept,
    shape: &RingShape,
    slot: u8,
    index: u8,
    ring: u8,
    pointer: u64,
    cycle: bool,
    state: EndpointState,
) -> Result<(), AllocError>
    requires index { index < 32 }
    requires aligned { pointer % 16 ≡ 0 }
    ensures change { OnOk result ((h : HeaderValue) (words : ℕ → ℕ) (w : World) → shape.now ≡ shape_of h ring →
        w.ring_of slot index ≡ None → is_had_by_another w slot index ring ≡ false → Follows h words kept.old w →
        Follows h words kept.new (bound w slot index ring pointer cycle state)) }
    ensures rest { KeepsRun kept.old kept.new }
{
    let bound = &mut kept.rings[usize::from(ring)];
    bound.history.place(shape, pointer)?;
    bound.pointer = pointer;
    bound.cycle = cycle;
    bound.is_active = false;
    bound.holder = holder_of(slot, index);
    let endpoint = &mut kept.endpoints[usize::from(slot) * 32 + usize::from(index)];
    endpoint.state = state;
    endpoint.ring = Some(ring);
    Ok(())
}

/// Whether another endpoint has the ring.
fn is_had_by_another(kept: &Kept, slot: u8, index: u8, ring: u8) -> bool
    ensures { (h : HeaderValue) (words : ℕ → ℕ) (w : World) → Follows h words kept.now w →
        result ≡ is_had_by_another w slot index ring }
{
    is_other(ring_state(kept, ring).holder, slot, index)
}

fn is_other(holder: Option<Holder>, slot: u8, index: u8) -> bool
    ensures { result ≡ is_other holder slot index }
{
    match holder {
        None => false,
        Some(holder) => !(holder.slot == slot && holder.index == index),
    }
}

fn is_transfer_kind(kind: RingKind) -> bool
    ensures { result ≡ is_transfer_kind kind }
{
    match kind {
        RingKind::Xfer => true,
        RingKind::Cmd | RingKind::Evt => false,
    }
}

/// The transfer ring that has a block at this address.
#[tactic(auto, unfolding(traces::specs::Header::ring_having))]
pub(crate) fn ring_having(header: &Header, address: u64) -> Option<u8>
    requires { address % 16 ≡ 0 }
    ensures { result ≡ ring_having header.now address }
{
    let ring = header.rings.as_slice().iter().find(|ring| is_transfer_kind(ring.shape.kind())
        && is_inside(&ring.shape, address))?;
    Some(ring.id)
}

/// The endpoint gets the ring at the pointer, from there on and with this cycle state, where that is possible
/// (xHCI 4.6.10, 6.2.3).
pub(crate) fn place(
    header: &Header,
    kept: &mut Kept,
    slot: u8,
    index: u8,
    pointer: u64,
    cycle: bool,
    state: EndpointState,
) -> Result<(), AllocError>
    requires index { index < 32 }
    requires aligned { pointer % 16 ≡ 0 }
    ensures change { OnOk result ((h : HeaderValue) (words : ℕ → ℕ) (w v : World) → Lists h header.now → placed_on w slot index pointer cycle state (ring_having header.now pointer) ≡ Some v →
        Follows h words kept.old w → Follows h words kept.new v) }
    ensures rest { KeepsRun kept.old kept.new }
{
    let ring = match ring_having(header, pointer) {
        None => return Ok(()),
        Some(ring) => ring,
    };
    let shape = match ring_with(header, ring) {
        None => return Ok(()),
        Some(ring) => &ring.shape,
    };
    free(kept, slot, index);
    bind(kept, shape, slot, index, ring, pointer, cycle, state)?;
    Ok(())
}

/// Whether the endpoint can get the ring at the pointer.
pub(crate) fn can_place(header: &Header, kept: &Kept, slot: u8, index: u8, pointer: u64) -> bool
    requires { pointer % 16 ≡ 0 }
    ensures { (h : HeaderValue) (words : ℕ → ℕ) (w : World) → Follows h words kept.now w →
        result ≡ may_get w slot index (ring_having header.now pointer) }
{
    match ring_having(header, pointer) {
        None => false,
        Some(ring) => !is_had_by_another(kept, slot, index, ring),
    }
}
