ghost use Rattle.std.specs.Prelude.{◌≡◌, ℕ, ◌+◌, ◌&&◌, ◌==◌, ◌%◌, ◌<◌, ◌≤◌, ◌^◌, nat_lt, OnOk, IfOk, Err, Option};
ghost use Rattle.std.specs.Option.{option_copied};
ghost use Rattle.trb.specs.Block.{kind};
ghost use Rattle.trb.specs.Kind.{is_other_event};
ghost use Rattle.segments.specs.Places.{address_of, cycle_of, place_count};
ghost use Rattle.event_ring.specs.EventRing.{has_room};
ghost use Rattle.traces.specs.declared.header.Header.{Header as HeaderValue};
ghost use Rattle.traces.specs.Header.{event_ring, event_shape, event_size, is_event_kind};
ghost use Rattle.world_state.specs.World.{World};
ghost use Rattle.world_state.specs.Posts.{can_post, posted, other_posted};
ghost use Rattle.controller_model.specs.declared.seen.Seen.TheVariants.{Posted, Row};
ghost use Rattle.world_state.specs.DriverRows.{event_read};
ghost use Rattle.controller_model.specs.Following.{Follows, IsStep};

use crate::fault::StepFault;
use crate::history::same_words;
use crate::kept::Kept;
use crate::looks::agrees;
use crate::memory::{block_at, store_block};
use crate::seen::Seen;
use guest_memory::WordMemory;
use segments::RingShape;
use std::alloc::AllocError;
use traces::{Header, Ring};
use trb::{Block, BlockKind, RingKind};

fn is_event_kind(kind: RingKind) -> bool
    ensures { result ≡ is_event_kind kind }
{
    match kind {
        RingKind::Evt => true,
        RingKind::Cmd | RingKind::Xfer => false,
    }
}

/// The event ring.
#[tactic(auto, unfolding(traces::specs::Header::event_ring))]
pub(crate) fn event_ring(header: &Header) -> Option<&Ring>
    ensures { option_copied result ≡ event_ring header.now }
{
    header
        .rings
        .as_slice()
        .iter()
        .find(|ring| is_event_kind(ring.shape.kind()))
}

/// Whether the words are those of an event of the controller itself.
fn is_other_event(block: &Block) -> bool
    ensures { result ≡ is_other_event (kind block.now) }
{
    matches!(
        block.kind(),
        BlockKind::PortStatusChange
            | BlockKind::BandwidthRequest
            | BlockKind::Doorbell
            | BlockKind::HostController
            | BlockKind::DeviceNotification
            | BlockKind::MfindexWrap
    )
}

/// Whether the controller has room for one more event (xHCI 4.9.4).
pub(crate) fn has_room(shape: &RingShape, posted: u64, dequeue: u64) -> bool
    ensures value { result ≡ has_room (place_count shape.now) posted dequeue }
    ensures several { 2 ≤ place_count shape.now }
{
    let size = u128::from(shape.places());
    (u128::from(posted) + 1) % size != u128::from(dequeue) % size
}

/// Whether the Event Ring has room for one more event.
#[tactic(auto, unfolding(traces::specs::Header::event_shape, traces::specs::Header::event_size))]
pub(crate) fn has_event_room(header: &Header, kept: &Kept) -> bool
    ensures { (words : ℕ → ℕ) (w : World) → Follows header.now words kept.now w →
        result ≡ (nat_lt 0 (event_size header.now) && has_room (event_size header.now) w.posted w.dequeue) }
{
    match event_ring(header) {
        None => false,
        Some(ring) => has_room(&ring.shape, kept.events.posted, kept.events.dequeue),
    }
}

/// The Cycle bit of the next event; 1 where no event ring is declared.
#[tactic(auto, using(crate::proofs::PostLemmas::no_ring_cycle), unfolding(traces::specs::Header::event_shape))]
pub(crate) fn event_cycle(header: &Header, kept: &Kept) -> bool
    ensures { (words : ℕ → ℕ) (w : World) → Follows header.now words kept.now w →
        result ≡ (cycle_of (event_shape header.now) w.posted == 1) }
{
    match event_ring(header) {
        None => true,
        Some(ring) => ring.shape.cycle(kept.events.posted),
    }
}

/// Whether the controller runs, there is room, and the words have the right Cycle bit.
#[tactic(auto, using(crate::proofs::HistoryLemmas::as_bit, crate::proofs::PostLemmas::can_post_is))]
pub(crate) fn can_post(shape: &RingShape, kept: &Kept, block: &Block) -> bool
    ensures { (h : HeaderValue) (words : ℕ → ℕ) (w : World) → shape.now ≡ event_shape h → Follows h words kept.now w →
        result ≡ can_post h w block.now }
{
    let events = kept.events;
    let is_turn = agrees(block, shape.cycle(events.posted));
    let has_room = has_room(shape, events.posted, events.dequeue);
    kept.progress.started & has_room & is_turn
}

/// Writes an event to the next place of the event ring; at which address.
pub(crate) fn post<M: WordMemory>(
    shape: &RingShape,
    memory: &mut M,
    kept: &mut Kept,
    block: &Block,
    step: u64,
) -> Result<u64, AllocError>
    requires { step ≡ kept.old.progress.steps + 1 }
    ensures place { IfOk result (λ at. at ≡ address_of shape.now kept.old.events.posted) }
    ensures posted { OnOk result ((h : HeaderValue) (w : World) → shape.now ≡ event_shape h → Follows h (M.words memory.old) kept.old w →
        Follows h (M.words memory.new) kept.new (posted h w block.now)) }
{
    let next = kept.events.posted.checked_add(1).ok_or(AllocError)?;
    let address = place(shape, kept.events.posted);
    store_block(memory, &mut kept.stamps, address, *block, step)?;
    kept.events.posted = next;
    Ok(address)
}

/// The address of a position.
fn place(shape: &RingShape, position: u64) -> u64
    ensures same { result ≡ address_of shape.now position }
    ensures aligned { result % 16 ≡ 0 }
    ensures below { result < 2 ^ 64 }
{
    let _ = shape.places();
    shape.address(position)
}

/// The controller posts an event of its own (xHCI 6.4.2.3 to 6.4.2.8).
#[tactic(auto, using(crate::proofs::PostLemmas::no_ring), unfolding(world_state::specs::Posts::other_posted, traces::specs::Header::event_shape))]
pub(crate) fn post_other<M: WordMemory>(
    header: &Header,
    memory: &mut M,
    kept: &mut Kept,
    block: &Block,
    step: u64,
) -> Result<Seen, StepFault>
    requires { step ≡ kept.old.progress.steps + 1 }
    ensures step { (w : World) → Follows header.now (M.words memory.old) kept.old w →
        IsStep result (other_posted header.now w block.now) (Posted (address_of (event_shape header.now) w.posted)) (Follows header.now (M.words memory.new) kept.new) }
    ensures refused { result ≡ Err StepFault.NotPossible → kept.new ≡ kept.old }
    ensures memory { result ≡ Err StepFault.NotPossible → M.words memory.new ≡ M.words memory.old }
{
    let shape = match event_ring(header) {
        None => return Err(StepFault::NotPossible),
        Some(ring) => &ring.shape,
    };
    if !can_post(shape, kept, block) {
        return Err(StepFault::NotPossible);
    }
    if !is_other_event(block) {
        return Err(StepFault::NotPossible);
    }
    let at = post(shape, memory, kept, block, step)?;
    Ok(Seen::Posted { at })
}

/// Where an event position lies; 0 where no event ring is declared.
#[tactic(auto, unfolding(traces::specs::Header::event_shape))]
fn event_address(header: &Header, position: u64) -> u64
    ensures same { result ≡ address_of (event_shape header.now) position }
    ensures aligned { result % 16 ≡ 0 }
{
    match event_ring(header) {
        None => 0,
        Some(ring) => place(&ring.shape, position),
    }
}

/// The driver reads an event: one that was posted and not yet read, with the words at the read place (xHCI 4.9.4).
#[tactic(auto, unfolding(world_state::specs::DriverRows::event_read, world_state::specs::World::event_at))]
pub(crate) fn read_event<M: WordMemory>(
    header: &Header,
    memory: &M,
    kept: &mut Kept,
    event: &Block,
) -> Result<Seen, StepFault>
    ensures step { (w : World) → Follows header.now (M.words memory.now) kept.old w →
        IsStep result (event_read header.now w event.now) Row (Follows header.now (M.words memory.now) kept.new) }
    ensures refused { result ≡ Err StepFault.NotPossible → kept.new ≡ kept.old }
{
    if kept.events.reads >= kept.events.posted {
        return Err(StepFault::NotPossible);
    }
    let block = block_at(memory, event_address(header, kept.events.reads));
    if !same_words(&block, event) {
        return Err(StepFault::NotPossible);
    }
    kept.events.reads += 1;
    Ok(Seen::Row)
}
