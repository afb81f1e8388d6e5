ghost use Rattle.std.specs.Prelude.{◌≡◌, ℕ, ◌+◌, ◌*◌, ◌-◌, ◌/◌, ◌%◌, ◌^◌, ◌<◌, ◌∷◌, ◌==◌, IsTrue, if◌then◌else◌, OnOk, OnErr, IfOk, length, Option, Some, None, is_some, not, Err, ◌||◌, ◌&&◌, option_map};
ghost use Rattle.traces.specs.declared.header.Header.{Header as HeaderValue};
ghost use Rattle.traces.specs.Header.{command_id, command_ring, is_command_kind, ring_with, shape_of};
ghost use Rattle.std.specs.Option.{option_copied};
ghost use Rattle.traces.specs.declared.ring.Ring.{Ring};
ghost use Rattle.trb.specs.Block.{aligned, pointer, block_at, word, kind, cycle as cycle_bit};
ghost use Rattle.trb.specs.Bits.{is_set};
ghost use Rattle.world_state.specs.World.{World, Took};
ghost use Rattle.controller_model.specs.Following.{Follows, IsStep, RingHeld, FollowsRing, addressed, is_it, noted_held, taken_held};
ghost use Rattle.controller_model.specs.Showing.{look_shows};
ghost use Rattle.commands.specs.Command.{command_of};
ghost use Rattle.contexts.specs.Contexts.{input_context_bytes};
ghost use Rattle.trb.specs.Kind.{is_link};
ghost use Rattle.world_state.specs.Looks.{looked, looked_at, taken, command_begun, crossed, taken_on, seen_by_look};
ghost use Rattle.segments.specs.Places.{is_inside};

use crate::fault::StepFault;
use crate::kept::{Kept, Pending, RingState};
use crate::memory::block_at;
use crate::seen::Seen;
use commands::Command;
use guest_memory::WordMemory;
use segments::RingShape;
use std::alloc::AllocError;
use traces::{Header, Ring};
use trb::{Block, BlockKind, RingKind};

/// The ring with this ID.
pub(crate) fn ring_with(header: &Header, id: u8) -> Option<&Ring>
    ensures { option_copied result ≡ ring_with header.now id }
{
    header.rings.as_slice().iter().find(|ring| ring.id == id)
}

pub(crate) fn is_command_kind(kind: RingKind) -> bool
    ensures { result ≡ is_command_kind kind }
{
    match kind {
        RingKind::Cmd => true,
        RingKind::Evt | RingKind::Xfer => false,
    }
}

/// The command ring.
#[tactic(auto, unfolding(traces::specs::Header::command_ring))]
pub(crate) fn command_ring(header: &Header) -> Option<&Ring>
    ensures { option_copied result ≡ command_ring header.now }
{
    header
        .rings
        .as_slice()
        .iter()
        .find(|ring| is_command_kind(ring.shape.kind()))
}

/// Whether an address on a 16-byte boundary is one of the ring's.
pub(crate) fn is_inside(shape: &RingShape, address: u64) -> bool
    requires { address % 16 ≡ 0 }
    ensures { result ≡ is_inside shape.now address }
{
    shape.places() > 0 && shape.place_at(address).is_some()
}

/// The pointer follows a Link, and the cycle state flips with Toggle Cycle (xHCI 4.11.5.1).
pub(crate) fn cross(state: &mut RingState, link: &Block)
    ensures { (h : HeaderValue) (r : ℕ) (held : RingHeld) → FollowsRing h r held state.old →
        FollowsRing h r (record held { pointer = aligned (pointer link.now); cycle = if is_set (word link.now 3) 1 then 1 - held.cycle else held.cycle }) state.new }
{
    state.pointer = link.pointer() / 16 * 16;
    state.cycle = state.cycle != toggles(link);
}

/// Toggle Cycle (xHCI 6.4.4.1).
fn toggles(link: &Block) -> bool
    ensures { result ≡ is_set (word link.now 3) 1 }
{
    link.w[3] / 2 % 2 == 1
}

/// It is noted that the block at the pointer is taken, with what is declared at its position now; of a ring that isn't there
/// without its harms.
#[tactic(auto, using(crate::proofs::LookLemmas::noted_follows), unfolding(traces::specs::Header::shape_of))]
fn note_take(state: &mut RingState, there: Option<&Ring>, block: &Block) -> Result<(), AllocError>
    ensures { OnOk result ((h : HeaderValue) (r : ℕ) (held : RingHeld) → option_copied there.entry ≡ ring_with h r → FollowsRing h r held state.old →
        FollowsRing h r (noted_held (shape_of h r) held block.now) state.new) }
{
    let declared = state.declared.at(state.history.next());
    match there {
        Some(ring) => state
            .history
            .take(&ring.shape, state.pointer, block, declared)?,
        None => state.history.take_anywhere(state.pointer, block, declared)?,
    }
    Ok(())
}

/// The block at the pointer is taken, and the pointer moves on by 16.
fn take(state: &mut RingState, there: Option<&Ring>, block: &Block) -> Result<(), AllocError>
    ensures { OnOk result ((h : HeaderValue) (r : ℕ) (held : RingHeld) → option_copied there.entry ≡ ring_with h r → FollowsRing h r held state.old →
        FollowsRing h r (taken_held (shape_of h r) held block.now) state.new) }
{
    note_take(state, there, block)?;
    state.pointer = state.pointer.wrapping_add(16);
    Ok(())
}

/// The controller follows the Link at a ring's pointer.
fn cross_on(kept: &mut Kept, ring: u8, link: &Block)
    ensures { (h : HeaderValue) (words : ℕ → ℕ) (w : World) → Follows h words kept.old w →
        Follows h words kept.new (crossed h w ring link.now) }
{
    let state = &mut kept.rings[usize::from(ring)];
    cross(state, link);
}

/// The controller takes the block at a ring's pointer.
fn take_on(kept: &mut Kept, there: Option<&Ring>, ring: u8, block: &Block) -> Result<(), AllocError>
    ensures { OnOk result ((h : HeaderValue) (words : ℕ → ℕ) (w : World) → option_copied there.entry ≡ ring_with h ring →
        Follows h words kept.old w → Follows h words kept.new (taken_on h w ring block.now)) }
{
    let state = &mut kept.rings[usize::from(ring)];
    take(state, there, block)?;
    Ok(())
}

/// Whether an address on a 16-byte boundary is one of a ring's; it is none of one that isn't there.
fn is_of(there: Option<&Ring>, address: u64) -> bool
    requires { address % 16 ≡ 0 }
    ensures { (h : HeaderValue) (r : ℕ) → option_copied there.entry ≡ ring_with h r → result ≡ is_inside (shape_of h r) address }
{
    match there {
        None => false,
        Some(ring) => is_inside(&ring.shape, address),
    }
}

/// A look is noted where it is outside the ring's segments, or the ring doesn't live.
fn note_look(kept: &mut Kept, there: Option<&Ring>, ring: u8, pointer: u64)
    requires { pointer % 16 ≡ 0 }
    ensures { (h live : HeaderValue) (words : ℕ → ℕ) (w : World) → option_copied there.entry ≡ ring_with live ring → w.pointer_of ring ≡ pointer →
        Follows h words kept.old w → Follows h words kept.new (seen_by_look live w ring) }
{
    let is_inside = is_of(there, pointer);
    kept.looked_outside = kept.looked_outside | !is_inside;
}

/// Whether the Cycle bit of a block is the cycle state.
pub(crate) fn agrees(block: &Block, cycle: bool) -> bool
    ensures { (n : ℕ) → n ≡ (if cycle then 1 else 0) → result ≡ (cycle_bit block.now == n) }
{
    if cycle { block.cycle() } else { !block.cycle() }
}

/// Whether a block is a Link (xHCI 6.4.4.1).
fn is_link(block: &Block) -> bool
    ensures { result ≡ is_link (kind block.now) }
{
    matches!(block.kind(), BlockKind::Link)
}

/// Whether the ring with this ID is the command ring.
#[tactic(auto, unfolding(traces::specs::Header::command_id))]
fn is_command_ring(header: &Header, id: u8) -> bool
    ensures { result ≡ (id == command_id header.now) }
{
    match command_ring(header) {
        None => false,
        Some(ring) => id == ring.id,
    }
}

/// The command that a block says.
pub(crate) fn command_of(block: &Block) -> Option<Command>
    ensures { result ≡ command_of block.now }
{
    Command::read(block).ok()
}

/// The slot whose device context the controller may write from the take of a command on.
fn addressed(command: Option<Command>) -> Option<u8>
    ensures { result ≡ addressed command }
{
    match command {
        Some(Command::AddressDevice { slot, .. }) => Some(slot),
        _ => None,
    }
}

/// The controller may write the slot's device context from now on.
fn allow_slot(kept: &mut Kept, slot: u8)
    ensures { (h : HeaderValue) (words : ℕ → ℕ) (w : World) → Follows h words kept.old w →
        Follows h words kept.new (record w { scribbles = λ t. w.scribbles t || t == slot }) }
{
    let state = &mut kept.slots[usize::from(slot)];
    state.scribbles = true;
}

/// The controller may write the device context of the slot, if there is one.
fn allow(kept: &mut Kept, slot: Option<u8>)
    ensures { (h : HeaderValue) (words : ℕ → ℕ) (w : World) → Follows h words kept.old w →
        Follows h words kept.new (record w { scribbles = λ t. w.scribbles t || is_it t slot }) }
{
    match slot {
        None => {}
        Some(slot) => allow_slot(kept, slot),
    }
}

/// How many words an input context has (xHCI 6.2.5).
pub(crate) fn input_words(header: &Header) -> u64
    ensures value { result ≡ input_context_bytes header.now.context_size / 4 }
    ensures few { result < 2 ^ 32 }
{
    33 * header.context_size.bytes() / 4
}

/// The input context of a command that was taken at this address, if it names one, is watched.
fn watch_context(header: &Header, kept: &mut Kept, address: u64, block: &Block)
    ensures { (h : HeaderValue) (words : ℕ → ℕ) (w : World) → Follows h words kept.old w →
        Follows h words kept.new w }
{
    if let Some(command) = command_of(block) {
        if let Some(context) = command.input_context() {
            kept.stamps.watch(address, context, input_words(header));
        }
    }
}

/// A command that was taken at this address is under way.
fn begin(kept: &mut Kept, address: u64, block: &Block)
    ensures { (h : HeaderValue) (words : ℕ → ℕ) (w : World) → Follows h words kept.old w →
        Follows h words kept.new (command_begun h w address block.now) }
{
    allow(kept, addressed(command_of(block)));
    kept.under_way = Some(Pending {
        address,
        block: *block,
        has_stopped: false,
    });
}

/// The controller takes the block at a ring's pointer; one of the command ring is then under way.
fn take_block(
    header: &Header,
    kept: &mut Kept,
    ring: u8,
    pointer: u64,
    block: &Block,
) -> Result<(), AllocError>
    ensures { OnOk result ((words : ℕ → ℕ) (w : World) → w.pointer_of ring ≡ pointer →
        Follows header.now words kept.old w → Follows header.now words kept.new (taken header.now w ring block.now)) }
{
    take_on(kept, ring_with(header, ring), ring, block)?;
    if is_command_ring(header, ring) {
        begin(kept, pointer, block);
        watch_context(header, kept, pointer, block);
        return Ok(());
    }
    Ok(())
}

/// Whether the ring is the command ring and a command is under way.
fn is_busy(header: &Header, kept: &Kept, ring: u8) -> bool
    ensures { result ≡ ((ring == command_id header.now) && is_some kept.now.under_way) }
{
    is_command_ring(header, ring) && kept.under_way.is_some()
}

/// A look at a block (xHCI 4.9.2): it waits, follows a Link or takes the block. The ring is handed in where it lives.
#[tactic(auto, using(crate::proofs::LookBranches::busy), unfolding(world_state::specs::Looks::looked_at, crate::specs::Showing::look_shows))]
fn look_at(
    header: &Header,
    there: Option<&Ring>,
    kept: &mut Kept,
    ring: u8,
    pointer: u64,
    cycle: bool,
    block: &Block,
) -> Result<Seen, StepFault>
    requires { pointer % 16 ≡ 0 }
    ensures step { (live : HeaderValue) (words : ℕ → ℕ) (w : World) → option_copied there.entry ≡ ring_with live ring → w.pointer_of ring ≡ pointer →
        w.cycle_state ring ≡ (if cycle then 1 else 0) → Follows header.now words kept.old w →
        IsStep result (looked_at header.now live w ring block.now) (look_shows w ring block.now) (Follows header.now words kept.new) }
    ensures refused { result ≡ Err StepFault.NotPossible → kept.new ≡ kept.old }
{
    if !agrees(block, cycle) {
        note_look(kept, there, ring, pointer);
        return Ok(Seen::Waited);
    }
    if is_link(block) {
        note_look(kept, there, ring, pointer);
        cross_on(kept, ring, block);
        return Ok(Seen::Crossed);
    }
    if is_busy(header, kept, ring) {
        return Err(StepFault::NotPossible);
    }
    note_look(kept, there, ring, pointer);
    take_block(header, kept, ring, pointer, block)?;
    Ok(Seen::Took {
        ring,
        at: pointer,
        words: *block,
    })
}

/// A look at a ring: one fetch of the 16 bytes at its pointer, where it is active (xHCI 4.9.2).
pub(crate) fn look<M: WordMemory>(
    header: &Header,
    live: &Header,
    memory: &M,
    kept: &mut Kept,
    ring: u8,
) -> Result<Seen, StepFault>
    ensures step { (w : World) → Follows header.now (M.words memory.now) kept.old w →
        IsStep result (looked header.now live.now w ring) (look_shows w ring (block_at w.memory (w.pointer_of ring))) (Follows header.now (M.words memory.now) kept.new) }
    ensures refused { result ≡ Err StepFault.NotPossible → kept.new ≡ kept.old }
{
    let state = &kept.rings[usize::from(ring)];
    if !state.is_active {
        return Err(StepFault::NotPossible);
    }
    let pointer = state.pointer;
    let cycle = state.cycle;
    let there = ring_with(live, ring);
    let block = block_at(memory, pointer);
    look_at(header, there, kept, ring, pointer, cycle, &block)
}
