ghost use Rattle.std.specs.Prelude.{◌≡◌, ℕ, ◌+◌, ◌-◌, ◌&&◌, ◌<◌, ◌≤◌, ◌^◌, false, length, position, IfSome, Err, Option};
ghost use Rattle.trb.specs.Block.{code, endpoint, kind, slot};
ghost use Rattle.trb.specs.CompletionCode.{counted_code, is_success, is_halting, is_of_service, is_trb_error, is_stopping};
ghost use Rattle.trb.specs.Kind.{is_transfer_event};
ghost use Rattle.commands.specs.Command.{is_stop_of};
ghost use Rattle.commands.specs.States.{is_running};
ghost use Rattle.segments.specs.Places.{address_of};
ghost use Rattle.traces.specs.declared.header.Header.{Header as HeaderValue};
ghost use Rattle.traces.specs.Header.{event_shape};
ghost use Rattle.traces.specs.Versions.{has_isoch, may_have_data};
ghost use Rattle.world_state.specs.World.{World};
ghost use Rattle.world_state.specs.Takes.{names, names_last, unreported};
ghost use Rattle.controller_model.specs.declared.seen.Seen.TheVariants.{Posted};
ghost use Rattle.world_state.specs.Posts.{is_stop_under_way, report_code, report_error, report_stop, report_success, reported, stopped_with, with_reported, with_stopped};
ghost use Rattle.controller_model.specs.Following.{Follows, IsChange, IsStep, KeepsRun, told};

use crate::endpoints::{endpoint_of, set_state};
use crate::fault::StepFault;
use crate::kept::Kept;
use crate::looks::command_of;
use crate::posts::{can_post, event_ring, post};
use crate::rings::{deactivate, ring_state};
use crate::seen::Seen;
use crate::takes::{names_last, oldest_named};
use commands::{Command, EndpointState, is_stop_of};
use guest_memory::WordMemory;
use traces::Header;
use trb::{
    Block, BlockKind, counted_code, is_halting, is_of_service, is_stopping, is_success,
    is_trb_error,
};

/// So many more takes of a ring are reported, the oldest first.
fn report_takes(kept: &mut Kept, ring: u8, count: usize)
    ensures change { (h : HeaderValue) (words : ℕ → ℕ) (w : World) → count ≤ length (unreported w ring) → Follows h words kept.old w →
        Follows h words kept.new (with_reported h w ring (w.reported ring + count)) }
    ensures rest { KeepsRun kept.old kept.new }
{
    let state = &mut kept.rings[usize::from(ring)];
    state.history.report_first(count);
}

/// How many takes of a ring weren't reported.
fn unreported(kept: &Kept, ring: u8) -> usize
    ensures { (h : HeaderValue) (words : ℕ → ℕ) (w : World) → Follows h words kept.now w → result ≡ length (unreported w ring) }
{
    ring_state(kept, ring).history.unreported()
}

/// Whether the last take of a ring wasn't reported, and an event names it.
fn is_last(kept: &Kept, ring: u8, event: Block) -> bool
    ensures { (h : HeaderValue) (words : ℕ → ℕ) (w : World) → Follows h words kept.now w →
        result ≡ names_last event (unreported w ring) }
{
    let history = &ring_state(kept, ring).history;
    names_last(event, history.unreported_takes())
}

/// Which of a ring's takes that weren't reported is the oldest that an event names.
fn take_named(kept: &Kept, ring: u8, event: Block) -> Option<usize>
    ensures value { (h : HeaderValue) (words : ℕ → ℕ) (w : World) → Follows h words kept.now w →
        result ≡ position (names event) (unreported w ring) }
    ensures below { (h : HeaderValue) (words : ℕ → ℕ) (w : World) → Follows h words kept.now w →
        IfSome result (λ n. n < length (unreported w ring)) }
    ensures end { IfSome result (λ n. n + 1 < 2 ^ 64) }
{
    let history = &ring_state(kept, ring).history;
    oldest_named(event, history.unreported_takes())
}

/// Whether an endpoint is Running, and a ring active.
fn works(kept: &Kept, slot: u8, index: u8, ring: u8) -> bool
    requires { index < 32 }
    ensures { (h : HeaderValue) (words : ℕ → ℕ) (w : World) → Follows h words kept.now w →
        result ≡ (is_running (w.endpoint_state slot index) && w.is_active ring) }
{
    let is_running = is_running(endpoint_of(kept, slot, index).state);
    is_running & ring_state(kept, ring).is_active
}

fn is_running(state: EndpointState) -> bool
    ensures { result ≡ is_running state }
{
    matches!(state, EndpointState::Running)
}

/// Success: the oldest take that an event names and that wasn't reported is reported, with those before it (xHCI 4.10.2, 4.11.5.2).
fn report_success(kept: &mut Kept, ring: u8, event: Block) -> bool
    ensures change { (h : HeaderValue) (words : ℕ → ℕ) (w : World) → Follows h words kept.old w →
        IsChange result (report_success h w ring event) (Follows h words kept.new) }
    ensures refused { result ≡ false → kept.new ≡ kept.old }
    ensures rest { KeepsRun kept.old kept.new }
{
    match take_named(kept, ring, event) {
        None => false,
        Some(n) => {
            report_takes(kept, ring, n + 1);
            true
        }
    }
}

/// An error at the last take, which wasn't reported: all are reported, the endpoint is in this state, and its ring inactive
/// (xHCI 4.10.2.1).
fn report_error(
    kept: &mut Kept,
    slot: u8,
    index: u8,
    ring: u8,
    event: Block,
    state: EndpointState,
) -> bool
    requires { index < 32 }
    ensures change { (h : HeaderValue) (words : ℕ → ℕ) (w : World) → Follows h words kept.old w →
        IsChange result (report_error h w slot index ring event state) (Follows h words kept.new) }
    ensures refused { result ≡ false → kept.new ≡ kept.old }
    ensures rest { KeepsRun kept.old kept.new }
{
    if !works(kept, slot, index, ring) {
        return false;
    }
    if !is_last(kept, ring, event) {
        return false;
    }
    let count = unreported(kept, ring);
    report_takes(kept, ring, count);
    deactivate(kept, ring);
    set_state(kept, slot, index, state);
    true
}

/// Whether a Stop Endpoint for this endpoint is under way.
#[tactic(auto, unfolding(world_state::specs::Posts::is_stop_under_way))]
fn is_stop_under_way(kept: &Kept, slot: u8, index: u8) -> bool
    ensures { (h : HeaderValue) (words : ℕ → ℕ) (w : World) → Follows h words kept.now w →
        result ≡ is_stop_under_way h slot index w.under_way }
{
    match kept.under_way {
        None => false,
        Some(pending) => is_stop_of(command_of(&pending.block), slot, index),
    }
}

/// The Stopped event of the Stop Endpoint under way was posted.
fn note_stopped(kept: &mut Kept)
    ensures change { (h : HeaderValue) (words : ℕ → ℕ) (w : World) → Follows h words kept.old w →
        Follows h words kept.new (record w { under_way = with_stopped h w.under_way }) }
    ensures rest { KeepsRun kept.old kept.new }
{
    if let Some(pending) = &mut kept.under_way {
        pending.has_stopped = true;
    }
}

/// The endpoint's ring is stopped, and so many more takes of it are reported.
fn stop_after(kept: &mut Kept, ring: u8, count: usize)
    ensures change { (h : HeaderValue) (words : ℕ → ℕ) (w : World) → count ≤ length (unreported w ring) → Follows h words kept.old w →
        Follows h words kept.new (stopped_with h w ring (w.reported ring + count)) }
    ensures rest { KeepsRun kept.old kept.new }
{
    report_takes(kept, ring, count);
    deactivate(kept, ring);
    note_stopped(kept);
}

/// A Stop Endpoint stops the endpoint: at the last take, where that wasn't reported, which then still may be, or at the
/// dequeue pointer (xHCI 4.6.9).
fn report_stop(kept: &mut Kept, slot: u8, index: u8, ring: u8, event: Block) -> bool
    requires { index < 32 }
    ensures change { (h : HeaderValue) (words : ℕ → ℕ) (w : World) → Follows h words kept.old w →
        IsChange result (report_stop h w slot index ring event) (Follows h words kept.new) }
    ensures refused { result ≡ false → kept.new ≡ kept.old }
    ensures rest { KeepsRun kept.old kept.new }
{
    if !is_stop_under_way(kept, slot, index) {
        return false;
    }
    if !works(kept, slot, index, ring) {
        return false;
    }
    let count = unreported(kept, ring);
    if is_last(kept, ring, event) {
        stop_after(kept, ring, count.saturating_sub(1));
        return true;
    }
    if event.pointer() != ring_state(kept, ring).pointer {
        return false;
    }
    stop_after(kept, ring, count);
    true
}

/// What a Transfer Event with this completion code says of an endpoint and its ring (xHCI 6.4.5).
#[tactic(auto, unfolding(world_state::specs::Posts::report_code))]
fn report_code(kept: &mut Kept, code: u8, slot: u8, index: u8, ring: u8, event: Block) -> bool
    requires { index < 32 }
    ensures change { (h : HeaderValue) (words : ℕ → ℕ) (w : World) → Follows h words kept.old w →
        IsChange result (report_code h w code slot index ring event) (Follows h words kept.new) }
    ensures refused { result ≡ false → kept.new ≡ kept.old }
    ensures rest { KeepsRun kept.old kept.new }
{
    if is_success(code) {
        return report_success(kept, ring, event);
    }
    if is_halting(code) {
        return report_error(kept, slot, index, ring, event, EndpointState::Halted);
    }
    if is_trb_error(code) {
        return report_error(kept, slot, index, ring, event, EndpointState::Error);
    }
    if is_stopping(code) {
        return report_stop(kept, slot, index, ring, event);
    }
    false
}

/// Whether the words are those of a Transfer Event, with Event Data only where the version and the code have it (xHCI 6.4.2.1,
/// 4.11.5.2).
fn is_report(header: &Header, block: &Block) -> bool
    ensures { result ≡ (is_transfer_event (kind block.now) && may_have_data header.now.version block.now) }
{
    matches!(block.kind(), BlockKind::TransferEvent) && header.version.may_have_data(*block)
}

/// Whether an event tells of the service of its endpoint, as isochronous ones have it, and of no block (xHCI 4.10.3).
fn tells_of_service(header: &Header, block: &Block) -> bool
    ensures { result ≡ (has_isoch header.now.version && is_of_service (code block.now)) }
{
    header.version.has_isoch() && is_of_service(block.code())
}

/// How the code of an event counts, by whether its endpoint is isochronous.
fn code_at(header: &Header, is_isochronous: bool, block: &Block) -> u8
    ensures { result ≡ counted_code (has_isoch header.now.version && is_isochronous) (code block.now) }
{
    counted_code(header.version.has_isoch() && is_isochronous, block.code())
}

/// What a Transfer Event says, at the endpoint that it names, where that has a ring.
fn report_on(header: &Header, kept: &mut Kept, block: &Block) -> bool
    ensures change { (words : ℕ → ℕ) (w : World) → Follows header.now words kept.old w →
        IsChange result (told header.now w block.now (w.ring_of (slot block.now) (endpoint block.now))) (Follows header.now words kept.new) }
    ensures refused { result ≡ false → kept.new ≡ kept.old }
    ensures rest { KeepsRun kept.old kept.new }
{
    let slot = block.slot();
    let index = block.endpoint();
    let endpoint = endpoint_of(kept, slot, index);
    match endpoint.ring {
        None => false,
        Some(_) if tells_of_service(header, block) => true,
        Some(ring) => {
            let code = code_at(header, endpoint.is_isochronous, block);
            report_code(kept, code, slot, index, ring, *block)
        }
    }
}

/// The controller posts a Transfer Event (xHCI 4.10.2, 6.4.2.1).
#[tactic(auto, using(crate::proofs::PostLemmas::no_ring), unfolding(world_state::specs::Posts::reported, traces::specs::Header::event_shape))]
pub(crate) fn report<M: WordMemory>(
    header: &Header,
    memory: &mut M,
    kept: &mut Kept,
    block: &Block,
    step: u64,
) -> Result<Seen, StepFault>
    requires { step ≡ kept.old.progress.steps + 1 }
    ensures step { (w : World) → Follows header.now (M.words memory.old) kept.old w →
        IsStep result (reported header.now w block.now) (Posted (address_of (event_shape header.now) w.posted)) (Follows header.now (M.words memory.new) kept.new) }
    ensures refused { result ≡ Err StepFault.NotPossible → kept.new ≡ kept.old }
    ensures memory { result ≡ Err StepFault.NotPossible → M.words memory.new ≡ M.words memory.old }
{
    let shape = match event_ring(header) {
        None => return Err(StepFault::NotPossible),
        Some(ring) => &ring.shape,
    };
    if !can_post(shape, kept, block) {
        return Err(StepFault::NotPossible);
    }
    if !is_report(header, block) {
        return Err(StepFault::NotPossible);
    }
    if !report_on(header, kept, block) {
        return Err(StepFault::NotPossible);
    }
    let at = post(shape, memory, kept, block, step)?;
    Ok(Seen::Posted { at })
}
