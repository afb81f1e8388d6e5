//! An event that was read, whatever its type: xHCI 4.9.4, 6.4.2.
ghost use Rattle.std.specs.Prelude.{◌≡◌, ◌+◌, ◌-◌, ◌<◌, ◌^◌, ◌==◌, ◌||◌, not, ℕ, true, nat_lt};
ghost use Rattle.trb.specs.Block.{cycle, kind};
ghost use Rattle.trb.specs.Kind.{is_event};
ghost use Rattle.segments.specs.Places.{cycle_of, place_count};
ghost use Rattle.traces.specs.Header.{event_shape};
ghost use Rattle.traces.specs.declared.header.Header.{Header};
ghost use Rattle.ring_knowledge.specs.Known.{Known};
ghost use Rattle.ownership_rules.specs.Events.{is_past_room};
ghost use Rattle.trace_record.specs.FollowsTrace.{FollowsEvents, FollowsTrace};
ghost use Rattle.trace_record.specs.Premises.{IsSetUp};
ghost use Rattle.trace_record.specs.Fresh.{IsWithin};

use event_ring::EventPlace;
use trace_record::TraceRecord;
use trb::{Block, BlockKind};

/// Whether no controller can have posted an event, whatever its type says: before the start, without room in the event ring, with
/// another Cycle bit than that of its place, or of a type that is no event's.
#[inline(always)]
pub fn is_no_event(t: &TraceRecord, event: Block) -> bool
    ensures { (h : Header) (k : Known) (m : ℕ → ℕ) → FollowsTrace h k t.now m → IsSetUp h k →
        result ≡ (not k.started || is_past_room h k || not (cycle event == cycle_of (event_shape h) k.reads) || not (is_event (kind event))) }
{
    let Some(events) = &t.events else {
        return true;
    };
    if !t.registers.is_started() {
        return true;
    }
    is_misplaced(events, event)
}

/// Whether the event ring has no room for one more event, or the event has another Cycle bit than that of its place, or a type
/// that is no event's.
#[inline(always)]
fn is_misplaced(events: &EventPlace, event: Block) -> bool
    ensures { result ≡ (nat_lt (place_count events.now.shape - 2) (events.now.counts.reads - events.now.counts.dequeue)
        || not (cycle event == cycle_of events.now.shape events.now.counts.reads) || not (is_event (kind event))) }
{
    is_past_room(events) || has_other_cycle(events, event) || !is_event(event.kind())
}

/// Whether the event ring has no room for one more event: one place stays empty (xHCI 4.9.4).
fn is_past_room(events: &EventPlace) -> bool
    ensures { result ≡ nat_lt (place_count events.now.shape - 2) (events.now.counts.reads - events.now.counts.dequeue) }
{
    let most = u64::from(events.shape().places()) - 2;
    most < events.reads() - events.dequeue()
}

/// Whether the event has another Cycle bit than that of the place that is read next.
fn has_other_cycle(events: &EventPlace, event: Block) -> bool
    ensures { result ≡ not (cycle event == cycle_of events.now.shape events.now.counts.reads) }
{
    event.cycle() != events.shape().cycle(events.reads())
}

/// The type is that of an event.
fn is_event(kind: BlockKind) -> bool
    ensures { result ≡ is_event kind }
{
    matches!(
        kind,
        BlockKind::TransferEvent
            | BlockKind::CommandCompletion
            | BlockKind::PortStatusChange
            | BlockKind::BandwidthRequest
            | BlockKind::Doorbell
            | BlockKind::HostController
            | BlockKind::DeviceNotification
            | BlockKind::MfindexWrap
    )
}

/// Counts an event that was read, which has the Cycle bit of its place.
#[inline(always)]
pub fn count_read(t: &mut TraceRecord, event: Block)
    requires few { IsWithin t.old.events (2 ^ 32) }
    ensures followed { (h : Header) (k : Known) (m : ℕ → ℕ) → FollowsTrace h k t.old m → (cycle event == cycle_of (event_shape h) k.reads) ≡ true →
        FollowsTrace h (record k { reads = k.reads + 1 }) t.new m }
    ensures reads { (n : ℕ) → IsWithin t.old.events n → IsWithin t.new.events (n + 1) }
{
    count(&mut t.events, event);
}

/// The same of the event ring.
#[inline(always)]
fn count(events: &mut Option<EventPlace>, event: Block)
    requires few { IsWithin events.old (2 ^ 32) }
    ensures counted { (h : Header) (k : Known) → FollowsEvents h k events.old → (cycle event == cycle_of (event_shape h) k.reads) ≡ true →
        FollowsEvents h (record k { reads = k.reads + 1 }) events.new }
    ensures reads { (n : ℕ) → IsWithin events.old n → IsWithin events.new (n + 1) }
{
    if let Some(place) = events {
        let _read = place.read(&event);
    }
}
