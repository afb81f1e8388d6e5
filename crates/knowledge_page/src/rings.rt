//! The rings: what is declared, given and passed on each, and which endpoint it serves.
ghost use Rattle.std.specs.Prelude.{◌≡◌, ◌≢◌, ℕ, IfNone, IfSome, Some};
ghost use Rattle.segments.specs.ShapeValue.{Shape};
ghost use Rattle.segments.specs.RingView.{RingView};
ghost use Rattle.ring_knowledge.specs.Known.{Known};
ghost use Rattle.ring_knowledge.specs.RingRecords.{FollowsRing};
ghost use Rattle.trace_record.specs.DeviceSlots.Devices.{FollowsDevices};
ghost use Rattle.trace_record.specs.DeviceSlots.Holders.{HasOneHolder};
ghost use Rattle.knowledge_page.specs.Rings.{AreFacts};

use crate::leased::{Run, write_runs};
use crate::standing::Standing;
use crate::withdrawn::write_withdrawn;
use event_ring::EventPlace;
use ring_knowledge::RingRecord;
use row_history::endpoint_state_name;
use segments::{RingShape, Spot};
use std::alloc::{AllocError, Global};
use trace_record::DeviceRecord;
use traces::Ring;
use trb::RingKind;

/// What is known of a Command or Transfer Ring (xHCI 4.9.2). TRBs count from 0 from the beginning of the trace, without the Links.
#[derive(Clone, Copy, Debug, PartialEq, Eq)]
pub struct RingFacts {
    /// How many TRBs were declared.
    pub declared: u64,
    /// How many of them are given without a gap, with the Links between them.
    pub given: u64,
    /// How many of them the controller has surely passed.
    pub passed: u64,
    /// The floor: the TRB or Link that its dequeue pointer has surely reached.
    pub floor: Spot,
    /// The number that its dequeue pointer may have reached.
    pub ceiling: u64,
    /// Whether it may go on to what is given next; else the driver holds it at the ceiling.
    pub is_open: bool,
}

/// An endpoint, by its slot and its index (DCI).
#[derive(Clone, Copy)]
pub(crate) struct Served {
    pub(crate) slot: u8,
    pub(crate) endpoint: u8,
}

/// What is known of a Command or Transfer Ring.
pub fn ring_facts(known: &RingRecord) -> RingFacts
    ensures { (shape : Shape) (v : RingView) → FollowsRing shape v known.now → AreFacts shape v result }
{
    RingFacts {
        declared: known.declared_count() as u64,
        given: known.given_count(),
        passed: known.floor_number(),
        floor: known.floor(),
        ceiling: known.ceiling(),
        is_open: known.is_open(),
    }
}

/// The endpoint that a ring serves: none where no endpoint has it.
pub(crate) fn served_by(devices: &DeviceRecord, ring: u8) -> Option<Served>
    ensures some { IfSome result (λ e. (k : Known) → FollowsDevices k devices.now → k.ring_of e.slot e.endpoint ≡ Some ring) }
    ensures none { IfNone result ((k : Known) → FollowsDevices k devices.now → HasOneHolder k ring → (s i : ℕ) → k.ring_of s i ≢ Some ring) }
{
    let (slot, endpoint) = devices.holder(ring)?;
    Some(Served { slot, endpoint })
}

/// A paragraph for each ring with which something was done.
pub(crate) fn write_rings(
    alloc: Global,
    page: &mut String,
    standing: &Standing,
    runs: &[Run],
) -> Result<(), AllocError> {
    let kept = &standing.kept;
    let rings = standing.header.rings.as_slice();
    let mut idle = 0u32;
    for (number, (ring, known)) in rings.iter().zip(kept.rings.iter()).enumerate() {
        let facts = ring_facts(known);
        if ring.shape.kind() == RingKind::Evt {
            write_event_ring(page, ring, &kept.events)?;
        } else if is_idle(&facts) && !kept.devices.was_bound(ring.id) {
            idle = idle.saturating_add(1);
        } else {
            write_ring(page, ring, &kept.devices, &facts, runs)?;
            write_withdrawn(alloc, page, standing, number)?;
        }
    }
    match idle {
        0 => Ok(()),
        1 => writeln!(page, "1 ring with nothing declared, and no endpoint"),
        _ => writeln!(page, "{idle} rings with nothing declared, and no endpoint"),
    }
}

/// Nothing is declared.
fn is_idle(facts: &RingFacts) -> bool {
    facts.declared == 0
}

/// The Event Ring, with its number of events that were read.
fn write_event_ring(
    page: &mut String,
    ring: &Ring,
    events: &Option<EventPlace>,
) -> Result<(), AllocError> {
    let id = ring.id;
    writeln!(page, "ring {id:02x}, Event Ring")?;
    match events {
        Some(events) => {
            let reads = events.reads();
            let dequeue = events.dequeue();
            let address = events.shape().address(dequeue);
            writeln!(
                page,
                "  events: {reads} read; ERDP stands at event {dequeue}, {address:016x}"
            )
        }
        None => Ok(()),
    }
}

/// A Command or Transfer Ring.
fn write_ring(
    page: &mut String,
    ring: &Ring,
    devices: &DeviceRecord,
    facts: &RingFacts,
    runs: &[Run],
) -> Result<(), AllocError> {
    write_use(page, ring, devices)?;
    let RingFacts {
        declared,
        given,
        passed,
        ceiling,
        ..
    } = *facts;
    write!(
        page,
        "  TRBs: {declared} declared, {given} given, {passed} passed; floor "
    )?;
    write_floor(page, &ring.shape, facts.floor)?;
    let openness = if facts.is_open { "open" } else { "held" };
    writeln!(page, ", ceiling {ceiling}, {openness}")?;
    write_runs(page, ring.id, runs)
}

/// What a ring is for.
fn write_use(page: &mut String, ring: &Ring, devices: &DeviceRecord) -> Result<(), AllocError> {
    let id = ring.id;
    if ring.shape.kind() == RingKind::Cmd {
        return writeln!(page, "ring {id:02x}, Command Ring");
    }
    match served_by(devices, id) {
        Some(Served { slot, endpoint }) => {
            let state = endpoint_state_name(devices.endpoint_state(slot, endpoint));
            let due = what_is_due(devices, slot, endpoint);
            let kind = if devices.is_isochronous(slot, endpoint) {
                ", isochronous"
            } else {
                ""
            };
            writeln!(
                page,
                "ring {id:02x}, Transfer Ring of slot {slot}, DCI {endpoint} ({state}{kind}{due})"
            )
        }
        None if devices.was_bound(id) => {
            writeln!(page, "ring {id:02x}, Transfer Ring that an endpoint had")
        }
        None => writeln!(page, "ring {id:02x}, Transfer Ring of no endpoint"),
    }
}

/// What an endpoint waits for, beside its state.
fn what_is_due(devices: &DeviceRecord, slot: u8, endpoint: u8) -> &'static str {
    if devices.must_move(slot, endpoint) {
        ", Set TR Dequeue Pointer due"
    } else if devices.stop_seen(slot, endpoint) {
        ", completion of Stop Endpoint due"
    } else {
        ""
    }
}

/// The floor, with its address.
fn write_floor(page: &mut String, shape: &RingShape, floor: Spot) -> Result<(), AllocError> {
    match floor {
        Spot::Data(position) => {
            let address = shape.address(position);
            write!(page, "TRB {position} at {address:016x}")
        }
        Spot::Link(position) => match shape.crossing(position) {
            Some(segment) => {
                let address = shape.link(segment);
                write!(page, "Link before TRB {position} at {address:016x}")
            }
            None => write!(page, "Link before TRB {position}"),
        },
    }
}
