//! A row of a Transfer Event: xHCI 4.8.3, 4.9.2, 4.10.2, 6.4.2.1.
ghost use Rattle.std.specs.Prelude.{◌≡◌, ◌&&◌, ◌||◌, ◌<◌, ◌^◌, not, ℕ, nat_lt, Some, false, true, length, option_and_then, slice_get};
ghost use Rattle.std.specs.Bool.{OnTrue};
ghost use Rattle.trb.specs.declared.block.Block.{Block as BlockValue};
ghost use Rattle.trb.specs.CompletionCode.{is_halting, is_success, is_trb_error};
ghost use Rattle.segments.specs.declared.spot.Spot.{Spot as SpotValue};
ghost use Rattle.segments.specs.ShapeValue.{Shape};
ghost use Rattle.segments.specs.Spots.{number};
ghost use Rattle.segments.specs.Ceiling.{ceiling, is_data_below, is_open, is_stop_spot};
ghost use Rattle.segments.specs.RingView.{RingView, floor_number};
ghost use Rattle.commands.specs.Command.{command_of, is_stop_of};
ghost use Rattle.commands.specs.States.{is_off, is_running};
ghost use Rattle.traces.specs.Header.{shape_of};
ghost use Rattle.traces.specs.AllowedHeaders.{IsHeader};
ghost use Rattle.traces.specs.declared.header.Header.{Header as HeaderValue};
ghost use Rattle.ring_knowledge.specs.Known.{Known};
ghost use Rattle.ring_knowledge.specs.Transfers.{transfer_read, transferred};
ghost use Rattle.ring_knowledge.specs.declared.ring_record.RingRecord.{RingRecord as RingValue};
ghost use Rattle.ring_knowledge.specs.RingRecords.{FollowsRing};
ghost use Rattle.ring_knowledge.specs.Rings.{event_at};
ghost use Rattle.trace_record.specs.DeviceSlots.Devices.{FollowsDevices};
ghost use Rattle.ownership_rules.specs.Events.{can_report, can_report_at, is_impossible_transfer, is_in_profile, is_stopping_now, is_working};
ghost use Rattle.safety.specs.Keeps.{DriverKeeps};
ghost use Rattle.trace_record.specs.RingFinder.Finding.{IsFinder};
ghost use Rattle.trace_record.specs.FollowsTrace.{FollowsTrace};
ghost use Rattle.event_rows.specs.TransferEvents.NamedSpots.{IsNamedAt};
ghost use Rattle.event_rows.specs.TransferEvents.Reported.{IsWithRecord, MayReport, reported};
ghost use Rattle.event_rows.specs.TransferEvents.Reports.{IsReportOf};

use crate::transfers::profile::is_failure;
use crate::transfers::spots::{NamedSpot, named_spot};
use commands::{Command, EndpointState, is_off, is_stop_of};
use ring_knowledge::{RingRecord, is_data_below};
use segments::{RingShape, Spot};
use trace_record::{DeviceRecord, Finder, TraceRecord, command_said, declared_command};
use traces::Header;
use trb::{Block, is_of_service, is_stopping, is_success};

/// What a Transfer Event reports: its endpoint, and how its code counts there.
#[derive(Clone, Copy)]
pub(crate) struct Report {
    slot: u8,
    index: u8,
    code: u8,
}

/// Notes a Transfer Event of the profile that a controller can have posted, and tells whether one can: not where its endpoint is
/// Disabled, or hasn't come to what the event says of the spot that it names. What is noted is how far the controller has come on
/// the ring, and in which state the endpoint is (xHCI 4.8.3, 4.9.2, 4.10.2). One that tells of the service of its endpoint names no
/// spot, and changes nothing.
#[inline(always)]
pub fn read_transfer_event(
    header: &Header,
    finder: &Finder,
    t: &mut TraceRecord,
    event: Block,
) -> bool
    requires headed { IsHeader header.now }
    requires found { IsFinder header.now.rings finder.now }
    ensures possible { (k : Known) (m : ℕ → ℕ) → FollowsTrace header.now k t.old m → DriverKeeps header.now k → is_in_profile header.now k event ≡ true →
        result ≡ not (is_impossible_transfer header.now k event) }
    ensures followed { OnTrue result ((k : Known) (m : ℕ → ℕ) → FollowsTrace header.now k t.old m → DriverKeeps header.now k → is_in_profile header.now k event ≡ true →
        FollowsTrace header.now (transfer_read header.now k event) t.new m) }
    ensures events { t.new.events ≡ t.old.events }
{
    let report = report_of(header, &t.devices, event);
    if is_off(t.devices.endpoint_state(report.slot, report.index)) {
        return false;
    }
    let Some(at) = named_spot(header, finder, t, event) else {
        return is_of_service(event.code());
    };
    if !can_report_at(header, finder, t, report, at) {
        return false;
    }
    note_at(header, t, report, at);
    true
}

/// What an event reports.
#[inline(always)]
fn report_of(header: &Header, devices: &DeviceRecord, event: Block) -> Report
    ensures known { (k : Known) → FollowsDevices k devices.now → IsReportOf header.now k event result }
    ensures last { result.index < 32 }
{
    Report {
        slot: event.slot(),
        index: event.endpoint(),
        code: devices.code_told(header, event),
    }
}

/// Whether a controller can have posted an event with this report for the spot that it names.
#[inline(always)]
fn can_report_at(
    header: &Header,
    finder: &Finder,
    t: &TraceRecord,
    report: Report,
    at: NamedSpot,
) -> bool
    requires headed { IsHeader header.now }
    requires found { IsFinder header.now.rings finder.now }
    requires below { at.number < length header.now.rings }
    ensures { (k : Known) (m : ℕ → ℕ) (event : BlockValue) → FollowsTrace header.now k t.now m → DriverKeeps header.now k → IsReportOf header.now k event report →
        IsNamedAt header.now k event at → result ≡ can_report_at header.now k event (event_at header.now k event) }
{
    let rings = header.rings.as_slice();
    let Some(known) = t.rings.get(at.number) else {
        return false;
    };
    can_report(finder, t, &rings[at.number].shape, known, report, at.spot)
}

/// Whether a controller can have posted an event with this report for a spot of a ring.
#[inline(always)]
fn can_report(
    finder: &Finder,
    t: &TraceRecord,
    shape: &RingShape,
    known: &RingRecord,
    report: Report,
    spot: Spot,
) -> bool
    ensures { (h : HeaderValue) (k : Known) (m : ℕ → ℕ) (r : ℕ) → IsHeader h → IsFinder h.rings finder.now → FollowsTrace h k t.now m → DriverKeeps h k →
        shape_of h r ≡ shape.now → FollowsRing shape.now (k.ring r) known.now → result ≡ can_report h k report.code report.slot report.index r spot }
{
    if is_success(report.code) {
        return is_data_below(known.ceiling(), spot);
    }
    if !is_working(&t.devices, known, report.slot, report.index) {
        return false;
    }
    if is_failure(report.code) {
        return is_data_below(known.ceiling(), spot);
    }
    if !is_stopping(report.code) {
        return false;
    }
    if !is_stopping_now(finder, t, report.slot, report.index) {
        return false;
    }
    known.is_stop_spot(shape, spot)
}

/// Whether an endpoint is Running and its ring open.
#[tactic(auto, unfolding(ownership_rules::specs::Events::is_working))]
fn is_working(devices: &DeviceRecord, known: &RingRecord, slot: u8, index: u8) -> bool
    ensures { (k : Known) (shape : Shape) (r : ℕ) → FollowsDevices k devices.now → FollowsRing shape (k.ring r) known.now → result ≡ is_working k slot index r }
{
    is_running(devices.endpoint_state(slot, index)) && known.is_open()
}

fn is_running(state: EndpointState) -> bool
    ensures { result ≡ is_running state }
{
    matches!(state, EndpointState::Running)
}

/// Whether the command that is finished next is a Stop Endpoint for an endpoint, and the controller may have come to it.
fn is_stopping_now(finder: &Finder, t: &TraceRecord, slot: u8, index: u8) -> bool
    ensures { (h : HeaderValue) (k : Known) (m : ℕ → ℕ) → IsHeader h → IsFinder h.rings finder.now → FollowsTrace h k t.now m → DriverKeeps h k →
        result ≡ is_stopping_now h k slot index }
{
    let Some(number) = finder.commands else {
        return false;
    };
    let Some(known) = t.rings.get(number) else {
        return false;
    };
    is_stopping_next(known, slot, index)
}

/// The same of the record of the command ring.
fn is_stopping_next(known: &RingRecord, slot: u8, index: u8) -> bool
    ensures { (shape : Shape) (v : RingView) → FollowsRing shape v known.now →
        result ≡ (nat_lt (floor_number v) (ceiling shape v) && is_stop_of slot index (option_and_then command_of (slice_get v.queue (floor_number v)))) }
{
    known.floor_number() < known.ceiling() && is_stop_of(next_command(known), slot, index)
}

/// The command that is declared at a ring's floor.
fn next_command(known: &RingRecord) -> Option<Command>
    ensures { (shape : Shape) (v : RingView) → FollowsRing shape v known.now → result ≡ option_and_then command_of (slice_get v.queue (floor_number v)) }
{
    let next = known.floor_number();
    command_said(declared_command(known, next))
}

/// Notes a Transfer Event that can have been posted, with this report, and names this spot. A Short Packet finishes the block that
/// it names, and no more of its descriptor.
#[inline(always)]
fn note_at(header: &Header, t: &mut TraceRecord, report: Report, at: NamedSpot)
    requires headed { IsHeader header.now }
    requires below { at.number < length header.now.rings }
    requires few { number at.spot < 2 ^ 63 }
    requires last { report.index < 32 }
    ensures followed { (k : Known) (m : ℕ → ℕ) (event : BlockValue) → FollowsTrace header.now k t.old m → DriverKeeps header.now k → is_in_profile header.now k event ≡ true →
        is_impossible_transfer header.now k event ≡ false → IsReportOf header.now k event report → IsNamedAt header.now k event at →
        FollowsTrace header.now (transfer_read header.now k event) t.new m }
    ensures events { t.new.events ≡ t.old.events }
{
    let rings = header.rings.as_slice();
    note_report(
        &mut t.rings,
        at.number,
        &rings[at.number].shape,
        report.code,
        at.spot,
    );
    note_state(&mut t.devices, report);
}

/// Notes in which state an endpoint is behind a report. A success leaves it as it is.
#[inline(always)]
fn note_state(devices: &mut DeviceRecord, report: Report)
    requires { report.index < 32 }
    ensures { (h : HeaderValue) (k : Known) (r : ℕ) (spot : SpotValue) → FollowsDevices k devices.old →
        FollowsDevices (transferred h k report.code report.slot report.index r spot) devices.new }
{
    if !is_success(report.code) {
        devices.read_transfer(report.code, report.slot, report.index);
    }
}

/// Notes what an event with this code says of a spot of a ring, by its number.
#[inline(always)]
fn note_report(records: &mut Vec<RingRecord>, ring: usize, shape: &RingShape, code: u8, spot: Spot)
    requires { number spot < 2 ^ 63 }
    ensures { (known : RingValue) (v : RingView) → slice_get records.old.items ring ≡ Some known → FollowsRing shape.now v known → MayReport shape.now v code spot →
        IsWithRecord records.old.items records.new.items ring shape.now (reported shape.now v code spot) }
{
    if let Some(known) = records.get_mut(ring) {
        note_on_ring(known, shape, code, spot);
    }
}

/// The same of the record of the ring.
#[inline(always)]
fn note_on_ring(known: &mut RingRecord, shape: &RingShape, code: u8, spot: Spot)
    requires { number spot < 2 ^ 63 }
    ensures { (v : RingView) → FollowsRing shape.now v known.old → MayReport shape.now v code spot → FollowsRing shape.now (reported shape.now v code spot) known.new }
{
    if is_success(code) {
        known.pass(shape, spot);
    } else if is_failure(code) {
        known.break_off(shape, spot);
    } else {
        known.stop_at(shape, spot);
    }
}
