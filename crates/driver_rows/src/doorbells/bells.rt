//! A row of a doorbell: xHCI 4.7, 4.8.3, 5.6.
ghost use Rattle.std.specs.Prelude.{◌≡◌, ◌==◌, ◌||◌, ◌<◌, not, ℕ, nat_lt, Option};
ghost use Rattle.commands.specs.States.{is_running, is_stopped};
ghost use Rattle.traces.specs.AllowedHeaders.{IsHeader};
ghost use Rattle.traces.specs.declared.header.Header.{Header as HeaderValue};
ghost use Rattle.traces.specs.declared.row.Row.TheVariants.{Bell};
ghost use Rattle.ring_knowledge.specs.Known.{Known};
ghost use Rattle.ring_knowledge.specs.Learned.{learned};
ghost use Rattle.trace_record.specs.DeviceSlots.Devices.{FollowsDevices};
ghost use Rattle.ownership_rules.specs.Doorbells.{is_bad_bell, is_bad_doorbell};
ghost use Rattle.trace_record.specs.RingFinder.Finding.{IsFinder};
ghost use Rattle.trace_record.specs.FollowsTrace.{FollowsTrace};
ghost use Rattle.trace_record.specs.Premises.{ContextsFit};
ghost use Rattle.driver_rows.specs.DoorbellRows.Numbers.{number_rung};

use crate::doorbells::rings::{endpoint_ring, open_ring};
use crate::doorbells::touches::is_touched;
use commands::EndpointState;
use guest_memory::WordMemory;
use trace_record::{DeviceRecord, Finder, TraceRecord};
use traces::Header;

/// Whether a doorbell may not be rung now: before the start, while the controller halts, that of the host controller with a target, or that
/// of an endpoint that doesn't work or that an unfinished command may change (xHCI 4.7, 4.8.3, 5.6).
#[inline(always)]
pub fn is_bad_doorbell<M: WordMemory>(
    header: &Header,
    t: &TraceRecord,
    memory: &M,
    slot: u8,
    target: u8,
) -> bool
    ensures { (k : Known) → FollowsTrace header.now k t.now (M.words memory.now) → ContextsFit header.now k →
        result ≡ is_bad_doorbell header.now k slot target }
{
    if !t.registers.is_started() {
        return true;
    }
    if t.registers.halt().is_asked() {
        return true;
    }
    if slot == 0 {
        return target != 0;
    }
    is_bad_bell(header, t, memory, slot, target)
}

/// The same of the doorbell of an endpoint.
#[inline(always)]
fn is_bad_bell<M: WordMemory>(
    header: &Header,
    t: &TraceRecord,
    memory: &M,
    slot: u8,
    index: u8,
) -> bool
    ensures { (k : Known) → FollowsTrace header.now k t.now (M.words memory.now) → ContextsFit header.now k →
        result ≡ is_bad_bell header.now k slot index }
{
    if is_no_index(index) {
        return true;
    }
    if is_idle(&t.devices, slot, index) {
        return true;
    }
    is_touched(header, t, memory, slot, index)
}

/// No endpoint has this index (DCI).
fn is_no_index(index: u8) -> bool
    ensures { result ≡ (index == 0 || nat_lt 31 index) }
{
    index == 0 || index > 31
}

/// The endpoint is neither Running nor Stopped, or it halted and its ring wasn't moved since.
fn is_idle(devices: &DeviceRecord, slot: u8, index: u8) -> bool
    ensures { (k : Known) → FollowsDevices k devices.now →
        result ≡ (not (is_running (k.endpoint_state slot index) || is_stopped (k.endpoint_state slot index)) || k.must_move slot index) }
{
    !works(devices.endpoint_state(slot, index)) || devices.must_move(slot, index)
}

/// The endpoint is Running or Stopped.
fn works(state: EndpointState) -> bool
    ensures { result ≡ (is_running state || is_stopped state) }
{
    matches!(state, EndpointState::Running | EndpointState::Stopped)
}

/// Notes a doorbell: that of the host controller opens the command ring, and that of an endpoint opens its ring and makes it
/// Running where it is Stopped (xHCI 4.7, 4.8.3).
#[inline(always)]
pub fn ring_doorbell(finder: &Finder, t: &mut TraceRecord, slot: u8, target: u8)
    ensures followed { (h : HeaderValue) (k : Known) (m : ℕ → ℕ) → IsHeader h → IsFinder h.rings finder.now → FollowsTrace h k t.old m →
        FollowsTrace h (learned h k (Bell slot target)) t.new m }
    ensures events { t.new.events ≡ t.old.events }
{
    let number = number_rung(finder, &t.devices, slot, target);
    open_ring(&mut t.rings, number);
    t.devices.ring_bell(slot, target);
}

/// The number of the ring that a doorbell opens.
#[inline(always)]
fn number_rung(finder: &Finder, devices: &DeviceRecord, slot: u8, target: u8) -> Option<usize>
    ensures { (h : HeaderValue) (k : Known) → IsFinder h.rings finder.now → FollowsDevices k devices.now → result ≡ number_rung h k slot target }
{
    if slot == 0 {
        return finder.commands;
    }
    endpoint_ring(finder, devices, slot, target)
}
