ghost use Rattle.std.specs.Prelude.{◌≡◌, ℕ, ◌+◌, ◌*◌, ◌^◌, ◌<◌, ◌≤◌};
ghost use Rattle.std.specs.List.{list_any};
ghost use Rattle.segments.specs.Places.{overlap};
ghost use Rattle.contexts.specs.Contexts.{slot_entry};
ghost use Rattle.traces.specs.Header.{event_shape};
ghost use Rattle.traces.specs.declared.header.Header.{Header};
ghost use Rattle.traces.specs.declared.register.Register.TheVariants.{Erstba};
ghost use Rattle.ring_knowledge.specs.Known.{Known};
ghost use Rattle.ownership_rules.specs.Areas.{is_in_range_lease};
ghost use Rattle.event_ring.specs.EventRing.{table_bytes};
ghost use Rattle.ownership_rules.specs.OpenLeases.{context_ranges, covers, entry_ranges, table_range};
ghost use Rattle.trace_record.specs.FollowsTrace.{FollowsTrace};
ghost use Rattle.driver_rows.specs.ContextRules.Entries.{touches_entry, touches_event_segment, touches_segment};

use crate::context_rules::areas::{overlap, touches_devices};
use crate::context_rules::devices::entry_at;
use segments::RingShape;
use trace_record::TraceRecord;
use traces::{Header, Register};

/// Whether so many bytes from an address on touch a range under lease: a segment of the event ring, the segment table, the
/// input context of an unfinished command, or a device context or its entry (xHCI 4.6, 4.9.4, 6.1).
pub fn is_in_range_lease(header: &Header, t: &TraceRecord, from: u64, len: u64) -> bool
    requires { from + len ≤ 2 ^ 64 }
    ensures { (k : Known) (memory : ℕ → ℕ) → FollowsTrace header.now k t.now memory → result ≡ is_in_range_lease header.now k from len }
{
    touches_events(t, from, len)
        || touches_table(t, from, len)
        || touches_inputs(t, from, len)
        || touches_entries(t, from, len)
        || touches_devices(t, from, len)
}

/// Whether these bytes touch a segment of the event ring.
fn touches_events(t: &TraceRecord, from: u64, len: u64) -> bool
    ensures { (h : Header) (k : Known) (memory : ℕ → ℕ) → FollowsTrace h k t.now memory → result ≡ touches_event_segment h from len }
{
    match &t.events {
        Some(events) => touches_segment(events.shape(), from, len),
        None => false,
    }
}

/// Whether these bytes touch a segment of a ring. No bytes do so where they lie within it.
fn touches_segment(shape: &RingShape, from: u64, len: u64) -> bool
    ensures { result ≡ touches_segment shape.now from len }
{
    if len > 0 {
        return shape.overlaps(from, len);
    }
    shape.segments().iter().any(|segment| overlap(
        from,
        len,
        segment.base,
        16 * u64::from(segment.count),
    ))
}

/// Whether these bytes touch the segment table, once ERSTBA is written (xHCI 6.5).
fn touches_table(t: &TraceRecord, from: u64, len: u64) -> bool
    ensures { (h : Header) (k : Known) (memory : ℕ → ℕ) → FollowsTrace h k t.now memory →
        result ≡ list_any (covers h from len) (table_range h (k.register Erstba)) }
{
    let Some(value) = t.registers.value(Register::Erstba) else {
        return false;
    };
    overlap(from, len, value / 64 * 64, table_bytes(t))
}

/// How many bytes the segment table has: 16 for each segment of the event ring.
fn table_bytes(t: &TraceRecord) -> u64
    ensures { (h : Header) (k : Known) (memory : ℕ → ℕ) → FollowsTrace h k t.now memory → result ≡ table_bytes (event_shape h) }
{
    match &t.events {
        Some(events) => 16 * events.shape().segments().len() as u64,
        None => 0,
    }
}

/// Whether these bytes touch the input context of an unfinished command.
fn touches_inputs(t: &TraceRecord, from: u64, len: u64) -> bool
    ensures { (h : Header) (k : Known) (memory : ℕ → ℕ) → FollowsTrace h k t.now memory → result ≡ list_any (covers h from len) (context_ranges h k) }
{
    t.inputs.touches(from, len)
}

/// Whether these bytes touch the entry of a slot that has a device context under lease.
fn touches_entries(t: &TraceRecord, from: u64, len: u64) -> bool
    requires { from + len ≤ 2 ^ 64 }
    ensures { (h : Header) (k : Known) (memory : ℕ → ℕ) → FollowsTrace h k t.now memory → result ≡ list_any (covers h from len) (entry_ranges k) }
{
    let dcbaap = t.registers.value(Register::Dcbaap).unwrap_or(0);
    let first = first_slot(dcbaap, from);
    let end = end_slot(dcbaap, u128::from(from) + u128::from(len));
    for slot in first..end {
        if touches_entry(t, slot as u8, from, len) {
            return true;
        }
    }
    false
}

/// The first slot whose entry ends behind an address, in the array that a value of DCBAAP names.
fn first_slot(dcbaap: u64, from: u64) -> u64
    ensures before { (s : ℕ) → 1 ≤ s → s < result → slot_entry dcbaap s + 8 ≤ from }
    ensures least { 1 ≤ result }
{
    (from.saturating_sub(dcbaap / 64 * 64) / 8).max(1)
}

/// The slot behind the last one whose entry begins before an address.
fn end_slot(dcbaap: u64, end: u128) -> u64
    requires { end ≤ 2 ^ 64 }
    ensures behind { (s : ℕ) → result ≤ s → s < 256 → end ≤ slot_entry dcbaap s }
    ensures most { result ≤ 256 }
{
    let above = end.saturating_sub(u128::from(dcbaap / 64 * 64));
    (above.div_ceil(8)).min(256) as u64
}

/// Whether the slot has a device context under lease and these bytes touch its entry.
fn touches_entry(t: &TraceRecord, slot: u8, from: u64, len: u64) -> bool
    requires { from + len ≤ 2 ^ 64 }
    ensures { (h : Header) (k : Known) (memory : ℕ → ℕ) → FollowsTrace h k t.now memory → result ≡ touches_entry k from len slot }
{
    if t.devices.device(slot).is_none() {
        return false;
    }
    match entry_at(t.registers.value(Register::Dcbaap).unwrap_or(0), slot) {
        Some(entry) => overlap(from, len, entry, 8),
        None => false,
    }
}
