//! What the completion of a command leaves behind: ranges, and the blocks and Links of a ring that it moves (xHCI 4.6.4, 4.6.10).
ghost use Rattle.ring_knowledge.specs.declared.lease.Lease.{Lease};
ghost use Rattle.std.specs.Prelude.{◌≡◌, ◌==◌, ℕ, Bool, List, Some, map};
ghost use Rattle.traces.specs.Header.{command_id, shape_of};
ghost use Rattle.traces.specs.AllowedHeaders.{IsHeader};
ghost use Rattle.ring_knowledge.specs.Known.{Known};
ghost use Rattle.ownership_rules.specs.OpenLeases.{is_among, range_of_command};
ghost use Rattle.leases.specs.LeaseBooks.Lents.{Lent, ended_where};
ghost use Rattle.leases.specs.LeaseBooks.LettingGo.{slot_left, slot_ranges};
ghost use Rattle.leases.specs.declared.book.ranges.RangeIndexes.{RangeIndexes as RangesValue};
ghost use Rattle.trace_record.specs.RingFinder.Finding.{IsFinder};
ghost use Rattle.trace_record.specs.FollowsTrace.{FollowsTrace};
ghost use Rattle.trace_record.specs.Premises.{EndpointRings};
ghost use Rattle.leases.specs.LeaseRows.CleanRows.{HoldsAll};
ghost use Rattle.leases.specs.LeaseRows.LeftBehind.{AreLent, EntriesFit, MovesOn, is_behind, is_moved_past, moved_by, moved_when, slot_let_go};

use crate::book::{LeaseLog, RangeIndexes};
use crate::rows::taking::{device_bytes, input_bytes, slot_entry};
use commands::Command;
use trace_record::{Finder, TraceRecord};
use traces::{Header, Ring};

/// The lease of the input context ends that the command at a position of the command ring names.
pub(crate) fn end_context_of<B: LeaseLog>(
    book: &mut B,
    ranges: &RangeIndexes,
    header: &Header,
    number: u32,
    ring: &Ring,
    position: u64,
    command: Command,
)
    ensures { (list : List Lease) (ts : List Lent) → shape_of header.now (command_id header.now) ≡ ring.now.shape → AreLent ts (range_of_command header.now position (Some command)) →
        HoldsAll (B.holds list) header.now ts book.old ranges.now →
        HoldsAll (B.holds list) header.now (map (ended_where (is_among (range_of_command header.now position (Some command))) number) ts) book.new ranges.now }
{
    let Some(address) = command.input_context() else {
        return;
    };
    let bytes = input_bytes(header.context_size);
    ranges.end_context(book, number, ring, position, bytes, address);
}

/// The leases of the entry and the device context end of a slot that has one.
pub(crate) fn end_slot<B: LeaseLog>(
    book: &mut B,
    ranges: &RangeIndexes,
    header: &Header,
    t: &TraceRecord,
    number: u32,
    slot: u8,
)
    ensures { (list : List Lease) (k : Known) (memory : ℕ → ℕ) (ts : List Lent) → FollowsTrace header.now k t.now memory → EntriesFit k → AreLent ts (slot_ranges header.now k (Some slot)) →
        HoldsAll (B.holds list) header.now ts book.old ranges.now → HoldsAll (B.holds list) header.now (map (ended_where (is_among (slot_ranges header.now k (Some slot))) number) ts) book.new ranges.now }
{
    let Some(device) = t.devices.device(slot) else {
        return;
    };
    let entry = slot_entry(&t.registers, slot);
    ranges.end_entry(book, number, slot, 8, entry);
    let bytes = device_bytes(header.context_size);
    ranges.end_device(book, number, slot, bytes, device);
}

/// The leases of the entry and the device context end of the slot that the command disables.
pub(crate) fn end_slot_of<B: LeaseLog>(
    book: &mut B,
    ranges: &RangeIndexes,
    header: &Header,
    t: &TraceRecord,
    number: u32,
    command: Command,
)
    ensures { (list : List Lease) (k : Known) (memory : ℕ → ℕ) (ts : List Lent) → FollowsTrace header.now k t.now memory → EntriesFit k → AreLent ts (slot_let_go header.now k command) →
        HoldsAll (B.holds list) header.now ts book.old ranges.now → HoldsAll (B.holds list) header.now (map (ended_where (is_among (slot_let_go header.now k command)) number) ts) book.new ranges.now }
{
    let Command::DisableSlot { slot } = command else {
        return;
    };
    end_slot(book, ranges, header, t, number, slot);
}

/// The leases of the blocks and Links end that a ring passes which the command moves.
fn end_moved<B: LeaseLog>(
    book: &mut B,
    header: &Header,
    finder: &Finder,
    t: &TraceRecord,
    number: u32,
    command: Command,
)
    requires headed { IsHeader header.now }
    requires found { IsFinder header.now.rings finder.now }
    ensures { (list : List Lease) (k : Known) (memory : ℕ → ℕ) (ts : List Lent) (ranges : RangesValue) → FollowsTrace header.now k t.now memory → EndpointRings header.now k →
        MovesOn k (moved_by header.now k command) → HoldsAll (B.holds list) header.now ts book.old ranges →
        HoldsAll (B.holds list) header.now (map (ended_where (is_moved_past k (moved_by header.now k command)) number) ts) book.new ranges }
{
    let Command::SetTrDequeue {
        slot,
        endpoint,
        dequeue,
        cycle,
    } = command
    else {
        return;
    };
    let Some(id) = t.devices.ring_of(slot, endpoint) else {
        return;
    };
    let Some(place) = finder.ring_named(id) else {
        return;
    };
    let rings = header.rings.as_slice();
    let Some(ring) = rings.get(place) else {
        return;
    };
    let records = t.rings.as_slice();
    let Some(known) = records.get(place) else {
        return;
    };
    let Some(spot) = known.target(&ring.shape, dequeue, cycle) else {
        return;
    };
    let floor = known.floor_number();
    let reached = spot.number();
    book.end_passed(number, ring, floor, reached);
}

/// The leases end of what the completion of the command at a position of the command ring leaves behind, its own block and Link apart.
pub(crate) fn end_command<B: LeaseLog>(
    book: &mut B,
    ranges: &RangeIndexes,
    header: &Header,
    finder: &Finder,
    t: &TraceRecord,
    number: u32,
    ring: &Ring,
    position: u64,
    command: Command,
    success: bool,
)
    requires headed { IsHeader header.now }
    requires found { IsFinder header.now.rings finder.now }
    ensures { (list : List Lease) (k : Known) (memory : ℕ → ℕ) (ts : List Lent) → FollowsTrace header.now k t.now memory → EndpointRings header.now k → EntriesFit k →
        MovesOn k (moved_when header.now k success (Some command)) → shape_of header.now (command_id header.now) ≡ ring.now.shape →
        AreLent ts (range_of_command header.now position (Some command)) → AreLent ts (slot_ranges header.now k (slot_left success (Some command))) →
        HoldsAll (B.holds list) header.now ts book.old ranges.now →
        HoldsAll (B.holds list) header.now (map (ended_where (is_behind header.now k position success (Some command)) number) ts) book.new ranges.now }
{
    end_context_of(book, ranges, header, number, ring, position, command);
    if !success {
        return;
    }
    end_slot_of(book, ranges, header, t, number, command);
    end_moved(book, header, finder, t, number, command);
}
