//! The ranges that a command takes when it is given: its input context, and of a slot that takes a device context the entry and
//! that context (xHCI 4.6.5, 6.1).
ghost use Rattle.ring_knowledge.specs.declared.lease.Lease.{Lease};
ghost use Rattle.std.specs.Prelude.{◌≡◌, ◌+◌, ◌%◌, ◌^◌, ◌≤◌, ℕ, true, List, [], ◌∷◌, ◌++◌, length, OnOk};
ghost use Rattle.guest_memory.specs.Memory.{long_at};
ghost use Rattle.contexts.specs.Contexts.{device_context_bytes, input_context_bytes};
ghost use Rattle.event_ring.specs.EventRing.{table_bytes};
ghost use Rattle.traces.specs.Header.{command_id, event_shape, shape_of};
ghost use Rattle.traces.specs.AllowedHeaders.{IsHeader};
ghost use Rattle.ring_knowledge.specs.Known.{Known};
ghost use Rattle.ring_knowledge.specs.RegisterRecords.{FollowsRegisters};
ghost use Rattle.ring_knowledge.specs.Writes.{entry_of, taken_device};
ghost use Rattle.ownership_rules.specs.OpenLeases.{InputContext, range_of_command};
ghost use Rattle.leases.specs.LeaseBooks.Lents.{Lent, with_begun};
ghost use Rattle.leases.specs.LeaseBooks.Ranges.{is_use_free};
ghost use Rattle.leases.specs.LeaseRows.CleanRows.{HoldsAll};
ghost use Rattle.leases.specs.LeaseRows.Taking.{EntryFits, SlotIsFree, command_taken, slot_taken};
ghost use Rattle.trace_record.specs.FollowsTrace.{FollowsTrace};

use crate::book::{LeaseLog, RangeIndexes};
use commands::Command;
use contexts::{ContextSize, long_at};
use guest_memory::WordMemory;
use ring_knowledge::RegisterRecord;
use std::alloc::AllocError;
use trace_record::{TraceRecord, is_event_ring};
use traces::{Header, Register, Ring};

/// How many bytes the entry of a slot has in the Device Context Base Address Array.
const ENTRY_BYTES: u32 = 8;

/// The ranges that the command at a position of the command ring takes come under lease.
pub(crate) fn begin_command<B: LeaseLog, M: WordMemory>(
    book: &mut B,
    ranges: &mut RangeIndexes,
    header: &Header,
    t: &TraceRecord,
    memory: &M,
    number: u32,
    ring: &Ring,
    position: u64,
    command: Command,
) -> Result<(), AllocError>
    ensures { OnOk result ((list : List Lease) (k : Known) (ts : List Lent) → FollowsTrace header.now k t.now (M.words memory.now) → EntryFits k (taken_device k command) →
        shape_of header.now (command_id header.now) ≡ ring.now.shape → SlotIsFree header.now ts (taken_device k command) → is_use_free header.now ts (InputContext position) ≡ true →
        HoldsAll (B.holds list) header.now ts book.old ranges.old → HoldsAll (B.holds list) header.now (with_begun number ts (command_taken header.now k position command)) book.new ranges.new) }
{
    begin_device_of(book, ranges, header, t, memory, number, command)?;
    begin_context_of(book, ranges, header, number, ring, position, command)
}

/// The entry and the device context of the slot come under lease to which the command gives one.
fn begin_device_of<B: LeaseLog, M: WordMemory>(
    book: &mut B,
    ranges: &mut RangeIndexes,
    header: &Header,
    t: &TraceRecord,
    memory: &M,
    number: u32,
    command: Command,
) -> Result<(), AllocError>
    ensures { OnOk result ((list : List Lease) (k : Known) (ts : List Lent) → FollowsTrace header.now k t.now (M.words memory.now) → EntryFits k (taken_device k command) →
        SlotIsFree header.now ts (taken_device k command) →
        HoldsAll (B.holds list) header.now ts book.old ranges.old → HoldsAll (B.holds list) header.now (with_begun number ts (slot_taken header.now k (taken_device k command))) book.new ranges.new) }
{
    let Command::AddressDevice { slot, .. } = command else {
        return Ok(());
    };
    if t.devices.device(slot).is_some() {
        return Ok(());
    }
    let entry = slot_entry(&t.registers, slot);
    let device = long_at(memory, entry);
    ranges.begin_entry(book, number, slot, ENTRY_BYTES, entry)?;
    ranges.begin_device(
        book,
        number,
        slot,
        device_bytes(header.context_size),
        device,
    )
}

/// The input context that the command at a position of the command ring names comes under lease.
fn begin_context_of<B: LeaseLog>(
    book: &mut B,
    ranges: &mut RangeIndexes,
    header: &Header,
    number: u32,
    ring: &Ring,
    position: u64,
    command: Command,
) -> Result<(), AllocError>
    ensures { OnOk result ((list : List Lease) (ts : List Lent) → shape_of header.now (command_id header.now) ≡ ring.now.shape → is_use_free header.now ts (InputContext position) ≡ true →
        HoldsAll (B.holds list) header.now ts book.old ranges.old → HoldsAll (B.holds list) header.now (with_begun number ts (range_of_command header.now position (Some command))) book.new ranges.new) }
{
    match command.input_context() {
        None => Ok(()),
        Some(address) => {
            let bytes = input_bytes(header.context_size);
            ranges.begin_context(book, number, ring, position, bytes, address)
        }
    }
}

/// The address of a slot's entry in the array that DCBAAP names (xHCI 6.1).
pub(crate) fn slot_entry(registers: &RegisterRecord, slot: u8) -> u64
    ensures { (k : Known) → FollowsRegisters k registers.now → entry_of k slot + 8 ≤ 2 ^ 64 → result ≡ entry_of k slot }
{
    let array = registers.value(Register::Dcbaap).unwrap_or(0) / 64 * 64;
    match array.checked_add(8 * u64::from(slot)) {
        Some(entry) => entry,
        None => 0,
    }
}

/// The bytes of a device context (xHCI 6.2.1).
pub(crate) fn device_bytes(size: ContextSize) -> u32
    ensures { result ≡ device_context_bytes size }
{
    match size {
        ContextSize::Bytes32 => 1024,
        ContextSize::Bytes64 => 2048,
    }
}

/// The bytes of the segment table: an entry for each segment of the event ring (xHCI 6.5).
pub(crate) fn table_bytes(header: &Header) -> u32
    requires { IsHeader header.now }
    ensures { result ≡ table_bytes (event_shape header.now) }
{
    16 * event_segments(header) as u32
}

/// How many segments the event ring has.
fn event_segments(header: &Header) -> u64
    requires { IsHeader header.now }
    ensures exact { result ≡ length (event_shape header.now).segments }
    ensures few { result ≤ 64 }
{
    for ring in header.rings.as_slice() {
        if is_event_ring(ring) {
            return ring.shape.segments().len() as u64;
        }
    }
    0
}

/// The bytes of an input context (xHCI 6.2.5).
pub(crate) fn input_bytes(size: ContextSize) -> u32
    ensures { result ≡ input_context_bytes size }
{
    match size {
        ContextSize::Bytes32 => 1056,
        ContextSize::Bytes64 => 2112,
    }
}
