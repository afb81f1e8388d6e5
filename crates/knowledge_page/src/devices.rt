//! Slots, unfinished commands, and ranges of memory under lease.
use crate::leased::Piece;
use commands::{Command, SlotState};
use ring_knowledge::{Lease, RingRecord};
use row_history::{command_name, slot_state_name};
use std::alloc::AllocError;
use trace_record::{DeviceRecord, TraceRecord};
use traces::{Header, Register, Ring};
use trb::RingKind;

/// A line for each slot that isn't Disabled.
pub(crate) fn write_slots(page: &mut String, devices: &DeviceRecord) -> Result<(), AllocError> {
    let mut none = true;
    for slot in 1..=255 {
        if devices.slot_state(slot) != SlotState::Disabled || devices.device(slot).is_some() {
            write_slot(page, devices, slot)?;
            none = false;
        }
    }
    if none {
        page.push_str("slots: none is enabled\n")
    } else {
        Ok(())
    }
}

fn write_slot(page: &mut String, devices: &DeviceRecord, slot: u8) -> Result<(), AllocError> {
    let state = slot_state_name(devices.slot_state(slot));
    match devices.device(slot) {
        Some(address) => writeln!(
            page,
            "slot {slot}: {state}, Device Context at {address:016x}"
        ),
        None => writeln!(page, "slot {slot}: {state}"),
    }
}

/// The Command Ring, with what is known of it.
fn command_ring<'a>(
    header: &'a Header,
    kept: &'a TraceRecord,
) -> Option<(&'a Ring, &'a RingRecord)> {
    header
        .rings
        .as_slice()
        .iter()
        .zip(kept.rings.iter())
        .find(|(ring, _)| ring.shape.kind() == RingKind::Cmd)
}

/// A line for each command that was given and whose completion wasn't read. These are the TRBs of the Command Ring under lease.
pub(crate) fn write_commands(
    page: &mut String,
    header: &Header,
    kept: &TraceRecord,
    pieces: &[Piece],
) -> Result<(), AllocError> {
    let mut none = true;
    if let Some((ring, known)) = command_ring(header, kept) {
        for piece in pieces {
            if piece.ring == u32::from(ring.id) && !piece.is_link {
                write_command(page, known, piece, none)?;
                none = false;
            }
        }
    }
    if none {
        page.push_str("unfinished commands: none\n")
    } else {
        Ok(())
    }
}

fn write_command(
    page: &mut String,
    known: &RingRecord,
    piece: &Piece,
    is_first: bool,
) -> Result<(), AllocError> {
    if is_first {
        page.push_str("unfinished commands\n")?;
    }
    let Piece { position, row, .. } = *piece;
    write!(page, "  TRB {position} (row {row})")?;
    if let Some(block) = known.declared(position) {
        if let Ok(command) = Command::read(&block) {
            write_named(page, command)?;
        }
    }
    page.push_str("\n")
}

/// A command, and what it names.
fn write_named(page: &mut String, command: Command) -> Result<(), AllocError> {
    let name = command_name(command);
    write!(page, ": {name}")?;
    if let Some(slot) = command.slot() {
        write!(page, ", slot {slot}")?;
    }
    if let Some((_, endpoint)) = command.endpoint() {
        write!(page, ", DCI {endpoint}")?;
    }
    if let Some(address) = command.input_context() {
        write!(page, ", Input Context at {address:016x}")?;
    }
    Ok(())
}

/// A line for each range of bytes under lease: its address, length, what it is, and the row that gave it.
pub(crate) fn write_ranges(
    page: &mut String,
    header: &Header,
    kept: &TraceRecord,
    ranges: &[Lease],
) -> Result<(), AllocError> {
    if ranges.is_empty() {
        return page.push_str("ranges under lease: none\n");
    }
    page.push_str("ranges under lease\n")?;
    for range in ranges {
        write_range(page, header, kept, range)?;
    }
    Ok(())
}

fn write_range(
    page: &mut String,
    header: &Header,
    kept: &TraceRecord,
    range: &Lease,
) -> Result<(), AllocError> {
    let address = range.pos;
    let bytes = range.ring;
    write!(page, "  {address:016x}, {bytes} bytes")?;
    match range.from {
        0 => page.push_str(" (from the beginning): ")?,
        row => write!(page, " (row {row}): ")?,
    }
    if is_event_segment(header, range) {
        page.push_str("segment of the Event Ring")?;
    } else {
        write_purpose(page, header, kept, range)?;
    }
    page.push_str("\n")
}

/// Whether a range of bytes is a segment of the Event Ring.
fn is_event_segment(header: &Header, range: &Lease) -> bool {
    header.rings.as_slice().iter().any(|ring| ring.shape.kind() == RingKind::Evt
        && has_segment(ring, range.pos))
}

/// Whether a segment of a ring begins at an address.
fn has_segment(ring: &Ring, address: u64) -> bool {
    ring.shape
        .segments()
        .iter()
        .any(|segment| segment.base == address)
}

/// What a range of bytes is that a row gave, and that is no ring's.
fn write_purpose(
    page: &mut String,
    header: &Header,
    kept: &TraceRecord,
    range: &Lease,
) -> Result<(), AllocError> {
    if base(kept, Register::Erstba) == Some(range.pos) {
        return page.push_str("Event Ring Segment Table");
    }
    if range.ring == 33 * header.context_size.bytes() as u32 {
        return page.push_str("Input Context");
    }
    if let Some(slot) = slot_with(&kept.devices, range.pos) {
        return write!(page, "Device Context of slot {slot}");
    }
    match base(kept, Register::Dcbaap) {
        Some(array) => {
            let slot = range.pos.saturating_sub(array) / 8;
            write!(page, "entry of slot {slot} in the DCBAA")
        }
        None => page.push_str("entry in the DCBAA"),
    }
}

/// The address that a register holds above its low 6 bits.
fn base(kept: &TraceRecord, register: Register) -> Option<u64> {
    match kept.registers.value(register) {
        Some(value) => Some(value / 64 * 64),
        None => None,
    }
}

/// The slot whose Device Context has this address.
fn slot_with(devices: &DeviceRecord, address: u64) -> Option<u8> {
    (1..=255).find(|slot| devices.device(*slot) == Some(address))
}
