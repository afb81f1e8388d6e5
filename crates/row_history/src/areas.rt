//! What the controller has beside rings: the Event Ring Segment Table, Input Contexts, entries of the DCBAA and Device Contexts.
use crate::finding::{Case, Shown};
use crate::known::Known;
use crate::rows::{last_register, last_write};
use crate::unfinished::Unfinished;
use crate::words::ring_of_kind;
use std::alloc::{AllocError, Global};
use std::fmt;
use traces::{Header, Register, Row};
use trb::RingKind;

/// What an area is.
#[derive(Clone, Copy, PartialEq, Eq)]
pub enum AreaKind {
    Table,
    InputContext,
    /// The entry of this slot.
    Entry(u8),
    /// The Device Context of this slot.
    Device(u8),
}

impl fmt::Display for AreaKind {
    fn fmt<W: fmt::Write>(&self, f: &mut fmt::Formatter<W>) -> fmt::Result {
        match *self {
            AreaKind::Table => f.write_str("the Event Ring Segment Table"),
            AreaKind::InputContext => f.write_str("the Input Context"),
            AreaKind::Entry(slot) => write!(f, "the DCBAA entry of slot {slot}"),
            AreaKind::Device(slot) => write!(f, "the Device Context of slot {slot}"),
        }
    }
}

/// An area that the controller has.
#[derive(Clone, Copy)]
pub struct Area {
    kind: AreaKind,
    from: u64,
    bytes: u64,
    /// The row that handed it over.
    row: Option<usize>,
}

impl Area {
    /// Whether it has one of some bytes.
    fn touches(&self, from: u64, bytes: u64) -> bool {
        if from < self.from {
            self.from - from < bytes
        } else {
            from - self.from < self.bytes
        }
    }
}

/// The areas that the controller has: the table first, then Input Contexts, then entries and Device Contexts by slot.
pub(crate) fn areas(
    alloc: Global,
    header: &Header,
    before: &[Row],
    known: &Known,
    unfinished: &[Unfinished],
) -> Result<Vec<Area>, AllocError> {
    let mut found = Vec::new(alloc);
    if let Some(table) = table(header, before, known) {
        found.push(table)?;
    }
    for given in unfinished {
        if let Some(from) = given.command.input_context() {
            found.push(Area {
                kind: AreaKind::InputContext,
                from,
                bytes: 33 * header.context_size.bytes(),
                row: given.row,
            })?;
        }
    }
    push_devices(header, known, &mut found)?;
    Ok(found)
}

/// The Event Ring Segment Table.
fn table(header: &Header, before: &[Row], known: &Known) -> Option<Area> {
    let value = known.controller.registers.value(Register::Erstba)?;
    let ring = ring_of_kind(header.rings.as_slice(), RingKind::Evt)?;
    Some(Area {
        kind: AreaKind::Table,
        from: value / 64 * 64,
        bytes: (ring.shape.segments().len() as u64).saturating_mul(16),
        row: last_register(before, Register::Erstba),
    })
}

/// Adds the DCBAA entries and the Device Contexts that the controller has, by slot.
fn push_devices(header: &Header, known: &Known, found: &mut Vec<Area>) -> Result<(), AllocError> {
    for slot in 1..=255u8 {
        if let Some(from) = known.devices.device(slot) {
            let row = known.taken_by(slot);
            found.push(Area {
                kind: AreaKind::Entry(slot),
                from: known.entry_of(slot),
                bytes: 8,
                row,
            })?;
            found.push(Area {
                kind: AreaKind::Device(slot),
                from,
                bytes: 32 * header.context_size.bytes(),
                row,
            })?;
        }
    }
    Ok(())
}

/// The area of the controller that has one of some bytes and comes back last: the table, or else the last in the order.
fn area_touched(case: &Case, from: u64, bytes: u64) -> Option<Area> {
    let mut found: Option<Area> = None;
    for area in case.areas {
        if area.touches(from, bytes) && !found.is_some_and(|kept| kept.kind == AreaKind::Table) {
            found = Some(*area);
        }
    }
    found
}

/// A write to a context, an entry of the DCBAA or the segment table.
pub fn write_to_area(case: &mut Case, address: u64, word: u32) {
    let Some(area) = area_touched(case, address, 4) else {
        case.head("write to memory that the controller owns", &[]);
        case.here("in use by the controller", &[]);
        return;
    };
    let kind = area.kind;
    case.head(
        "write to {}, which the controller owns",
        &[Shown::Area(kind)],
    );
    case.here(
        "byte {} of the {} bytes at {}",
        &[
            Shown::Number(address.saturating_sub(area.from)),
            Shown::Number(area.bytes),
            Shown::Address(area.from),
        ],
    );
    case.mark(area.row, "this row hands it to the controller", &[]);
    note_back(case, kind);
    case.help(instead(kind), &[]);
    if !matches!(kind, AreaKind::Device(_)) {
        note_unchanged(case, address, word);
    }
}

/// Whether some bytes touch an area that the controller has.
pub fn is_in_area(case: &Case, from: u64, bytes: u64) -> bool {
    area_touched(case, from, bytes).is_some()
}

/// Notes which area of the controller some bytes touch, when it comes back, and points at the row that handed it over.
pub fn note_area(case: &mut Case, from: u64, bytes: u64) {
    let Some(area) = area_touched(case, from, bytes) else {
        return;
    };
    let size = Shown::Number(area.bytes);
    case.note(
        "{} has the {} bytes at {}",
        &[Shown::Area(area.kind), size, Shown::Address(area.from)],
    );
    case.mark(area.row, "this row hands it to the controller", &[]);
    note_back(case, area.kind);
}

/// Notes that a write to memory which the controller only reads leaves the word as it is. Whether it does.
pub fn note_unchanged(case: &mut Case, address: u64, word: u32) -> bool {
    if case.known.word(address) != word {
        return false;
    }
    let note = match last_write(case.before, address) {
        Some(_) => "the word is the same as before: no controller sees a difference",
        None =>
            "the word was never written and counts as 0, which it stays: no controller sees a difference",
    };
    case.note(note, &[]);
    case.not_judged();
    case.help("leave out the second write", &[]);
    true
}

/// Notes when an area comes back.
fn note_back(case: &mut Case, kind: AreaKind) {
    let note = if case.known.controller.halt.is_some() {
        comes_back_in_halt(kind)
    } else {
        comes_back(kind)
    };
    case.note(note, &[]);
}

/// When an area comes back from a controller that runs.
fn comes_back(kind: AreaKind) -> &'static str {
    match kind {
        AreaKind::Table => "it doesn't come back while the controller runs (xHCI 6.5)",
        AreaKind::InputContext =>
            "it comes back with the Command Completion Event of that command (xHCI 4.6)",
        AreaKind::Entry(_) | AreaKind::Device(_) =>
            "it comes back with the success of Disable Slot (xHCI 4.6.4)",
    }
}

/// When an area comes back from a controller that has halted.
fn comes_back_in_halt(kind: AreaKind) -> &'static str {
    match kind {
        AreaKind::Table => "it comes back with a reset (xHCI 5.4.1)",
        AreaKind::InputContext =>
            "it comes back with the Command Completion Event of that command, or with a reset (xHCI 4.6, 5.4.1)",
        AreaKind::Entry(_) | AreaKind::Device(_) =>
            "it comes back with the success of Disable Slot, or with a reset (xHCI 4.6.4, 5.4.1)",
    }
}

/// What to do instead.
fn instead(kind: AreaKind) -> &'static str {
    match kind {
        AreaKind::Table => "write the whole table before ERSTBA",
        AreaKind::InputContext => "read that event first, or use another Input Context",
        AreaKind::Entry(_) => "write the entry once, before Address Device",
        AreaKind::Device(_) =>
            "leave the Device Context to the controller, and change an endpoint by a command",
    }
}

/// What an area of the driver may not touch.
#[derive(Clone, Copy, PartialEq, Eq)]
pub enum Beside {
    /// Rings and Device Contexts.
    Devices,
    /// Rings and all that the controller has.
    All,
}

/// Why an area of the driver may not lie where it does.
#[derive(Clone, Copy)]
pub enum NoArea {
    TooHigh,
    /// It touches the ring with this ID.
    Ring(u8),
    /// It touches what the controller has there.
    Area { kind: AreaKind, from: u64 },
}

impl fmt::Display for NoArea {
    fn fmt<W: fmt::Write>(&self, f: &mut fmt::Formatter<W>) -> fmt::Result {
        match *self {
            NoArea::TooHigh => f.write_str("ends above 2^64"),
            NoArea::Ring(id) => write!(f, "touches ring {id:02x}"),
            NoArea::Area { kind, from } => {
                write!(f, "touches {kind} at {from:016x}, which the controller has")
            }
        }
    }
}

/// Why an area of the driver may not lie where it does, where it may not: it ends above 2^64, or touches a ring, or what the controller has.
pub fn clash(case: &Case, from: u64, bytes: u64, beside: Beside) -> Option<NoArea> {
    if from > u64::MAX - bytes.saturating_sub(1) {
        return Some(NoArea::TooHigh);
    }
    for ring in case.header.rings.as_slice() {
        if ring.shape.overlaps(from, bytes) {
            return Some(NoArea::Ring(ring.id));
        }
    }
    for area in case.areas {
        let counts = beside == Beside::All || matches!(area.kind, AreaKind::Device(_));
        if counts && area.touches(from, bytes) {
            return Some(NoArea::Area {
                kind: area.kind,
                from: area.from,
            });
        }
    }
    None
}
