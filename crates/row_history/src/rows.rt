//! Searches through the rows before the refused one, each in one pass.
ghost use Rattle.std.specs.Prelude.{◌≡◌, ◌<◌, length, IfSome, true, slice_get};
ghost use Rattle.row_history.specs.Rows.{is_writer, writes_word};

use traces::{Register, Row};
use trb::BlockKind;

/// Whether a row writes the word at this address.
fn writes(row: &Row, address: u64) -> bool
    ensures { result ≡ writes_word address row.now }
{
    match row {
        Row::Write { at, .. } => at.get() == address,
        _ => false,
    }
}

/// The last of the rows that writes the word at this address. Of a TRB that the controller owns its control word was last
/// written by the row that gave it.
pub fn last_write(rows: &[Row], address: u64) -> Option<usize>
    ensures inside { IfSome result (λ index. index < length rows.now) }
    ensures writer { IfSome result (λ index. is_writer address (slice_get rows.now index) ≡ true) }
{
    rows.iter().rposition(|row| writes(row, address))
}

/// The word at this address, as the rows left it: memory that they haven't written is 0.
pub fn word_at(rows: &[Row], address: u64) -> u32 {
    let mut found = 0;
    for row in rows {
        if let Row::Write { at, word } = row {
            if at.get() == address {
                found = *word;
            }
        }
    }
    found
}

/// The last of the rows that writes a register.
pub fn last_register(rows: &[Row], register: Register) -> Option<usize> {
    let mut last = None;
    for (index, row) in rows.iter().enumerate() {
        if let Row::Reg {
            register: written,
            ..
        } = row
        {
            if *written == register {
                last = Some(index);
            }
        }
    }
    last
}

/// The row that stops a controller, which runs but once, after the start.
pub fn stop(rows: &[Row]) -> Option<usize> {
    let mut started = false;
    for (index, row) in rows.iter().enumerate() {
        match runs(row) {
            Some(true) => started = true,
            Some(false) => {
                if started {
                    return Some(index);
                }
            }
            None => {}
        }
    }
    None
}

/// Of a write of USBCMD: whether Run/Stop is 1 and HCRST 0 there.
fn runs(row: &Row) -> Option<bool> {
    match row {
        Row::Reg {
            register: Register::Usbcmd,
            value,
        } => Some(*value % 4 == 1),
        _ => None,
    }
}

/// The last of the rows that reads an event.
pub fn last_read(rows: &[Row]) -> Option<usize> {
    let mut last = None;
    for (index, row) in rows.iter().enumerate() {
        if is_read(row) {
            last = Some(index);
        }
    }
    last
}

/// How many events the rows read.
pub fn reads(rows: &[Row]) -> usize {
    rows.iter().filter(|row| is_read(row)).count()
}

fn is_read(row: &Row) -> bool {
    matches!(row, Row::Read { .. })
}

/// The last of the rows that reads an event of this type with this pointer.
pub fn last_event(rows: &[Row], kind: BlockKind, pointer: u64) -> Option<usize> {
    let mut last = None;
    for (index, row) in rows.iter().enumerate() {
        if let Row::Read { event } = row {
            if event.kind() == kind && event.pointer() == pointer {
                last = Some(index);
            }
        }
    }
    last
}

/// The last of the rows that rings a doorbell of a slot with a target.
pub fn last_bell(rows: &[Row], slot: u8, target: u8) -> Option<usize> {
    rows.iter().rposition(|row| rings_bell(row, slot, target))
}

fn rings_bell(row: &Row, wanted: u8, with: u8) -> bool {
    match row {
        Row::Bell { slot, target } => *slot == wanted && *target == with,
        _ => false,
    }
}

/// The row by which the ring with this ID went.
pub fn going(rows: &[Row], id: u8) -> Option<usize> {
    rows.iter().position(|row| goes(row, id))
}

fn goes(row: &Row, id: u8) -> bool {
    match row {
        Row::Free { ring: gone } => *gone == id,
        _ => false,
    }
}

/// The row by which the ring with this ID came; none of a ring of the header.
pub fn coming(rows: &[Row], id: u8) -> Option<usize> {
    rows.iter().rposition(|row| comes(row, id))
}

fn comes(row: &Row, id: u8) -> bool {
    match row {
        Row::Ring { ring } => ring.as_ring().id == id,
        _ => false,
    }
}
