//! Rings that come behind the first row.

ghost use Rattle.std.specs.Prelude.{◌≡◌, ◌==◌, ◌<◌, false, OnOk, IfErr, IfOk};
ghost use Rattle.std.specs.List.{list_any};
ghost use Rattle.segments.specs.Shape.{IsShape, is_shape};
ghost use Rattle.trace_reader.specs.declared.fault.LineFault.{LineFault};
ghost use Rattle.trace_reader.specs.Entries.{IfFault, SaysPlaced, ring_of, row_of};
ghost use Rattle.trace_reader.specs.Reading.{State};
ghost use Rattle.trace_reader.specs.Values.{SaysRow};
ghost use Rattle.traces.specs.TraceRows.{ids_with, is_used};
ghost use Rattle.traces.specs.declared.row.Row.TheVariants.{Ring as RingRow};

use crate::entry::{RingEntry, RowEntry};
use crate::fault::{LineError, LineFault};
use segments::RingShape;
use std::alloc::{AllocError, Global};
use traces::{BoxedRing, Ring, Row};

/// The row that a line says, among the rings of the header and the IDs of those that came before.
#[inline(always)]
pub fn placed_row(
    alloc: Global,
    rings: &[Ring],
    later: &[u8],
    row: RowEntry,
) -> Result<Row, LineError>
    ensures { (st : State) → st.rings ≡ rings.now → st.later ≡ later.now → SaysPlaced st result (SaysRow (row_of row)) }
{
    match row {
        RowEntry::Plain(plain) => Ok(plain.row),
        RowEntry::Comes(ring) => coming(alloc, rings, later, ring),
    }
}

/// The row by which a ring comes, where its segments make one and its ID wasn't used: by the rings of the header and the IDs of those
/// that came before.
fn coming(alloc: Global, rings: &[Ring], later: &[u8], entry: RingEntry) -> Result<Row, LineError>
    ensures { (st : State) → st.rings ≡ rings.now → st.later ≡ later.now → SaysPlaced st result (SaysRow (RingRow (ring_of entry))) }
{
    if is_used(rings, later, entry.id) {
        return Err(LineFault::Shape.into());
    }
    let ring = shaped(alloc, entry)?;
    let ring = BoxedRing::new(alloc, ring)?;
    Ok(Row::Ring { ring })
}

/// A ring of the header has this ID, or one that came had it; it may have gone.
fn is_used(rings: &[Ring], later: &[u8], id: u8) -> bool
    ensures { result ≡ is_used rings.now later.now id }
{
    has_id(rings, id) || is_among(later, id)
}

fn has_id(rings: &[Ring], id: u8) -> bool
    ensures { result ≡ list_any (λ r. r.id == id) rings.now }
{
    rings.iter().any(|ring| ring.id == id)
}

fn is_among(ids: &[u8], id: u8) -> bool
    ensures { result ≡ list_any (λ other. other == id) ids.now }
{
    ids.iter().any(|other| *other == id)
}

/// The IDs of the rings that came, with the row's. Want of memory changes nothing.
pub fn note_id(later: &mut Vec<u8>, row: &Row) -> Result<(), AllocError>
    ensures { OnOk result (later.new.items ≡ ids_with later.old.items row.now) }
{
    if let Row::Ring { ring } = row {
        later.push(ring.as_ring().id)?;
    }
    Ok(())
}

/// The ring of a line, where its segments make one.
pub fn shaped(alloc: Global, entry: RingEntry) -> Result<Ring, LineError>
    ensures read { IfOk result (λ ring. ring ≡ ring_of entry) }
    ensures small { OnOk result (entry.id < 256) }
    ensures allowed { IfOk result (λ ring. IsShape ring.shape) }
    ensures err { IfErr result (λ e. IfFault e (λ f. (f ≡ LineFault.Shape) × (is_shape (ring_of entry).shape ≡ false))) }
{
    let RingEntry { id, kind, segments } = entry;
    let shape = RingShape::new(alloc, kind, segments.as_slice())?;
    Ok(Ring { id, shape })
}
