//! Writes of memory: what they give comes under lease (xHCI 4.9.2, 4.6.5).
ghost use Rattle.ring_knowledge.specs.declared.lease.Lease.{Lease};
ghost use Rattle.std.specs.Prelude.{◌≡◌, ℕ, List, OnOk};
ghost use Rattle.traces.specs.AllowedHeaders.{IsHeader};
ghost use Rattle.traces.specs.declared.row.Row.TheVariants.{Write};
ghost use Rattle.ring_knowledge.specs.Known.{Known};
ghost use Rattle.trace_record.specs.RowPlaces.{IsPlacedSo};
ghost use Rattle.leases.specs.LeaseBooks.Lents.{Lent, grown};
ghost use Rattle.leases.specs.LeaseRows.CleanRows.{HoldsAll, IsNextRow};

use crate::book::{LeaseLog, RangeIndexes};
use crate::rows::taking::begin_command;
use guest_memory::WordMemory;
use ring_knowledge::RingGiving;
use std::alloc::AllocError;
use trace_record::{RowPlace, TraceRecord, command_said, is_event_ring};
use traces::Header;

/// Notes the row of a number that writes a word; the record and the memory are those before it. The leases of the block or the Link
/// that it gives begin, and those of the ranges that a command takes.
#[inline(always)]
pub(crate) fn note_write<B: LeaseLog, M: WordMemory>(
    book: &mut B,
    ranges: &mut RangeIndexes,
    header: &Header,
    t: &TraceRecord,
    memory: &M,
    number: u32,
    place: &RowPlace,
) -> Result<(), AllocError>
    requires { IsHeader header.now }
    ensures { OnOk result ((list : List Lease) (k : Known) (ts : List Lent) (at word : ℕ) → IsPlacedSo header.now k at word place.now →
        IsNextRow header.now k ts (Write at word) t.now (M.words memory.now) →
        HoldsAll (B.holds list) header.now ts book.old ranges.old → HoldsAll (B.holds list) header.now (grown header.now k (Write at word) number ts) book.new ranges.new) }
{
    let Some(index) = place.ring else {
        return Ok(());
    };
    let rings = header.rings.as_slice();
    let Some(ring) = rings.get(index) else {
        return Ok(());
    };
    if is_event_ring(ring) {
        return Ok(());
    }
    match place.giving {
        None => Ok(()),
        Some(RingGiving::Crossing(crossing)) => book.begin_link(number, ring, crossing),
        Some(RingGiving::Position(position)) => {
            book.begin_block(number, ring, position)?;
            match command_said(place.command) {
                None => Ok(()),
                Some(command) => begin_command(
                    book, ranges, header, t, memory, number, ring, position, command,
                ),
            }
        }
    }
}
