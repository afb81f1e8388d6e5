//! Rings that go (xHCI 4.9).
ghost use Rattle.std.specs.Prelude.{◌≡◌, ◌<◌, ℕ, List, map, OnOk};
ghost use Rattle.traces.specs.Header.{shape_of};
ghost use Rattle.traces.specs.AllowedHeaders.{IsHeader};
ghost use Rattle.traces.specs.LivingRings.{without_ring};
ghost use Rattle.traces.specs.declared.header.Header.{Header};
ghost use Rattle.traces.specs.declared.row.Row.TheVariants.{Free as FreeRow};
ghost use Rattle.ring_knowledge.specs.Histories.{gone};
ghost use Rattle.ring_knowledge.specs.Known.{Known};
ghost use Rattle.ring_knowledge.specs.RingRecords.{FollowsRing};
ghost use Rattle.ring_knowledge.specs.declared.lease.Lease.{Lease};
ghost use Rattle.ownership_rules.specs.Leases.{without_end};
ghost use Rattle.ownership_rules.specs.OpenLeases.{open_leases};
ghost use Rattle.leases.specs.LeaseBooks.InStep.{AreOpen};
ghost use Rattle.leases.specs.LeaseBooks.Lents.{Lent, ended_where, passed_on};
ghost use Rattle.leases.specs.LeaseRows.CleanRows.{HoldsAll, IsNextRow};
ghost use Rattle.leases.specs.RingLeases.RingLents.{is_of_ring};
ghost use Rattle.trace_record.specs.RingFinder.Finding.{IsFinder};

use crate::book::{LeaseLog, RangeIndexes};
use crate::rows::end_contexts;
use ring_knowledge::RingRecord;
use std::alloc::{AllocError, Global};
use trace_record::{Finder, TraceRecord};
use traces::{Header, Ring};
use trb::RingKind;

/// Notes the leases that end with the ring that goes by the row of a number, where it breaks no rule: those of its blocks and Links, with the
/// Command Ring those of the input contexts of its commands, and with the Event Ring those of its segments. The header and the record are
/// those before the row; a count beyond a `usize` is refused as memory is.
pub fn note_going<B: LeaseLog>(
    alloc: Global,
    book: &mut B,
    ranges: &RangeIndexes,
    header: &Header,
    finder: &Finder,
    t: &TraceRecord,
    number: u32,
    id: u8,
) -> Result<(), AllocError>
    requires headed { IsHeader header.now }
    requires found { IsFinder header.now.rings finder.now }
    ensures { OnOk result ((list : List Lease) (k : Known) (ts : List Lent) (memory : ℕ → ℕ) → IsNextRow header.now k ts (FreeRow id) t.now memory → number < without_end →
        HoldsAll (B.holds list) header.now ts book.old ranges.now →
        HoldsAll (B.holds list) (without_ring header.now id) (passed_on (open_leases header.now k) (open_leases (without_ring header.now id) (gone header.now k id)) number ts) book.new ranges.now) }
{
    let Some(place) = finder.ring_named(id) else {
        return Ok(());
    };
    let rings = header.rings.as_slice();
    let Some(ring) = rings.get(place) else {
        return Ok(());
    };
    let records = t.rings.as_slice();
    let Some(known) = records.get(place) else {
        return Ok(());
    };
    match ring.shape.kind() {
        RingKind::Evt => ranges.end_segments(alloc, book, number, ring.shape.segments()),
        RingKind::Cmd => {
            end_contexts(book, ranges, header, number, ring, known);
            end_ring(book, number, ring, known);
            Ok(())
        }
        RingKind::Xfer => {
            end_ring(book, number, ring, known);
            Ok(())
        }
    }
}

/// The leases of the blocks and Links of a ring end. All that may be due is passed, and not what is declared alone: a Link may be given
/// before any block.
fn end_ring<B: LeaseLog>(book: &mut B, row: u32, ring: &Ring, known: &RingRecord)
    ensures { (list : List Lease) (h : Header) (k : Known) (ts : List Lent) → IsHeader h → shape_of h ring.now.id ≡ ring.now.shape →
        FollowsRing ring.now.shape (k.ring ring.now.id) known.now → AreOpen h k ts → B.holds list h ts book.old →
        B.holds list h (map (ended_where (is_of_ring ring.now.id) row) ts) book.new }
{
    let floor = known.floor_number();
    let end = floor + u64::from(ring.shape.places()) + 1;
    book.end_passed(row, ring, floor, end);
}
