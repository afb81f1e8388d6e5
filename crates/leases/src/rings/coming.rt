//! Rings that come (xHCI 4.9).
ghost use Rattle.std.specs.Prelude.{◌≡◌, ℕ, List, OnOk};
ghost use Rattle.traces.specs.AllowedHeaders.{IsHeader};
ghost use Rattle.traces.specs.LivingRings.{with_ring};
ghost use Rattle.traces.specs.Rows.{IsComing};
ghost use Rattle.traces.specs.declared.header.Header.{Header};
ghost use Rattle.traces.specs.declared.row.Row.TheVariants.{Ring as RingRow};
ghost use Rattle.ring_knowledge.specs.Histories.{forgotten};
ghost use Rattle.ring_knowledge.specs.Known.{Known};
ghost use Rattle.ring_knowledge.specs.declared.lease.Lease.{Lease};
ghost use Rattle.ownership_rules.specs.OpenLeases.{open_leases};
ghost use Rattle.leases.specs.LeaseBooks.Lents.{Lent, passed_on};
ghost use Rattle.leases.specs.LeaseRows.CleanRows.{HoldsAll, IsNextRow};
ghost use Rattle.trace_record.specs.declared.trace_record.TraceRecord.{TraceRecord};

use crate::book::{LeaseLog, RangeIndexes};
use std::alloc::{AllocError, Global};
use trace_record::is_event_ring;
use traces::Ring;

/// Notes the leases that begin with the ring that comes by the row of a number, where it breaks no rule: those of an Event Ring's segments
/// (xHCI 4.9.4, 6.5); of another ring none. The header is that before the row.
pub fn note_coming<B: LeaseLog>(
    alloc: Global,
    book: &mut B,
    ranges: &mut RangeIndexes,
    number: u32,
    ring: &Ring,
) -> Result<(), AllocError>
    ensures { OnOk result ((list : List Lease) (h : Header) (k : Known) (ts : List Lent) (t : TraceRecord) (memory : ℕ → ℕ) → IsHeader h → IsComing ring.now → IsNextRow h k ts (RingRow ring.now) t memory →
        HoldsAll (B.holds list) h ts book.old ranges.old →
        HoldsAll (B.holds list) (with_ring h ring.now) (passed_on (open_leases h k) (open_leases (with_ring h ring.now) (forgotten k ring.now.id)) number ts) book.new ranges.new) }
{
    if !is_event_ring(ring) {
        return Ok(());
    }
    ranges.begin_segments(alloc, book, number, ring.shape.segments())
}
