//! The input contexts of unfinished commands: their leases end with the Command Ring, and with a reset (xHCI 4.2, 4.6).
ghost use Rattle.std.specs.Prelude.{◌≡◌, ◌≤◌, ℕ, List, map};
ghost use Rattle.segments.specs.RingView.{floor_number};
ghost use Rattle.traces.specs.Header.{command_id, shape_of};
ghost use Rattle.traces.specs.AllowedHeaders.{IsHeader};
ghost use Rattle.ring_knowledge.specs.Known.{Known};
ghost use Rattle.ring_knowledge.specs.RingRecords.{FollowsRing};
ghost use Rattle.ring_knowledge.specs.Rings.{command_at};
ghost use Rattle.ring_knowledge.specs.declared.lease.Lease.{Lease};
ghost use Rattle.ownership_rules.specs.OpenLeases.{context_ranges, is_among, range_of_command};
ghost use Rattle.leases.specs.LeaseBooks.InStep.{AreOpen};
ghost use Rattle.leases.specs.LeaseBooks.Lents.{Lent, ended_where};
ghost use Rattle.leases.specs.LeaseRows.CleanRows.{HoldsAll};
ghost use Rattle.leases.specs.LeaseRows.LeftBehind.{AreLent, is_input_context};
ghost use Rattle.safety.specs.Keeps.{DriverKeeps};

use crate::book::{LeaseLog, RangeIndexes};
use crate::rows::left_behind::end_context_of;
use ring_knowledge::RingRecord;
use trace_record::{command_said, declared_command};
use traces::{Header, Ring};

/// The leases end of the input contexts that unfinished commands of the Command Ring name.
pub(crate) fn end_contexts<B: LeaseLog>(
    book: &mut B,
    ranges: &RangeIndexes,
    header: &Header,
    number: u32,
    ring: &Ring,
    known: &RingRecord,
)
    requires { IsHeader header.now }
    ensures { (list : List Lease) (k : Known) (ts : List Lent) → shape_of header.now (command_id header.now) ≡ ring.now.shape → FollowsRing ring.now.shape (k.ring (command_id header.now)) known.now →
        DriverKeeps header.now k → AreOpen header.now k ts → AreLent ts (context_ranges header.now k) → HoldsAll (B.holds list) header.now ts book.old ranges.now →
        HoldsAll (B.holds list) header.now (map (ended_where is_input_context number) ts) book.new ranges.now }
{
    let floor = known.floor_number();
    let end = known.declared_count() as u64;
    for position in floor..end {
        if known.is_handed_over(&ring.shape, position) {
            end_context_at(book, ranges, header, number, ring, known, position);
        }
    }
}

/// The lease ends of the input context that the command at a position of the Command Ring names, from its floor on.
fn end_context_at<B: LeaseLog>(
    book: &mut B,
    ranges: &RangeIndexes,
    header: &Header,
    number: u32,
    ring: &Ring,
    known: &RingRecord,
    position: u64,
)
    ensures { (list : List Lease) (k : Known) (ts : List Lent) → shape_of header.now (command_id header.now) ≡ ring.now.shape → FollowsRing ring.now.shape (k.ring (command_id header.now)) known.now →
        floor_number (k.ring (command_id header.now)) ≤ position → AreLent ts (range_of_command header.now position (command_at header.now k position)) →
        HoldsAll (B.holds list) header.now ts book.old ranges.now →
        HoldsAll (B.holds list) header.now (map (ended_where (is_among (range_of_command header.now position (command_at header.now k position))) number) ts) book.new ranges.now }
{
    let Some(command) = command_said(declared_command(known, position)) else {
        return;
    };
    end_context_of(book, ranges, header, number, ring, position, command);
}
