//! Events that are read: what a ring passes is let go (xHCI 4.9.2, 4.10.2, 4.11.5.2, 6.4.2.1).
ghost use Rattle.ring_knowledge.specs.declared.lease.Lease.{Lease};
ghost use Rattle.std.specs.Prelude.{◌≡◌, ◌≢◌, ◌<◌, ◌^◌, ◌||◌, ℕ, List};
ghost use Rattle.trb.specs.CompletionCode.{is_halting, is_stopping, is_success, is_trb_error};
ghost use Rattle.trb.specs.declared.kind.BlockKind.TheVariants.{CommandCompletion};
ghost use Rattle.trb.specs.Block.{kind};
ghost use Rattle.trb.specs.Kind.{is_transfer_event};
ghost use Rattle.segments.specs.Spots.{number};
ghost use Rattle.traces.specs.AllowedHeaders.{IsHeader};
ghost use Rattle.traces.specs.declared.row.Row.TheVariants.{Read};
ghost use Rattle.leases.specs.LeaseBooks.Coming.{come_to};
ghost use Rattle.leases.specs.declared.book.ranges.RangeIndexes.{RangeIndexes};
ghost use Rattle.ring_knowledge.specs.Known.{Known};
ghost use Rattle.trace_record.specs.RingFinder.Finding.{IsFinder};
ghost use Rattle.leases.specs.LeaseBooks.Lents.{Lent, grown};
ghost use Rattle.leases.specs.LeaseRows.CleanRows.{HoldsAll, IsNextRow};

use crate::book::LeaseLog;
use segments::Spot;
use trace_record::{Finder, TraceRecord};
use traces::Header;
use trb::{Block, BlockKind, is_halting, is_stopping, is_success, is_trb_error};

/// Notes the row of a number that reads an event, but a Command Completion Event; the record is that before it. A Transfer Event
/// ends the leases of the blocks and Links that its ring's controller has passed; one that tells of the service of its endpoint ends none.
/// Where the leases of ranges stand stays.
#[inline(always)]
pub(crate) fn note_transfer<B: LeaseLog>(
    book: &mut B,
    header: &Header,
    finder: &Finder,
    t: &TraceRecord,
    number: u32,
    event: Block,
)
    requires headed { IsHeader header.now }
    requires found { IsFinder header.now.rings finder.now }
    ensures { (list : List Lease) (k : Known) (ts : List Lent) (memory : ℕ → ℕ) (ranges : RangeIndexes) → kind event ≢ CommandCompletion →
        IsNextRow header.now k ts (Read event) t.now memory → HoldsAll (B.holds list) header.now ts book.old ranges →
        HoldsAll (B.holds list) header.now (grown header.now k (Read event) number ts) book.new ranges }
{
    if !is_transfer(event) {
        return;
    }
    let Some(id) = t.devices.ring_of(event.slot(), event.endpoint()) else {
        return;
    };
    let Some(place) = finder.ring_named(id) else {
        return;
    };
    let rings = header.rings.as_slice();
    let Some(ring) = rings.get(place) else {
        return;
    };
    let records = t.rings.as_slice();
    let Some(known) = records.get(place) else {
        return;
    };
    let Some(spot) = known.named_by(&ring.shape, event) else {
        return;
    };
    // one that tells of the service of its endpoint names no block: by its code the controller stays at the floor
    let floor = known.floor_number();
    let reached = come_to(t.devices.code_told(header, event), spot, floor);
    book.end_passed(number, ring, floor, reached);
}

/// The event is a Transfer Event.
fn is_transfer(event: Block) -> bool
    ensures { result ≡ is_transfer_event (kind event) }
{
    matches!(event.kind(), BlockKind::TransferEvent)
}

/// To which number the controller of a ring has come that stood at a floor, by how an event's code counts and the spot that it names.
#[tactic(auto, unfolding(crate::specs::LeaseBooks::Coming::come_to))]
fn come_to(code: u8, spot: Spot, floor: u64) -> u64
    requires { number spot < 2 ^ 63 }
    ensures { result ≡ come_to code spot floor }
{
    if is_finished(code) {
        spot.number() + 1
    } else if is_stopping(code) {
        spot.number()
    } else {
        floor
    }
}

/// The controller has finished the block that the event names.
fn is_finished(code: u8) -> bool
    ensures { result ≡ (is_success code || is_halting code || is_trb_error code) }
{
    is_success(code) || is_halting(code) || is_trb_error(code)
}
