//! Command Completion Events: what the command leaves behind is let go, and the command's own block and Link (xHCI 4.6, 4.11.4).
ghost use Rattle.ring_knowledge.specs.declared.lease.Lease.{Lease};
ghost use Rattle.std.specs.Prelude.{◌≡◌, ℕ, List};
ghost use Rattle.trb.specs.declared.kind.BlockKind.TheVariants.{CommandCompletion};
ghost use Rattle.trb.specs.Block.{kind};
ghost use Rattle.traces.specs.AllowedHeaders.{IsHeader};
ghost use Rattle.traces.specs.declared.row.Row.TheVariants.{Read};
ghost use Rattle.ring_knowledge.specs.Known.{Known};
ghost use Rattle.trace_record.specs.RingFinder.Finding.{IsFinder};
ghost use Rattle.trace_record.specs.RowPlaces.{IsNext};
ghost use Rattle.leases.specs.LeaseBooks.Lents.{Lent, grown};
ghost use Rattle.leases.specs.LeaseRows.CleanRows.{HoldsAll, IsNextRow};

use crate::book::{LeaseLog, RangeIndexes};
use crate::rows::left_behind::end_command;
use commands::SaidCommand;
use trace_record::{Finder, TraceRecord, command_said};
use traces::Header;
use trb::Block;

/// Notes the row of a number that reads a Command Completion Event, with which `command` ends; the record is that before it. The
/// leases end of the command's block and of the Link before it, of its input context, of what a Disable Slot that succeeded lets go,
/// and of what a ring passes that a Set TR Dequeue moved.
pub(crate) fn note_completion<B: LeaseLog>(
    book: &mut B,
    ranges: &RangeIndexes,
    header: &Header,
    finder: &Finder,
    t: &TraceRecord,
    number: u32,
    event: Block,
    command: Option<SaidCommand>,
)
    requires headed { IsHeader header.now }
    requires found { IsFinder header.now.rings finder.now }
    ensures { (list : List Lease) (k : Known) (ts : List Lent) (memory : ℕ → ℕ) → kind event ≡ CommandCompletion → IsNext header.now k command →
        IsNextRow header.now k ts (Read event) t.now memory →
        HoldsAll (B.holds list) header.now ts book.old ranges.now → HoldsAll (B.holds list) header.now (grown header.now k (Read event) number ts) book.new ranges.now }
{
    let Some(place) = finder.commands else {
        return;
    };
    let rings = header.rings.as_slice();
    let Some(ring) = rings.get(place) else {
        return;
    };
    let records = t.rings.as_slice();
    let Some(known) = records.get(place) else {
        return;
    };
    let next = known.floor_number();
    match command_said(command) {
        None => book.end_passed(number, ring, next, next + 1),
        Some(command) => {
            let success = event.code() == 1;
            end_command(
                book, ranges, header, finder, t, number, ring, next, command, success,
            );
            book.end_passed(number, ring, next, next + 1);
        }
    }
}
