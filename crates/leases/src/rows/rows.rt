//! What a row does to the leases.
ghost use Rattle.ring_knowledge.specs.declared.lease.Lease.{Lease};
ghost use Rattle.std.specs.Prelude.{◌≡◌, ℕ, List, OnOk};
ghost use Rattle.trb.specs.declared.kind.BlockKind.TheVariants.{CommandCompletion};
ghost use Rattle.trb.specs.Block.{kind};
ghost use Rattle.traces.specs.AllowedHeaders.{IsHeader};
ghost use Rattle.traces.specs.declared.row.Row.TheVariants.{Read};
ghost use Rattle.trace_record.specs.RingFinder.Finding.{IsFinder};
ghost use Rattle.ring_knowledge.specs.Known.{Known};
ghost use Rattle.trace_record.specs.RowPlaces.{IsNext, IsPlaced};
ghost use Rattle.leases.specs.LeaseBooks.Lents.{Lent, grown};
ghost use Rattle.leases.specs.LeaseRows.CleanRows.{HoldsAll, IsNextRow};

use crate::book::{LeaseLog, RangeIndexes};
use crate::rows::completions::note_completion;
use crate::rows::events::note_transfer;
use crate::rows::other_rows::note_other_row;
use crate::rows::writes::note_write;
use commands::SaidCommand;
use guest_memory::WordMemory;
use std::alloc::AllocError;
use trace_record::{Finder, RowPlace, TraceRecord};
use traces::{Header, Row};
use trb::{Block, BlockKind};

/// Notes the leases that begin and end with the row of a number, where it breaks no rule; the record and the memory are those before
/// it, and the place is the row's.
#[inline(always)]
pub fn note_row<B: LeaseLog, M: WordMemory>(
    book: &mut B,
    ranges: &mut RangeIndexes,
    header: &Header,
    finder: &Finder,
    t: &TraceRecord,
    memory: &M,
    number: u32,
    row: &Row,
    place: &RowPlace,
) -> Result<(), AllocError>
    requires headed { IsHeader header.now }
    requires found { IsFinder header.now.rings finder.now }
    ensures step { OnOk result ((list : List Lease) (k : Known) (ts : List Lent) → IsPlaced header.now k row.now place.now →
        IsNextRow header.now k ts row.now t.now (M.words memory.now) →
        HoldsAll (B.holds list) header.now ts book.old ranges.old → HoldsAll (B.holds list) header.now (grown header.now k row.now number ts) book.new ranges.new) }
{
    match row {
        Row::Write { .. } => note_write(book, ranges, header, t, memory, number, place),
        Row::Read { event } => {
            note_event(
                book,
                ranges,
                header,
                finder,
                t,
                number,
                *event,
                place.command,
            );
            Ok(())
        }
        _ => note_other_row(book, ranges, header, finder, t, number, row),
    }
}

/// Notes the leases that end with an event, where it breaks no rule, and with it this command, if it is a completion.
#[inline(always)]
fn note_event<B: LeaseLog>(
    book: &mut B,
    ranges: &RangeIndexes,
    header: &Header,
    finder: &Finder,
    t: &TraceRecord,
    number: u32,
    event: Block,
    command: Option<SaidCommand>,
)
    requires headed { IsHeader header.now }
    requires found { IsFinder header.now.rings finder.now }
    ensures { (list : List Lease) (k : Known) (ts : List Lent) (memory : ℕ → ℕ) → (kind event ≡ CommandCompletion → IsNext header.now k command) → IsNextRow header.now k ts (Read event) t.now memory →
        HoldsAll (B.holds list) header.now ts book.old ranges.now → HoldsAll (B.holds list) header.now (grown header.now k (Read event) number ts) book.new ranges.now }
{
    match event.kind() {
        BlockKind::CommandCompletion => note_completion(
            book, ranges, header, finder, t, number, event, command,
        ),
        _ => note_transfer(book, header, finder, t, number, event),
    }
}
