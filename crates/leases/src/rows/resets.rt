//! A reset of the controller: what it had of slots, of its segment table and of the Command Ring is let go (xHCI 4.2, 5.4.1).
ghost use Rattle.std.specs.Prelude.{◌≡◌, ℕ, List, map, true};
ghost use Rattle.traces.specs.AllowedHeaders.{IsHeader};
ghost use Rattle.traces.specs.declared.register.Register.TheVariants.{Erstba, Usbcmd};
ghost use Rattle.traces.specs.declared.row.Row.TheVariants.{Reg};
ghost use Rattle.ring_knowledge.specs.Known.{Known};
ghost use Rattle.ring_knowledge.specs.Resets.{resets};
ghost use Rattle.ring_knowledge.specs.declared.lease.Lease.{Lease};
ghost use Rattle.ownership_rules.specs.OpenLeases.{is_among, table_range};
ghost use Rattle.leases.specs.LeaseBooks.InStep.{IsInStep};
ghost use Rattle.leases.specs.LeaseBooks.Lents.{Lent, ended_where, grown};
ghost use Rattle.leases.specs.LeaseRows.CleanRows.{HoldsAll, IsNextRow};
ghost use Rattle.leases.specs.LeaseRows.LeftBehind.{AreLent, EntriesFit, is_of_slot};
ghost use Rattle.trace_record.specs.FollowsTrace.{FollowsTrace};
ghost use Rattle.trace_record.specs.RingFinder.Finding.{IsFinder};

use crate::book::{LeaseLog, RangeIndexes};
use crate::rows::left_behind::end_slot;
use crate::rows::taking::table_bytes;
use crate::rows::unfinished::end_contexts;
use trace_record::{Finder, TraceRecord};
use traces::{Header, Register};

/// Notes the row of a number that resets the controller; the record is that before it. The leases end of the entries and device contexts of
/// slots, of the segment table, and of all that was given of the Command Ring, with the input contexts of its unfinished commands.
#[inline(never)]
pub(crate) fn note_reset<B: LeaseLog>(
    book: &mut B,
    ranges: &RangeIndexes,
    header: &Header,
    finder: &Finder,
    t: &TraceRecord,
    number: u32,
)
    requires headed { IsHeader header.now }
    requires found { IsFinder header.now.rings finder.now }
    ensures { (list : List Lease) (k : Known) (ts : List Lent) (memory : ℕ → ℕ) (value : ℕ) → resets k Usbcmd value ≡ true → IsNextRow header.now k ts (Reg Usbcmd value) t.now memory →
        HoldsAll (B.holds list) header.now ts book.old ranges.now → HoldsAll (B.holds list) header.now (grown header.now k (Reg Usbcmd value) number ts) book.new ranges.now }
{
    end_slots(book, ranges, header, t, number);
    end_table(book, ranges, header, t, number);
    let Some(place) = finder.commands else {
        return;
    };
    let rings = header.rings.as_slice();
    let Some(ring) = rings.get(place) else {
        return;
    };
    let records = t.rings.as_slice();
    let Some(known) = records.get(place) else {
        return;
    };
    end_contexts(book, ranges, header, number, ring, known);
    let floor = known.floor_number();
    let given = known.given_count();
    book.end_passed(number, ring, floor, given);
}

/// The leases of the entries and device contexts of all slots end.
fn end_slots<B: LeaseLog>(
    book: &mut B,
    ranges: &RangeIndexes,
    header: &Header,
    t: &TraceRecord,
    number: u32,
)
    ensures { (list : List Lease) (k : Known) (memory : ℕ → ℕ) (ts : List Lent) → FollowsTrace header.now k t.now memory → EntriesFit k → IsInStep header.now k ts →
        HoldsAll (B.holds list) header.now ts book.old ranges.now → HoldsAll (B.holds list) header.now (map (ended_where is_of_slot number) ts) book.new ranges.now }
{
    for slot in 1..=255u8 {
        end_slot(book, ranges, header, t, number, slot);
    }
}

/// The lease of the segment table ends.
fn end_table<B: LeaseLog>(
    book: &mut B,
    ranges: &RangeIndexes,
    header: &Header,
    t: &TraceRecord,
    number: u32,
)
    requires { IsHeader header.now }
    ensures { (list : List Lease) (k : Known) (memory : ℕ → ℕ) (ts : List Lent) → FollowsTrace header.now k t.now memory → AreLent ts (table_range header.now (k.register Erstba)) →
        HoldsAll (B.holds list) header.now ts book.old ranges.now →
        HoldsAll (B.holds list) header.now (map (ended_where (is_among (table_range header.now (k.register Erstba))) number) ts) book.new ranges.now }
{
    let Some(value) = t.registers.value(Register::Erstba) else {
        return;
    };
    let bytes = table_bytes(header);
    ranges.end_table(book, number, bytes, value / 64 * 64);
}
