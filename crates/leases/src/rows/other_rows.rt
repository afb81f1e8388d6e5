//! Declarations, doorbells and registers: a lease begins with the first write of ERSTBA (xHCI 5.5.2.3.2, 6.5), and some end with a reset.
ghost use Rattle.ring_knowledge.specs.declared.lease.Lease.{Lease};
ghost use Rattle.std.specs.Prelude.{◌≡◌, ℕ, List, OnOk};
ghost use Rattle.traces.specs.AllowedHeaders.{IsHeader};
ghost use Rattle.traces.specs.declared.register.Register.TheVariants.{Erstba, Usbcmd};
ghost use Rattle.traces.specs.declared.row.Row.TheVariants.{Reg};
ghost use Rattle.ring_knowledge.specs.Known.{Known};
ghost use Rattle.ring_knowledge.specs.RegisterRecords.{FollowsRegisters};
ghost use Rattle.ring_knowledge.specs.Resets.{resets};
ghost use Rattle.leases.specs.LeaseBooks.Lents.{Lent, grown};
ghost use Rattle.leases.specs.LeaseRows.CleanRows.{HoldsAll, IsNextRow, IsOtherRow};
ghost use Rattle.trace_record.specs.RingFinder.Finding.{IsFinder};

use crate::book::{LeaseLog, RangeIndexes};
use crate::rows::resets::note_reset;
use crate::rows::taking::table_bytes;
use ring_knowledge::RegisterRecord;
use std::alloc::AllocError;
use trace_record::{Finder, TraceRecord};
use traces::{Header, Register, Row};

/// Notes the row of a number, a declaration, a doorbell or a register's; the record is that before it.
pub(crate) fn note_other_row<B: LeaseLog>(
    book: &mut B,
    ranges: &mut RangeIndexes,
    header: &Header,
    finder: &Finder,
    t: &TraceRecord,
    number: u32,
    row: &Row,
) -> Result<(), AllocError>
    requires headed { IsHeader header.now }
    requires found { IsFinder header.now.rings finder.now }
    ensures { OnOk result ((list : List Lease) (k : Known) (ts : List Lent) (memory : ℕ → ℕ) → IsOtherRow row.now →
        IsNextRow header.now k ts row.now t.now memory → HoldsAll (B.holds list) header.now ts book.old ranges.old →
        HoldsAll (B.holds list) header.now (grown header.now k row.now number ts) book.new ranges.new) }
{
    match row {
        Row::Reg { register, value } => {
            note_register(book, ranges, header, finder, t, number, *register, *value)
        }
        _ => Ok(()),
    }
}

/// Notes the write of a register.
fn note_register<B: LeaseLog>(
    book: &mut B,
    ranges: &mut RangeIndexes,
    header: &Header,
    finder: &Finder,
    t: &TraceRecord,
    number: u32,
    register: Register,
    value: u64,
) -> Result<(), AllocError>
    requires headed { IsHeader header.now }
    requires found { IsFinder header.now.rings finder.now }
    ensures { OnOk result ((list : List Lease) (k : Known) (ts : List Lent) (memory : ℕ → ℕ) →
        IsNextRow header.now k ts (Reg register value) t.now memory → HoldsAll (B.holds list) header.now ts book.old ranges.old →
        HoldsAll (B.holds list) header.now (grown header.now k (Reg register value) number ts) book.new ranges.new) }
{
    match register {
        Register::Erstba => note_table(book, ranges, header, t, number, value),
        Register::Usbcmd => {
            note_command_register(book, ranges, header, finder, t, number, value);
            Ok(())
        }
        _ => Ok(()),
    }
}

/// The lease of the segment table begins at the first write of ERSTBA; it may be written again as it stands.
fn note_table<B: LeaseLog>(
    book: &mut B,
    ranges: &mut RangeIndexes,
    header: &Header,
    t: &TraceRecord,
    number: u32,
    value: u64,
) -> Result<(), AllocError>
    requires { IsHeader header.now }
    ensures { OnOk result ((list : List Lease) (k : Known) (ts : List Lent) (memory : ℕ → ℕ) →
        IsNextRow header.now k ts (Reg Erstba value) t.now memory → HoldsAll (B.holds list) header.now ts book.old ranges.old →
        HoldsAll (B.holds list) header.now (grown header.now k (Reg Erstba value) number ts) book.new ranges.new) }
{
    if t.registers.value(Register::Erstba).is_some() {
        return Ok(());
    }
    let bytes = table_bytes(header);
    ranges.begin_table(book, number, bytes, value / 64 * 64)
}

/// Notes the write of USBCMD: it may reset a controller that is known to have halted.
fn note_command_register<B: LeaseLog>(
    book: &mut B,
    ranges: &RangeIndexes,
    header: &Header,
    finder: &Finder,
    t: &TraceRecord,
    number: u32,
    value: u64,
)
    requires headed { IsHeader header.now }
    requires found { IsFinder header.now.rings finder.now }
    ensures { (list : List Lease) (k : Known) (ts : List Lent) (memory : ℕ → ℕ) →
        IsNextRow header.now k ts (Reg Usbcmd value) t.now memory → HoldsAll (B.holds list) header.now ts book.old ranges.now →
        HoldsAll (B.holds list) header.now (grown header.now k (Reg Usbcmd value) number ts) book.new ranges.now }
{
    if is_reset(&t.registers, value) {
        note_reset(book, ranges, header, finder, t, number);
    }
}

/// A value of USBCMD resets a controller that is known to have halted.
fn is_reset(registers: &RegisterRecord, value: u64) -> bool
    ensures { (k : Known) → FollowsRegisters k registers.now → result ≡ resets k Usbcmd value }
{
    registers.halt().is_done() && value / 2 % 2 == 1
}
