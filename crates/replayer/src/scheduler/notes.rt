//! What the rows of a trace ask of its lazy schedule, told as they are checked.
ghost use Rattle.std.specs.Prelude.{◌≡◌, ◌+◌, ◌≤◌, ◌∷◌, ◌++◌, ℕ, List, [], All, Some, false, length, reverse, IfErr, IfOk, OnOk};
ghost use Rattle.traces.specs.declared.header.Header.{Header as HeaderValue};
ghost use Rattle.traces.specs.declared.row.Row.{Row as RowValue};
ghost use Rattle.traces.specs.declared.row.Row.TheVariants.{Ring as RingRow, Free as FreeRow};
ghost use Rattle.traces.specs.AllowedHeaders.{AreUnmoved, IsHeader};
ghost use Rattle.traces.specs.Limits.{most_lines, most_streamed_lines};
ghost use Rattle.traces.specs.Rows.{IsRow, is_ring_row};
ghost use Rattle.traces.specs.TraceRows.{IsTraceRow};
ghost use Rattle.ring_knowledge.specs.Known.{Known, nothing};
ghost use Rattle.ring_knowledge.specs.Histories.{header_now, known_now};
ghost use Rattle.trace_record.specs.Steps.{IfRefused};
ghost use Rattle.ownership_checker.specs.RingPasses.Clean.{AreClean, IsLeastOfRow};
ghost use Rattle.ownership_checker.specs.RingPasses.Passing.{IsRingPassed};
ghost use Rattle.ownership_rules.specs.Rules.{trace_verdict};
ghost use Rattle.replayer.specs.LazySteps.Notes.{any_notes, notes, row_notes};
ghost use Rattle.replayer.specs.Schedules.Verdicts.{IfRefusedAt};

use crate::lazy_steps::Note;
use crate::row_notes::{note_placed, note_row};
use crate::scheduler::fault::ScheduleFault;
use crate::scheduler::no_log::NoLog;
use guest_memory::WordMemory;
use ownership_checker::RingPass;
use segments::Spot;
use std::alloc::{AllocError, Global};
use trace_record::StepFault;
use traces::{Header, Ring, Row, Step};

/// Checks rows, `first` the number of the first; the notes on them.
pub fn notes_of<M: WordMemory + Drop>(
    alloc: Global,
    header: Header,
    first: u32,
    rows: &[Row],
    memory: M,
) -> Result<Vec<Note>, ScheduleFault>
    requires headed { IsHeader header }
    requires unmoved { AreUnmoved header.rings }
    requires fits { All IsTraceRow rows.now }
    requires within { first + length rows.now ≤ most_lines + 1 }
    requires zero { (a : ℕ) → M.words memory a ≡ 0 }
    ensures clean { OnOk result (AreClean header (reverse rows.now)) }
    ensures notes { IfOk result (λ list. list.items ≡ notes header nothing rows.now) }
    ensures refused { IfErr result (λ e. IfRefusedAt e (λ row c. trace_verdict header first rows.now ≡ Some (row, c))) }
{
    let mut pass = RingPass::new(alloc, header, NoLog, memory)?;
    let mut list = Vec::new(alloc);
    let mut number = first;
    for row in rows {
        match note_next(alloc, &mut pass, number, row, &mut list) {
            Ok(()) => {}
            Err(StepFault::Refused(refusal)) => return Err(ScheduleFault::Refused {
                row: number,
                refusal,
            }),
            Err(StepFault::Memory) => return Err(ScheduleFault::Memory),
        }
        add_note(Note::Next, &mut list)?;
        number += 1;
    }
    Ok(list)
}

/// Checks a row, and adds its notes, up to the step to it.
fn note_next<M: WordMemory + Drop>(
    alloc: Global,
    pass: &mut RingPass<NoLog, M>,
    number: u32,
    row: &Row,
    list: &mut Vec<Note>,
) -> Result<(), StepFault>
    requires so_far { (h : HeaderValue) × (past : List RowValue) × IsRingPassed M.words h past pass.now × (length past ≤ most_streamed_lines) }
    requires fits { IsTraceRow row.now }
    ensures passed { OnOk result ((h : HeaderValue) (past : List RowValue) → IsRingPassed M.words h past pass.old → IsRingPassed M.words h (row.now ∷ past) pass.new) }
    ensures noted { OnOk result ((h : HeaderValue) (past : List RowValue) → IsRingPassed M.words h past pass.old →
        list.new.items ≡ list.old.items ++ any_notes (header_now h past) (known_now h past) row.now) }
    ensures refused { IfErr result (λ e. IfRefused e (λ c. (h : HeaderValue) (past : List RowValue) → IsRingPassed M.words h past pass.old →
        IsLeastOfRow (header_now h past) (known_now h past) row.now c)) }
{
    match row {
        Row::Ring { ring } => {
            note_beginning(ring.as_ring(), list)?;
            pass.row(number, row)
        }
        Row::Free { ring: id } => {
            note_end(*id, list)?;
            pass.row(number, row)
        }
        Row::Nop { .. } => pass.row(number, row),
        _ => note_driver_row(alloc, pass, number, row, list),
    }
}

/// Checks what the driver did, or an event that it read, and adds its notes.
fn note_driver_row<M: WordMemory + Drop>(
    alloc: Global,
    pass: &mut RingPass<NoLog, M>,
    number: u32,
    row: &Row,
    list: &mut Vec<Note>,
) -> Result<(), StepFault>
    requires so_far { (h : HeaderValue) × (past : List RowValue) × IsRingPassed M.words h past pass.now × (length past ≤ most_streamed_lines) }
    requires fits { IsRow row.now }
    requires driven { is_ring_row row.now ≡ false }
    ensures passed { OnOk result ((h : HeaderValue) (past : List RowValue) → IsRingPassed M.words h past pass.old → IsRingPassed M.words h (row.now ∷ past) pass.new) }
    ensures noted { OnOk result ((h : HeaderValue) (past : List RowValue) → IsRingPassed M.words h past pass.old →
        list.new.items ≡ list.old.items ++ row_notes (header_now h past) (known_now h past) row.now) }
    ensures refused { IfErr result (λ e. IfRefused e (λ c. (h : HeaderValue) (past : List RowValue) → IsRingPassed M.words h past pass.old →
        IsLeastOfRow (header_now h past) (known_now h past) row.now c)) }
{
    let placed = note_row(
        alloc,
        pass.header(),
        pass.finder(),
        pass.record(),
        pass.memory(),
        row,
        list,
    )?;
    pass.row(number, row)?;
    note_placed(
        pass.header(),
        pass.finder(),
        pass.record(),
        placed.as_slice(),
        list,
    )?;
    Ok(())
}

/// A ring that comes stands at its beginning.
fn note_beginning(ring: &Ring, list: &mut Vec<Note>) -> Result<(), AllocError>
    ensures { OnOk result ((h : HeaderValue) (k : Known) → list.new.items ≡ list.old.items ++ any_notes h k (RingRow ring.now)) }
{
    add_note(
        Note::Placed {
            ring: ring.id,
            spot: Spot::Data(0),
        },
        list,
    )
}

/// Of a ring that goes nothing more is needed.
fn note_end(id: u8, list: &mut Vec<Note>) -> Result<(), AllocError>
    ensures { OnOk result ((h : HeaderValue) (k : Known) → list.new.items ≡ list.old.items ++ any_notes h k (FreeRow id)) }
{
    add_note(Note::Begun { ring: id }, list)?;
    add_note(
        Note::Placed {
            ring: id,
            spot: Spot::Data(0),
        },
        list,
    )
}

/// Adds a note.
fn add_note(note: Note, list: &mut Vec<Note>) -> Result<(), AllocError>
    ensures { OnOk result (list.new.items ≡ list.old.items ++ note ∷ []) }
{
    // The prover knows the type of a note's part where the function names it.
    let _none: Option<Step> = None;
    list.push(note)?;
    Ok(())
}
