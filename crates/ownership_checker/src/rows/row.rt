//! A row, by its kind.
ghost use Rattle.std.specs.Prelude.{◌≡◌, ◌+◌, ℕ, false, length, None, IfErr, OnOk};
ghost use Rattle.traces.specs.AllowedHeaders.{IsHeader};
ghost use Rattle.traces.specs.Limits.{most_streamed_lines};
ghost use Rattle.traces.specs.Rows.{is_ring_row};
ghost use Rattle.traces.specs.declared.row.Row.TheVariants.{Bell, Write};
ghost use Rattle.ring_knowledge.specs.Known.{Known};
ghost use Rattle.trace_record.specs.RingFinder.Finding.{IsFinder};
ghost use Rattle.ownership_rules.specs.ByVersion.{writes_to_owned};
ghost use Rattle.safety.specs.Keeps.{DriverKeeps};
ghost use Rattle.trace_record.specs.FollowsTrace.{FollowsTrace};
ghost use Rattle.trace_record.specs.Fresh.{IsWithin};
ghost use Rattle.trace_record.specs.Steps.{IfRefused, IsLeast, IsRowStep};
ghost use Rattle.trace_record.specs.RowPlaces.{IsPlaced, IsPlacedSo};
ghost use Rattle.ownership_checker.specs.JudgedRows.Tracking.{IsLeastFrom, IsStepFrom, IsTracked};

use crate::rows::events::check_event;
use driver_rows::{
    WordWrite, check_declaration, check_register, check_register_read, check_write,
    is_bad_doorbell, note_plain_write, note_write, plain_refusal, ring_doorbell,
};
use guest_memory::WordMemory;
use ownership_rules::Refusal;
use trace_record::{Finder, RowPlace, StepFault, TraceRecord};
use traces::{Header, Row};

/// Checks a row, and notes it. `place` is where the word lies that it writes, and the command that it gives or ends.
#[inline(always)]
pub(crate) fn check_row<M: WordMemory>(
    header: &Header,
    finder: &Finder,
    kept: &mut TraceRecord,
    memory: &mut M,
    row: &Row,
    place: &RowPlace,
) -> Result<(), StepFault>
    requires headed { IsHeader header.now }
    requires found { IsFinder header.now.rings finder.now }
    requires as_many { length kept.now.rings.items ≡ length header.now.rings }
    requires few_reads { IsWithin kept.now.events most_streamed_lines }
    requires driven { is_ring_row row.now ≡ false }
    ensures ok { OnOk result ((k : Known) → IsTracked header.now k kept.old (M.words memory.old) →
        IsPlaced header.now k row.now place.now → IsRowStep header.now k row.now kept.new (M.words memory.new)) }
    ensures refused { IfErr result (λ e. IfRefused e (λ c. (k : Known) → IsTracked header.now k kept.old (M.words memory.old) →
        IsPlaced header.now k row.now place.now → IsLeast header.now k row.now c)) }
    ensures reads { OnOk result ((n : ℕ) → IsWithin kept.old.events n → IsWithin kept.new.events (n + 1)) }
{
    if kept.registers.is_stopped() {
        return Err(StepFault::Refused(Refusal::AfterStop));
    }
    match row {
        Row::Sub { ring: id, blocks } => check_declaration(
            header,
            finder,
            kept,
            *id,
            blocks.as_slice(),
        ),
        Row::Write { at, word } => {
            let write = WordWrite {
                at: *at,
                word: *word,
                place,
                owned: kept.owns(header, memory, row, place),
            };
            check_word(header, finder, kept, memory, &write)
        }
        Row::Reg { register, value } => check_register(
            header, finder, kept, memory, *register, *value,
        ),
        Row::Bell { slot, target } => check_doorbell(header, finder, kept, memory, *slot, *target),
        Row::Read { event } => check_event(header, finder, kept, memory, *event, place),
        Row::RegRead { register, value } => check_register_read(kept, *register, *value),
        Row::Ring { .. } | Row::Free { .. } | Row::Nop { .. } => Ok(()),
    }
}

/// Checks a write before the stop, makes it, and notes what it gives. Most writes give nothing: these are checked here.
#[inline(always)]
fn check_word<M: WordMemory>(
    header: &Header,
    finder: &Finder,
    kept: &mut TraceRecord,
    memory: &mut M,
    write: &WordWrite<'_>,
) -> Result<(), StepFault>
    requires headed { IsHeader header.now }
    requires found { IsFinder header.now.rings finder.now }
    ensures ok { OnOk result ((k : Known) → FollowsTrace header.now k kept.old (M.words memory.old) → DriverKeeps header.now k → k.stopped ≡ false →
        IsPlacedSo header.now k write.now.at write.now.word write.now.place.now → write.now.owned ≡ writes_to_owned header.now k write.now.at write.now.word → IsRowStep header.now k (Write write.now.at write.now.word) kept.new (M.words memory.new)) }
    ensures refused { IfErr result (λ e. IfRefused e (λ c. (k : Known) → FollowsTrace header.now k kept.old (M.words memory.old) → DriverKeeps header.now k → k.stopped ≡ false →
        IsPlacedSo header.now k write.now.at write.now.word write.now.place.now → write.now.owned ≡ writes_to_owned header.now k write.now.at write.now.word → IsLeast header.now k (Write write.now.at write.now.word) c)) }
    ensures events { OnOk result (kept.new.events ≡ kept.old.events) }
{
    if write.place.giving.is_some() {
        // (a copy for the function that stays apart: the write itself can then be kept in registers)
        let giving = WordWrite {
            at: write.at,
            word: write.word,
            place: write.place,
            owned: write.owned,
        };
        return check_giving_word(header, finder, kept, memory, &giving);
    }
    check_plain_word(header, kept, memory, write)
}

/// The same of a write that gives nothing.
#[inline(always)]
fn check_plain_word<M: WordMemory>(
    header: &Header,
    kept: &mut TraceRecord,
    memory: &mut M,
    write: &WordWrite<'_>,
) -> Result<(), StepFault>
    requires headed { IsHeader header.now }
    requires plain { write.now.place.now.giving ≡ None }
    ensures ok { OnOk result ((k : Known) → FollowsTrace header.now k kept.old (M.words memory.old) → DriverKeeps header.now k → k.stopped ≡ false →
        IsPlacedSo header.now k write.now.at write.now.word write.now.place.now → write.now.owned ≡ writes_to_owned header.now k write.now.at write.now.word → IsRowStep header.now k (Write write.now.at write.now.word) kept.new (M.words memory.new)) }
    ensures refused { IfErr result (λ e. IfRefused e (λ c. (k : Known) → FollowsTrace header.now k kept.old (M.words memory.old) → DriverKeeps header.now k → k.stopped ≡ false →
        IsPlacedSo header.now k write.now.at write.now.word write.now.place.now → write.now.owned ≡ writes_to_owned header.now k write.now.at write.now.word → IsLeast header.now k (Write write.now.at write.now.word) c)) }
    ensures events { OnOk result (kept.new.events ≡ kept.old.events) }
{
    if let Some(refusal) = plain_refusal(header, write.place, write.owned) {
        return Err(StepFault::Refused(refusal));
    }
    note_plain_write(header, kept, memory, write.at, write.word, write.place)?;
    Ok(())
}

/// The same of a write that may give something. It stays apart, so that the others need few registers.
#[inline(never)]
fn check_giving_word<M: WordMemory>(
    header: &Header,
    finder: &Finder,
    kept: &mut TraceRecord,
    memory: &mut M,
    write: &WordWrite<'_>,
) -> Result<(), StepFault>
    requires headed { IsHeader header.now }
    requires found { IsFinder header.now.rings finder.now }
    ensures ok { OnOk result ((k : Known) → FollowsTrace header.now k kept.old (M.words memory.old) → DriverKeeps header.now k → k.stopped ≡ false →
        IsPlacedSo header.now k write.now.at write.now.word write.now.place.now → write.now.owned ≡ writes_to_owned header.now k write.now.at write.now.word → IsRowStep header.now k (Write write.now.at write.now.word) kept.new (M.words memory.new)) }
    ensures refused { IfErr result (λ e. IfRefused e (λ c. (k : Known) → FollowsTrace header.now k kept.old (M.words memory.old) → DriverKeeps header.now k → k.stopped ≡ false →
        IsPlacedSo header.now k write.now.at write.now.word write.now.place.now → write.now.owned ≡ writes_to_owned header.now k write.now.at write.now.word → IsLeast header.now k (Write write.now.at write.now.word) c)) }
    ensures events { OnOk result (kept.new.events ≡ kept.old.events) }
{
    match check_write(header, finder, kept, memory, write) {
        Ok(None) => {
            note_plain_write(header, kept, memory, write.at, write.word, write.place)?;
            Ok(())
        }
        Ok(Some(command)) => {
            note_write(header, finder, kept, memory, write, Some(command))?;
            Ok(())
        }
        Err(refusal) => Err(StepFault::Refused(refusal)),
    }
}

/// Checks a doorbell before the stop, and notes it (xHCI 4.7, 4.8.3, 5.6).
#[inline(always)]
fn check_doorbell<M: WordMemory>(
    header: &Header,
    finder: &Finder,
    kept: &mut TraceRecord,
    memory: &M,
    slot: u8,
    target: u8,
) -> Result<(), StepFault>
    requires headed { IsHeader header.now }
    requires found { IsFinder header.now.rings finder.now }
    requires as_many { length kept.now.rings.items ≡ length header.now.rings }
    ensures ok { OnOk result (IsStepFrom header.now kept.old (M.words memory.now) (Bell slot target) kept.new (M.words memory.now)) }
    ensures refused { IfErr result (λ e. IfRefused e (IsLeastFrom header.now kept.old (M.words memory.now) (Bell slot target))) }
    ensures events { kept.new.events ≡ kept.old.events }
{
    if is_bad_doorbell(header, kept, memory, slot, target) {
        return Err(StepFault::Refused(Refusal::BadDoorbell));
    }
    ring_doorbell(finder, kept, slot, target);
    Ok(())
}
