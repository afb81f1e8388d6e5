//! The notes of one row: those that come before it is noted in the record, and those that come behind that.
ghost use Rattle.std.specs.Prelude.{◌≡◌, ◌++◌, ℕ, [], map, All, IfOk, OnOk};
ghost use Rattle.traces.specs.AllowedHeaders.{IsHeader};
ghost use Rattle.traces.specs.declared.header.Header.{Header as HeaderValue};
ghost use Rattle.traces.specs.declared.row.Row.TheVariants.{Bell, Read};
ghost use Rattle.ring_knowledge.specs.Known.{Known};
ghost use Rattle.ring_knowledge.specs.RegisterRecords.{FollowsRegisters};
ghost use Rattle.trace_record.specs.RingFinder.Finding.{IsFinder};
ghost use Rattle.trace_record.specs.DeviceSlots.Devices.{FollowsDevices};
ghost use Rattle.ownership_rules.specs.LenientRules.{lenient};
ghost use Rattle.safety.specs.Keeps.{DriverKeeps, IsTransferRing};
ghost use Rattle.safety.specs.LazyRuns.Lazy.{is_first_halt};
ghost use Rattle.replayer.specs.LazySteps.Notes.{floor_note, read_notes, row_notes};
ghost use Rattle.trace_record.specs.FollowsTrace.{FollowsTrace};
ghost use Rattle.replayer.specs.RowNotes.Noted.{AreNoted, MayBeRead};

use crate::lazy_steps::Note;
use crate::row_notes::completions::note_completion;
use crate::row_notes::notes::add_note;
use crate::row_notes::reports::note_report;
use crate::row_notes::rings::floor_of;
use guest_memory::WordMemory;
use ring_knowledge::RegisterRecord;
use std::alloc::{AllocError, Global};
use trace_record::{DeviceRecord, Finder, TraceRecord};
use traces::{Halt, Header, Register, Row, Step};
use trb::{Block, BlockKind};

/// Adds the notes of a row that come before it is noted in the record. The result is the IDs of the rings that it binds or moves, in
/// order: where they stand is noted behind it.
pub fn note_row<M: WordMemory>(
    alloc: Global,
    header: &Header,
    finder: &Finder,
    kept: &TraceRecord,
    memory: &M,
    row: &Row,
    notes: &mut Vec<Note>,
) -> Result<Vec<u8>, AllocError>
    requires headed { IsHeader header.now }
    requires found { IsFinder header.now.rings finder.now }
    ensures { IfOk result (λ placed. (k : Known) → FollowsTrace header.now k kept.now (M.words memory.now) → DriverKeeps header.now k → MayBeRead header.now k row.now →
        AreNoted header.now k row.now notes.old.items notes.new.items placed.items) }
{
    match row {
        Row::Bell { slot, target } => {
            note_bell(&kept.devices, *slot, *target, notes)?;
            Ok(Vec::new(alloc))
        }
        Row::Read { event } => note_event(alloc, header, finder, kept, memory, *event, notes),
        Row::RegRead { register, value } => {
            note_read(&kept.registers, *register, *value, notes)?;
            Ok(Vec::new(alloc))
        }
        _ => Ok(Vec::new(alloc)),
    }
}

/// Adds where the transfer rings with these IDs stand, by the record behind the row that bound or moved them.
pub fn note_placed(
    header: &Header,
    finder: &Finder,
    after: &TraceRecord,
    placed: &[u8],
    notes: &mut Vec<Note>,
) -> Result<(), AllocError>
    requires headed { IsHeader header.now }
    requires found { IsFinder header.now.rings finder.now }
    ensures { OnOk result ((k : Known) (m : ℕ → ℕ) → FollowsTrace header.now k after.now m → All (IsTransferRing header.now) placed.now →
        notes.new.items ≡ notes.old.items ++ map (floor_note k) placed.now) }
{
    for &ring in placed {
        let spot = floor_of(finder, after, ring);
        add_note(Note::Placed { ring, spot }, notes)?;
    }
    Ok(())
}

/// The notes of a doorbell.
fn note_bell(
    devices: &DeviceRecord,
    slot: u8,
    target: u8,
    notes: &mut Vec<Note>,
) -> Result<(), AllocError>
    ensures { OnOk result ((h : HeaderValue) (k : Known) → FollowsDevices k devices.now → notes.new.items ≡ notes.old.items ++ row_notes h k (Bell slot target)) }
{
    if slot == 0 {
        return Ok(());
    }
    match devices.ring_of(slot, target) {
        Some(ring) => add_note(Note::Begun { ring }, notes),
        None => Ok(()),
    }
}

/// The notes of a register that is read: where it tells of it first, the controller halts.
fn note_read(
    registers: &RegisterRecord,
    register: Register,
    value: u64,
    notes: &mut Vec<Note>,
) -> Result<(), AllocError>
    ensures { OnOk result ((h : HeaderValue) (k : Known) → FollowsRegisters k registers.now →
        notes.new.items ≡ notes.old.items ++ read_notes h k register value) }
{
    if !is_first_halt(registers, register, value) {
        return Ok(());
    }
    add_note(Note::Made { step: Step::Halt }, notes)
}

/// Whether the read shows that the controller has halted since R/S was cleared, and none before did (xHCI 5.4.1.1, 5.4.2, HCH).
#[tactic(auto, unfolding(safety::specs::LazyRuns::Lazy::is_first_halt))]
fn is_first_halt(registers: &RegisterRecord, register: Register, value: u64) -> bool
    ensures { (h : HeaderValue) (k : Known) → FollowsRegisters k registers.now → result ≡ is_first_halt h k register value }
{
    match (register, registers.halt()) {
        (Register::Usbsts, Halt::Asked) => value % 2 == 1,
        _ => false,
    }
}

/// The notes of an event, up to its post.
fn note_event<M: WordMemory>(
    alloc: Global,
    header: &Header,
    finder: &Finder,
    kept: &TraceRecord,
    memory: &M,
    event: Block,
    notes: &mut Vec<Note>,
) -> Result<Vec<u8>, AllocError>
    requires headed { IsHeader header.now }
    requires found { IsFinder header.now.rings finder.now }
    ensures { IfOk result (λ placed. (k : Known) → FollowsTrace header.now k kept.now (M.words memory.now) → DriverKeeps header.now k → lenient header.now k (Read event) ≡ [] →
        AreNoted header.now k (Read event) notes.old.items notes.new.items placed.items) }
{
    match event.kind() {
        BlockKind::TransferEvent => {
            note_report(header, finder, kept, event, notes)?;
            Ok(Vec::new(alloc))
        }
        BlockKind::CommandCompletion => {
            note_completion(alloc, header, finder, kept, memory, event, notes)
        }
        _ => {
            add_note(
                Note::Made {
                    step: Step::Other { event },
                },
                notes,
            )?;
            Ok(Vec::new(alloc))
        }
    }
}
