//! The notes of Command Completion Events (xHCI 4.6).
ghost use Rattle.std.specs.Prelude.{◌≡◌, ◌+◌, ◌==◌, ◌++◌, ◌∷◌, [], ℕ, Some, false, true, if◌then◌else◌, is_some, map, OnOk, IfOk, IfSome};
ghost use Rattle.trb.specs.Block.{code, slot};
ghost use Rattle.traces.specs.declared.header.Header.{Header as HeaderValue};
ghost use Rattle.traces.specs.Header.{command_id, command_ring};
ghost use Rattle.traces.specs.AllowedHeaders.{IsHeader};
ghost use Rattle.traces.specs.declared.step.Step.TheVariants.{Finish};
ghost use Rattle.world_state.specs.PlacingCommands.{IsWell};
ghost use Rattle.ring_knowledge.specs.Known.{Known};
ghost use Rattle.ring_knowledge.specs.Rings.{command_at, next_command};
ghost use Rattle.trace_record.specs.RingFinder.Finding.{IsFinder};
ghost use Rattle.ownership_rules.specs.Events.{is_impossible_completion};
ghost use Rattle.safety.specs.Keeps.{DriverKeeps};
ghost use Rattle.replayer.specs.LazySteps.Notes.{completing_look, open_stopped, placed, placed_by};
ghost use Rattle.replayer.specs.declared.lazy_steps.note.Note.TheVariants.{Begun, Made};
ghost use Rattle.trace_record.specs.FollowsTrace.{FollowsTrace};
ghost use Rattle.replayer.specs.RowNotes.Added.{MayPlace};

use crate::lazy_steps::Note;
use crate::row_notes::notes::add_note;
use crate::row_notes::placing::add_placed;
use crate::row_notes::rings::{CommandPlace, is_open, next_place};
use commands::Command;
use guest_memory::WordMemory;
use std::alloc::{AllocError, Global};
use trace_record::{Finder, TraceRecord, command_said};
use traces::{Header, Step};
use trb::Block;

/// Adds the notes of a Command Completion Event up to its post: which rings begin anew, and how far the command ring is looked at. The IDs
/// of the rings that the command binds or moves are the result.
pub(crate) fn note_completion<M: WordMemory>(
    alloc: Global,
    header: &Header,
    finder: &Finder,
    kept: &TraceRecord,
    memory: &M,
    event: Block,
    notes: &mut Vec<Note>,
) -> Result<Vec<u8>, AllocError>
    requires headed { IsHeader header.now }
    requires found { IsFinder header.now.rings finder.now }
    ensures placed { IfOk result (λ rings. (k : Known) → FollowsTrace header.now k kept.now (M.words memory.now) → DriverKeeps header.now k → k.started ≡ true →
        is_impossible_completion header.now k event ≡ false → rings.items ≡ placed header.now k event) }
    ensures noted { IfOk result (λ rings. (k : Known) → FollowsTrace header.now k kept.now (M.words memory.now) → DriverKeeps header.now k → k.started ≡ true →
        is_impossible_completion header.now k event ≡ false →
        notes.new.items ≡ notes.old.items ++ map Begun rings.items
        ++ completing_look header.now k (open_stopped k (code event) (command_at header.now k (next_command header.now k))) ∷ Made (Finish event) ∷ []) }
{
    let command = command_said(kept.next_command(header, finder));
    let mut rings = Vec::new(alloc);
    add_placed_by(header, finder, kept, memory, command, event, &mut rings)?;
    note_begun(rings.as_slice(), notes)?;
    note_look(header, finder, kept, command, event, notes)?;
    add_note(
        Note::Made {
            step: Step::Finish { event },
        },
        notes,
    )?;
    Ok(rings)
}

/// Adds the rings that the completion of the command binds or moves.
fn add_placed_by<M: WordMemory>(
    header: &Header,
    finder: &Finder,
    kept: &TraceRecord,
    memory: &M,
    command: Option<Command>,
    event: Block,
    rings: &mut Vec<u8>,
) -> Result<(), AllocError>
    requires headed { IsHeader header.now }
    requires found { IsFinder header.now.rings finder.now }
    requires well { IfSome command IsWell }
    ensures { OnOk result ((k : Known) → FollowsTrace header.now k kept.now (M.words memory.now) → MayPlace header.now k command →
        rings.new.items ≡ rings.old.items ++ (if code event == 1 then placed_by header.now k (slot event) command else [])) }
{
    if event.code() != 1 {
        return Ok(());
    }
    match command {
        None => Ok(()),
        Some(command) => add_placed(header, finder, &kept.devices, memory, command, rings),
    }
}

/// The need of each of these rings begins anew.
fn note_begun(rings: &[u8], notes: &mut Vec<Note>) -> Result<(), AllocError>
    ensures { OnOk result (notes.new.items ≡ notes.old.items ++ map Begun rings.now) }
{
    for &ring in rings {
        add_note(Note::Begun { ring }, notes)?;
    }
    Ok(())
}

/// The look for the command, which may stop an open ring.
fn note_look(
    header: &Header,
    finder: &Finder,
    kept: &TraceRecord,
    command: Option<Command>,
    event: Block,
    notes: &mut Vec<Note>,
) -> Result<(), AllocError>
    requires headed { IsHeader header.now }
    requires found { IsFinder header.now.rings finder.now }
    ensures { OnOk result ((k : Known) (m : ℕ → ℕ) → FollowsTrace header.now k kept.now m → DriverKeeps header.now k → is_some (command_ring header.now) ≡ true →
        notes.new.items ≡ notes.old.items ++ completing_look header.now k (open_stopped k (code event) command) ∷ []) }
{
    let Some(next) = next_place(header, finder, kept) else {
        return Ok(());
    };
    let stopped = open_stopped(finder, kept, event.code(), command);
    add_note(completing_look(next, stopped), notes)
}

/// The look for a command, which may stop an open ring.
fn completing_look(next: CommandPlace, stopped: Option<u8>) -> Note
    ensures { (h : HeaderValue) (k : Known) → next ≡ record { ring = command_id h; behind = next_command h k + 1 } → result ≡ completing_look h k stopped }
{
    match stopped {
        None => Note::Taken {
            ring: next.ring,
            behind: next.behind,
        },
        Some(ring) => Note::StoppedOpen {
            commands: next.ring,
            behind: next.behind,
            ring,
            need: 0,
        },
    }
}

/// The open ring that a command with this completion code stops (xHCI 4.6.9).
fn open_stopped(
    finder: &Finder,
    kept: &TraceRecord,
    code: u8,
    command: Option<Command>,
) -> Option<u8>
    ensures { (h : HeaderValue) (k : Known) (m : ℕ → ℕ) → IsHeader h → IsFinder h.rings finder.now → FollowsTrace h k kept.now m → DriverKeeps h k →
        result ≡ open_stopped k code command }
{
    let Some(command) = command else {
        return None;
    };
    if code != 1 {
        return None;
    }
    stopped_by(finder, kept, command)
}

/// The open ring that the success of the command stops.
fn stopped_by(finder: &Finder, kept: &TraceRecord, command: Command) -> Option<u8>
    ensures { (h : HeaderValue) (k : Known) (m : ℕ → ℕ) → IsHeader h → IsFinder h.rings finder.now → FollowsTrace h k kept.now m → DriverKeeps h k →
        result ≡ open_stopped k 1 (Some command) }
{
    let Command::StopEndpoint { slot, endpoint } = command else {
        return None;
    };
    let Some(ring) = kept.devices.ring_of(slot, endpoint) else {
        return None;
    };
    if is_open(finder, kept, ring) {
        Some(ring)
    } else {
        None
    }
}
