//! The notes of Transfer Events (xHCI 4.6.9, 4.10.2, 6.4.2.1).
ghost use Rattle.std.specs.Prelude.{◌≡◌, ◌+◌, ◌<◌, ◌^◌, ◌++◌, ◌∷◌, [], ℕ, OnOk, if◌then◌else◌};
ghost use Rattle.trb.specs.CompletionCode.{is_success};
ghost use Rattle.trb.specs.declared.kind.BlockKind.TheVariants.{TransferEvent};
ghost use Rattle.segments.specs.Spots.{number};
ghost use Rattle.traces.specs.AllowedHeaders.{IsHeader};
ghost use Rattle.ring_knowledge.specs.Known.{Known};
ghost use Rattle.ring_knowledge.specs.Rings.{code_told, event_at};
ghost use Rattle.trace_record.specs.RingFinder.Finding.{IsFinder};
ghost use Rattle.safety.specs.Keeps.{DriverKeeps};
ghost use Rattle.replayer.specs.LazySteps.Notes.{event_notes, reporting_look, transfer_notes};
ghost use Rattle.replayer.specs.declared.lazy_steps.note.Note.TheVariants.{Succeeded};
ghost use Rattle.trace_record.specs.FollowsTrace.{FollowsTrace};
ghost use Rattle.replayer.specs.RowNotes.Noted.{StopsByCommand};

use crate::lazy_steps::Note;
use crate::row_notes::notes::add_note;
use crate::row_notes::rings::next_place;
use event_rows::named_spot;
use segments::Spot;
use std::alloc::AllocError;
use trace_record::{Finder, TraceRecord};
use traces::{Header, Step};
use trb::{Block, is_stopping, is_success};

/// Adds the notes of a Transfer Event: the success that it reports, how far its ring is looked at, and that it is posted.
pub(crate) fn note_report(
    header: &Header,
    finder: &Finder,
    kept: &TraceRecord,
    event: Block,
    notes: &mut Vec<Note>,
) -> Result<(), AllocError>
    requires headed { IsHeader header.now }
    requires found { IsFinder header.now.rings finder.now }
    ensures { OnOk result ((k : Known) (m : ℕ → ℕ) → FollowsTrace header.now k kept.now m → DriverKeeps header.now k → StopsByCommand header.now (code_told header.now k event) →
        notes.new.items ≡ notes.old.items ++ event_notes header.now k TransferEvent event) }
{
    note_named(header, finder, kept, event, notes)?;
    add_note(
        Note::Made {
            step: Step::Report { event },
        },
        notes,
    )
}

/// The same but for the post.
fn note_named(
    header: &Header,
    finder: &Finder,
    kept: &TraceRecord,
    event: Block,
    notes: &mut Vec<Note>,
) -> Result<(), AllocError>
    requires headed { IsHeader header.now }
    requires found { IsFinder header.now.rings finder.now }
    ensures { OnOk result ((k : Known) (m : ℕ → ℕ) → FollowsTrace header.now k kept.now m → DriverKeeps header.now k → StopsByCommand header.now (code_told header.now k event) →
        notes.new.items ≡ notes.old.items ++ transfer_notes header.now k event (event_at header.now k event)) }
{
    let Some(at) = named_spot(header, finder, kept, event) else {
        return Ok(());
    };
    let rings = header.rings.as_slice();
    let ring = rings[at.number].id;
    let code = kept.devices.code_told(header, event);
    note_success(code, ring, at.spot, notes)?;
    let look = reporting_look(header, finder, kept, code, ring, at.spot);
    add_note(look, notes)
}

/// The success of the block at a spot, where an event reports that whose code counts so.
fn note_success(code: u8, ring: u8, spot: Spot, notes: &mut Vec<Note>) -> Result<(), AllocError>
    requires few { number spot < 2 ^ 63 }
    ensures { OnOk result (notes.new.items ≡ notes.old.items ++ (if is_success code then Succeeded ring (number spot + 1) ∷ [] else [])) }
{
    if !is_success(code) {
        return Ok(());
    }
    let behind = spot.number() + 1;
    add_note(Note::Succeeded { ring, behind }, notes)
}

/// How far the ring is looked at for an event whose code counts so, and for one of a stop the command ring.
fn reporting_look(
    header: &Header,
    finder: &Finder,
    kept: &TraceRecord,
    code: u8,
    ring: u8,
    spot: Spot,
) -> Note
    requires headed { IsHeader header.now }
    requires found { IsFinder header.now.rings finder.now }
    requires few { number spot < 2 ^ 63 }
    ensures { (k : Known) (m : ℕ → ℕ) (event : Block) → FollowsTrace header.now k kept.now m → code ≡ code_told header.now k event → StopsByCommand header.now code →
        result ≡ reporting_look header.now k event (record { ring = ring; spot = spot }) }
{
    let taken = Note::Taken {
        ring,
        behind: spot.number() + 1,
    };
    if !is_stopping(code) {
        return taken;
    }
    match next_place(header, finder, kept) {
        None => taken,
        Some(next) => Note::StoppedAt {
            commands: next.ring,
            behind: next.behind,
            ring,
            spot,
            need: 0,
        },
    }
}
