//! The ring that a row starts or moves, and writes that flip the Cycle bit of what is free (xHCI 4.6.9, 4.6.10, 4.7).
ghost use Rattle.std.specs.Prelude.{◌≡◌, ℕ};
ghost use Rattle.traces.specs.AllowedHeaders.{IsHeader};
ghost use Rattle.traces.specs.declared.header.Header.{Header as HeaderValue};
ghost use Rattle.ring_knowledge.specs.Known.{Known};
ghost use Rattle.ring_knowledge.specs.Writes.{command_given};
ghost use Rattle.traces.specs.declared.row.Row.TheVariants.{Write};
ghost use Rattle.trace_record.specs.FollowsTrace.{FollowsTrace};
ghost use Rattle.trace_record.specs.RowPlaces.{IsPlaced, IsPlacedSo};
ghost use Rattle.ring_knowledge.specs.Histories.{ring_moved, ring_restored};
ghost use Rattle.ownership_rules.specs.Withdrawals.{some_flips};

use commands::Command;
use guest_memory::Addr;
use trace_record::{RowPlace, TraceRecord, command_said, is_event_ring};
use traces::{Header, Row};

/// The ID of the ring that a row starts or moves: that of the endpoint whose doorbell it rings, or for which it gives a Set TR Dequeue Pointer
/// (xHCI 4.7, 4.6.10). `place` is where the word lies that it writes.
pub fn ring_restored(kept: &TraceRecord, row: &Row, place: &RowPlace) -> Option<u8>
    ensures { (h : HeaderValue) (k : Known) (memory : ℕ → ℕ) → FollowsTrace h k kept.now memory → IsPlaced h k row.now place.now → result ≡ ring_restored h k row.now }
{
    match row {
        Row::Bell { slot, target } => kept.devices.ring_of(*slot, *target),
        Row::Write { .. } => ring_moved(kept, place),
        _ => None,
    }
}

/// The ID of the ring of the endpoint for which a write gives a Set TR Dequeue Pointer.
fn ring_moved(kept: &TraceRecord, place: &RowPlace) -> Option<u8>
    ensures { (h : HeaderValue) (k : Known) (memory : ℕ → ℕ) (a w : ℕ) → FollowsTrace h k kept.now memory → IsPlacedSo h k a w place.now →
        result ≡ ring_moved k (command_given h k a w) }
{
    let Some(command) = command_said(place.command) else {
        return None;
    };
    match command {
        Command::SetTrDequeue { slot, endpoint, .. } => kept.devices.ring_of(slot, endpoint),
        _ => None,
    }
}

/// Whether a row writes the other Cycle bit into a block that was withdrawn and isn't restored, and that the controller may have passed (xHCI 4.9.2).
pub fn some_flips(header: &Header, kept: &TraceRecord, row: &Row, place: &RowPlace) -> bool
    requires headed { IsHeader header.now }
    ensures { (k : Known) (memory : ℕ → ℕ) → FollowsTrace header.now k kept.now memory → IsPlaced header.now k row.now place.now →
        result ≡ some_flips header.now k row.now }
{
    match row {
        Row::Write { at, word } => word_flips(header, kept, *at, *word, place),
        _ => false,
    }
}

/// The same of the write of a word.
fn word_flips(header: &Header, kept: &TraceRecord, at: Addr, word: u32, place: &RowPlace) -> bool
    requires headed { IsHeader header.now }
    ensures { (k : Known) (memory : ℕ → ℕ) → FollowsTrace header.now k kept.now memory → IsPlacedSo header.now k at word place.now →
        result ≡ some_flips header.now k (Write at word) }
{
    let Some(number) = place.ring else {
        return false;
    };
    let rings = header.rings.as_slice();
    let Some(ring) = rings.get(number) else {
        return false;
    };
    if is_event_ring(ring) {
        return false;
    }
    let records = kept.rings.as_slice();
    let Some(known) = records.get(number) else {
        return false;
    };
    known.flips_passed(&ring.shape, at, word)
}
