//! What is found of a replay that ends in harm: the TRB that the controller took last, and which of its words were not submitted.
ghost use Rattle.std.specs.Prelude.{◌≤◌, length};

use controller_model::Seen;
use ring_knowledge::RingRecord;
use row_history::{
    Case, Shown, declared_now, going, known_after, last_write, line_of, ring_known, submission,
    word_at,
};
use segments::Place;
use std::alloc::{AllocError, Global};
use traces::{Ring, Row, Trace};
use trb::Block;
use world_state::Harm;

/// A TRB that the controller took.
#[derive(Clone, Copy)]
struct Taken {
    ring: u8,
    at: u64,
    words: Block,
}

/// Notes on the TRB that the controller took last, where the harm lies in what it took, beside a trace.
/// Of a ring that went is told what was known when it did.
pub fn notes_on_harm(
    alloc: Global,
    trace: &Trace,
    harm: Harm,
    seen: &[Seen],
) -> Result<Vec<String>, AllocError> {
    let Some(taken) = harmful_take(harm, seen) else {
        return Ok(Vec::new(alloc));
    };
    let rows = trace.rows.as_slice();
    let made = &rows[..rows_made(seen).min(rows.len())];
    let told = &made[..rows_of_ring(made, taken.ring)];
    let behind = known_after(alloc, &trace.header, told)?;
    let mut case = Case::new(alloc, trace.first, made, &behind);
    note_take(&mut case, taken, harm);
    if let Some(row) = going(made, taken.ring) {
        let line = Shown::Line(line_of(trace.first, row));
        case.note("row {} took ring {} away", &[line, Shown::Id(taken.ring)]);
    }
    Ok(case.finding()?.notes)
}

/// How many of the rows tell of a ring: all of them, or those before it went.
fn rows_of_ring(rows: &[Row], id: u8) -> usize
    ensures { result ≤ length rows.now }
{
    match going(rows, id) {
        Some(row) => row.min(rows.len()),
        None => rows.len(),
    }
}

/// The last TRB that the controller took, where the harm lies in what it took.
fn harmful_take(harm: Harm, seen: &[Seen]) -> Option<Taken> {
    match harm {
        Harm::TakenOutOfOrder | Harm::TakenOtherWords | Harm::WaitsInsideDescriptor => {
            last_take(seen)
        }
        Harm::LooksOutside | Harm::PostsOverUnread | Harm::InputContextChanged => None,
    }
}

/// The last TRB that the controller took.
fn last_take(seen: &[Seen]) -> Option<Taken> {
    let mut last = None;
    for shown in seen {
        if let Seen::Took { ring, at, words } = shown {
            last = Some(Taken {
                ring: *ring,
                at: *at,
                words: *words,
            });
        }
    }
    last
}

/// How many rows of the trace the driver made.
pub(crate) fn rows_made(seen: &[Seen]) -> usize {
    seen.iter().filter(|shown| is_row(shown)).count()
}

fn is_row(shown: &Seen) -> bool {
    matches!(shown, Seen::Row)
}

/// Notes which TRB was taken, and of other words than were submitted which they are.
fn note_take(case: &mut Case, taken: Taken, harm: Harm) {
    let Some((ring, known)) = ring_known(case, taken.ring) else {
        return;
    };
    let (id, at) = (Shown::Id(taken.ring), Shown::Address(taken.at));
    let Some(Place::Data { place, .. }) = ring.shape.place_at(taken.at) else {
        return;
    };
    let Some(position) = last_position(ring, known, place) else {
        case.note(
            "it took the TRB at {} of ring {}, where none was submitted",
            &[at, id],
        );
        return;
    };
    case.note(
        "it took TRB {} of ring {}, at {}",
        &[Shown::Number(position), id, at],
    );
    if harm == Harm::TakenOtherWords {
        note_other_words(case, taken, ring, known, position);
    }
}

/// The last submitted position at a place of a ring.
fn last_position(ring: &Ring, known: &RingRecord, place: u32) -> Option<u64> {
    let last = (known.declared_count() as u64).checked_sub(1)?;
    let beyond = last.checked_sub(u64::from(place))?;
    Some(last - beyond % u64::from(ring.shape.places()))
}

/// Notes each word of a taken TRB that isn't the submitted one, with the rows of both.
fn note_other_words(case: &mut Case, taken: Taken, ring: &Ring, known: &RingRecord, position: u64) {
    let (Some(block), Some(td)) = (
        declared_now(case, ring.id, known, position),
        submission(case, ring.id, position),
    ) else {
        return;
    };
    let wanted = block.with_cycle(ring.shape.cycle(position));
    let (verb, row) = match td.withdrawn {
        Some(row) => ("is a withdrawn TRB's", row),
        None => ("was submitted", td.row),
    };
    let (verb, line) = (Shown::Name(verb), Shown::Line(line_of(case.first, row)));
    for (index, (want, have)) in wanted.w.iter().zip(taken.words.w.iter()).enumerate() {
        if *want != *have {
            let address = taken.at.saturating_add(4 * (index as u64 % 4));
            let index = Shown::Number(index as u64);
            case.note("word {} is {}", &[index, Shown::Word(*have)]);
            tell_origin(case, address, *have);
            case.go_on(", and {} {} (row {})", &[Shown::Word(*want), verb, line]);
        }
    }
}

/// Goes on with the row that wrote a word with this value, in brackets.
fn tell_origin(case: &mut Case, address: u64, value: u32) {
    if word_at(case.before, address) != value {
        return;
    }
    match last_write(case.before, address) {
        Some(row) => {
            let line = Shown::Line(line_of(case.first, row));
            case.go_on(" (written by row {})", &[line]);
        }
        None => case.go_on(" (never written: memory counts as 0)", &[]),
    }
}
