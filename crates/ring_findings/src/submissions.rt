//! TRBs that are handed over: with other words than the submitted ones, without a submission, or before the rest of their TD.
use guest_memory::Addr;
use ring_knowledge::RingRecord;
use row_history::Shown::{Address, Id, Line, Name, Nth, Number, Pointer, Small, Word, Words};
use row_history::{
    Case, Submitted, declared_now, is_handed_over, line_of, position_given, ring_at, submission,
    trb_at, type_name,
};
use traces::Ring;
use trb::Block;

/// How many TRBs of a TD are told.
const TOLD: u64 = 4;

/// The position that a write gives, its ring, and what is known of that.
fn given_by<'a>(case: &Case<'a>, at: Addr, word: u32) -> Option<(&'a Ring, &'a RingRecord, u64)> {
    let (ring, known) = ring_at(case, at.get())?;
    let position = position_given(ring, known, at, word)?;
    Some((ring, known, position))
}

/// A TRB that is handed over with other words than the submitted ones. Whether one is.
pub fn not_as_submitted(case: &mut Case, at: Addr, word: u32) -> bool {
    let Some((ring, known, position)) = given_by(case, at, word) else {
        return false;
    };
    let Some(block) = declared_now(case, ring.id, known, position) else {
        return false;
    };
    let wanted = block.with_cycle(ring.shape.cycle(position));
    let found = trb_at(case, at.get(), word);
    case.here("in memory: {}", &[Words(found)]);
    let td = submission(case, ring.id, position);
    if let Some(row) = td.and_then(|td| td.withdrawn) {
        tell_no_op(case, row);
        note_words(case, at, wanted, found, "a No Op has");
        return true;
    }
    case.head(
        "the TRB handed to the controller is not the one that was submitted",
        &[],
    );
    if let Some(td) = td {
        mark_submitted(case, td, position, wanted);
    }
    note_words(case, at, wanted, found, "submitted");
    case.help(
        "write all four words of a TRB, the one with its Cycle bit last, and log in `sub` what you mean to write",
        &[],
    );
    true
}

/// A TRB that is handed over as another than the No Op that it is since a row withdrew it.
fn tell_no_op(case: &mut Case, row: usize) {
    case.head(
        "a withdrawn TRB is handed to the controller that is no No Op",
        &[],
    );
    case.mark(Some(row), "this row withdrew the TD", &[]);
    case.help(
        "write 00000000 to its words 0 to 2, and 00002000 with its Cycle bit to its word 3",
        &[],
    );
}

/// Points at the row that submitted a TRB of a TD, with its words.
fn mark_submitted(case: &mut Case, td: Submitted, position: u64, wanted: Block) {
    if td.count == 1 {
        return case.mark(
            Some(td.row),
            "submitted here: {} with its Cycle bit",
            &[Words(wanted)],
        );
    }
    let number = position.saturating_sub(td.first).saturating_add(1);
    case.mark(
        Some(td.row),
        "submitted here as the {} of {} TRBs: {} with its Cycle bit",
        &[Nth(number), Number(td.count), Words(wanted)],
    );
}

/// Notes the words that differ.
fn note_words(case: &mut Case, at: Addr, wanted: Block, found: Block, whose: &str) {
    for (index, (want, have)) in wanted.w.iter().zip(found.w.iter()).enumerate() {
        if *want != *have {
            note_word(case, at, index, whose, *want, *have);
        }
    }
}

/// Notes a word that differs, and the row that wrote it.
fn note_word(case: &mut Case, at: Addr, index: usize, whose: &str, want: u32, have: u32) {
    let number = index as u64 % 4;
    let (whose, want, have) = (Name(whose), Word(want), Word(have));
    if number == 3 {
        return case.note("word 3 differs: {} {}, written {}", &[whose, want, have]);
    }
    let address = (at.get() & !15).saturating_add(4 * number);
    match case.known.last_writer(address) {
        Some(row) => case.note(
            "word {} differs: {} {}, in memory {} (row {})",
            &[
                Number(number),
                whose,
                want,
                have,
                Line(line_of(case.first, row)),
            ],
        ),
        None => case.note(
            "word {} differs: {} {}, never written: memory counts as 0",
            &[Number(number), whose, want],
        ),
    }
}

/// A TRB that is handed over and wasn't submitted. Whether one is handed over.
pub fn never_submitted(case: &mut Case, at: Addr, word: u32) -> bool {
    let Some((ring, known, position)) = given_by(case, at, word) else {
        return false;
    };
    let id = Id(ring.id);
    let kind = type_name(Block { w: [0, 0, 0, word] }.kind());
    case.head("a TRB goes to the controller that was never submitted", &[]);
    case.here(
        "TRB {} of ring {} ({}) gets the controller's Cycle bit",
        &[Number(position), id, Name(kind)],
    );
    match known.declared_count().checked_sub(1) {
        Some(last) => case.note(
            "TRB {} is the last one submitted on ring {}",
            &[Number(last as u64), id],
        ),
        None => case.note("no TRB was submitted on ring {}", &[id]),
    }
    case.note(
        "in this lap of the ring Cycle bit {} hands a TRB over",
        &[Small(u8::from(ring.shape.cycle(position)))],
    );
    case.help(
        "log a `sub` row with the whole TD before its first write; where no TRB was meant, write the other Cycle bit",
        &[],
    );
    true
}

/// The first TRB of a TD that is handed over before the rest. Whether one is handed over.
pub fn not_whole(case: &mut Case, at: Addr, word: u32) -> bool {
    let Some((ring, known, position)) = given_by(case, at, word) else {
        return false;
    };
    case.head(
        "the first TRB of a TD goes to the controller before the rest of the TD",
        &[],
    );
    case.here(
        "the Cycle bit of the first TRB, TRB {} of ring {}",
        &[Number(position), Id(ring.id)],
    );
    if let Some(td) = submission(case, ring.id, position) {
        let end = td.first.saturating_add(td.count);
        case.mark(Some(td.row), "a TD of {} TRBs", &[Number(td.count)]);
        if note_missing(case, ring, known, position, end) {
            note_waiting(case, known);
        } else {
            note_links(case, ring, known, position, end);
        }
    }
    true
}

/// Notes which TRBs behind the first one of a TD aren't handed over. Whether there are any.
fn note_missing(case: &mut Case, ring: &Ring, known: &RingRecord, first: u64, end: u64) -> bool {
    let mut left = 0u64;
    for position in first.saturating_add(1)..end {
        if is_handed_over(ring, known, position) {
            continue;
        }
        if left == 0 {
            case.note("not handed over yet: TRB {}", &[Number(position)]);
        } else if left < TOLD {
            case.go_on(", TRB {}", &[Number(position)]);
        }
        left = left.saturating_add(1);
    }
    if left > TOLD {
        case.go_on(" and {} more", &[Number(left - TOLD)]);
    }
    left > 0
}

/// Notes what a controller may do with a TD that isn't handed over whole.
fn note_waiting(case: &mut Case, known: &RingRecord) {
    let note = if known.is_open() {
        "a controller that fetches now waits inside the TD"
    } else {
        "a controller that fetches before the rest is there waits inside the TD: xHCI allows this row only where the rest comes before the ring's next doorbell"
    };
    case.note(note, &[]);
    case.help(
        "write the first TRB with the other Cycle bit, then all others, and flip the first one's Cycle bit last (xHCI 4.9.2.2)",
        &[],
    );
}

/// Notes which Link TRB between the TRBs of a TD isn't handed over, where all its TRBs are but the first.
fn note_links(case: &mut Case, ring: &Ring, known: &RingRecord, first: u64, end: u64) {
    for position in first.saturating_add(1)..end {
        if let Some(segment) = ring.shape.crossing(position) {
            if !is_word_owned(ring, known, ring.shape.link(segment) | 12) {
                return note_link(case, ring, segment, position.saturating_sub(1));
            }
        }
    }
}

/// Whether the controller owns the word at an address.
fn is_word_owned(ring: &Ring, known: &RingRecord, address: u64) -> bool {
    match Addr::new(address) {
        Some(at) => known.look(&ring.shape, at, 0).is_lent,
        None => false,
    }
}

/// Notes that the Link TRB behind a TRB of a TD isn't handed over, and which words hand it over.
fn note_link(case: &mut Case, ring: &Ring, segment: u32, before: u64) {
    if segment >= ring.shape.links() {
        return;
    }
    let (link, next) = (ring.shape.link(segment), ring.shape.target(segment));
    let cycle = u32::from(ring.shape.cycle(before));
    case.note(
        "the Link TRB at {}, behind TRB {}, isn't handed over:",
        &[Address(link), Number(before)],
    );
    match case.known.last_writer(link | 12) {
        Some(row) => case.go_on(
            " row {} wrote its control word last, and not with Cycle bit {}",
            &[Line(line_of(case.first, row)), Number(u64::from(cycle))],
        ),
        None => case.go_on(" its control word was never written", &[]),
    }
    case.note(
        "a controller that comes to it waits there, inside the TD",
        &[],
    );
    // the Chain bit of a Link TRB inside a TD is 1 (xHCI 4.11.5.1)
    let control = 0x1810 | u32::from(ring.shape.toggles(segment)) << 1 | cycle;
    let (at, words) = (Address(link | 12), Word(control));
    if next == trb_at(case, link | 12, control).pointer() & !15 {
        case.help(
            "hand the Link TRB over: write its Cycle bit, as {} to {}, before that of the first TRB",
            &[words, at],
        );
    } else {
        case.help(
            "hand the Link TRB over: write {} to its words 0 and 1, and then its Cycle bit, as {} to {}, before that of the first TRB",
            &[Pointer(next), words, at],
        );
    }
}
