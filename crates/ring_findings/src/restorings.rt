//! Rings that go on before their withdrawn TDs are No Ops, and Cycle bits that flip before.
use ring_knowledge::RingRecord;
use row_history::Shown::{Address, Id, Line, Number, Word};
use row_history::{
    Case, FreeTrb, NO_OP, RingPast, Shown, line_of, past_of, ring_known, trb_at, trb_named,
};
use traces::Ring;
use trb::Block;

/// How a ring goes on.
#[derive(Clone, Copy)]
pub enum GoingOn {
    /// By a doorbell of the endpoint that has it.
    Bell { slot: u8, target: u8 },
    /// By Set TR Dequeue Pointer.
    Move,
}

/// A ring that goes on before its withdrawn TRBs are No Ops. Whether it does.
pub fn not_restored(case: &mut Case, id: u8, how: GoingOn) -> bool {
    let (Some((ring, known)), Some(past)) = (ring_known(case, id), past_of(case, id)) else {
        return false;
    };
    let Some(left) = first_left(case, ring, known, past) else {
        return false;
    };
    case.head("a ring goes on before its withdrawn TDs are No Ops", &[]);
    match how {
        GoingOn::Bell { slot, target } => case.here(
            "{} goes on along ring {}",
            &[Shown::Endpoint(slot, target), Id(id)],
        ),
        GoingOn::Move => case.here("Set TR Dequeue Pointer moves ring {}", &[Id(id)]),
    }
    case.mark(Some(left.row), "this row withdrew the TD", &[]);
    note_left(case, ring, left.position);
    let rest = how_many_left(case, ring, known, past).saturating_sub(1);
    if rest > 0 {
        case.note(
            "of the ring's other withdrawn TRBs {} aren't No Ops yet either",
            &[Number(rest as u64)],
        );
    }
    true
}

/// The No Op that has to stand at a position.
fn no_op_at(ring: &Ring, position: u64) -> Block {
    NO_OP.with_cycle(ring.shape.cycle(position))
}

/// Whether a withdrawn TRB that the controller may still fetch isn't a No Op in memory.
fn is_left(case: &Case, ring: &Ring, known: &RingRecord, free: &FreeTrb) -> bool {
    if free.position < known.floor_number() {
        return false;
    }
    let address = ring.shape.address(free.position);
    let found = trb_at(case, address, case.known.word(address | 12));
    found.w != no_op_at(ring, free.position).w
}

/// The withdrawn TRB with the least position that isn't a No Op in memory.
fn first_left(case: &Case, ring: &Ring, known: &RingRecord, past: &RingPast) -> Option<FreeTrb> {
    let mut first: Option<FreeTrb> = None;
    for free in past.free() {
        let is_earlier = match first {
            Some(kept) => free.position < kept.position,
            None => true,
        };
        if is_earlier && is_left(case, ring, known, free) {
            first = Some(*free);
        }
    }
    first
}

fn how_many_left(case: &Case, ring: &Ring, known: &RingRecord, past: &RingPast) -> usize {
    past.free()
        .iter()
        .filter(|free| is_left(case, ring, known, free))
        .count()
}

/// Notes which words of a withdrawn TRB aren't those of a No Op.
fn note_left(case: &mut Case, ring: &Ring, position: u64) {
    case.note(
        "{}, was handed over before, and must be a No Op now (xHCI 6.4.1.4.1)",
        &[trb_named(ring, position)],
    );
    let address = ring.shape.address(position);
    let wanted = no_op_at(ring, position);
    let found = trb_at(case, address, case.known.word(address | 12));
    for (index, (want, have)) in wanted.w.iter().zip(found.w.iter()).enumerate() {
        if *want != *have {
            note_word(case, address, index, *want, *have);
        }
    }
    case.help(
        "write 00000000 to its words 0 to 2, and {} to its word 3, before this row",
        &[Word(wanted.w[3])],
    );
}

/// Notes a word that isn't as it must be, and the row that wrote it.
fn note_word(case: &mut Case, base: u64, index: usize, want: u32, have: u32) {
    let number = index as u64 % 4;
    match case.known.last_writer(base.saturating_add(4 * number)) {
        Some(row) => case.note(
            "word {} is {} (row {}), and must be {}",
            &[
                Number(number),
                Word(have),
                Line(line_of(case.first, row)),
                Word(want),
            ],
        ),
        None => case.note(
            "word {} was never written and counts as 0, and must be {}",
            &[Number(number), Word(want)],
        ),
    }
    if number == 3 && want ^ have == 1 {
        case.note("a withdrawn TRB keeps the Cycle bit of its lap", &[]);
    }
}

/// A write that flips the Cycle bit of a withdrawn TRB to which the controller may have come. Whether it does.
pub fn flips_withdrawn(
    case: &mut Case,
    ring: &Ring,
    known: &RingRecord,
    address: u64,
    word: u32,
) -> bool {
    let Some(past) = past_of(case, ring.id) else {
        return false;
    };
    let Some(free) = flipped(ring, known, past, address, word) else {
        return false;
    };
    case.head(
        "a withdrawn TRB that the controller may have begun gets the other Cycle bit",
        &[],
    );
    case.here(
        "word 3 of TRB {} of ring {}, which was withdrawn",
        &[Number(free.position), Id(ring.id)],
    );
    case.mark(Some(free.row), "this row withdrew the TD", &[]);
    case.note(
        "on ring {} the controller may have begun what is before position {}: a TRB there keeps its Cycle bit until the ring goes on",
        &[Id(ring.id), Address(known.ceiling())],
    );
    case.help(
        "write {}: a No Op with the Cycle bit as it is",
        &[Word(no_op_at(ring, free.position).w[3])],
    );
    true
}

/// The withdrawn TRB to which the controller may have come and whose Cycle bit a write flips.
fn flipped(
    ring: &Ring,
    known: &RingRecord,
    past: &RingPast,
    address: u64,
    word: u32,
) -> Option<FreeTrb> {
    past.free()
        .iter()
        .find(|free| {
            free.position >= known.floor_number()
                && free.position < known.ceiling()
                && ring.shape.address(free.position) | 12 == address
                && ring.shape.cycle(free.position) != (word % 2 == 1)
        })
        .copied()
}
