//! Writes of memory: to what the controller owns, of TRBs that weren't submitted, and of Link TRBs.
use crate::restorings::flips_withdrawn;
use commands::EndpointState;
use guest_memory::Addr;
use ring_knowledge::{RingGiving, RingRecord};
use row_history::Shown::{Address, Id, Line, Name, Number, Pointer, Small, Word};
use row_history::{
    Case, Shown, code_name, coming, declared_now, endpoint_with, going, last_event, line_of,
    note_unchanged, position_at, reset_behind, ring_at, ring_with, submission, trb_at,
    write_to_area,
};
use segments::{Place, Segment};
use traces::{Ring, Row};
use trb::{Block, BlockKind, RingKind, is_of_service, is_stopping};

/// A write to memory that the controller owns.
pub fn write_to_owned(case: &mut Case, address: u64, word: u32) {
    let Some((ring, known)) = ring_at(case, address) else {
        return write_to_area(case, address, word);
    };
    if ring.shape.kind() == RingKind::Evt {
        case.head("the driver writes into the Event Ring", &[]);
        case.here(
            "ring {} is the Event Ring, which the controller alone writes",
            &[Id(ring.id)],
        );
        let came = coming(case.before, ring.id);
        case.mark(came, "the ring comes here", &[]);
        case.help(
            if came.is_some() {
                "clear it before the ring comes, and leave it to the controller from then on"
            } else {
                "clear it before the trace begins, and leave it to the controller from then on"
            },
            &[],
        );
    } else if !flips_withdrawn(case, ring, known, address, word) {
        write_to_ring(case, ring, known, address, word);
    }
}

/// A write to a TRB or a Link TRB of a command or transfer ring.
fn write_to_ring(case: &mut Case, ring: &Ring, known: &RingRecord, address: u64, word: u32) {
    let place = ring.shape.place_at(address);
    match place {
        Some(Place::Data { place, word }) => {
            tell_trb(case, ring, position_at(ring, known, place), word);
        }
        Some(Place::Link { segment, word }) => tell_link(case, ring, segment, word),
        None => {}
    }
    tell_lost(case, ring, address | 12);
    case.mark(
        case.known.last_writer(address | 12),
        "the Cycle bit written here hands it to the controller",
        &[],
    );
    note_left(case, address & !15);
    if note_unchanged(case, address, word) {
        return;
    }
    match place {
        Some(
            Place::Link {
                segment,
                word: index,
            },
        ) => {
            note_early(case, ring, known, segment);
            if index == 3 {
                help_to_unchain(case, ring, known, segment, address, word);
            }
        }
        _ => help_to_withdraw(case, ring, known, address),
    }
}

/// Says when a TRB comes back a word of which is written, and what to do instead.
fn tell_trb(case: &mut Case, ring: &Ring, position: u64, word: u8) {
    case.head("write to a TRB that the controller owns", &[]);
    case.here(
        "word {} of TRB {} of ring {}, before an event gives it back",
        &[Small(word), Number(position), Id(ring.id)],
    );
    if ring.shape.kind() == RingKind::Cmd {
        case.note(
            "it comes back with the Command Completion Event of this command or a later one",
            &[],
        );
        case.help(
            "write a command's words 0 to 2 first and word 3, with the Cycle bit, last and once",
            &[],
        );
    } else {
        case.note(
            "it comes back with a Transfer Event that names it or a later TRB of the ring",
            &[],
        );
        case.help(
            "write a TRB's words 0 to 2 first and word 3, with the Cycle bit, last and once; to take a TRB back: Stop Endpoint, then Set TR Dequeue Pointer past it",
            &[],
        );
    }
}

/// Says when a Link TRB comes back a word of which is written, and what to do instead.
fn tell_link(case: &mut Case, ring: &Ring, segment: u32, word: u8) {
    case.head("write to a Link TRB that the controller owns", &[]);
    let segment = Number(u64::from(segment));
    case.here(
        "word {} of the Link TRB of segment {} of ring {}, before an event gives it back",
        &[Small(word), segment, Id(ring.id)],
    );
    let event = match ring.shape.kind() {
        RingKind::Cmd => "the Command Completion Event of a command",
        RingKind::Evt | RingKind::Xfer => "a Transfer Event that names a TRB",
    };
    case.note("it comes back with {} behind it", &[Name(event)]);
    case.help(
        "write a Link TRB's words 0 to 2 first and word 3, with the Cycle bit, last and once",
        &[],
    );
}

/// Of what was handed over before a reset: says that no event gives it back any more, and what does.
fn tell_lost(case: &mut Case, ring: &Ring, control: u64) {
    let Some(reset) = reset_behind(case, control) else {
        return;
    };
    let id = Id(ring.id);
    case.forget_notes();
    case.note(
        "no event gives it back behind the reset of row {}: it comes back as the ring goes (`free {}`)",
        &[Line(line_of(case.first, reset)), id],
    );
    case.help(
        "free ring {} before you write there, and declare a ring anew by a `ring` line",
        &[id],
    );
}

/// Of a TRB that a Stopped endpoint's driver may withdraw: says by which row.
fn help_to_withdraw(case: &mut Case, ring: &Ring, known: &RingRecord, address: u64) {
    let floor = known.floor_number();
    let end = floor.saturating_add(u64::from(ring.shape.places()));
    let position = (floor..end).find(|position| ring.shape.address(*position) == address & !15);
    if let Some(first) = withdrawable(case, ring, known, position) {
        case.help(
            "where the driver takes the TD back, log `nop {} {}` before its first write; its TRBs become No Ops (xHCI 4.6.9)",
            &[Id(ring.id), Address(first)],
        );
    }
}

/// Of a Link TRB that loses its Chain bit, and nothing else, within a TD that a Stopped endpoint's driver may withdraw: says by which row.
fn help_to_unchain(
    case: &mut Case,
    ring: &Ring,
    known: &RingRecord,
    segment: u32,
    address: u64,
    word: u32,
) {
    let standing = case.known.word(address);
    let is_unchained = standing & 0x10 != 0 && word == standing & !0x10;
    if !case.header.version.has_runs() || !is_unchained {
        return;
    }
    let before = trbs_before(ring, known, segment).checked_sub(1);
    if let Some(first) = withdrawable(case, ring, known, before) {
        case.help(
            "where the driver takes the TD around it back, log `nop {} {}` before its first write; then the Chain bits of its Link TRBs may be cleared (xHCI 4.6.9)",
            &[Id(ring.id), Address(first)],
        );
    }
}

/// The first position of the TD that has the TRB of a position, where its endpoint is Stopped and it may be withdrawn by its place.
fn withdrawable(
    case: &Case,
    ring: &Ring,
    known: &RingRecord,
    position: Option<u64>,
) -> Option<u64> {
    let had = endpoint_with(&case.known.devices, ring.id)?;
    let state = case.known.devices.endpoint_state(had.slot, had.endpoint);
    if !case.header.version.has_ring_rows() || state != EndpointState::Stopped {
        return None;
    }
    let td = submission(case, ring.id, position?)?;
    let version = case.header.version;
    let is_ahead = if version.has_runs() {
        !known.has_passed(td.first)
    } else if version.is_lenient() {
        td.first >= known.floor_number()
    } else {
        td.first >= known.ceiling()
    };
    if is_ahead && td.withdrawn.is_none() {
        Some(td.first)
    } else {
        None
    }
}

/// Notes that an event named the TRB which leaves it with the controller: a Stopped event, or one of the endpoint's service.
fn note_left(case: &mut Case, base: u64) {
    let Some(read) = last_event(case.before, BlockKind::TransferEvent, base) else {
        return;
    };
    let gave = case.known.last_writer(base | 12);
    if !gave.is_some_and(|gave| gave < read) {
        return;
    }
    let (code, line) = (
        code_read(case.before.get(read)),
        Line(line_of(case.first, read)),
    );
    if is_stopping(code) {
        case.note(
            "the Stopped event of row {} names it, and gives back the TRBs before it alone (xHCI 4.6.9)",
            &[line],
        );
    } else if is_of_service(code) {
        case.note(
            "the event of row {} names it ({}), and gives no TRB back (xHCI 4.10.3)",
            &[line, Name(code_name(code))],
        );
    }
}

/// The Completion Code of the event that a row reads; 0 where it reads none.
fn code_read(row: Option<&Row>) -> u8 {
    match row {
        Some(Row::Read { event }) => event.code(),
        _ => 0,
    }
}

/// Notes that a Link TRB was handed over before the ring came to it.
fn note_early(case: &mut Case, ring: &Ring, known: &RingRecord, segment: u32) {
    let before = trbs_before(ring, known, segment);
    let submitted = known.declared_count() as u64;
    if submitted >= before {
        return;
    }
    let last = before.saturating_sub(1);
    case.note(
        "it was handed over early: it stands behind TRB {} of ring {}, which isn't submitted yet (submitted: {})",
        &[Number(last), Id(ring.id), Number(submitted)],
    );
    case.help(
        "leave a Link TRB's Cycle bit the other one until the TRB before it is written, and flip it then",
        &[],
    );
}

/// How many TRBs of a ring, from its beginning on, stand before the Link TRB of a segment that the controller comes to next.
fn trbs_before(ring: &Ring, known: &RingRecord, segment: u32) -> u64 {
    let mut lap = 0u64;
    for part in ring.shape.segments().iter().take(segment as usize + 1) {
        lap = lap.saturating_add(u64::from(part.count).saturating_sub(1));
    }
    let floor = known.floor_number();
    if floor <= lap {
        return lap;
    }
    let places = u64::from(ring.shape.places());
    let behind = (floor - lap) % places;
    if behind == 0 {
        floor
    } else {
        floor.saturating_add(places).saturating_sub(behind)
    }
}

/// A `sub` row for no ring that takes TDs.
pub fn not_declared(case: &mut Case, id: u8) {
    case.head("a TD for a ring that takes none", &[]);
    let gone = going(case.before, id);
    let here = if gone.is_some() {
        "ring {} is not there any more"
    } else if ring_with(case.header.rings.as_slice(), id).is_some() {
        "ring {} is the Event Ring, which takes no TDs"
    } else {
        "ring {} was not declared before"
    };
    case.here(here, &[Id(id)]);
    case.mark(gone, "this row took the ring away", &[]);
    note_rings(case);
    let which = if case.header.version.has_ring_rows() {
        "that is there"
    } else {
        "of the header"
    };
    case.help("name a `cmd` or `xfer` ring {}", &[Name(which)]);
}

/// Notes which rings take TDs or commands.
fn note_rings(case: &mut Case) {
    case.note("rings that take TDs or commands:", &[]);
    let mut before = "";
    let header = case.header;
    for ring in header.rings.as_slice() {
        let kind = ring.shape.kind();
        if kind != RingKind::Evt {
            case.go_on(
                "{} {} ({})",
                &[Name(before), Id(ring.id), Name(kind.name())],
            );
            before = ",";
        }
    }
}

/// A Link TRB that is handed over with a wrong field.
pub fn link_fault(case: &mut Case, address: u64, word: u32) {
    case.head("a Link TRB is handed over that the ring must not have", &[]);
    case.here("its Cycle bit goes to the controller here", &[]);
    let Some((ring, known)) = ring_at(case, address) else {
        return;
    };
    if let Some(Place::Link { segment, .. }) = ring.shape.place_at(address) {
        let link = trb_at(case, address, word);
        note_link(case, ring, segment, address & !15, link);
        if let Some(position) = next_written_here(case, ring, known, address, link) {
            note_left_out(case, ring, segment, position);
        }
    }
}

/// Notes that what is written in the Link TRB's place is the TRB of a position, which is submitted next, as where COUNT of the ring's
/// line leaves the Link TRB out.
fn note_left_out(case: &mut Case, ring: &Ring, segment: u32, position: u64) {
    let (Some(td), Some(part)) = (
        submission(case, ring.id, position),
        ring.shape.segments().get(segment as usize),
    ) else {
        return;
    };
    let (id, trb) = (Id(ring.id), Number(position));
    case.forget_notes();
    case.note(
        "this is TRB {} of ring {}, as it was submitted, in the place of the Link TRB: COUNT of {} counts the segment's Link TRB too, which is its last TRB",
        &[trb, id, Shown::Segment(*part)],
    );
    case.mark(Some(td.row), "the TRB is submitted here", &[]);
    let longer = Segment {
        base: part.base,
        count: part.count.saturating_add(1),
    };
    case.help(
        "where the driver has its Link TRB behind this place, write {} in the line of ring {}; else put the Link TRB here, and TRB {} where it leads",
        &[Shown::Segment(longer), id, trb],
    );
}

/// The position behind a Link TRB's place, where a write hands over there just what is submitted for it.
fn next_written_here(
    case: &Case,
    ring: &Ring,
    known: &RingRecord,
    address: u64,
    found: Block,
) -> Option<u64> {
    let at = Addr::new(address)?;
    let Some(RingGiving::Crossing(position)) = known.look(&ring.shape, at, found.w[3]).giving else {
        return None;
    };
    let wanted = declared_now(case, ring.id, known, position)?;
    if found.w == wanted.with_cycle(found.cycle()).w {
        Some(position)
    } else {
        None
    }
}

/// Notes which fields of the Link TRB of a segment are wrong; `base` is its address.
fn note_link(case: &mut Case, ring: &Ring, segment: u32, base: u64, link: Block) {
    if segment >= ring.shape.links() {
        return;
    }
    case.here(
        "the Link TRB of segment {} of ring {}",
        &[Number(u64::from(segment)), Id(ring.id)],
    );
    let kind = link.kind();
    if kind != BlockKind::Link {
        case.note(
            "its TRB Type is {}, and must be 6 (Link)",
            &[Small(kind.number())],
        );
    }
    let (last, next) = (ring.shape.toggles(segment), ring.shape.target(segment));
    let toggles = link.w[3] / 2 % 2 == 1;
    if toggles != last {
        case.note(
            "its Toggle Cycle bit (word 3 bit 1) is {}, and must be {}: it is 1 in the Link TRB of the last segment alone",
            &[Small(u8::from(toggles)), Small(u8::from(last))],
        );
    }
    // a Link TRB that interrupts isn't judged, and the bits that a Link TRB doesn't have are 0: Cycle and Chain bit stay
    let better = link.w[3] & 0x11 | 0x1800 | u32::from(last) << 1;
    case.help("write {}", &[Word(better)]);
    let found = link.pointer() & !15;
    if found != next {
        note_target(case, base, found, next, better);
    }
}

/// Notes that the Link TRB at an address leads elsewhere than to the next segment.
fn note_target(case: &mut Case, base: u64, found: u64, next: u64, better: u32) {
    case.note(
        "its Ring Segment Pointer is {}, and must be {}, where the next segment begins",
        &[Address(found), Address(next)],
    );
    let low = case.known.last_writer(base);
    let high = case.known.last_writer(base | 4);
    let row = if low > high { low } else { high };
    case.mark(row, "its Ring Segment Pointer is written here", &[]);
    if row.is_none() {
        case.note(
            "its words 0 and 1 were never written: memory counts as 0",
            &[],
        );
    }
    case.help(
        "write {} to its words 0 and 1, and then {} to word 3",
        &[Pointer(next), Word(better)],
    );
}
