//! Commands that bind an endpoint to a ring, or move its ring.
use commands::{Command, EndpointState};
use ring_knowledge::RingRecord;
use row_history::Shown::{Address, Dequeue, Id, Line, Name, Number, Small};
use row_history::{
    Binding, Case, Shown, begun_with_0, command_at, endpoint_state_name, has_block, is_handed_over,
    line_of, reset_behind, ring_at, ring_known, submission, unfinished_binding,
};
use segments::{Place, Spot};
use traces::Ring;
use trb::RingKind;

/// How many places where a ring may go on are told.
const TOLD: u64 = 4;

/// A command that binds or moves a ring to where it may not stand; `address` is that of its control word. Whether it is one.
pub fn bad_move(case: &mut Case, address: u64, word: u32) -> bool {
    let Some(command) = command_at(case, address, word) else {
        return false;
    };
    match command {
        Command::SetTrDequeue {
            slot,
            endpoint,
            dequeue,
            cycle,
        } => {
            case.head(
                "Set TR Dequeue Pointer to where the ring may not go on",
                &[],
            );
            note_dequeue(case, slot, endpoint, dequeue, cycle);
        }
        Command::AddressDevice {
            slot,
            input_context,
            ..
        } => {
            tell_binding(case, "Address Device", slot);
            note_added(case, slot, input_context, 1);
        }
        Command::ConfigureEndpoint {
            slot,
            input_context,
            ..
        } => {
            tell_binding(case, "Configure Endpoint", slot);
            for endpoint in 2..32 {
                note_added(case, slot, input_context, endpoint);
            }
        }
        _ => return false,
    }
    true
}

/// Says that a command binds a ring.
fn tell_binding(case: &mut Case, command: &str, slot: u8) {
    case.head(
        "{} binds an endpoint to a ring that it may not have",
        &[Name(command)],
    );
    case.here("{} of slot {}", &[Name(command), Small(slot)]);
}

/// What is wrong with a Set TR Dequeue Pointer.
fn note_dequeue(case: &mut Case, slot: u8, endpoint: u8, pointer: u64, cycle: bool) {
    let place = Shown::Endpoint(slot, endpoint);
    case.here("Set TR Dequeue Pointer of {}", &[place]);
    let state = case.known.devices.endpoint_state(slot, endpoint);
    if !matches!(state, EndpointState::Stopped | EndpointState::Error) {
        case.note(
            "{} is {}, and must be Stopped or Error (xHCI 4.6.10)",
            &[place, Name(endpoint_state_name(state))],
        );
        if state == EndpointState::Halted {
            case.mark(
                case.known.halted_by(slot, endpoint),
                "with this event the endpoint halted",
                &[],
            );
        }
        return case.help(
            "Stop Endpoint, or Reset Endpoint after a halt, first, and read its completion",
            &[],
        );
    }
    let Some(id) = case.known.devices.ring_of(slot, endpoint) else {
        return case.note("{} has no ring", &[place]);
    };
    if let Some((ring, known)) = ring_known(case, id) {
        if let Some(bound) = case.known.last_binding(id) {
            mark_binding(case, bound);
        }
        case.note("the command says {}:", &[Dequeue(pointer, cycle)]);
        name_spot(case, ring, known, pointer, cycle);
        note_reached(case, ring, known, pointer, cycle);
        note_allowed(case, ring, known);
    }
}

/// Points at the row that bound a ring.
fn mark_binding(case: &mut Case, bound: Binding) {
    case.mark(
        Some(bound.row),
        "this completion bound {} to ring {}",
        &[Shown::Endpoint(bound.slot, bound.endpoint), Id(bound.ring)],
    );
}

/// Goes on with what lies at an address of a ring: a TRB by its number, where pointer and cycle state say that.
fn name_spot(case: &mut Case, ring: &Ring, known: &RingRecord, pointer: u64, cycle: bool) {
    let id = Id(ring.id);
    match (
        ring.shape.place_at(pointer),
        known.target(&ring.shape, pointer, cycle),
    ) {
        (Some(Place::Link { segment, .. }), _) => case.go_on(
            " the Link TRB of segment {} of ring {}",
            &[Number(u64::from(segment)), id],
        ),
        (Some(_), Some(Spot::Data(number))) => {
            case.go_on(" TRB {} of ring {}", &[Number(number), id]);
        }
        (Some(_), _) => case.go_on(" a place of ring {}", &[id]),
        (None, _) => case.go_on(" no TRB of ring {}, the endpoint's", &[id]),
    }
}

/// Why the ring may not go on there.
fn note_reached(case: &mut Case, ring: &Ring, known: &RingRecord, pointer: u64, cycle: bool) {
    if ring.shape.place_at(pointer).is_none() {
        return;
    }
    if let Some(spot) = known.target(&ring.shape, pointer, cycle) {
        let (Spot::Data(number) | Spot::Link(number)) = spot;
        note_number(case, ring, known, number);
    } else if known.target(&ring.shape, pointer, !cycle).is_some() {
        case.note(
            "Dequeue Cycle State is that of another lap: it is the Cycle bit with which the TRB there is handed over",
            &[],
        );
    } else {
        case.note(
            "no TD that isn't finished begins or ends there: the ring has gone past it, or nothing is submitted there",
            &[],
        );
    }
}

/// Why the ring may not go on at a position.
fn note_number(case: &mut Case, ring: &Ring, known: &RingRecord, number: u64) {
    let ceiling = known.ceiling();
    if number < ceiling {
        return case.note(
            "the controller may have come past that place already, and begun the TD there",
            &[],
        );
    }
    let missing = (ceiling..number).find(|position| !is_handed_over(ring, known, *position));
    if let Some(position) = missing {
        return case.note(
            "TRB {}, which comes before, isn't handed over yet",
            &[Number(position)],
        );
    }
    match submission(case, ring.id, number) {
        Some(td) if td.first != number => case.note(
            "that is inside the TD that row {} submitted, and a ring goes on where a TD begins",
            &[Line(line_of(case.first, td.row))],
        ),
        _ => case.note("a Link TRB before that place isn't handed over yet", &[]),
    }
}

/// Where the ring may go on.
fn note_allowed(case: &mut Case, ring: &Ring, known: &RingRecord) {
    let mut places = 0u64;
    let end = (known.declared_count() as u64).saturating_add(1);
    for position in known.ceiling()..end {
        let (pointer, cycle) = (ring.shape.address(position), ring.shape.cycle(position));
        if known.may_move_on(&ring.shape, pointer, cycle) {
            let place = [Address(pointer), Small(u8::from(cycle))];
            if places == 0 {
                case.note("the ring may go on at {} with DCS {}", &place);
            } else if places < TOLD {
                case.go_on(", {} with DCS {}", &place);
            }
            places = places.saturating_add(1);
        }
    }
    if places == 0 {
        case.note(
            "the ring may go on nowhere yet: a TRB or Link TRB before each TD's beginning isn't handed over",
            &[],
        );
        return case.help(
            "hand over all before the place where the ring is to go on, and then give the command",
            &[],
        );
    }
    if places > TOLD {
        case.go_on(", and at {} more", &[Number(places - TOLD)]);
    }
    case.help(
        "set the TR Dequeue Pointer to one of these, with its DCS",
        &[],
    );
}

/// An endpoint that a command adds, the address of the Input Context, and what the Endpoint Context says of the ring.
#[derive(Clone, Copy)]
struct Bound {
    slot: u8,
    endpoint: u8,
    context: u64,
    pointer: u64,
    cycle: bool,
}

/// What is wrong with the ring of an endpoint that a command adds.
fn note_added(case: &mut Case, slot: u8, context: u64, endpoint: u8) {
    let Some(added) = case.known.added(case.header, context, endpoint) else {
        return;
    };
    let bound = Bound {
        slot,
        endpoint,
        context,
        pointer: added.pointer,
        cycle: added.dcs,
    };
    let state = case.known.devices.endpoint_state(slot, endpoint);
    if endpoint == 1 && state != EndpointState::Disabled {
        note_second(case, bound);
    } else if case.header.version.is_lenient() {
        note_bound(case, bound);
    } else {
        match ring_beginning(case, bound.pointer) {
            Some(ring) => note_ring(case, ring, bound),
            None => note_nowhere(case, bound),
        }
    }
    note_twice(case, bound);
}

/// What is wrong with a second Address Device of a slot.
fn note_second(case: &mut Case, bound: Bound) {
    case.note(
        "{} has its ring already: a second Address Device names the place where that ring stands, with nothing left on it; this one says {}",
        &[
            Shown::Endpoint(bound.slot, 1),
            Dequeue(bound.pointer, bound.cycle),
        ],
    );
    mark_context(case, bound);
    if let Some(id) = case.known.devices.ring_of(bound.slot, 1) {
        if let Some((ring, known)) = ring_known(case, id) {
            note_left(case, ring, known, bound);
        }
    }
}

/// Notes how many TRBs are left on a ring that a second Address Device moves, or where it stands once none is.
fn note_left(case: &mut Case, ring: &Ring, known: &RingRecord, bound: Bound) {
    let id = Id(ring.id);
    let back = known.floor_number();
    let left = (known.declared_count() as u64).saturating_sub(back);
    if left == 0 {
        let place = Dequeue(ring.shape.address(back), ring.shape.cycle(back));
        case.note("ring {} stands at {}", &[id, place]);
        return case.help(
            "write that into the Endpoint Context: a ring whose TDs have all come back stays where it is",
            &[],
        );
    }
    case.note(
        "not all TDs on ring {}, which the command moves, have come back: TRBs left: {}",
        &[id, Number(left)],
    );
    if known.may_move_on(&ring.shape, bound.pointer, bound.cycle) {
        case.not_judged();
    } else {
        case.note(
            "the controller may take such a TRB before the command, and again behind it, or come into the middle of a TD",
            &[],
        );
    }
    case.help(
        "read the events of all TDs on the ring before the command",
        &[],
    );
}

/// Points at the row that wrote the TR Dequeue Pointer of an endpoint.
fn mark_context(case: &mut Case, bound: Bound) {
    case.mark(
        context_row(case, bound),
        "the TR Dequeue Pointer of the Endpoint Context is written here",
        &[],
    );
}

/// The row that wrote the TR Dequeue Pointer of an Endpoint Context.
fn context_row(case: &Case, bound: Bound) -> Option<usize> {
    let offset = (u64::from(bound.endpoint) + 1) * case.header.context_size.bytes() + 8;
    case.known.last_writer(bound.context.checked_add(offset)?)
}

/// What is wrong with the ring of an endpoint that a command adds: by version 3 it goes on where it stands still.
fn note_bound(case: &mut Case, bound: Bound) {
    let (pointer, cycle) = (bound.pointer, bound.cycle);
    let says = [Small(bound.endpoint), Dequeue(pointer, cycle)];
    let Some((ring, known)) = ring_having(case, pointer) else {
        mark_context(case, bound);
        case.note(
            "DCI {}: the Endpoint Context says {}; no `xfer` ring has a TRB there",
            &says,
        );
        return case.help(
            "name the TRB where a ring stands, or declare that ring before (`ring`; by hooks `xt_ring()`)",
            &[],
        );
    };
    if note_owner(case, ring, bound) || known.may_be_bound(&ring.shape, pointer, cycle) {
        return;
    }
    mark_context(case, bound);
    case.note("DCI {}: the Endpoint Context says {}:", &says);
    name_spot(case, ring, known, pointer, cycle);
    note_standing(case, ring, known, bound);
}

/// The transfer ring that has the TRB at an address, and what is known of it.
fn ring_having<'a>(case: &Case<'a>, address: u64) -> Option<(&'a Ring, &'a RingRecord)> {
    match ring_at(case, address) {
        Some((ring, known)) if has_block(ring, address) => Some((ring, known)),
        _ => None,
    }
}

/// Whether another endpoint keeps the ring, or an unfinished command gives it away, which is told.
fn note_owner(case: &mut Case, ring: &Ring, bound: Bound) -> bool {
    let (id, endpoint) = (Id(ring.id), Small(bound.endpoint));
    if let Some(given) = unfinished_binding(case, ring) {
        case.mark_unfinished(given);
        case.note(
            "DCI {} would get ring {}, which that unfinished command gives to an endpoint already (xHCI 4.9.2)",
            &[endpoint, id],
        );
        case.help(
            "give the endpoint another ring, or read the completion of that command first",
            &[],
        );
        return true;
    }
    let Some(owner) = owner(case, ring.id) else {
        return false;
    };
    if owner.slot == bound.slot && case.known.drops(case.header, bound.context, owner.endpoint) {
        return false;
    }
    mark_binding(case, owner);
    case.note(
        "DCI {} would get ring {}, which {} has: a ring serves one endpoint (xHCI 4.9.2)",
        &[endpoint, id, Shown::Endpoint(owner.slot, owner.endpoint)],
    );
    case.help(
        "give the endpoint another ring, or drop the endpoint that has it: by its Drop Context flag in the same Configure Endpoint, or by a command before",
        &[],
    );
    true
}

/// The endpoint that has a ring, and how it came to it.
fn owner(case: &Case, id: u8) -> Option<Binding> {
    let bound = case.known.last_binding(id)?;
    if case.known.devices.ring_of(bound.slot, bound.endpoint) == Some(id) {
        Some(bound)
    } else {
        None
    }
}

/// Notes that a reset came before the events that say how far the controller has come, which may be up to a position.
fn note_lost(case: &mut Case, ring: &Ring, last: u64) {
    let Some(reset) = reset_behind(case, ring.shape.address(last) | 12) else {
        return;
    };
    case.note(
        "no event tells of what was handed over before the reset of row {}",
        &[Line(line_of(case.first, reset))],
    );
    case.help(
        "free ring {}, and declare a ring anew by a `ring` line, or bind another ring",
        &[Id(ring.id)],
    );
}

/// Where a ring stands, and what is wrong with another place.
fn note_standing(case: &mut Case, ring: &Ring, known: &RingRecord, bound: Bound) {
    let id = Id(ring.id);
    let (floor, ceiling) = (known.floor_number(), known.ceiling());
    if floor < ceiling {
        case.note(
            "ring {} doesn't stand still: the controller has finished what is before TRB {}, and may have come as far as TRB {}",
            &[id, Number(floor), Number(ceiling)],
        );
        case.help(
            "read the events of all TDs that were handed over on the ring, or bind another ring",
            &[],
        );
        note_lost(case, ring, ceiling.saturating_sub(1));
    } else if known.may_be_bound(&ring.shape, bound.pointer, !bound.cycle) {
        case.note(
            "the ring stands there, with DCS {}: it is the Cycle bit with which the TRB there is handed over",
            &[Small(u8::from(!bound.cycle))],
        );
        case.help("set DCS, bit 0 of the TR Dequeue Pointer, to that", &[]);
    } else if let Some((address, cycle)) = standing_at(ring, known) {
        case.note("ring {} stands at {}", &[id, Dequeue(address, cycle)]);
        case.help(
            "write that into the Endpoint Context: a ring goes on where it stands",
            &[],
        );
    } else {
        note_between(case, ring, floor);
    }
}

/// The pointer and the cycle state with which an endpoint may be bound to a ring: at the TRB where it stands, or at the Link TRB before
/// that one.
fn standing_at(ring: &Ring, known: &RingRecord) -> Option<(u64, bool)> {
    let floor = known.floor_number();
    let shape = &ring.shape;
    let (address, cycle) = (shape.address(floor), shape.cycle(floor));
    if known.may_be_bound(shape, address, cycle) {
        return Some((address, cycle));
    }
    let segment = shape.crossing(floor)?;
    let (address, cycle) = (shape.link(segment), shape.cycle(floor.saturating_sub(1)));
    if known.may_be_bound(shape, address, cycle) {
        Some((address, cycle))
    } else {
        None
    }
}

/// Why a ring can't go on where it stands still.
fn note_between(case: &mut Case, ring: &Ring, floor: u64) {
    let id = Id(ring.id);
    match submission(case, ring.id, floor) {
        Some(td) if td.first != floor => case.note(
            "ring {} stands inside the TD that row {} submitted, and a ring goes on where a TD begins",
            &[id, Line(line_of(case.first, td.row))],
        ),
        _ => case.note(
            "ring {} stands at a Link TRB that isn't handed over yet, or behind a TRB that isn't",
            &[id],
        ),
    }
    case.help(
        "move the ring on by Set TR Dequeue Pointer before its endpoint is dropped, or bind another ring",
        &[],
    );
}

/// What is wrong with the pointer of an endpoint that no ring begins at.
fn note_nowhere(case: &mut Case, bound: Bound) {
    mark_context(case, bound);
    case.note(
        "DCI {}: the Endpoint Context says {}; no `xfer` ring begins there",
        &[Small(bound.endpoint), Dequeue(bound.pointer, bound.cycle)],
    );
    if let Some((ring, known)) = ring_at(case, bound.pointer) {
        if ring.shape.kind() == RingKind::Xfer {
            case.note(
                "that is inside ring {}: the profile binds a ring at its first TRB, {}",
                &[Id(ring.id), Address(ring.shape.address(0))],
            );
            note_begun_inside(case, ring, known, bound.cycle);
        }
    }
    case.help(
        "name the first TRB of a ring, or declare that ring before (`ring`; by hooks `xt_ring()`)",
        &[],
    );
}

/// Notes what a controller does that begins a ring behind its first TRB: xHCI allows it on a ring of which nothing is used yet.
fn note_begun_inside(case: &mut Case, ring: &Ring, known: &RingRecord, cycle: bool) {
    if known.declared_count() > 0 {
        case.note(
            "TRBs were submitted on ring {} from its first one on: a controller that begins behind that leaves some out",
            &[Id(ring.id)],
        );
    } else if !cycle {
        case.note(
            "Dequeue Cycle State is 0: such a controller takes each TRB whose Cycle bit is 0, as all memory that was never written has it",
            &[],
        );
    } else {
        case.not_judged();
    }
}

/// Notes that an endpoint that is added gets the ring of one that the command adds before it.
fn note_twice(case: &mut Case, bound: Bound) {
    for earlier in 2..bound.endpoint {
        if let Some(other) = case.known.added(case.header, bound.context, earlier) {
            if is_one_ring(case, other.pointer, bound.pointer) {
                case.note(
                    "DCI {} and DCI {} both get the ring at {}: a ring serves one endpoint (xHCI 4.9.2)",
                    &[
                        Small(earlier),
                        Small(bound.endpoint),
                        Address(bound.pointer),
                    ],
                );
                case.mark(
                    context_row(case, bound),
                    "the second TR Dequeue Pointer is written here",
                    &[],
                );
                return case.help("give each endpoint a ring of its own", &[]);
            }
        }
    }
}

/// What is wrong with a ring that an endpoint gets.
fn note_ring(case: &mut Case, ring: &Ring, bound: Bound) {
    if !bound.cycle {
        case.note(
            "DCI {}: Dequeue Cycle State is 0, and must be 1: the rings of a trace begin with Cycle bit 1, and so does ring {}",
            &[Small(bound.endpoint), Id(ring.id)],
        );
        case.note(begun_with_0(case, ring), &[]);
        case.help(
            "set DCS, bit 0 of the TR Dequeue Pointer, to 1, and begin the ring with Cycle bit 1",
            &[],
        );
    }
    if note_owner(case, ring, bound) {
        case.help("give each endpoint a ring of its own", &[]);
    } else if let Some(before) = case.known.last_binding(ring.id) {
        note_used(case, ring, bound, before);
    }
}

/// Notes that an endpoint gets a ring that another had, and whether xHCI allows that there.
fn note_used(case: &mut Case, ring: &Ring, bound: Bound, before: Binding) {
    mark_binding(case, before);
    case.note(
        "DCI {} would get ring {}, which {} got at row {}; the profile binds a ring once",
        &[
            Small(bound.endpoint),
            Id(ring.id),
            Shown::Endpoint(before.slot, before.endpoint),
            Line(line_of(case.first, before.row)),
        ],
    );
    if !bound.cycle {
        return;
    }
    if may_begin_anew(case, ring) {
        case.not_judged();
        case.help(
            "this says nothing against the driver; to have the rest judged, bind a ring that wasn't used, or leave the endpoint as it is",
            &[],
        );
    } else {
        case.note(
            "its first TRB has Cycle bit 1 in memory still: a controller that begins there takes again what stands there",
            &[],
        );
        case.help("bind a ring that wasn't used", &[]);
    }
}

/// Whether a controller that begins at a ring's first TRB with Cycle bit 1 finds nothing there that it had before.
fn may_begin_anew(case: &Case, ring: &Ring) -> bool {
    let first = ring.shape.address(0);
    let stands_there = match ring_known(case, ring.id) {
        Some((ring, known)) => known.may_be_bound(&ring.shape, first, true),
        None => false,
    };
    stands_there || case.known.word(first | 12) % 2 == 0
}

/// The transfer ring that begins at an address.
fn ring_beginning<'a>(case: &Case<'a>, address: u64) -> Option<&'a Ring> {
    let rings = case.header.rings.as_slice();
    rings.iter().find(|ring| begins_at(ring, address))
}

/// Whether two pointers name one ring: by versions 1 and 2 a ring is named by its first TRB.
fn is_one_ring(case: &Case, first: u64, second: u64) -> bool {
    if !case.header.version.is_lenient() {
        return first == second && ring_beginning(case, first).is_some();
    }
    match ring_having(case, first) {
        Some((ring, _)) => has_block(ring, second),
        None => false,
    }
}

/// Whether a transfer ring begins at an address.
fn begins_at(ring: &Ring, address: u64) -> bool {
    ring.shape.kind() == RingKind::Xfer && ring.shape.address(0) == address
}
