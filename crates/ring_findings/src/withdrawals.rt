//! TDs that are withdrawn where they may not be, each cause by name and place.
use crate::rings::kind_name;
use commands::{Command, EndpointState};
use ring_knowledge::RingRecord;
use row_history::Shown::{Address, Id, Name, Nth, Number};
use row_history::{
    Case, Endpoint, Shown, Submitted, Unfinished, command_name, endpoint_with, going, last_bell,
    note_dropped, past_of, ring_known, submission, trb_named, unfinished_on, unfinished_touching,
};
use traces::{Ring, Row};
use trb::{BlockKind, RingKind};

/// A TD that may not be withdrawn.
pub fn bad_withdraw(case: &mut Case, id: u8, position: u64) {
    let Some((ring, known)) = ring_known(case, id) else {
        case.head("a TD is withdrawn of a ring that is not there", &[]);
        case.here("no ring has the ID {} now", &[Id(id)]);
        case.mark(going(case.before, id), "this row took the ring away", &[]);
        return case.help("name a Transfer Ring that is there, before it goes", &[]);
    };
    case.here("{}", &[trb_named(ring, position)]);
    if ring.shape.kind() != RingKind::Xfer {
        case.head("a TD is withdrawn of a ring that is no Transfer Ring", &[]);
        case.here("ring {} is {}", &[Id(id), Name(kind_name(ring))]);
        case.help(
            "leave the row out: only TDs of Transfer Rings are withdrawn",
            &[],
        );
    } else if let Some(had) = endpoint_with(&case.known.devices, id) {
        tell_had(case, ring, known, position, had);
    } else {
        tell_unbound(case, id);
    }
}

/// Of a ring that no endpoint has: which one had it last, and how it came to have none.
fn tell_unbound(case: &mut Case, id: u8) {
    case.head("a TD is withdrawn of a ring that no endpoint has", &[]);
    match case.known.last_binding(id) {
        Some(bound) => {
            note_dropped(case, bound.slot, bound.endpoint);
        }
        None => case.note(
            "no Address Device or Configure Endpoint that gives it to an endpoint has completed",
            &[],
        ),
    }
    case.help(
        "leave the row out: a ring that isn't used any more goes by a `free` row, with all its TDs",
        &[],
    );
}

/// Of a ring that an endpoint has: why none of its TDs may be withdrawn now, or else not this one.
fn tell_had(case: &mut Case, ring: &Ring, known: &RingRecord, position: u64, had: Endpoint) {
    let state = case.known.devices.endpoint_state(had.slot, had.endpoint);
    if state != EndpointState::Stopped {
        return tell_working(case, ring.id, had, state);
    }
    if let Some(given) = unfinished_touching(case, had.slot, had.endpoint) {
        return tell_touched(case, ring.id, had, given);
    }
    match submission(case, ring.id, position) {
        Some(td) => if td.first == position {
            tell_td(case, ring.id, known, td, had);
        } else {
            tell_inside(case, position, td);
        },
        None => tell_unsubmitted(case, ring.id, known),
    }
}

/// Of an endpoint that an unfinished command may change.
fn tell_touched(case: &mut Case, id: u8, had: Endpoint, given: Unfinished) {
    let Endpoint { slot, endpoint } = had;
    let name = Name(command_name(given.command));
    case.head(
        "a TD is withdrawn while an unfinished command touches its endpoint",
        &[],
    );
    case.here("{} has ring {}", &[Shown::Endpoint(slot, endpoint), Id(id)]);
    case.mark_unfinished(given);
    case.note(
        "this {} may change the endpoint, and its Command Completion Event wasn't read yet",
        &[name],
    );
    case.help("read that event first", &[]);
}

/// Of an endpoint that isn't Stopped: what started it, or brought it to a halt.
fn tell_working(case: &mut Case, id: u8, had: Endpoint, state: EndpointState) {
    let place = Shown::Endpoint(had.slot, had.endpoint);
    let halt = case.known.halted_by(had.slot, had.endpoint);
    case.head("a TD is withdrawn while its endpoint is not Stopped", &[]);
    match state {
        EndpointState::Error => {
            case.here(
                "{} has ring {}, and is in the state Error",
                &[place, Id(id)],
            );
            case.mark(
                halt,
                "with this event the endpoint came into the state Error",
                &[],
            );
            case.help(
                "Set TR Dequeue Pointer past the TD: that stops an endpoint in the state Error (xHCI 4.6.10)",
                &[],
            );
        }
        EndpointState::Halted => {
            case.here("{} has ring {}, and is Halted", &[place, Id(id)]);
            case.mark(halt, "with this event the endpoint came to a halt", &[]);
            case.help(
                "Reset Endpoint, and withdraw behind its Command Completion Event (xHCI 4.6.8)",
                &[],
            );
        }
        _ => {
            case.here("{} has ring {}, and is Running", &[place, Id(id)]);
            note_running(case, id, had);
        }
    }
}

/// Notes what started an endpoint, or which unfinished command is to stop it.
fn note_running(case: &mut Case, id: u8, had: Endpoint) {
    let Endpoint { slot, endpoint } = had;
    if let Some(given) = unfinished_on(case, slot, endpoint) {
        if let Command::StopEndpoint { .. } = given.command {
            case.mark_unfinished(given);
            case.note(
                "the endpoint is Stopped once the Command Completion Event of this Stop Endpoint is read",
                &[],
            );
            return case.help("read that event first", &[]);
        }
    }
    let rang = last_bell(case.before, slot, endpoint);
    if rang > case.known.stopped_by(slot, endpoint) {
        case.mark(rang, "this doorbell lets the endpoint work", &[]);
    } else {
        case.mark(
            case.known.bound_by(id, slot, endpoint),
            "with this completion the endpoint got the ring, and is Running",
            &[],
        );
    }
    case.note(
        "the controller may fetch the TD at any moment (xHCI 4.8.3)",
        &[],
    );
    case.help(
        "Stop Endpoint, read its events, and withdraw behind its Command Completion Event (xHCI 4.6.9)",
        &[],
    );
}

/// Of a position where nothing was submitted: how many TRBs were submitted on the ring.
fn tell_unsubmitted(case: &mut Case, id: u8, known: &RingRecord) {
    case.head("a TD is withdrawn that was never submitted", &[]);
    let count = known.declared_count() as u64;
    match count.checked_sub(1) {
        Some(last) => case.note(
            "TRBs submitted on ring {}: {}, the last one at position {}",
            &[Id(id), Number(count), Address(last)],
        ),
        None => case.note("no TRB was submitted on ring {}", &[Id(id)]),
    }
    case.help(
        "name the position of a TD's first TRB: it counts the TRBs submitted on the ring from 0, without Link TRBs",
        &[],
    );
}

/// Of a position inside a TD: where that begins.
fn tell_inside(case: &mut Case, position: u64, td: Submitted) {
    let count = Number(td.count);
    let number = position.saturating_sub(td.first).saturating_add(1);
    case.head("a TD is withdrawn from its middle on", &[]);
    case.mark(Some(td.row), "a TD of {} TRBs", &[count]);
    case.note(
        "this is the {} of the TD's {} TRBs, and a TD is withdrawn as a whole",
        &[Nth(number), count],
    );
    case.help("name its first position, {}", &[Address(td.first)]);
}

/// Of a TD that may not be withdrawn though its endpoint rests: whether it was before, or how far the controller has come.
fn tell_td(case: &mut Case, id: u8, known: &RingRecord, td: Submitted, had: Endpoint) {
    let back = known.floor_number().saturating_sub(td.first);
    if let Some(row) = td.withdrawn {
        case.head("a TD is withdrawn that was withdrawn before", &[]);
        case.mark(Some(row), "this row withdrew it", &[]);
        case.note(
            "each TRB of a withdrawn TD is a No Op since, and stays one",
            &[],
        );
        case.help("leave the row out", &[]);
    } else if let Some(position) = value_that_may_come(known, td) {
        tell_value(case, id, position, had);
    } else if back > 0 {
        tell_passed(case, id, known, td, back);
    } else if !case.header.version.is_lenient() && td.first < known.ceiling() {
        tell_begun(case, id, known, had);
    } else {
        case.head("a TD is withdrawn that may not be", &[]);
        case.mark(going(case.before, id), "this row took the ring away", &[]);
        case.help(
            "withdraw a TD that the controller still has, of a Stopped endpoint",
            &[],
        );
    }
}

/// The first Event Data TRB of a TD that the controller may have passed, and whose event may still come.
fn value_that_may_come(known: &RingRecord, td: Submitted) -> Option<u64> {
    let end = td.first.saturating_add(td.count).min(known.ceiling());
    (td.first.max(known.floor_number())..end).find(|position| known.data_at(*position).is_some())
}

/// Of a TD with an Event Data TRB that the controller may have passed: by which event.
fn tell_value(case: &mut Case, id: u8, position: u64, had: Endpoint) {
    case.head("a TD is withdrawn whose Event Data may still be told", &[]);
    mark_stopped(case, had);
    case.note(
        "on ring {} the controller may have passed the Event Data TRB at position {}: a Transfer Event may still come that tells its value (xHCI 4.11.5.2)",
        &[Id(id), Address(position)],
    );
    case.help(
        "leave the row out and Set TR Dequeue Pointer past the TD (xHCI 4.6.10); or read that event first",
        &[],
    );
}

/// Marks the Stopped event that says how far the controller has come on the ring of an endpoint.
fn mark_stopped(case: &mut Case, had: Endpoint) {
    case.mark(
        case.before.iter().rposition(|row| is_stop(row, had)),
        "this Stopped event says how far the controller has come",
        &[],
    );
}

/// Of a TD the first of whose TRBs came back: which row brought the controller past it.
fn tell_passed(case: &mut Case, id: u8, known: &RingRecord, td: Submitted, back: u64) {
    if let Some(past) = past_of(case, id) {
        case.mark(
            past.passed_by(td.first),
            "with this event the controller is past its first TRB",
            &[],
        );
    }
    case.note(
        "on ring {} the controller is past the TRBs before position {}",
        &[Id(id), Address(known.floor_number())],
    );
    if back >= td.count {
        case.head("a TD is withdrawn that the controller is past", &[]);
        case.note("all its TRBs came back", &[]);
        case.help(
            "leave the row out: a TRB that came back is the driver's to write, and the next TD goes there by its own `sub` row",
            &[],
        );
    } else {
        case.head(
            "a TD is withdrawn that the controller is in the middle of",
            &[],
        );
        case.note(
            "the first {} of the TD's {} TRBs came back",
            &[Number(back), Number(td.count)],
        );
        case.help(
            "Set TR Dequeue Pointer past the TD (xHCI 4.6.10); or write `xtrace 4`, by which a TD may be withdrawn of which a part came back",
            &[],
        );
    }
}

/// Of a TD that the controller may have begun: by which event.
fn tell_begun(case: &mut Case, id: u8, known: &RingRecord, had: Endpoint) {
    case.head("a TD is withdrawn that the controller may have begun", &[]);
    mark_stopped(case, had);
    case.note(
        "on ring {} the controller may have begun what is before position {} (xHCI 4.6.9)",
        &[Id(id), Address(known.ceiling())],
    );
    case.help(
        "Set TR Dequeue Pointer past the TD; or write `xtrace 3`, by which a TD may be withdrawn that was begun, as long as its Cycle bits stay",
        &[],
    );
}

/// Whether a row reads a Stopped event of an endpoint.
fn is_stop(row: &Row, had: Endpoint) -> bool {
    match row {
        Row::Read { event } => event.kind() == BlockKind::TransferEvent
            && event.slot() == had.slot
            && event.endpoint() == had.endpoint
            && matches!(event.code(), 26..=28),
        _ => false,
    }
}
