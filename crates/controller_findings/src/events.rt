//! Events that no controller can have posted.
use commands::{Command, EndpointState};
use ring_knowledge::RingRecord;
use row_history::{
    Case, Shown, code_name, command_name, endpoint_state_name, events_read, given_back,
    is_handed_over, last_event, last_write, line_of, mark_adding, mark_reset, note_dropped,
    note_no_ring, position_at, ring_at, ring_known, ring_of_kind, slot_state_name, submission,
    trb_named, type_name,
};
use segments::Place;
use traces::{Register, Ring};
use trb::{Block, BlockKind, RingKind, is_success};

/// An event that no controller can have posted.
pub fn impossible_event(case: &mut Case, event: Block) {
    case.head(
        "no controller of the model can have posted this event here",
        &[],
    );
    let (kind, code) = (type_name(event.kind()), code_name(event.code()));
    case.here("{}, {}", &[Shown::Name(kind), Shown::Name(code)]);
    if case.known.controller.start.is_none() {
        case.say("the controller isn't started: USBCMD with Run/Stop 1 comes first");
        note_lost(case);
    } else if !note_event_ring(case, event) {
        match event.kind() {
            BlockKind::CommandCompletion => note_completion(case, event),
            BlockKind::TransferEvent => note_transfer(case, event),
            _ => case.say("its type is no event's"),
        }
    }
    if !case.has_help() {
        case.advise(
            "look at the hook for events and for rows that are missing: the trace isn't what happened, or the driver read a stale event",
        );
    }
}

/// Notes that a reset loses events, and points at the last one.
fn note_lost(case: &mut Case) {
    if let Some(reset) = case.known.controller.reset {
        mark_reset(case);
        case.note(
            "the reset of row {} loses the events that weren't read before it (xHCI 5.4.1)",
            &[Shown::Line(line_of(case.first, reset))],
        );
    }
}

/// Notes that the event has no place in the Event Ring: another Cycle bit, or no room. Whether it is so.
fn note_event_ring(case: &mut Case, event: Block) -> bool {
    let Some(ring) = ring_of_kind(case.header.rings.as_slice(), RingKind::Evt) else {
        note_no_ring(case, RingKind::Evt);
        return true;
    };
    if note_full(case, ring) {
        return true;
    }
    let count = events_read(case);
    let (have, want) = (event.cycle(), ring.shape.cycle(count));
    if have == want {
        return false;
    }
    case.note(
        "its Cycle bit is {}, and event {} has {}: the driver read a TRB that isn't posted yet",
        &[
            Shown::Small(u8::from(have)),
            Shown::Number(count.saturating_add(1)),
            Shown::Small(u8::from(want)),
        ],
    );
    case.advise(
        "read an event only where its Cycle bit is the Consumer Cycle State, and flip that at the ring's end (xHCI 4.9.4)",
    );
    true
}

/// Notes that the Event Ring had no room for one more event. Whether it is so.
fn note_full(case: &mut Case, ring: &Ring) -> bool {
    let most = u64::from(ring.shape.places()).saturating_sub(1);
    let unread = events_read(case).saturating_sub(given_back(case, ring));
    if unread < most {
        return false;
    }
    case.note(
        "the Event Ring was full: ERDP gave back all but {} of the events that were read, and the ring holds {}",
        &[Shown::Number(unread), Shown::Number(most)],
    );
    case.mark(
        case.register_row(Register::Erdp),
        "ERDP is written here",
        &[],
    );
    case.advise("write ERDP after some events, before the ring is full");
    true
}

/// What is wrong with a Command Completion Event.
fn note_completion(case: &mut Case, event: Block) {
    let Some(commands) = ring_of_kind(case.header.rings.as_slice(), RingKind::Cmd) else {
        return note_no_ring(case, RingKind::Cmd);
    };
    let Some((ring, known)) = ring_known(case, commands.id) else {
        return;
    };
    let next = known.floor_number();
    let wanted = ring.shape.address(next);
    let gave = last_write(case.before, wanted | 12);
    if event.pointer() != wanted {
        note_other_command(case, ring, event.pointer(), wanted);
    } else if !is_handed_over(ring, known, next) {
        note_stale(case, ring, known, next);
    } else if known.ceiling() <= next {
        case.mark(gave, "this row hands the command to the controller", &[]);
        if known.is_open() {
            case.say(
                "the Link TRB before that command isn't handed over: the controller waits there",
            );
            note_ungiven_link(case, ring, next);
        } else {
            case.say("no doorbell of the Command Ring rang since");
            case.advise("log the write of doorbell 0 as `db 00 00`");
        }
    } else {
        case.mark(gave, "the command that it completes", &[]);
        note_answer(case, event);
    }
}

/// Notes that a Command Completion Event names another TRB than the next command's.
fn note_other_command(case: &mut Case, ring: &Ring, found: u64, wanted: u64) {
    let what = match ring.shape.place_at(found) {
        Some(Place::Data { word: 0, .. }) => "",
        _ => ", which is no command's",
    };
    case.note(
        "it names {}{}; the next command to complete is at {}",
        &[
            Shown::Address(found),
            Shown::Name(what),
            Shown::Address(wanted),
        ],
    );
    let last = case.since_reset(last_event(case.before, BlockKind::CommandCompletion, found));
    if last.is_some() {
        case.mark(last, "the last completion that named it", &[]);
        note_breach(case);
    }
}

/// Notes that a controller may have posted what the standard doesn't let it post, so that neither the trace nor the driver need be wrong.
fn note_breach(case: &mut Case) {
    case.say(
        "no controller of the model posts this: a row is missing, or the controller breaks the standard, as some are known to do here",
    );
    case.advise(
        "look for a missing row first; where none is, the driver has to let such an event pass, and this run isn't judged from here on",
    );
}

/// Notes which Cycle bit hands over a Link TRB, and points at the last write of its control word. `next` is the position behind it.
fn note_ungiven_link(case: &mut Case, ring: &Ring, next: u64) {
    let Some(before) = next.checked_sub(1) else {
        return;
    };
    let link = ring.shape.address(before).saturating_add(16);
    let Some(row) = last_write(case.before, link | 12) else {
        case.say("its control word was never written");
        return;
    };
    case.note(
        "Cycle bit {} hands it over there, that of the TRB before it",
        &[Shown::Small(u8::from(ring.shape.cycle(before)))],
    );
    case.mark(Some(row), "its control word was last written here", &[]);
}

/// Why the next command can't have completed with an event.
fn note_answer(case: &mut Case, event: Block) {
    let (slot, code) = (event.slot(), event.code());
    if code == 0 {
        case.say("Completion Code 0 is never posted (xHCI table 6-90)");
        return;
    }
    let Some(NextCommand { command, .. }) = next_command(case) else {
        return;
    };
    let name = Shown::Name(command_name(command));
    let named = command.slot().unwrap_or(slot);
    if named != slot {
        case.note(
            "its Slot ID is {}, and the {} is for slot {}",
            &[Shown::Small(slot), name, Shown::Small(named)],
        );
    } else if code != 1 {
        case.note(
            "its Completion Code is {}: once the Stopped event of a {} was read, it ends with Success (xHCI 4.6.9)",
            &[Shown::Small(code), name],
        );
    } else if command != Command::EnableSlot || !note_slot(case, slot) {
        note_state(case, command, slot);
    }
}

/// Notes that CONFIG doesn't enable the slot that an Enable Slot answers. Whether it is so.
fn note_slot(case: &mut Case, slot: u8) -> bool {
    let slots = case.register(Register::Config).unwrap_or(0) % 256;
    if slot > 0 && u64::from(slot) <= slots {
        return false;
    }
    let slot = Shown::Small(slot);
    if slots == 0 {
        case.note(
            "its Slot ID is {}, and CONFIG enables no slot (MaxSlotsEn, xHCI 5.4.7)",
            &[slot],
        );
    } else {
        case.note(
            "its Slot ID is {}, and CONFIG enables slots 1 to {} (MaxSlotsEn, xHCI 5.4.7)",
            &[slot, Shown::Number(slots)],
        );
    }
    case.advise("log the write of CONFIG before the start as `reg config VALUE`");
    true
}

/// Why a command can't have succeeded in the states that its slot and its endpoint have.
fn note_state(case: &mut Case, command: Command, slot: u8) {
    let devices = &case.known.devices;
    let name = Shown::Name(command_name(command));
    let state = Shown::Name(slot_state_name(devices.slot_state(slot)));
    let Some((_, endpoint)) = command.endpoint() else {
        let option = Shown::Name(option_name(command));
        case.note(
            "{}{} can't succeed where slot {} is {} (xHCI 4.5.3)",
            &[name, option, Shown::Small(slot), state],
        );
        return;
    };
    let at_endpoint = devices.endpoint_state(slot, endpoint);
    if is_stop_of(command, slot, endpoint) && at_endpoint == EndpointState::Stopped {
        return note_stopped_again(case, slot, endpoint);
    }
    case.note(
        "{} can't succeed where slot {} is {} and DCI {} {} (xHCI 4.5.3, 4.8.3)",
        &[
            name,
            Shown::Small(slot),
            state,
            Shown::Small(endpoint),
            Shown::Name(endpoint_state_name(at_endpoint)),
        ],
    );
}

/// Notes that a Stop Endpoint succeeded whose endpoint was Stopped before.
fn note_stopped_again(case: &mut Case, slot: u8, endpoint: u8) {
    let named = Shown::Endpoint(slot, endpoint);
    match case.known.stopped_by(slot, endpoint) {
        Some(row) => case.note(
            "{} is Stopped since row {}, with no doorbell behind it: a second Stop Endpoint ends with Context State Error (xHCI 4.6.9)",
            &[named, Shown::Line(line_of(case.first, row))],
        ),
        None => case.note(
            "{} is Stopped already: Stop Endpoint ends with Context State Error there (xHCI 4.6.9)",
            &[named],
        ),
    }
    note_breach(case);
}

/// The flag of a command on which its success depends.
fn option_name(command: Command) -> &'static str {
    match command {
        Command::AddressDevice {
            block_set_address: true,
            ..
        } => " with BSR 1",
        Command::ConfigureEndpoint {
            deconfigure: true,
            ..
        } => " with DC 1",
        _ => "",
    }
}

/// What is wrong with a Transfer Event.
fn note_transfer(case: &mut Case, event: Block) {
    let (slot, endpoint) = (event.slot(), event.endpoint());
    if endpoint == 0 {
        case.say("its Endpoint ID is 0, and a DCI is 1 to 31 (xHCI 6.4.2.1)");
        return;
    }
    let Some(id) = case.known.devices.ring_of(slot, endpoint) else {
        if !note_dropped(case, slot, endpoint) {
            note_endpoint(
                case,
                event,
                "{} is {} and has no ring: no Address Device or Configure Endpoint that adds it has completed",
            );
        }
        return;
    };
    if is_stall_of_isochronous(case, event) {
        case.note(
            "{} is isochronous, and has no handshake: nothing stalls there (xHCI 4.10.2)",
            &[Shown::Endpoint(slot, endpoint)],
        );
        mark_adding(case, slot, endpoint);
        case.advise(
            "look at the hook for events, and at EP Type in the Input Context that added the endpoint",
        );
    } else if let Some((ring, known)) = ring_known(case, id) {
        note_pointer(case, event, ring, known);
    }
}

/// Whether an event is a Stall of an isochronous endpoint, where the version judges those.
fn is_stall_of_isochronous(case: &Case, event: Block) -> bool {
    event.code() == 6 && case.known.devices.code_told(case.header, event) != 6
}

/// Notes of the endpoint that an event names in which state it is. The text has a place for each.
fn note_endpoint(case: &mut Case, event: Block, text: &str) {
    let (slot, endpoint) = (event.slot(), event.endpoint());
    let state = endpoint_state_name(case.known.devices.endpoint_state(slot, endpoint));
    case.note(text, &[Shown::Endpoint(slot, endpoint), Shown::Name(state)]);
}

/// What is wrong with a Transfer Event whose endpoint has a ring.
fn note_pointer(case: &mut Case, event: Block, ring: &Ring, known: &RingRecord) {
    if event.has_event_data() {
        return note_value(case, event, ring, known);
    }
    let pointer = event.pointer();
    let (named, id) = (Shown::Address(pointer), Shown::Id(ring.id));
    let is_stopped = matches!(event.code(), 26..=28);
    match ring.shape.place_at(pointer) {
        Some(Place::Data { word: 0, .. } | Place::Link { word: 0, .. }) if is_stopped => {
            note_stopped(case, event, ring, known);
        }
        Some(Place::Data { place, word: 0 }) => {
            let position = position_at(ring, known, place);
            note_named_trb(case, event, ring, known, position);
        }
        Some(Place::Link { segment, word: 0 }) => case.note(
            "it names the Link TRB of segment {} of ring {}, which a Stopped event alone does (xHCI 4.6.9)",
            &[Shown::Number(u64::from(segment)), id],
        ),
        Some(_) => case.note(
            "it names {}, which is inside a TRB of ring {}: a TRB's address is a multiple of 16",
            &[named, id],
        ),
        None => {
            let endpoint = Shown::Endpoint(event.slot(), event.endpoint());
            case.note(
                "it names {}, which is no TRB of ring {}, the ring of {}",
                &[named, id, endpoint],
            );
            note_owner(case, pointer);
            if known.named_data(pointer).is_some() {
                case.advise(
                    "an Event Data TRB has this value: an event that tells a value has Event Data (ED, word 3 bit 2) 1",
                );
            }
        }
    }
}

/// What is wrong with a Transfer Event that tells a value (ED).
fn note_value(case: &mut Case, event: Block, ring: &Ring, known: &RingRecord) {
    let value = event.pointer();
    if let Some(spot) = known.named_by(&ring.shape, event) {
        let position = spot.number();
        case.note(
            "it tells the value {}, which {}, has",
            &[Shown::Address(value), trb_named(ring, position)],
        );
        return note_named_trb(case, event, ring, known, position);
    }
    let last = case.since_reset(last_event(case.before, BlockKind::TransferEvent, value));
    case.mark(last, "the last event that told it", &[]);
    case.note(
        "it tells the value {}, and no Event Data TRB has it that is submitted on ring {} and hasn't come back",
        &[Shown::Address(value), Shown::Id(ring.id)],
    );
    if ring.shape.place_at(value).is_some() {
        case.advise(
            "an event that names a TRB by its address has Event Data (ED, word 3 bit 2) 0: look at the hook for events",
        );
    } else {
        note_breach(case);
    }
}

/// Notes which ring has an address, where one has it.
fn note_owner(case: &mut Case, address: u64) {
    if let Some((ring, _)) = ring_at(case, address) {
        case.note(
            "ring {} has it: look at the event's Slot ID and Endpoint ID",
            &[Shown::Id(ring.id)],
        );
    }
}

/// What is wrong with a Transfer Event that names a TRB, and isn't a Stopped event.
fn note_named_trb(case: &mut Case, event: Block, ring: &Ring, known: &RingRecord, position: u64) {
    if position >= known.declared_count() as u64 {
        return note_unsubmitted(case, ring, position, event.pointer());
    }
    if !is_handed_over(ring, known, position) {
        return note_stale(case, ring, known, position);
    }
    let gave = last_write(case.before, ring.shape.address(position) | 12);
    case.mark(gave, "this row hands the TRB to the controller", &[]);
    let (slot, endpoint) = (event.slot(), event.endpoint());
    let state = case.known.devices.endpoint_state(slot, endpoint);
    let code = case.known.devices.code_told(case.header, event);
    if !is_success(code) && state != EndpointState::Running {
        note_endpoint(
            case,
            event,
            "{} is {}, and only a Running endpoint reports so",
        );
    } else if known.given_count() <= position {
        note_gap(case, ring, known);
    } else {
        note_no_bell(case, slot, endpoint);
    }
}

/// Notes that the TRB that an event names isn't submitted, and the event with which it came back before.
fn note_unsubmitted(case: &mut Case, ring: &Ring, position: u64, pointer: u64) {
    let Some(last) = position.checked_sub(u64::from(ring.shape.places())) else {
        case.note(
            "it names {}, which wasn't submitted",
            &[trb_named(ring, position)],
        );
        return;
    };
    let named = case.since_reset(last_event(case.before, BlockKind::TransferEvent, pointer));
    case.mark(named, "the last event that named it", &[]);
    let text = match named {
        Some(_) =>
            "it names {} again: TRB {} of ring {}, which was there, came back, and TRB {}, which would be there now, wasn't submitted",
        None =>
            "it names {}: TRB {} of ring {}, which was there, came back with an event that named a later one, and TRB {}, which would be there now, wasn't submitted",
    };
    case.note(
        text,
        &[
            Shown::Address(pointer),
            Shown::Number(last),
            Shown::Id(ring.id),
            Shown::Number(position),
        ],
    );
    note_breach(case);
}

/// Notes that no doorbell let the controller go on along the ring.
fn note_no_bell(case: &mut Case, slot: u8, endpoint: u8) {
    let devices = &case.known.devices;
    let state = devices.endpoint_state(slot, endpoint);
    let named = Shown::Endpoint(slot, endpoint);
    let stands = matches!(state, EndpointState::Halted | EndpointState::Error);
    if !stands && !devices.must_move(slot, endpoint) {
        case.note(
            "no doorbell of {} rang since the ring was bound, stopped or moved",
            &[named],
        );
        case.advise("log each write of a doorbell as a `db` row");
        return;
    }
    case.mark(
        case.known.halted_by(slot, endpoint),
        "with this event the controller came to a halt",
        &[],
    );
    let (how, when) = if stands {
        ("is", " since")
    } else {
        ("halted there and is", "")
    };
    let name = Shown::Name(endpoint_state_name(state));
    case.note(
        "{} {} {}{}: the controller goes on behind a Set TR Dequeue Pointer and a doorbell alone (xHCI 4.6.8, 4.6.10)",
        &[named, Shown::Name(how), name, Shown::Name(when)],
    );
}

/// Notes where the controller waits before it comes to a TRB.
fn note_gap(case: &mut Case, ring: &Ring, known: &RingRecord) {
    let next = known.given_count();
    if is_handed_over(ring, known, next) {
        case.note(
            "the Link TRB before TRB {} of ring {} isn't handed over: the controller waits there",
            &[Shown::Number(next), Shown::Id(ring.id)],
        );
        note_ungiven_link(case, ring, next);
    } else {
        case.note(
            "{}, which comes before, isn't handed over: the controller waits there",
            &[trb_named(ring, next)],
        );
    }
}

/// What is wrong with a Stopped event.
fn note_stopped(case: &mut Case, event: Block, ring: &Ring, known: &RingRecord) {
    let (slot, endpoint) = (event.slot(), event.endpoint());
    if case.known.devices.endpoint_state(slot, endpoint) != EndpointState::Running {
        return note_endpoint(
            case,
            event,
            "{} is {}, and only a Running endpoint is stopped",
        );
    }
    if !known.is_open() {
        return note_no_bell(case, slot, endpoint);
    }
    if note_no_stop(case, slot, endpoint) {
        return;
    }
    let pointer = event.pointer();
    if has_come_back(ring, known, pointer) {
        let last = case.since_reset(last_event(case.before, BlockKind::TransferEvent, pointer));
        case.mark(last, "the last event that named it", &[]);
        case.note(
            "it names {}, which came back before, and isn't submitted since",
            &[Shown::Address(pointer)],
        );
        note_breach(case);
    } else {
        case.note(
            "it names {}, behind where the controller can have come: a TRB or Link TRB before isn't handed over",
            &[Shown::Address(pointer)],
        );
    }
}

/// Whether the TRB at an address came back before, and isn't submitted since.
fn has_come_back(ring: &Ring, known: &RingRecord, address: u64) -> bool {
    match ring.shape.place_at(address) {
        Some(Place::Data { place, .. }) => {
            let position = position_at(ring, known, place);
            position >= u64::from(ring.shape.places()) && position > known.declared_count() as u64
        }
        _ => false,
    }
}

/// Notes that no Stop Endpoint for the endpoint is the next command to complete, or that the controller can't have come to it. Whether
/// it is so.
fn note_no_stop(case: &mut Case, slot: u8, endpoint: u8) -> bool {
    match next_command(case) {
        Some(next) if is_stop_of(next.command, slot, endpoint) => {
            if !next.may_be_taken {
                case.say(
                    "its Stop Endpoint is submitted, and isn't handed over yet, or no doorbell of the Command Ring rang since",
                );
            }
            !next.may_be_taken
        }
        _ => {
            case.note(
                "{} is Running: a Stopped event comes before the completion of its Stop Endpoint (xHCI 4.6.9), and that isn't the next command to complete",
                &[Shown::Endpoint(slot, endpoint)],
            );
            true
        }
    }
}

fn is_stop_of(command: Command, slot: u8, endpoint: u8) -> bool {
    command == Command::StopEndpoint { slot, endpoint }
}

/// The next command to complete, and whether the controller may have come to it.
#[derive(Clone, Copy)]
struct NextCommand {
    command: Command,
    may_be_taken: bool,
}

fn next_command(case: &Case) -> Option<NextCommand> {
    let commands = ring_of_kind(case.header.rings.as_slice(), RingKind::Cmd)?;
    let (_, known) = ring_known(case, commands.id)?;
    let next = known.floor_number();
    let block = known.declared(next)?;
    let command = Command::read(&block).ok()?;
    Some(NextCommand {
        command,
        may_be_taken: next < known.ceiling(),
    })
}

/// Notes that a TRB was never handed over, and the write that gave it a stale Cycle bit.
fn note_stale(case: &mut Case, ring: &Ring, known: &RingRecord, position: u64) {
    let places = u64::from(ring.shape.places());
    let lap = (position / places).saturating_add(1);
    let wanted = u8::from(ring.shape.cycle(position));
    case.note(
        "{}, was never handed to the controller: in lap {} of the ring that takes Cycle bit {}",
        &[
            trb_named(ring, position),
            Shown::Number(lap),
            Shown::Small(wanted),
        ],
    );
    if position >= known.declared_count() as u64 {
        case.say("it wasn't submitted either");
        return;
    }
    let Some(td) = submission(case, ring.id, position) else {
        return;
    };
    match last_write(case.before, ring.shape.address(position) | 12) {
        Some(wrote) if wrote > td.row => note_other_lap(case, td.row, wrote),
        _ => {
            case.mark(
                Some(td.row),
                "submitted here, and its control word isn't written since",
                &[],
            );
            if position >= places {
                note_breach(case);
            }
        }
    }
}

/// Notes that the control word of a TRB, which a row submitted, was written with the Cycle bit of another lap.
fn note_other_lap(case: &mut Case, row: usize, wrote: usize) {
    let line = Shown::Line(line_of(case.first, row));
    case.note("it was submitted at row {}", &[line]);
    case.mark(
        Some(wrote),
        "its control word, with the Cycle bit of another lap",
        &[],
    );
    case.advise(
        "flip the Producer Cycle State where you pass the Link TRB with Toggle Cycle (xHCI 4.9.2)",
    );
}
