//! Doorbells and commands that the states of slots and endpoints don't allow.
use commands::{Command, EndpointState};
use guest_memory::Addr;
use ring_knowledge::RingGiving;
use row_history::{
    Case, Shown, Unfinished, binds_ring, command_at, command_name, endpoint_state_name, exclude,
    line_of, mark_reset, mark_stop, name_two_endpoints, note_dropped, ring_at, unfinished_beside,
    unfinished_on,
};
use traces::Ring;

/// A doorbell that may not ring now.
pub fn bad_doorbell(case: &mut Case, slot: u8, target: u8) {
    case.head("a doorbell that may not ring now", &[]);
    if slot == 0 {
        case.here("the Command Ring, DB Target {}", &[Shown::Small(target)]);
    } else {
        case.here("{}", &[Shown::Endpoint(slot, target)]);
    }
    let controller = &case.known.controller;
    if controller.start.is_none() {
        mark_reset(case);
        case.say("the controller isn't started (xHCI 4.2)");
        case.advise("write USBCMD with Run/Stop 1 first");
    } else if let Some(stop) = controller.stop {
        mark_stop(case);
        case.note(
            "Run/Stop is 0 from row {} on: the controller halts, and takes nothing up before Run/Stop is 1 again (xHCI 5.4.1.1)",
            &[Shown::Line(line_of(case.first, stop))],
        );
        case.advise("ring behind the row by which Run/Stop becomes 1 again");
    } else if slot == 0 {
        case.say("doorbell 0 is the Command Ring's, and its DB Target is 0");
        case.advise("log `db 00 00` for a command");
    } else if target == 0 || target > 31 {
        case.say("the DB Target of a device slot is a DCI, 1 to 31 (xHCI 5.6)");
        case.advise("ring with the DCI of the endpoint whose ring has the TD");
        note_running(case, slot);
    } else {
        note_endpoint(case, slot, target);
    }
}

/// Notes why the doorbell of an endpoint may not ring, and points at the row by which it may not.
fn note_endpoint(case: &mut Case, slot: u8, target: u8) {
    let devices = &case.known.devices;
    let state = devices.endpoint_state(slot, target);
    if state == EndpointState::Disabled {
        return note_disabled(case, slot, target);
    }
    let may_run = matches!(state, EndpointState::Running | EndpointState::Stopped)
        && !devices.must_move(slot, target);
    match unfinished_on(case, slot, target) {
        Some(given) if may_run => {
            case.mark_unfinished(given);
            case.say(
                "this command changes the endpoint, and its Command Completion Event wasn't read yet",
            );
            case.advise("ring behind its Command Completion Event");
        }
        _ => note_halted(case, slot, target, state),
    }
}

/// Notes why an endpoint is Disabled.
fn note_disabled(case: &mut Case, slot: u8, target: u8) {
    if let Some(given) = unfinished_on(case, slot, target) {
        case.mark_unfinished(given);
    }
    case.advise("ring behind the Command Completion Event of the command that adds it");
    if note_dropped(case, slot, target) {
        return;
    }
    case.say(
        "the endpoint is Disabled: no Address Device or Configure Endpoint that adds it has completed",
    );
    if !case.has_mark() {
        note_running(case, slot);
    }
}

/// Notes that an endpoint halted and wasn't moved since.
fn note_halted(case: &mut Case, slot: u8, target: u8, state: EndpointState) {
    let (label, note, help) = match state {
        EndpointState::Error => (
            "with this event the endpoint came into the state Error",
            "the endpoint is in the state Error",
            "Set TR Dequeue Pointer, and ring behind its Command Completion Event",
        ),
        EndpointState::Halted => (
            "with this event the endpoint came to a halt",
            "the endpoint is Halted",
            "Reset Endpoint, then Set TR Dequeue Pointer, and ring behind its Command Completion Event",
        ),
        _ => (
            "with this event the endpoint came to a halt",
            "the endpoint halted, and its TR Dequeue Pointer wasn't set since",
            "Set TR Dequeue Pointer to the next TD first (xHCI 4.6.8)",
        ),
    };
    case.mark(case.known.halted_by(slot, target), label, &[]);
    case.say(note);
    case.advise(help);
}

/// Notes which endpoints of a slot may have their doorbell rung, with their rings: one of them may be meant.
fn note_running(case: &mut Case, slot: u8) {
    let devices = &case.known.devices;
    let mut is_first = true;
    for endpoint in 1..32u8 {
        let state = devices.endpoint_state(slot, endpoint);
        if let (EndpointState::Running | EndpointState::Stopped, Some(id)) = (
            state,
            devices.ring_of(slot, endpoint),
        ) {
            if is_first {
                case.note("endpoints of slot {}: ", &[Shown::Small(slot)]);
            } else {
                case.go_on("; ", &[]);
            }
            is_first = false;
            let name = Shown::Name(endpoint_state_name(state));
            case.go_on(
                "DCI {} with ring {}, {}",
                &[Shown::Small(endpoint), Shown::Id(id), name],
            );
        }
    }
    if is_first {
        case.note(
            "no endpoint of slot {} is Running or Stopped",
            &[Shown::Small(slot)],
        );
    }
}

/// A second command for a slot, or a TRB on a ring that an unfinished command moves or binds. Whether it is so.
pub fn busy(case: &mut Case, at: Addr, word: u32) -> bool {
    match command_at(case, at.get(), word) {
        Some(command) => match command.slot() {
            Some(_) => busy_slot(case, command),
            None => false,
        },
        None => busy_ring(case, at, word),
    }
}

/// A second command for a slot. Whether it is so.
fn busy_slot(case: &mut Case, command: Command) -> bool {
    let Some(first) = unfinished_beside(case, command) else {
        return false;
    };
    case.head("a second command for a slot whose first is unfinished", &[]);
    case.here("{}", &[Shown::Command(command)]);
    case.mark_unfinished(first);
    case.say("its Command Completion Event wasn't read yet");
    say_what_they_share(case, first.command, command);
    case.not_judged();
    case.advise("wait for it, and hand the second command over then");
    true
}

/// What lets two commands of a slot stand side by side in a later version, or what both are about.
fn say_what_they_share(case: &mut Case, first: Command, second: Command) {
    if name_two_endpoints(first, second) {
        case.say("the two name different endpoints: `xtrace 3` allows them side by side");
    } else if !exclude(case, first, second) {
        case.say("neither is about the other's endpoints: `xtrace 4` allows them side by side");
    } else {
        say_which_endpoint(case, first, second);
    }
}

/// Which endpoint both commands name, or one names and the other's Input Context has.
fn say_which_endpoint(case: &mut Case, first: Command, second: Command) {
    let (named, other) = match (first.endpoint(), second.endpoint()) {
        (Some((_, named)), None) => (named, second),
        (None, Some((_, named))) => (named, first),
        (Some((_, named)), Some(_)) => {
            return case.note("both are about DCI {}", &[Shown::Small(named)]);
        }
        (None, None) => return case.say("each is about the whole slot"),
    };
    let told = [Shown::Name(command_name(other)), Shown::Small(named)];
    match other {
        Command::ConfigureEndpoint {
            deconfigure: false,
            ..
        }
        | Command::EvaluateContext { .. } => {
            case.note("the Input Context of {} has a flag of DCI {}", &told);
        }
        _ => case.note(
            "{} is about each endpoint of the slot, DCI {} among them",
            &told,
        ),
    }
}

/// A TRB on a ring that an unfinished command moves or binds. Whether the write hands one over.
fn busy_ring(case: &mut Case, at: Addr, word: u32) -> bool {
    let Some((ring, known)) = ring_at(case, at.get()) else {
        return false;
    };
    let id = Shown::Id(ring.id);
    match known.look(&ring.shape, at, word).giving {
        Some(RingGiving::Position(position)) => {
            case.here("TRB {} of ring {}", &[Shown::Number(position), id]);
        }
        Some(RingGiving::Crossing(_)) => case.here("a Link TRB of ring {}", &[id]),
        None => return false,
    }
    let given = busy_with(case, ring);
    let (head, why) = if given.is_some_and(|given| moves_ring(case, given.command, ring.id)) {
        (
            "a TRB is handed over on a ring that an unfinished Address Device moves",
            "the controller may take the TRB before it moves the ring, and again behind that",
        )
    } else {
        (
            "a TRB is handed over on a ring that an unfinished command gives to an endpoint",
            "the ring runs still, for the endpoint that had it: the controller may take the TRB for that endpoint, and again for the other",
        )
    };
    case.head(head, &[]);
    if let Some(given) = given {
        case.mark_unfinished(given);
    }
    case.say("its Command Completion Event wasn't read yet");
    case.say(why);
    case.advise("wait for it, and hand the TRB over then");
    true
}

/// The unfinished command that moves or binds a ring.
fn busy_with(case: &Case, ring: &Ring) -> Option<Unfinished> {
    let mut all = case.unfinished.iter();
    all.find(|given| {
        moves_ring(case, given.command, ring.id) || binds_ring(case, given.command, ring)
    }).copied()
}

/// Whether a command is an Address Device for a slot whose default control endpoint has this ring.
fn moves_ring(case: &Case, command: Command, ring: u8) -> bool {
    match command {
        Command::AddressDevice { slot, .. } => case.known.devices.ring_of(slot, 1) == Some(ring),
        _ => false,
    }
}
