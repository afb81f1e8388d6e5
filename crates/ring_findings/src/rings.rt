//! Rings that go or come where they may not, each cause by name and place.
use commands::Command;
use row_history::Shown::{Address, Id, Line, Name, Small, Word};
use row_history::{
    Case, Endpoint, Shown, SoiledWord, Taker, coming, command_name, endpoint_state_name,
    endpoint_with, given_back_by, going, is_in_area, line_of, mark_run, mark_taken, note_area,
    note_running, note_unfinished, ring_of_kind, ring_with, shown_first_lap, soiled_word,
    unfinished_binding, unfinished_on,
};
use segments::Segment;
use traces::{Register, Ring};
use trb::RingKind;

/// What a ring is, in the standard's words.
pub(crate) fn kind_name(ring: &Ring) -> &'static str {
    match ring.shape.kind() {
        RingKind::Cmd => "the Command Ring",
        RingKind::Evt => "the Event Ring",
        RingKind::Xfer => "a Transfer Ring",
    }
}

/// A ring that may not go.
pub fn bad_free(case: &mut Case, id: u8) {
    let Some(ring) = ring_with(case.header.rings.as_slice(), id) else {
        case.head("a ring is freed that is not there", &[]);
        case.here("no ring has the ID {} now", &[Id(id)]);
        case.mark(going(case.before, id), "this row took the ring away", &[]);
        let which = if case.header.version.has_runs() {
            "name a ring that is there; a ring goes once"
        } else {
            "name a Transfer Ring that is there; a ring goes once"
        };
        return case.help(which, &[]);
    };
    case.here("ring {}", &[Id(id)]);
    if ring.shape.kind() != RingKind::Xfer {
        case.here("ring {} is {}", &[Id(id), Name(kind_name(ring))]);
        tell_kept(case, ring);
    } else if let Some(had) = endpoint_with(&case.known.devices, id) {
        tell_had(case, id, had);
    } else if let Some(given) = unfinished_binding(case, ring) {
        case.head(
            "a ring is freed that an unfinished command gives to an endpoint",
            &[],
        );
        case.mark_unfinished(given);
        case.note(
            "it gives the ring to an endpoint, and its Command Completion Event wasn't read yet",
            &[],
        );
        case.help(
            "read that event; where it says Success, drop the endpoint by a command before the ring goes",
            &[],
        );
    } else {
        case.head("a ring is freed that is not the driver's to free", &[]);
    }
}

/// A Command or Event Ring that may not go now, or never.
fn tell_kept(case: &mut Case, ring: &Ring) {
    if !case.header.version.has_runs() {
        case.head("a ring is freed that is no Transfer Ring", &[]);
        case.help(
            "leave the row out: the Command Ring and the Event Ring stay as long as the controller runs",
            &[],
        );
    } else if ring.shape.kind() == RingKind::Evt {
        tell_event_ring(case);
    } else if case.known.controller.halt.is_none() {
        tell_running(case);
    } else {
        tell_unfinished(case);
    }
}

/// The Command Ring of a controller that may run.
fn tell_running(case: &mut Case) {
    case.head(
        "the Command Ring is freed while the controller may run",
        &[],
    );
    let runs = note_running(case);
    case.note(
        "the controller may fetch commands until it has halted (xHCI 5.4.1.1)",
        &[],
    );
    case.help(
        if runs {
            "write Run/Stop 0, and read USBSTS until HCHalted is 1 (`rd usbsts`), before the ring goes"
        } else {
            "read USBSTS until HCHalted is 1, and log that as an `rd usbsts` row, before the ring goes"
        },
        &[],
    );
}

/// The Command Ring of a controller that has halted, with unfinished commands.
fn tell_unfinished(case: &mut Case) {
    case.head(
        "the Command Ring is freed with commands that aren't finished",
        &[],
    );
    note_unfinished(case);
    case.help(
        "read the Command Completion Event of each command before the ring goes, or reset the controller first",
        &[],
    );
}

/// The Event Ring of a controller that was set up.
fn tell_event_ring(case: &mut Case) {
    case.head("the Event Ring is freed while the controller has it", &[]);
    let controller = &case.known.controller;
    if controller.start.is_none() {
        case.mark(
            case.register_row(Register::Erstsz),
            "ERSTSZ is written here",
            &[],
        );
        case.note("the Event Ring is set up from ERSTSZ on (xHCI 4.9.4)", &[]);
        case.not_judged();
        return case.help(
            "let the ring go before ERSTSZ is written, or behind the next reset of a controller that has halted",
            &[],
        );
    }
    if controller.halt.is_some() {
        mark_run(case);
        case.note(
            "the controller goes on to post events there once Run/Stop is 1 again (xHCI 4.9.4)",
            &[],
        );
        case.not_judged();
    } else {
        note_running(case);
        case.note(
            "the controller may post an event there at any moment (xHCI 4.9.4)",
            &[],
        );
    }
    case.help(
        "reset the controller before the ring goes: Run/Stop 0, `rd usbsts` with HCHalted 1, then HCRST",
        &[],
    );
}

/// A ring that an endpoint has: how it came to it, or which unfinished command is to take it away.
fn tell_had(case: &mut Case, id: u8, had: Endpoint) {
    let Endpoint { slot, endpoint } = had;
    case.head("a ring is freed that an endpoint has", &[]);
    case.here("{} has ring {}", &[Shown::Endpoint(slot, endpoint), Id(id)]);
    let state = Name(endpoint_state_name(case.known.devices.endpoint_state(slot, endpoint)));
    if let Some(given) = unfinished_on(case, slot, endpoint) {
        if disables(case, given.command, endpoint) {
            case.mark_unfinished(given);
            case.note(
                "the endpoint is {} until the success of this {} is read",
                &[state, Name(command_name(given.command))],
            );
            return case.help(
                "read its Command Completion Event before the ring goes",
                &[],
            );
        }
    }
    case.mark(
        case.known.bound_by(id, slot, endpoint),
        "with this completion the endpoint got the ring",
        &[],
    );
    case.note(
        "the endpoint is {}: the controller may fetch from its ring (xHCI 4.8.3)",
        &[state],
    );
    case.help(
        "Disable Slot, or Configure Endpoint that drops the endpoint, and read its completion before the ring goes",
        &[],
    );
}

/// Whether the success of a command disables an endpoint of its slot.
fn disables(case: &Case, command: Command, endpoint: u8) -> bool {
    match command {
        Command::DisableSlot { .. } => true,
        Command::ResetDevice { .. }
        | Command::ConfigureEndpoint {
            deconfigure: true,
            ..
        } => endpoint > 1,
        Command::ConfigureEndpoint { input_context, .. } => {
            case.known.drops(case.header, input_context, endpoint)
        }
        _ => false,
    }
}

/// A ring that may not come.
pub fn bad_ring(case: &mut Case, ring: &Ring) {
    if let Some(other) = ring_with(case.header.rings.as_slice(), ring.id) {
        case.head("a ring comes with the ID of another", &[]);
        case.here(
            "ring {} is {} that is there",
            &[Id(ring.id), Name(kind_name(other))],
        );
        return case.help(
            "give each ring of a trace an ID of its own, also behind a `free` row",
            &[],
        );
    }
    if tell_second(case, ring.shape.kind()) {
        return;
    }
    for segment in ring.shape.segments() {
        if bad_segment(case, *segment) {
            return;
        }
    }
    case.head("a ring comes in memory that is not free for it", &[]);
    case.here("ring {}", &[Id(ring.id)]);
    case.help("use memory that nothing else has, with zeros in it", &[]);
}

/// A second Command or Event Ring. Whether it is one.
fn tell_second(case: &mut Case, kind: RingKind) -> bool {
    let rings = case.header.rings.as_slice();
    let (Some(other), true) = (ring_of_kind(rings, kind), kind != RingKind::Xfer) else {
        return false;
    };
    let id = Id(other.id);
    case.here("ring {} is {}", &[id, Name(kind_name(other))]);
    case.mark(coming(case.before, other.id), "ring {} comes here", &[id]);
    if kind == RingKind::Cmd {
        case.head("a second Command Ring comes", &[]);
        case.note(
            "the controller has one pointer into Command Rings, which CRCR sets (xHCI 4.9.3, 5.4.5)",
            &[],
        );
        case.help(
            "free ring {} first: before the start, or behind an `rd usbsts` row with HCHalted 1",
            &[id],
        );
    } else {
        case.head("a second Event Ring comes", &[]);
        case.note(
            "an interrupter has one Event Ring, and a trace is one interrupter's (xHCI 4.9.4)",
            &[],
        );
        case.help(
            "free ring {} first: before ERSTSZ is written, or behind a reset of a controller that has halted",
            &[id],
        );
    }
    true
}

/// A segment that no ring may have. Whether none may.
fn bad_segment(case: &mut Case, segment: Segment) -> bool {
    let (base, bytes) = (segment.base, 16 * u64::from(segment.count));
    let rings = case.header.rings.as_slice();
    if let Some(other) = rings.iter().find(|ring| ring.shape.overlaps(base, bytes)) {
        tell_touched(case, base, other);
    } else if is_in_area(case, base, bytes) {
        case.head("a ring comes in memory that the controller has", &[]);
        case.here("the segment at {} touches it", &[Address(base)]);
        note_area(case, base, bytes);
        case.help("let it come back first, or use other memory", &[]);
    } else if let Some(word) = soiled_word(case, base, bytes) {
        tell_soiled(case, word);
    } else if let Some(address) = shown_first_lap(&case.known.memory, segment) {
        tell_shown(case, address);
    } else {
        return false;
    }
    true
}

/// A segment that touches a ring: which endpoint has that, where one has it.
fn tell_touched(case: &mut Case, base: u64, other: &Ring) {
    let id = other.id;
    case.head("a ring comes in memory of another ring", &[]);
    case.here(
        "the segment at {} touches ring {}, {}",
        &[Address(base), Id(id), Name(kind_name(other))],
    );
    if let Some(Endpoint { slot, endpoint }) = endpoint_with(&case.known.devices, id) {
        case.mark(
            case.known.bound_by(id, slot, endpoint),
            "with this completion an endpoint got that ring",
            &[],
        );
        case.note("{} has ring {}", &[Shown::Endpoint(slot, endpoint), Id(id)]);
    }
    let help = match other.shape.kind() {
        RingKind::Xfer => "free the other ring first, once no endpoint has it, or use other memory",
        RingKind::Cmd | RingKind::Evt =>
            "use other memory: that ring stays as long as the controller runs",
    };
    case.help(help, &[]);
}

/// A word of a segment that the controller may have written last: from which row on.
fn tell_soiled(case: &mut Case, word: SoiledWord) {
    let SoiledWord { address, taken } = word;
    let line = Line(line_of(case.first, taken.row));
    case.head("a ring comes in memory that the controller wrote last", &[]);
    mark_taken(case, taken);
    match taken.by {
        Taker::Device(slot) => {
            case.here(
                "the word at {} was the Device Context's of slot {}",
                &[Address(address), Small(slot)],
            );
            case.note(
                "the controller may have written it from row {} on, and the driver has not since",
                &[line],
            );
        }
        Taker::EventRing(id) => {
            case.here(
                "the word at {} was ring {}'s, the Event Ring",
                &[Address(address), Id(id)],
            );
            case.note(
                "the controller may have written it up to row {}, and the driver has not since",
                &[line],
            );
        }
    }
    case.help(
        "write every word of the segments behind {}, zeros too, before the ring comes",
        &[Name(given_back_by(case, taken))],
    );
}

/// A control word of a segment that shows the first lap's Cycle bit.
fn tell_shown(case: &mut Case, address: u64) {
    let word = Word(case.known.word(address));
    case.head(
        "a ring comes whose memory shows the Cycle bit of the first lap",
        &[],
    );
    case.here("the control word at {} is {}", &[Address(address), word]);
    case.mark(
        case.known.last_writer(address),
        "this row wrote the Cycle bit",
        &[],
    );
    case.note(
        "in the ring's first lap a TRB with Cycle bit 1 counts as handed over (xHCI 4.9.2)",
        &[],
    );
    case.help(
        "write each control word of the segments with Cycle bit 0 before the ring comes",
        &[],
    );
}
