//! What xHCI allows and the profile leaves out.
use commands::Command;
use row_history::{
    Case, Shown, code_name, command_at, is_isochronous, last_write, mark_adding, trb_at, type_name,
};
use traces::Row;
use trb::{
    Block, BlockFlags, BlockKind, Flags, Profile, counted_code, is_of_service, may_name_data,
};

/// A row with a form of the standard that isn't judged.
pub fn not_in_profile(case: &mut Case, row: &Row) {
    case.head("not in the checker's profile", &[]);
    case.here("left out", &[]);
    match row {
        Row::Sub { blocks, .. } => note_submitted(case, blocks.as_slice()),
        Row::Read { event } => note_event(case, *event),
        Row::Write { at, word } => note_write(case, at.get(), *word),
        _ => {}
    }
    case.not_judged();
    if !case.has_help() {
        advise_another_run(case);
    }
}

/// Says what helps where no version has what is left out.
fn advise_another_run(case: &mut Case) {
    case.advise(
        "this says nothing against the driver: neither this row nor those behind it are judged; record a run without it",
    );
}

/// Says what helps where version 4 has what is left out, unless something else is left out too.
fn advise_version_four(case: &mut Case) {
    if !case.has_help() {
        case.advise(
            "begin the trace with `xtrace 4`, which judges isochronous endpoints and Event Data: as it is, nothing is said against the driver, and neither this row nor those behind it are judged",
        );
    }
}

/// Notes what a write of memory hands over that is left out: a command that adds such an endpoint, or a Link TRB that interrupts.
fn note_write(case: &mut Case, address: u64, word: u32) {
    if trb_at(case, address, word).kind() == BlockKind::Link {
        case.say(
            "a Link TRB with Interrupt On Completion (IOC, word 3 bit 5) 1: its event isn't judged",
        );
        return;
    }
    let Some(command) = command_at(case, address, word) else {
        return;
    };
    let Some(context) = command.input_context() else {
        return;
    };
    let first = match command {
        Command::AddressDevice { .. } => 1,
        _ => 2,
    };
    for endpoint in first..32 {
        note_endpoint(case, context, endpoint);
    }
}

/// Notes why an endpoint that a command adds is left out, where it is.
fn note_endpoint(case: &mut Case, context: u64, endpoint: u8) {
    let Some(added) = case.known.added(case.header, context, endpoint) else {
        return;
    };
    let (kind, streams) = (added.ep_type, added.streams);
    let offset = (u64::from(endpoint) + 1) * case.header.context_size.bytes();
    let first = context.saturating_add(offset);
    if streams > 0 {
        case.note(
            "DCI {} is added with MaxPStreams {}: streams aren't judged",
            &[Shown::Small(endpoint), Shown::Small(streams)],
        );
        case.mark(
            last_write(case.before, first),
            "MaxPStreams of its Endpoint Context is written here",
            &[],
        );
        advise_another_run(case);
    }
    if is_isochronous(added) && !case.header.version.is_lenient() {
        case.note(
            "DCI {} is added as an isochronous endpoint (EP Type {}): `xtrace 3` allows that, while its ring gets no Isoch TRB, and `xtrace 4` those too",
            &[Shown::Small(endpoint), Shown::Small(kind)],
        );
        advise_version_four(case);
        case.mark(
            last_write(case.before, first.saturating_add(4)),
            "EP Type of its Endpoint Context is written here",
            &[],
        );
    }
}

/// Notes which of some submitted TRBs is left out, and why.
fn note_submitted(case: &mut Case, blocks: &[Block]) {
    note_left_out(case, blocks);
    if !blocks
        .iter()
        .any(|block| is_left_out(Profile::Full, *block))
    {
        advise_version_four(case);
    }
}

/// Notes which of some TRBs is left out, and why.
pub fn note_left_out(case: &mut Case, blocks: &[Block]) {
    let profile = case.header.version.profile();
    let index = blocks
        .iter()
        .position(|block| is_left_out(profile, *block))
        .unwrap_or(usize::MAX);
    let Some(block) = blocks.get(index) else {
        case.say("one of the TRBs");
        return;
    };
    let number = Shown::Nth((index as u64).saturating_add(1));
    let kind = block.kind();
    match kind {
        _ if kind.is_left_out_transfer(profile) => case.note(
            "the {} TRB is of type {}, which isn't judged",
            &[number, Shown::Name(type_name(kind))],
        ),
        _ if kind.is_transfer() => case.note(
            "the {} TRB: its Interrupter Target is {}, and only 0 is judged",
            &[number, Shown::Number(u64::from(block.w[2] >> 22))],
        ),
        BlockKind::SetTrDequeue => case.note(
            "the {} TRB: Set TR Dequeue Pointer of a stream (Stream Context Type above 0)",
            &[number],
        ),
        BlockKind::ResetEndpoint => case.note(
            "the {} TRB: Reset Endpoint that preserves the transfer state (TSP 1)",
            &[number],
        ),
        _ => case.note(
            "the {} TRB: a command of type {}, which isn't judged",
            &[number, Shown::Small(kind.number())],
        ),
    }
}

/// Whether a TRB is left out, by its type, its target or a field.
fn is_left_out(profile: Profile, block: Block) -> bool {
    let kind = block.kind();
    if kind.is_transfer() {
        return kind.is_left_out_transfer(profile) || block.w[2] >> 22 != 0;
    }
    match kind {
        BlockKind::SetTrDequeue => block.w[0] / 2 % 8 != 0,
        BlockKind::ResetEndpoint => block.flags().contains(BlockFlags::OPTION),
        _ => kind.is_left_out_command(),
    }
}

/// Notes why an event is left out.
fn note_event(case: &mut Case, event: Block) {
    if !case.header.version.may_have_data(event) {
        note_value(case, event);
    } else if !case.header.version.has_isoch() {
        note_code(
            case,
            event,
            "a Transfer Event with Completion Code {}: judged are 1, 3, 4, 5, 6, 13, 26, 27, 28 and 36",
        );
        if is_code_of_version_four(case, event) {
            advise_version_four(case);
        }
    } else if is_error_of_isoch(event.code()) {
        note_another_type(case, event);
    } else {
        note_code(
            case,
            event,
            "a Transfer Event with Completion Code {}: judged are 1, 3, 4, 5, 6, 13, 14, 15, 23, 26, 27, 28 and 36, and at isochronous endpoints 2, 18, 20 and 31",
        );
    }
}

/// Notes why an event that tells a value is left out.
fn note_value(case: &mut Case, event: Block) {
    if case.header.version.has_data() {
        return note_code(
            case,
            event,
            "a Transfer Event with Event Data (ED 1) and Completion Code {}: with 14, 15, 23 and 26 to 28 it isn't judged",
        );
    }
    case.say("a Transfer Event with Event Data (ED 1)");
    if may_name_data(event.code()) {
        advise_version_four(case);
    }
}

/// Notes the code of an event. The text has a place for it.
fn note_code(case: &mut Case, event: Block, text: &str) {
    case.note(text, &[Shown::Small(event.code())]);
}

/// Whether version 4 judges the code of an event.
fn is_code_of_version_four(case: &Case, event: Block) -> bool {
    let is_isochronous = case
        .known
        .devices
        .is_isochronous(event.slot(), event.endpoint());
    is_of_service(event.code()) || is_isochronous && is_error_of_isoch(event.code())
}

/// Notes that the endpoint of an event isn't of the type that tells of such an error.
fn note_another_type(case: &mut Case, event: Block) {
    let (slot, endpoint, code) = (event.slot(), event.endpoint(), event.code());
    case.note(
        "{} isn't isochronous, and Completion Code {} ({}) is judged at isochronous endpoints alone",
        &[
            Shown::Endpoint(slot, endpoint),
            Shown::Small(code),
            Shown::Name(code_name(code)),
        ],
    );
    mark_adding(case, slot, endpoint);
}

/// Whether an isochronous endpoint tells of an error with a code, and goes on.
fn is_error_of_isoch(code: u8) -> bool {
    code != 1 && counted_code(true, code) == 1
}
