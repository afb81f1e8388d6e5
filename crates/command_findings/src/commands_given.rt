//! Commands that their slot, their endpoint or their Input Context doesn't allow.
use commands::{Command, EndpointState, SlotState};
use row_history::{
    Beside, Case, NoArea, Shown, SoiledWord, Taker, clash, command_at, command_name,
    endpoint_state_name, given_back_by, last_write, line_of, mark_reset, mark_taken, note_dropped,
    soiled_word,
};
use traces::Register;

/// A command that its slot, its endpoint or its Input Context doesn't allow; the first cause is told. Whether one is found.
pub fn bad_command(case: &mut Case, address: u64, word: u32) -> bool {
    let Some(command) = command_at(case, address, word) else {
        return false;
    };
    let Some(slot) = command.slot() else {
        return false;
    };
    let told = note_states(case, command, slot)
        || note_place(case, command)
        || note_content(case, command);
    if !told {
        return false;
    }
    case.head(
        "a command that its slot, endpoint or Input Context does not allow",
        &[],
    );
    case.here("{}", &[Shown::Command(command)]);
    true
}

/// Notes that the slot, or the endpoint that the command names, is Disabled. Whether it is so.
fn note_states(case: &mut Case, command: Command, slot: u8) -> bool {
    if case.known.devices.slot_state(slot) == SlotState::Disabled {
        mark_reset(case);
        case.note(
            if case.known.controller.reset.is_some() {
                "slot {} is Disabled: no Enable Slot has completed with it since the reset, or Disable Slot since"
            } else {
                "slot {} is Disabled: no Enable Slot has completed with it, or Disable Slot since"
            },
            &[Shown::Small(slot)],
        );
        case.advise("name the Slot ID of Enable Slot's Command Completion Event");
        return true;
    }
    let Some((_, endpoint)) = command.endpoint() else {
        return false;
    };
    if endpoint == 0 {
        case.say("its Endpoint ID is 0, and a DCI is 1 to 31 (xHCI 6.4.3)");
        case.advise("write the DCI to bits 20:16 of word 3");
        return true;
    }
    if case.known.devices.endpoint_state(slot, endpoint) != EndpointState::Disabled {
        return false;
    }
    if !note_dropped(case, slot, endpoint) {
        note_endpoint(case, slot, endpoint);
    }
    let adding = if endpoint == 1 {
        "Address Device"
    } else {
        "Configure Endpoint"
    };
    case.help(
        "add the endpoint by {} first, and read its completion",
        &[Shown::Name(adding)],
    );
    true
}

/// Notes the state of an endpoint.
fn note_endpoint(case: &mut Case, slot: u8, endpoint: u8) {
    let state = case.known.devices.endpoint_state(slot, endpoint);
    case.note(
        "{} is {}",
        &[
            Shown::Endpoint(slot, endpoint),
            Shown::Name(endpoint_state_name(state)),
        ],
    );
}

/// Notes that the Input Context may not lie where it does. Whether it is so.
fn note_place(case: &mut Case, command: Command) -> bool {
    let Some(context) = command.input_context() else {
        return false;
    };
    let bytes = 33 * case.header.context_size.bytes();
    if let Some(why) = clash(case, context, bytes, Beside::Devices) {
        case.note(
            "the Input Context, {} bytes at {}, {}",
            &[
                Shown::Number(bytes),
                Shown::Address(context),
                Shown::NoArea(why),
            ],
        );
        case.advise("put the Input Context into memory of its own");
        return true;
    }
    note_soiled(case, "the Input Context", context, bytes)
}

/// Notes that the driver reads a word as its own that the controller may have written. Whether it is so.
fn note_soiled(case: &mut Case, what: &'static str, from: u64, bytes: u64) -> bool {
    let Some(SoiledWord { address, taken }) = soiled_word(case, from, bytes) else {
        return false;
    };
    mark_taken(case, taken);
    let (what, from_there) = (Shown::Name(what), Shown::Address(from));
    let line = Shown::Line(line_of(case.first, taken.row));
    match taken.by {
        Taker::Device(slot) => case.note(
            "{} at {} has words that were the Device Context of slot {}, from row {} on: the controller may have written them",
            &[what, from_there, Shown::Small(slot), line],
        ),
        Taker::EventRing(id) => case.note(
            "{} at {} has words that were ring {}, the Event Ring, up to row {}: the controller may have written them",
            &[what, from_there, Shown::Id(id), line],
        ),
    }
    let offset = Shown::Number(address.saturating_sub(from));
    case.note(
        "the word at {}, its byte {}, is the first that the driver has not written since",
        &[Shown::Address(address), offset],
    );
    let back = Shown::Name(given_back_by(case, taken));
    case.help("write every word of {} after {}, zeros too", &[what, back]);
    true
}

/// Notes what is wrong in the Input Context, or with the slot's Device Context. Whether something is.
fn note_content(case: &mut Case, command: Command) -> bool {
    match command {
        Command::AddressDevice {
            slot,
            input_context,
            ..
        } => {
            note_address_flags(case, input_context)
                || case.known.devices.device(slot).is_none()
                    && note_device(case, slot, input_context)
        }
        Command::ConfigureEndpoint {
            slot,
            deconfigure: false,
            input_context,
        } => {
            for endpoint in 2..32 {
                if note_added(case, slot, input_context, endpoint) {
                    return true;
                }
            }
            false
        }
        _ => false,
    }
}

/// Notes that Address Device doesn't add the contexts that it needs, or adds an endpoint without a type. Whether it is so.
fn note_address_flags(case: &mut Case, context: u64) -> bool {
    let address = context.saturating_add(4);
    let flags = case.known.word(address);
    if flags % 4 == 3 {
        return note_type(case, context, 1);
    }
    case.mark(
        last_write(case.before, address),
        "the Add Context flags are written here",
        &[],
    );
    case.note(
        "the Add Context flags at {} + 4 are {}: A0 and A1 must be 1 (xHCI 4.6.5)",
        &[Shown::Address(context), Shown::Word(flags)],
    );
    case.advise("write 00000003 there");
    true
}

/// Notes that an endpoint that is added has EP Type 0. Whether it is so.
fn note_type(case: &mut Case, context: u64, endpoint: u8) -> bool {
    let Some(added) = case.known.added(case.header, context, endpoint) else {
        return false;
    };
    if added.ep_type != 0 {
        return false;
    }
    case.note(
        "DCI {} is added with EP Type 0, which is no type (xHCI 6.2.3)",
        &[Shown::Small(endpoint)],
    );
    case.advise("write EP Type, bits 5:3 of word 1 of the Endpoint Context; 4 is Control");
    note_other_size(case, context, endpoint);
    true
}

/// Asks whether contexts have the other size, where an Endpoint Context makes sense that is read so: its EP Type is one, and a ring begins
/// where its TR Dequeue Pointer leads.
fn note_other_size(case: &mut Case, context: u64, endpoint: u8) {
    let size = case.header.context_size.bytes();
    let other = if size == 32 { 64 } else { 32 };
    let from = context.saturating_add((u64::from(endpoint) + 1).saturating_mul(other));
    let kind = case.known.word(from.saturating_add(4)) >> 3 & 7;
    let low = u64::from(case.known.word(from.saturating_add(8)) & !15);
    let pointer = low | u64::from(case.known.word(from.saturating_add(12))) << 32;
    if kind == 0 || !begins_ring(case, pointer) {
        return;
    }
    case.note(
        "read with contexts of {} bytes, DCI {} has EP Type {}, and a ring begins at its TR Dequeue Pointer, {}",
        &[
            Shown::Number(other),
            Shown::Small(endpoint),
            Shown::Number(u64::from(kind)),
            Shown::Address(pointer),
        ],
    );
    case.help(
        "does `ctx {}` in the trace's line 2 have to be `ctx {}`? It is that where CSZ, bit 2 of HCCPARAMS1, is {} (xHCI 5.3.6)",
        &[
            Shown::Hex(size),
            Shown::Hex(other),
            Shown::Small(u8::from(other == 64)),
        ],
    );
}

/// Whether a ring begins at an address.
fn begins_ring(case: &Case, address: u64) -> bool {
    let rings = case.header.rings.as_slice();
    rings.iter().any(|ring| ring.shape.address(0) == address)
}

/// Notes that Configure Endpoint adds an endpoint without a type, or one that is enabled and not dropped. Whether it is so.
fn note_added(case: &mut Case, slot: u8, context: u64, endpoint: u8) -> bool {
    if note_type(case, context, endpoint) {
        return true;
    }
    let state = case.known.devices.endpoint_state(slot, endpoint);
    let drops = case.known.word(context) >> (endpoint % 32) & 1 == 1;
    let adds = case.known.added(case.header, context, endpoint).is_some();
    if !adds || drops || state == EndpointState::Disabled {
        return false;
    }
    note_endpoint(case, slot, endpoint);
    let index = Shown::Small(endpoint);
    case.note(
        "A{} is 1 and D{} is 0 in the Input Context at {}: an endpoint that is enabled is added anew only where it is dropped too (xHCI 4.6.6)",
        &[index, index, Shown::Address(context)],
    );
    case.help("set D{} too, or clear A{}", &[index, index]);
    true
}

/// Notes that the slot's DCBAA entry or its Device Context may not lie where it does. Whether it is so.
fn note_device(case: &mut Case, slot: u8, context: u64) -> bool {
    if case.register(Register::Dcbaap).is_none() {
        mark_reset(case);
        case.say(
            "DCBAAP wasn't written, and Address Device takes the slot's Device Context from its array (xHCI 4.6.5)",
        );
        case.advise("write DCBAAP before the start (xHCI 4.2)");
        return true;
    }
    let entry = case.known.entry_of(slot);
    if let Some(why) = clash(case, entry, 8, Beside::Devices) {
        case.note(
            "DCBAA entry {} at {} {}",
            &[
                Shown::Small(slot),
                Shown::Address(entry),
                Shown::NoArea(why),
            ],
        );
        case.advise("put the DCBAA, to which DCBAAP points, into memory of its own");
        return true;
    }
    note_soiled(case, "the DCBAA entry", entry, 8) || note_named(case, slot, entry, context)
}

/// Notes that the Device Context that the DCBAA entry names may not lie where it does. Whether it is so.
fn note_named(case: &mut Case, slot: u8, entry: u64, context: u64) -> bool {
    let device = case.known.device_named(slot);
    let Some(fault) = device_fault(case, entry, device, context) else {
        return false;
    };
    case.mark(
        last_write(case.before, entry),
        "the slot's DCBAA entry is written here",
        &[],
    );
    case.note(
        "DCBAA entry {} at {}: Device Context at {}",
        &[
            Shown::Small(slot),
            Shown::Address(entry),
            Shown::Address(device),
        ],
    );
    match fault {
        DeviceFault::Clash(why) => case.note("the Device Context {}", &[Shown::NoArea(why)]),
        DeviceFault::Said(note) => case.say(note),
    }
    case.advise(
        "give each slot a Device Context of its own, on a 64-byte boundary, in memory that nothing else uses",
    );
    true
}

/// Why a Device Context may not lie where it does.
#[derive(Clone, Copy)]
enum DeviceFault {
    /// It touches what isn't its own.
    Clash(NoArea),
    /// In words.
    Said(&'static str),
}

/// Why a Device Context may not lie where it does, where it may not.
fn device_fault(case: &Case, entry: u64, device: u64, context: u64) -> Option<DeviceFault> {
    let size = case.header.context_size.bytes();
    let said = if device == 0 {
        "the entry names no Device Context: memory that wasn't written counts as 0 (xHCI 6.1)"
    } else if device % 64 != 0 {
        "a Device Context lies on a 64-byte boundary (xHCI 6.1)"
    } else if let Some(why) = clash(case, device, 32 * size, Beside::All) {
        return Some(DeviceFault::Clash(why));
    } else if meets(device, 32 * size, entry, 8) {
        "the Device Context touches its own DCBAA entry"
    } else if meets(device, 32 * size, context, 33 * size) {
        "the Device Context touches the Input Context of the command"
    } else {
        return None;
    };
    Some(DeviceFault::Said(said))
}

/// Whether two areas have a byte in common.
fn meets(a: u64, a_bytes: u64, b: u64, b_bytes: u64) -> bool {
    if a < b {
        b - a < a_bytes
    } else {
        a - b < b_bytes
    }
}
