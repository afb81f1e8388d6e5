//! Commands: the one that a write gives, and those that were given and whose completion wasn't read.
use crate::finding::{Case, Shown};
use crate::known::Known;
use crate::positions::is_handed_over;
use commands::{Command, EndpointState};
use std::alloc::{AllocError, Global};
use traces::{Header, Ring};
use trb::{Block, RingKind};

/// A command that was given and whose completion wasn't read, and the row that gave it.
#[derive(Clone, Copy)]
pub struct Unfinished {
    pub command: Command,
    pub row: Option<usize>,
}

/// The unfinished commands, in the order of their positions.
pub(crate) fn all_unfinished(
    alloc: Global,
    header: &Header,
    known: &Known,
) -> Result<Vec<Unfinished>, AllocError> {
    let mut found = Vec::new(alloc);
    let rings = header.rings.as_slice();
    let number = rings
        .iter()
        .position(|ring| ring.shape.kind() == RingKind::Cmd);
    let (Some(ring), Some(record)) = (
        rings.get(number.unwrap_or(usize::MAX)),
        known.rings.get(number.unwrap_or(usize::MAX)),
    ) else {
        return Ok(found);
    };
    for position in record.floor_number()..record.declared_count() as u64 {
        if is_handed_over(ring, record, position) {
            if let Some(command) = command_of(record.declared(position)) {
                let row = known.last_writer(ring.shape.address(position) | 12);
                found.push(Unfinished { command, row })?;
            }
        }
    }
    Ok(found)
}

/// Notes how many commands aren't finished, as only the profile asks of a controller that has halted, and points at the first.
pub fn note_unfinished(case: &mut Case) {
    if let Some(first) = case.unfinished.first() {
        case.mark_unfinished(*first);
    }
    let count = case.unfinished.len() as u64;
    case.note(
        "unfinished commands: {}; the Command Completion Event of none of them was read",
        &[Shown::Number(count)],
    );
    case.not_judged();
}

/// The first unfinished command that names an endpoint, or its slot alone.
pub fn unfinished_on(case: &Case, slot: u8, endpoint: u8) -> Option<Unfinished> {
    let mut all = case.unfinished.iter();
    all.find(|given| is_on(given.command, slot, endpoint))
        .copied()
}

/// The first unfinished command whose success may change an endpoint.
pub fn unfinished_touching(case: &Case, slot: u8, endpoint: u8) -> Option<Unfinished> {
    let mut all = case.unfinished.iter();
    all.find(|given| {
        given.command.slot() == Some(slot) && may_change(case, given.command, endpoint)
    }).copied()
}

/// Whether the success of a command may change an endpoint of its slot.
fn may_change(case: &Case, command: Command, endpoint: u8) -> bool {
    match command {
        Command::NoOp | Command::EnableSlot | Command::EvaluateContext { .. } => false,
        Command::DisableSlot { .. } => true,
        Command::AddressDevice { .. } => endpoint == 1,
        Command::ResetDevice { .. }
        | Command::ConfigureEndpoint {
            deconfigure: true,
            ..
        } => endpoint > 1,
        Command::ConfigureEndpoint { input_context, .. } => {
            case.known.drops(case.header, input_context, endpoint)
                || endpoint > 1
                    && case
                        .known
                        .added(case.header, input_context, endpoint)
                        .is_some()
        }
        Command::ResetEndpoint {
            endpoint: named,
            ..
        }
        | Command::StopEndpoint {
            endpoint: named,
            ..
        }
        | Command::SetTrDequeue {
            endpoint: named,
            ..
        } => named == endpoint,
    }
}

/// The first unfinished command by which a command of its slot may not be given now: first of those beside which no version lets it stand.
pub fn unfinished_beside(case: &Case, command: Command) -> Option<Unfinished> {
    let mut all = case.unfinished.iter();
    let excluding = all.find(|given| exclude(case, given.command, command));
    let mut all = case.unfinished.iter();
    excluding
        .or_else(|| all.find(|given| may_not_stand_beside(case, given.command, command)))
        .copied()
}

/// Whether the trace's version refuses the second command while the first is unfinished.
fn may_not_stand_beside(case: &Case, first: Command, second: Command) -> bool {
    let version = case.header.version;
    if version.has_runs() {
        return exclude(case, first, second);
    }
    first.slot() == second.slot() && !(version.is_lenient() && name_two_endpoints(first, second))
}

/// Whether both are about the slot as a whole, or about one endpoint of it.
pub fn exclude(case: &Case, first: Command, second: Command) -> bool {
    first.excludes(&case.known.memory, case.header.context_size, &second)
}

/// Whether a command names an endpoint, or its slot alone.
fn is_on(command: Command, slot: u8, endpoint: u8) -> bool {
    match command.endpoint() {
        None => command.slot() == Some(slot),
        Some(named) => named == (slot, endpoint),
    }
}

/// Whether each names an endpoint, and not the same one.
pub fn name_two_endpoints(first: Command, second: Command) -> bool {
    match (first.endpoint(), second.endpoint()) {
        (Some(first), Some(second)) => first != second,
        _ => false,
    }
}

/// The first unfinished command that gives an endpoint this ring.
pub fn unfinished_binding(case: &Case, ring: &Ring) -> Option<Unfinished> {
    let mut all = case.unfinished.iter();
    all.find(|given| binds_ring(case, given.command, ring))
        .copied()
}

/// Whether a command gives an endpoint this ring.
pub fn binds_ring(case: &Case, command: Command, ring: &Ring) -> bool {
    let (context, from, to) = match command {
        Command::AddressDevice {
            slot,
            input_context,
            ..
        } => {
            if case.known.devices.endpoint_state(slot, 1) != EndpointState::Disabled {
                return false;
            }
            (input_context, 1, 2)
        }
        Command::ConfigureEndpoint {
            deconfigure: false,
            input_context,
            ..
        } => (input_context, 2, 32),
        _ => return false,
    };
    (from..to).any(|endpoint| names_ring(case, context, endpoint, ring))
}

/// Whether an endpoint that an Input Context adds gets this ring.
fn names_ring(case: &Case, context: u64, endpoint: u8, ring: &Ring) -> bool {
    match case.known.added(case.header, context, endpoint) {
        Some(added) => has_block(ring, added.pointer),
        None => false,
    }
}

/// Whether a ring is a transfer ring that has the block at an address.
pub fn has_block(ring: &Ring, address: u64) -> bool {
    ring.shape.kind() == RingKind::Xfer && ring.shape.place_at(address).is_some()
}

/// The command that a block says.
fn command_of(block: Option<Block>) -> Option<Command> {
    match block {
        Some(block) => Command::read(&block).ok(),
        None => None,
    }
}

/// The TRB that memory has once the control word at an address is this one.
pub fn trb_at(case: &Case, address: u64, word: u32) -> Block {
    let base = address & !15;
    Block {
        w: [
            case.known.word(base),
            case.known.word(base | 4),
            case.known.word(base | 8),
            word,
        ],
    }
}

/// The command that a write of a control word gives.
pub fn command_at(case: &Case, address: u64, word: u32) -> Option<Command> {
    command_of(Some(trb_at(case, address, word)))
}
