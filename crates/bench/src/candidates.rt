//! Steps that a controller may make, as it shows itself (xHCI 4.6, 4.9, 4.10).
use crate::drawn::Dice;
use crate::events::{completion_event, data_event, other_event, transfer_event};
use commands::{Command, EndpointState};
use controller_model::Controller;
use guest_memory::{Addr, WordMemory};
use std::collections::VecDeque;
use traces::Step;
use trb::{Block, BlockKind};
use world_state::Take;

/// Events of the controller's own that a driver may meet.
const OTHERS: [BlockKind; 4] = [
    BlockKind::PortStatusChange,
    BlockKind::HostController,
    BlockKind::DeviceNotification,
    BlockKind::MfindexWrap,
];

/// A look at a ring, where the controller may look there.
pub(crate) fn looked<M: WordMemory + Drop>(controller: &Controller<M>, ring: u8) -> Option<Step> {
    if controller.is_active(ring) {
        Some(Step::Look { ring })
    } else {
        None
    }
}

/// Interrupt On Completion, in a TRB's control word (6.4.1.1).
pub(crate) const IOC: u32 = 0x20;

/// Interrupt On Short Packet.
pub(crate) const ISP: u32 = 4;

/// The direction of a Data Stage TRB: IN (6.4.1.2.2).
const IN: u32 = 0x10000;

/// How many bytes a TRB at an address moves at most: a Normal, a Data Stage or an Isoch TRB; 0 of another.
fn bytes_of<M: WordMemory>(memory: &M, at: u64) -> u32 {
    let (Some(status), Some(control)) = (Addr::new(at | 8), Addr::new(at | 12)) else {
        return 0;
    };
    match (memory.word(control) >> 10) % 64 {
        1 | 3 | 5 => memory.word(status) % (1 << 17),
        _ => 0,
    }
}

/// How many bytes a TRB at an address brings in at most: a Normal TRB, or a Data Stage TRB from the device; 0 of another.
pub(crate) fn bytes_in<M: WordMemory>(memory: &M, at: u64) -> u32 {
    let Some(control) = Addr::new(at | 12) else {
        return 0;
    };
    let word = memory.word(control);
    let is_in = match (word >> 10) % 64 {
        1 => true,
        3 => word & IN != 0,
        _ => false,
    };
    if is_in { bytes_of(memory, at) } else { 0 }
}

/// How many bytes were moved since the Event Data TRB before a take, of the takes that no event has told of (xHCI 4.11.5.2).
fn bytes_before<M: WordMemory>(memory: &M, takes: &VecDeque<Take>, place: usize) -> u32 {
    takes
        .iter()
        .take(place)
        .fold(0, |bytes: u32, take| match take.value {
            Some(_) => 0,
            None => bytes.saturating_add(bytes_of(memory, take.address)),
        })
}

/// What is told of one of a ring's takes, with a code: by the value of an Event Data TRB, else by the address (xHCI 4.11.5.2).
pub(crate) fn told<M: WordMemory + Drop>(
    controller: &Controller<M>,
    ring: u8,
    place: usize,
    code: u8,
) -> Option<Block> {
    let (slot, endpoint) = controller.holder(ring)?;
    let takes = controller.unreported(ring);
    let take = takes.get(place)?;
    let cycle = controller.event_cycle();
    match take.value {
        Some(value) if controller.live().version.has_data() => {
            let bytes = bytes_before(controller.memory(), takes, place);
            Some(data_event(value, code, bytes, slot, endpoint, cycle))
        }
        _ => Some(transfer_event(take.address, code, 0, slot, endpoint, cycle)),
    }
}

/// Which of these TRBs is the oldest that has one of these flags.
pub(crate) fn oldest_with<M: WordMemory>(
    memory: &M,
    takes: &VecDeque<Take>,
    flags: u32,
) -> Option<usize> {
    takes
        .iter()
        .position(|take| has_flag(memory, take.address, flags))
}

fn has_flag<M: WordMemory>(memory: &M, at: u64, flags: u32) -> bool {
    match Addr::new(at | 12) {
        Some(word) => memory.word(word) & flags != 0,
        None => false,
    }
}

/// No TRB before the last that was taken asks for an event.
pub(crate) fn is_alone(asked: Option<usize>, takes: usize) -> bool {
    match asked {
        None => true,
        Some(asked) => asked.saturating_add(1) == takes,
    }
}

/// The Stopped event of an endpoint of which a Stop Endpoint is under way: at the TRB that was taken last, or where the ring goes on
/// (4.6.9).
pub(crate) fn stopped<M: WordMemory + Drop>(
    controller: &Controller<M>,
    ring: u8,
    slot: u8,
    endpoint: u8,
) -> Option<Step> {
    let pending = controller.under_way()?;
    let is_stop = match Command::read(&pending.block) {
        Ok(
            Command::StopEndpoint {
                slot: stopped,
                endpoint: index,
            },
        ) => stopped == slot && index == endpoint,
        _ => false,
    };
    if !is_stop || pending.has_stopped {
        return None;
    }
    let (at, code) = match controller.unreported(ring).back() {
        Some(last) => (last.address, 26),
        None => (controller.pointer(ring), 27),
    };
    let cycle = controller.event_cycle();
    Some(Step::Report {
        event: transfer_event(at, code, 0, slot, endpoint, cycle),
    })
}

/// The Stopped event of a ring's endpoint that runs, where a Stop Endpoint of it is under way.
pub(crate) fn stopped_at<M: WordMemory + Drop>(
    controller: &Controller<M>,
    ring: u8,
) -> Option<Step> {
    let (slot, endpoint) = controller.holder(ring)?;
    let state = controller.endpoint_state(slot, endpoint);
    if state != EndpointState::Running || !controller.is_active(ring) {
        return None;
    }
    stopped(controller, ring, slot, endpoint)
}

/// The completion of the command at an address; `free` is the slot that an Enable Slot gives.
pub(crate) fn finished<M: WordMemory + Drop>(
    controller: &Controller<M>,
    dice: &mut Dice,
    at: u64,
    command: Option<Command>,
    free: u8,
    fails: bool,
) -> Step {
    let slot = match command {
        Some(Command::EnableSlot) if fails => 0,
        Some(Command::EnableSlot) => free,
        Some(command) => command.slot().unwrap_or(0),
        None => 0,
    };
    let code = if fails { failure(dice, command) } else { 1 };
    Step::Finish {
        event: completion_event(at, code, slot, controller.event_cycle()),
    }
}

/// A completion code with which a command may fail (4.6, 6.4.5).
fn failure(dice: &mut Dice, command: Option<Command>) -> u8 {
    match command {
        Some(Command::EnableSlot) => 9,
        Some(Command::AddressDevice { .. }) => dice.one_of(&[4, 17, 22]),
        Some(Command::ConfigureEndpoint { .. }) => dice.one_of(&[7, 8, 17, 35]),
        Some(Command::DisableSlot { .. }) => 11,
        Some(_) => 19,
        None => 5,
    }
}

/// An event of the controller's own, or a word of a device context.
pub(crate) fn oddity<M: WordMemory + Drop>(
    controller: &Controller<M>,
    dice: &mut Dice,
) -> Option<Step> {
    if dice.below(2) == 0 {
        return scribbled(controller, dice);
    }
    if !controller.has_event_room() {
        return None;
    }
    let kind = OTHERS[dice.below(4) as usize];
    let port = 1 + dice.below(4) as u8;
    Some(Step::Other {
        event: other_event(kind, port, controller.event_cycle()),
    })
}

/// A word of the device context of one of the first slots.
fn scribbled<M: WordMemory + Drop>(controller: &Controller<M>, dice: &mut Dice) -> Option<Step> {
    let slot = 1 + dice.below(8) as u8;
    let base = controller.device_context(slot)?;
    let offset = 4 * u64::from(dice.below(8 * controller.live().context_size.bytes() as u32));
    let at = Addr::new(base.checked_add(offset)?)?;
    let word = dice.word();
    Some(Step::Scribble { at, word })
}
