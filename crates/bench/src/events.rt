//! Events as a controller writes them (xHCI 6.4.2).
use trb::{Block, BlockKind};

/// Control word 3 of an event of a kind, with a slot and an endpoint (DCI) or 0.
fn control(kind: BlockKind, slot: u8, endpoint: u8, cycle: bool) -> u32 {
    u32::from(slot) << 24
        | u32::from(endpoint) << 16
        | u32::from(kind.number()) << 10
        | u32::from(cycle)
}

/// A Transfer Event that names the TRB at an address (6.4.2.1); `left` are the bytes that weren't transferred.
pub(crate) fn transfer_event(
    at: u64,
    code: u8,
    left: u32,
    slot: u8,
    endpoint: u8,
    cycle: bool,
) -> Block {
    Block {
        w: [
            (at % (1 << 32)) as u32,
            (at >> 32) as u32,
            u32::from(code) << 24 | left % (1 << 24),
            control(BlockKind::TransferEvent, slot, endpoint, cycle),
        ],
    }
}

/// Event Data (ED) in a Transfer Event's control word (6.4.2.1).
const ED: u32 = 4;

/// A Transfer Event that tells the value of an Event Data TRB, and how many bytes were moved since the one before (4.11.5.2).
pub(crate) fn data_event(
    value: u64,
    code: u8,
    bytes: u32,
    slot: u8,
    endpoint: u8,
    cycle: bool,
) -> Block {
    let mut event = transfer_event(value, code, bytes, slot, endpoint, cycle);
    event.w[3] |= ED;
    event
}

/// A Command Completion Event of the command at an address (6.4.2.2).
pub(crate) fn completion_event(at: u64, code: u8, slot: u8, cycle: bool) -> Block {
    Block {
        w: [
            (at % (1 << 32)) as u32,
            (at >> 32) as u32,
            u32::from(code) << 24,
            control(BlockKind::CommandCompletion, slot, 0, cycle),
        ],
    }
}

/// An event of the controller's own with a number in the top byte of word 0, a port's say (6.4.2.3 to 6.4.2.8).
pub(crate) fn other_event(kind: BlockKind, number: u8, cycle: bool) -> Block {
    Block {
        w: [
            u32::from(number) << 24,
            0,
            1 << 24,
            control(kind, 0, 0, cycle),
        ],
    }
}
