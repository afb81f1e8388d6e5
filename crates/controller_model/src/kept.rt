ghost use Rattle.std.specs.Prelude.{◌≡◌, ◌*◌, ◌%◌, length};

use crate::declared::Declarations;
use crate::history::History;
use crate::stamps::Stamps;
use commands::{EndpointState, SlotState};
use trb::Block;

/// How far a run is.
#[derive(Clone, Copy, Debug)]
pub struct Progress {
    /// How many steps were made.
    pub(crate) steps: u64,
    pub(crate) started: bool,
    /// It runs but once, and was stopped or reset after the start.
    pub(crate) stopped: bool,
    /// R/S was cleared in a run, and the controller has halted since (xHCI 5.4.1.1, 5.4.2).
    pub(crate) halting: bool,
    pub(crate) halted: bool,
}

/// The registers that steps rest on; 0 where one wasn't written.
#[derive(Clone, Copy, Debug)]
pub struct Registers {
    pub(crate) dcbaap: u64,
    pub(crate) config: u64,
}

/// An endpoint by its slot and index (DCI).
#[derive(Clone, Copy, Debug, PartialEq, Eq)]
pub struct Holder {
    pub(crate) slot: u8,
    pub(crate) index: u8,
}

/// A command or transfer ring.
#[derive(Drop)]
pub struct RingState {
    pub(crate) declared: Declarations,
    pub(crate) history: History,
    /// The dequeue pointer, and the Consumer Cycle State (xHCI 4.9.2).
    pub(crate) pointer: u64,
    pub(crate) cycle: bool,
    /// The controller may look at the ring.
    pub(crate) is_active: bool,
    /// The endpoint that has the ring, of slots 1 to 255 and indices 1 to 31.
    pub(crate) holder: Option<Holder>,
    ghost aligned: { pointer % 16 ≡ 0 },
}

/// A device slot.
#[derive(Clone, Copy, Debug)]
pub struct Slot {
    pub(crate) state: SlotState,
    /// The controller may write the slot's device context.
    pub(crate) scribbles: bool,
}

/// An endpoint, and the ID of its ring.
#[derive(Clone, Copy, Debug)]
pub struct Endpoint {
    pub(crate) state: EndpointState,
    pub(crate) ring: Option<u8>,
    /// The input context that added it last says so (xHCI 6.2.3).
    pub(crate) is_isochronous: bool,
}

/// How many events were posted and read, and the event position that ERDP names.
#[derive(Clone, Copy, Debug)]
pub struct Events {
    pub(crate) posted: u64,
    pub(crate) reads: u64,
    pub(crate) dequeue: u64,
}

/// A command that was taken and isn't finished.
#[derive(Clone, Copy, Debug)]
pub struct Pending {
    /// Where it lies in the Command Ring.
    pub address: u64,
    pub block: Block,
    /// It is a Stop Endpoint whose Stopped event was posted.
    pub has_stopped: bool,
}

/// What a world keeps beside its memory.
#[derive(Drop)]
pub struct Kept {
    pub(crate) progress: Progress,
    pub(crate) registers: Registers,
    pub(crate) stamps: Stamps,
    /// By ring ID.
    pub(crate) rings: Vec<RingState>,
    /// By slot.
    pub(crate) slots: Vec<Slot>,
    /// By slot and endpoint index (DCI), 32 endpoints a slot.
    pub(crate) endpoints: Vec<Endpoint>,
    pub(crate) events: Events,
    pub(crate) under_way: Option<Pending>,
    /// A look was outside a ring's segments.
    pub(crate) looked_outside: bool,
    /// An event was posted while no event ring was there.
    pub(crate) posted_nowhere: bool,
    ghost rings_many: { length rings.items ≡ 256 },
    ghost slots_many: { length slots.items ≡ 256 },
    ghost endpoints_many: { length endpoints.items ≡ 256 * 32 },
}
