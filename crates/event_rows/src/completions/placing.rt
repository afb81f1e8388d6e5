//! An endpoint is placed on a ring (xHCI 4.6.5, 4.6.6, 4.6.10).
ghost use Rattle.std.specs.Prelude.{◌≡◌, ◌+◌, ◌<◌, ◌≤◌};
ghost use Rattle.commands.specs.declared.command.Command.{Command};
ghost use Rattle.commands.specs.declared.state.EndpointState.TheVariants.{Stopped};
ghost use Rattle.commands.specs.Changes.{Places, placed_by_context};
ghost use Rattle.traces.specs.AllowedHeaders.{IsHeader};
ghost use Rattle.world_state.specs.PlacingCommands.{places_from};
ghost use Rattle.ring_knowledge.specs.Completions.{changed_by, changed_by_all};
ghost use Rattle.ring_knowledge.specs.Known.{Known};
ghost use Rattle.trace_record.specs.RingFinder.Finding.{IsFinder};
ghost use Rattle.trace_record.specs.DeviceSlots.Devices.{FollowsDevices};
ghost use Rattle.safety.specs.Placings.{MayChange, MayChangeAll, MayPoint};
ghost use Rattle.event_rows.specs.CommandCompletions.OneRing.{ring_placed};
ghost use Rattle.event_rows.specs.CommandCompletions.Places.{FollowsPlaces, HasDone, KeepsRest};

use crate::completions::rings::move_ring;
use commands::EndpointState;
use contexts::InputContext;
use guest_memory::WordMemory;
use ring_knowledge::RingRecord;
use trace_record::{DeviceRecord, Finder, TraceRecord};
use traces::Header;

/// Where the ring of an endpoint is set: to a pointer, with a cycle state; and the endpoint's state from then on.
#[derive(Clone, Copy)]
pub(crate) struct Placing {
    pub(crate) slot: u8,
    pub(crate) index: u8,
    pub(crate) pointer: u64,
    pub(crate) cycle: bool,
    pub(crate) state: EndpointState,
}

impl Placing {
    /// The endpoint is Stopped from then on (xHCI 4.6.10).
    pub(crate) fn stopped(slot: u8, index: u8, pointer: u64, cycle: bool) -> Placing
        ensures { result ≡ record { slot = slot; index = index; pointer = pointer; cycle = cycle; state = Stopped } }
    {
        Placing {
            slot,
            index,
            pointer,
            cycle,
            state: EndpointState::Stopped,
        }
    }
}

/// An endpoint is placed: a Disabled one gets the ring that has the block at the pointer, any other keeps its own. The ring is
/// moved to the spot that the pointer and the cycle state name.
pub(crate) fn place(
    header: &Header,
    finder: &Finder,
    rings: &mut Vec<RingRecord>,
    devices: &mut DeviceRecord,
    placing: Placing,
)
    requires headed { IsHeader header.now }
    requires found { IsFinder header.now.rings finder.now }
    requires index { placing.index < 32 }
    ensures { (c : Command) (k : Known) → FollowsPlaces header.now k rings.old.items devices.old →
        MayPoint header.now k placing.slot placing.index placing.pointer placing.cycle →
        FollowsPlaces header.now (changed_by header.now c k (Places placing.slot placing.index placing.pointer placing.cycle placing.state)) rings.new.items devices.new }
{
    let having = finder.ring_having(header, placing.pointer);
    let ring = ring_placed(devices, placing, having);
    move_ring(header, finder, rings, ring, placing.pointer, placing.cycle);
    devices.place(placing.slot, placing.index, having, placing.state);
}

/// The ring that is moved: of a Disabled endpoint the one that has the block at the pointer, of any other its own.
fn ring_placed(devices: &DeviceRecord, placing: Placing, having: Option<u8>) -> Option<u8>
    ensures { (k : Known) → FollowsDevices k devices.now → result ≡ ring_placed k placing.slot placing.index having }
{
    match devices.endpoint_state(placing.slot, placing.index) {
        EndpointState::Disabled => having,
        _ => devices.ring_of(placing.slot, placing.index),
    }
}

/// The endpoints that an input context adds are placed, in order (xHCI 4.6.6).
pub(crate) fn add_endpoints<M: WordMemory>(
    header: &Header,
    finder: &Finder,
    t: &mut TraceRecord,
    input: &InputContext<'_, M>,
    slot: u8,
)
    requires headed { IsHeader header.now }
    requires found { IsFinder header.now.rings finder.now }
    ensures followed { (c : Command) (k : Known) → FollowsPlaces header.now k t.old.rings.items t.old.devices →
        MayChangeAll header.now c k (places_from input.now.size (M.words input.now.memory) slot input.now.address 2) →
        FollowsPlaces header.now (changed_by_all header.now c k (places_from input.now.size (M.words input.now.memory) slot input.now.address 2)) t.new.rings.items t.new.devices }
    ensures rest { KeepsRest t.old t.new }
{
    for index in 2..32 {
        add_endpoint(header, finder, t, input, slot, index);
    }
}

/// One endpoint is placed, if the input context adds it.
fn add_endpoint<M: WordMemory>(
    header: &Header,
    finder: &Finder,
    t: &mut TraceRecord,
    input: &InputContext<'_, M>,
    slot: u8,
    index: u8,
)
    requires headed { IsHeader header.now }
    requires found { IsFinder header.now.rings finder.now }
    requires first { 1 ≤ index }
    requires last { index < 32 }
    ensures followed { (c : Command) (k : Known) → FollowsPlaces header.now k t.old.rings.items t.old.devices →
        MayChangeAll header.now c k (places_from input.now.size (M.words input.now.memory) slot input.now.address index) →
        HasDone header.now c k
        (places_from input.now.size (M.words input.now.memory) slot input.now.address index)
        (places_from input.now.size (M.words input.now.memory) slot input.now.address (index + 1)) t.new.rings.items t.new.devices }
    ensures rest { KeepsRest t.old t.new }
{
    if input.adds(index) {
        place_by_context(header, finder, t, input, slot, index);
    }
}

/// An endpoint is Running, on the ring that its context names.
pub(crate) fn place_by_context<M: WordMemory>(
    header: &Header,
    finder: &Finder,
    t: &mut TraceRecord,
    input: &InputContext<'_, M>,
    slot: u8,
    index: u8,
)
    requires headed { IsHeader header.now }
    requires found { IsFinder header.now.rings finder.now }
    requires first { 1 ≤ index }
    requires last { index < 32 }
    ensures followed { (c : Command) (k : Known) → FollowsPlaces header.now k t.old.rings.items t.old.devices →
        MayChange header.now k (placed_by_context input.now.size (M.words input.now.memory) slot input.now.address index) →
        FollowsPlaces header.now (changed_by header.now c k (placed_by_context input.now.size (M.words input.now.memory) slot input.now.address index)) t.new.rings.items t.new.devices }
    ensures rest { KeepsRest t.old t.new }
{
    let context = input.endpoint(index);
    let placing = Placing {
        slot,
        index,
        pointer: context.pointer,
        cycle: context.dcs,
        state: EndpointState::Running,
    };
    place(header, finder, &mut t.rings, &mut t.devices, placing);
}
