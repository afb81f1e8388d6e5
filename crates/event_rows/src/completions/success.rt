//! What the success of a command does to slots, endpoints and their rings (xHCI 4.5.3, 4.6, 4.8.3).
ghost use Rattle.std.specs.Prelude.{◌≡◌, ◌+◌, ◌<◌, ◌≤◌, ◌%◌, ◌^◌, [], ◌∷◌, true};
ghost use Rattle.contexts.specs.Contexts.{input_context_bytes};
ghost use Rattle.commands.specs.declared.command.Command.{Command as CommandValue};
ghost use Rattle.commands.specs.Changes.{DeviceLeft, Disables, SlotGoesOn, Stops, changes, is_above_control};
ghost use Rattle.traces.specs.declared.header.Header.{Header as HeaderValue};
ghost use Rattle.traces.specs.AllowedHeaders.{IsHeader};
ghost use Rattle.world_state.specs.PlacingCommands.{HasRoom, IsWell};
ghost use Rattle.ring_knowledge.specs.Completions.{changed_by, changed_by_all, succeeded};
ghost use Rattle.ring_knowledge.specs.Known.{Known};
ghost use Rattle.trace_record.specs.RingFinder.Finding.{IsFinder};
ghost use Rattle.trace_record.specs.DeviceSlots.Devices.{FollowsDevices};
ghost use Rattle.safety.specs.Placings.{MayChangeAll};
ghost use Rattle.event_rows.specs.CommandCompletions.Places.{FollowsPlaces, HasWords, KeepsRest, addressed, configured};

use crate::completions::placing::{Placing, add_endpoints, place, place_by_context};
use crate::completions::rings::hold_ring;
use crate::completions::types::note_types;
use commands::Command;
use contexts::InputContext;
use guest_memory::{Addr, WordMemory};
use ring_knowledge::RingRecord;
use trace_record::{DeviceRecord, Finder, Named, TraceRecord};
use traces::Header;

/// The slot that a command names, and its input context.
#[derive(Clone, Copy)]
pub(crate) struct NamedContext {
    pub(crate) slot: u8,
    pub(crate) context: u64,
}

/// Notes what the success of the command does, in order; `slot` is that of its completion.
pub(crate) fn succeed<M: WordMemory>(
    header: &Header,
    finder: &Finder,
    t: &mut TraceRecord,
    memory: &M,
    command: &Command,
    slot: u8,
)
    requires headed { IsHeader header.now }
    requires found { IsFinder header.now.rings finder.now }
    requires well { IsWell command.now }
    ensures followed { (k : Known) → FollowsPlaces header.now k t.old.rings.items t.old.devices → HasWords k (M.words memory.now) →
        MayChangeAll header.now command.now k (changes header.now.context_size k.memory slot command.now) → HasRoom header.now.context_size command.now →
        FollowsPlaces header.now (succeeded header.now k slot command.now) t.new.rings.items t.new.devices }
    ensures rest { KeepsRest t.old t.new }
{
    match *command {
        Command::NoOp => {}
        Command::EvaluateContext { .. } => {}
        Command::EnableSlot => t.devices.go_on(command, slot),
        Command::DisableSlot { slot } => disable_slot(&mut t.devices, command, slot),
        Command::ResetDevice { slot } => drop_endpoints(&mut t.devices, command, slot),
        Command::AddressDevice {
            slot,
            input_context: at,
            ..
        } => {
            let named = NamedContext { slot, context: at };
            address_device(header, finder, t, memory, command, named);
        }
        Command::ConfigureEndpoint {
            slot,
            deconfigure,
            input_context: at,
        } => {
            if deconfigure {
                drop_endpoints(&mut t.devices, command, slot);
            } else {
                let named = NamedContext { slot, context: at };
                configure(header, finder, t, memory, command, named);
            }
        }
        Command::ResetEndpoint { slot, endpoint } => t.devices.reset(slot, endpoint),
        Command::StopEndpoint { slot, endpoint } => stop(
            header,
            finder,
            &mut t.rings,
            &mut t.devices,
            slot,
            endpoint,
        ),
        Command::SetTrDequeue {
            slot,
            endpoint,
            dequeue,
            cycle,
        } => {
            let placing = Placing::stopped(slot, endpoint, dequeue, cycle);
            place(header, finder, &mut t.rings, &mut t.devices, placing);
        }
    }
}

/// Disable Slot: the slot, its device context and all its endpoints are let go (xHCI 4.6.4).
fn disable_slot(devices: &mut DeviceRecord, command: &Command, slot: u8)
    ensures { (h : HeaderValue) (k : Known) → FollowsDevices k devices.old →
        FollowsDevices (changed_by_all h command.now k (SlotGoesOn slot ∷ DeviceLeft slot ∷ Disables slot (λ i. true) ∷ [])) devices.new }
{
    devices.go_on(command, slot);
    devices.leave_device(slot);
    devices.disable(slot, Named::All);
}

/// Reset Device, and Configure Endpoint with DC: all endpoints but the default control endpoint are let go (xHCI 4.6.6, 4.6.11).
fn drop_endpoints(devices: &mut DeviceRecord, command: &Command, slot: u8)
    ensures { (h : HeaderValue) (k : Known) → FollowsDevices k devices.old →
        FollowsDevices (changed_by_all h command.now k (SlotGoesOn slot ∷ Disables slot is_above_control ∷ [])) devices.new }
{
    devices.go_on(command, slot);
    devices.disable(slot, Named::AboveControl);
}

/// Stop Endpoint: the endpoint is Stopped, and its ring held at its ceiling (xHCI 4.6.9).
fn stop(
    header: &Header,
    finder: &Finder,
    rings: &mut Vec<RingRecord>,
    devices: &mut DeviceRecord,
    slot: u8,
    endpoint: u8,
)
    requires headed { IsHeader header.now }
    requires found { IsFinder header.now.rings finder.now }
    requires index { endpoint < 32 }
    ensures { (c : CommandValue) (k : Known) → FollowsPlaces header.now k rings.old.items devices.old →
        FollowsPlaces header.now (changed_by header.now c k (Stops slot endpoint)) rings.new.items devices.new }
{
    let ring = devices.ring_of(slot, endpoint);
    hold_ring(header, finder, rings, ring);
    devices.stop(slot, endpoint);
}

/// Address Device: the default control endpoint is placed (xHCI 4.6.5).
fn address_device<M: WordMemory>(
    header: &Header,
    finder: &Finder,
    t: &mut TraceRecord,
    memory: &M,
    command: &Command,
    named: NamedContext,
)
    requires headed { IsHeader header.now }
    requires found { IsFinder header.now.rings finder.now }
    requires aligned { named.context % 16 ≡ 0 }
    ensures followed { (k : Known) → FollowsPlaces header.now k t.old.rings.items t.old.devices → named.context + input_context_bytes header.now.context_size ≤ 2 ^ 64 →
        MayChangeAll header.now command.now k (addressed header.now.context_size (M.words memory.now) named.slot named.context) →
        FollowsPlaces header.now (changed_by_all header.now command.now k (addressed header.now.context_size (M.words memory.now) named.slot named.context)) t.new.rings.items t.new.devices }
    ensures rest { KeepsRest t.old t.new }
{
    let Some(input) = InputContext::at(memory, named.context, header.context_size) else {
        return;
    };
    t.devices.go_on(command, named.slot);
    place_by_context(header, finder, t, &input, named.slot, 1);
}

/// Configure Endpoint: the endpoints that are added get their types, endpoints are dropped, and then those are placed (xHCI 4.6.6).
fn configure<M: WordMemory>(
    header: &Header,
    finder: &Finder,
    t: &mut TraceRecord,
    memory: &M,
    command: &Command,
    named: NamedContext,
)
    requires headed { IsHeader header.now }
    requires found { IsFinder header.now.rings finder.now }
    requires aligned { named.context % 16 ≡ 0 }
    ensures followed { (k : Known) → FollowsPlaces header.now k t.old.rings.items t.old.devices → named.context + input_context_bytes header.now.context_size ≤ 2 ^ 64 →
        MayChangeAll header.now command.now k (configured header.now.context_size (M.words memory.now) named.slot named.context) →
        FollowsPlaces header.now (changed_by_all header.now command.now k (configured header.now.context_size (M.words memory.now) named.slot named.context)) t.new.rings.items t.new.devices }
    ensures rest { KeepsRest t.old t.new }
{
    let Some(input) = InputContext::at(memory, named.context, header.context_size) else {
        return;
    };
    t.devices.go_on(command, named.slot);
    note_types(&mut t.devices, memory, header.context_size, named);
    t.devices.disable(
        named.slot,
        Named::Dropped(drop_flags(memory, named.context)),
    );
    add_endpoints(header, finder, t, &input, named.slot);
}

/// The Drop Context flags of an input context (xHCI 6.2.5.1).
fn drop_flags<M: WordMemory>(memory: &M, context: u64) -> u32
    requires aligned { context % 16 ≡ 0 }
    ensures { result ≡ M.words memory.now context }
{
    let at = Addr::new(context).unwrap();
    memory.word(at)
}
