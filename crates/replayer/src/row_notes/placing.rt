//! The rings that the success of a command binds or moves (xHCI 4.6.5, 4.6.6, 4.6.10).
ghost use Rattle.std.specs.Prelude.{◌≡◌, ◌+◌, ◌<◌, ◌≤◌, ◌%◌, ◌^◌, ◌++◌, ℕ, Bool, OnOk};
ghost use Rattle.contexts.specs.Contexts.{input_context_bytes};
ghost use Rattle.commands.specs.declared.state.EndpointState.{EndpointState as StateValue};
ghost use Rattle.commands.specs.Changes.{Places, changes, placed_by_context};
ghost use Rattle.traces.specs.AllowedHeaders.{IsHeader};
ghost use Rattle.world_state.specs.PlacingCommands.{HasRoom, IsWell};
ghost use Rattle.ring_knowledge.specs.Known.{Known};
ghost use Rattle.trace_record.specs.RingFinder.Finding.{IsFinder};
ghost use Rattle.trace_record.specs.DeviceSlots.Devices.{FollowsDevices};
ghost use Rattle.safety.specs.Placings.{StillHolds};
ghost use Rattle.safety.specs.RingsKeep.{RingsKeep};
ghost use Rattle.safety.specs.LazyRuns.Needs.{ring_placed};
ghost use Rattle.replayer.specs.LazySteps.Notes.{listed, placed_by_all};
ghost use Rattle.event_rows.specs.CommandCompletions.Places.{HasWords};
ghost use Rattle.replayer.specs.RowNotes.Added.{rings_added};

use commands::{Command, EndpointState};
use contexts::InputContext;
use guest_memory::WordMemory;
use std::alloc::AllocError;
use trace_record::{DeviceRecord, Finder};
use traces::Header;

/// Adds the IDs of the rings that the command's success binds or moves, in order.
pub(crate) fn add_placed<M: WordMemory>(
    header: &Header,
    finder: &Finder,
    devices: &DeviceRecord,
    memory: &M,
    command: Command,
    rings: &mut Vec<u8>,
) -> Result<(), AllocError>
    requires headed { IsHeader header.now }
    requires found { IsFinder header.now.rings finder.now }
    requires well { IsWell command }
    ensures { OnOk result ((k : Known) (n : ℕ) → FollowsDevices k devices.now → HasWords k (M.words memory.now) → StillHolds header.now k command →
        HasRoom header.now.context_size command → RingsKeep header.now k →
        rings.new.items ≡ rings.old.items ++ placed_by_all header.now command k (changes header.now.context_size k.memory n command)) }
{
    match command {
        Command::AddressDevice {
            slot,
            input_context: at,
            ..
        } => add_addressed(header, finder, devices, memory, slot, at, rings),
        Command::ConfigureEndpoint {
            deconfigure,
            input_context: at,
            ..
        } => {
            if deconfigure {
                Ok(())
            } else {
                add_configured(header, finder, memory, at, rings)
            }
        }
        Command::SetTrDequeue {
            slot,
            endpoint,
            dequeue,
            ..
        } => {
            let ring = ring_placed(header, finder, devices, slot, endpoint, dequeue);
            add_ring(ring, rings)
        }
        _ => Ok(()),
    }
}

/// Adds the ring of the default control endpoint, which Address Device places (xHCI 4.6.5).
fn add_addressed<M: WordMemory>(
    header: &Header,
    finder: &Finder,
    devices: &DeviceRecord,
    memory: &M,
    slot: u8,
    context: u64,
    rings: &mut Vec<u8>,
) -> Result<(), AllocError>
    requires headed { IsHeader header.now }
    requires found { IsFinder header.now.rings finder.now }
    requires aligned { context % 16 ≡ 0 }
    ensures { OnOk result ((k : Known) → FollowsDevices k devices.now → context + input_context_bytes header.now.context_size ≤ 2 ^ 64 →
        rings.new.items ≡ rings.old.items ++ listed (ring_placed header.now k (placed_by_context header.now.context_size (M.words memory.now) slot context 1))) }
{
    let Some(input) = InputContext::at(memory, context, header.context_size) else {
        return Ok(());
    };
    let endpoint = input.endpoint(1);
    let ring = ring_placed(header, finder, devices, slot, 1, endpoint.pointer);
    add_ring(ring, rings)
}

/// Adds the rings that the endpoints get which Configure Endpoint adds: each of them is Disabled then (xHCI 4.6.6).
fn add_configured<M: WordMemory>(
    header: &Header,
    finder: &Finder,
    memory: &M,
    context: u64,
    rings: &mut Vec<u8>,
) -> Result<(), AllocError>
    requires headed { IsHeader header.now }
    requires found { IsFinder header.now.rings finder.now }
    requires aligned { context % 16 ≡ 0 }
    ensures { OnOk result (context + input_context_bytes header.now.context_size ≤ 2 ^ 64 →
        rings.new.items ≡ rings.old.items ++ rings_added header.now (M.words memory.now) context 2) }
{
    let Some(input) = InputContext::at(memory, context, header.context_size) else {
        return Ok(());
    };
    for index in 2..32 {
        add_endpoint(header, finder, &input, index, rings)?;
    }
    Ok(())
}

/// Adds the ring of one endpoint, if the input context adds that.
fn add_endpoint<M: WordMemory>(
    header: &Header,
    finder: &Finder,
    input: &InputContext<'_, M>,
    index: u8,
    rings: &mut Vec<u8>,
) -> Result<(), AllocError>
    requires headed { IsHeader header.now }
    requires found { IsFinder header.now.rings finder.now }
    requires first { 1 ≤ index }
    requires last { index < 32 }
    requires sized { input.now.size ≡ header.now.context_size }
    ensures { OnOk result (rings.new.items ++ rings_added header.now (M.words input.now.memory) input.now.address (index + 1) ≡
        rings.old.items ++ rings_added header.now (M.words input.now.memory) input.now.address index) }
{
    if !input.adds(index) {
        return Ok(());
    }
    let endpoint = input.endpoint(index);
    let ring = finder.ring_having(header, endpoint.pointer);
    add_ring(ring, rings)
}

/// Adds a ring, if there is one.
fn add_ring(ring: Option<u8>, rings: &mut Vec<u8>) -> Result<(), AllocError>
    ensures { OnOk result (rings.new.items ≡ rings.old.items ++ listed ring) }
{
    match ring {
        Some(id) => {
            rings.push(id)?;
            Ok(())
        }
        None => Ok(()),
    }
}

/// The ring of an endpoint that is placed at a pointer: a Disabled one gets the ring that has the block there, any other has its own moved.
fn ring_placed(
    header: &Header,
    finder: &Finder,
    devices: &DeviceRecord,
    slot: u8,
    index: u8,
    pointer: u64,
) -> Option<u8>
    requires headed { IsHeader header.now }
    requires found { IsFinder header.now.rings finder.now }
    ensures { (k : Known) (cycle : Bool) (state : StateValue) → FollowsDevices k devices.now →
        result ≡ ring_placed header.now k (Places slot index pointer cycle state) }
{
    match devices.endpoint_state(slot, index) {
        EndpointState::Disabled => finder.ring_having(header, pointer),
        _ => devices.ring_of(slot, index),
    }
}
