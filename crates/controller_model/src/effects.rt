ghost use Rattle.std.specs.Prelude.{◌≡◌, ℕ, ◌+◌, ◌<◌, ◌%◌, ◌≤◌, ◌^◌, OnOk, Option, Some};
ghost use Rattle.commands.specs.declared.command.Command.{Command as CommandValue};
ghost use Rattle.commands.specs.declared.command.Command.TheVariants.{ConfigureEndpoint};
ghost use Rattle.commands.specs.declared.state.EndpointState.TheVariants.{Running, Stopped};
ghost use Rattle.commands.specs.Changes.{changes};
ghost use Rattle.contexts.specs.Contexts.{context_cycle, context_pointer, input_context_bytes};
ghost use Rattle.traces.specs.declared.header.Header.{Header as HeaderValue};
ghost use Rattle.traces.specs.Header.{ring_having};
ghost use Rattle.world_state.specs.World.{World};
ghost use Rattle.world_state.specs.Bindings.{changed_by_all, in_state, inactive, placed_on};
ghost use Rattle.controller_model.specs.Following.{Follows, GoesOn, KeepsRun, Lists};
ghost use Rattle.world_state.specs.PlacingCommands.{HasRoom, IsWell, places_from};

use crate::bindings::place;
use crate::disabling::{Named, disable};
use crate::endpoints::{endpoint_of, set_state};
use crate::inputs::{adds, context_of};
use crate::kept::Kept;
use crate::memory::block_at;
use crate::rings::deactivate;
use crate::slots::{go_on, leave_device};
use crate::types::type_added;
use commands::{Command, EndpointState};
use guest_memory::WordMemory;
use std::alloc::AllocError;
use traces::Header;

/// The endpoint is Stopped, and its ring inactive (xHCI 4.6.9).
fn stop(kept: &mut Kept, slot: u8, index: u8)
    requires { index < 32 }
    ensures change { (h : HeaderValue) (words : ℕ → ℕ) (w : World) → Follows h words kept.old w →
        Follows h words kept.new (inactive (in_state w slot index Stopped) (w.ring_of slot index)) }
    ensures rest { KeepsRun kept.old kept.new }
{
    set_state(kept, slot, index, EndpointState::Stopped);
    match endpoint_of(kept, slot, index).ring {
        None => {}
        Some(ring) => deactivate(kept, ring),
    }
}

/// The endpoint gets the ring that its context in the input context names (xHCI 4.6.5, 4.6.6).
fn place_by_context<M: WordMemory>(
    header: &Header,
    memory: &M,
    kept: &mut Kept,
    slot: u8,
    context: u64,
    index: u8,
) -> Result<(), AllocError>
    requires aligned { context % 16 ≡ 0 }
    requires end { context + input_context_bytes header.now.context_size ≤ 2 ^ 64 }
    requires first { 1 ≤ index }
    requires last { index < 32 }
    ensures change { OnOk result ((h : HeaderValue) (words : ℕ → ℕ) (w v : World) → Lists h header.now →
        placed_on w slot index (context_pointer header.now.context_size (M.words memory.now) context index)
        (context_cycle header.now.context_size (M.words memory.now) context index) Running
        (ring_having header.now (context_pointer header.now.context_size (M.words memory.now) context index)) ≡ Some v →
        Follows h words kept.old w → Follows h words kept.new v) }
    ensures rest { KeepsRun kept.old kept.new }
{
    let endpoint = context_of(memory, header.context_size, context, index);
    place(
        header,
        kept,
        slot,
        index,
        endpoint.pointer,
        endpoint.dcs,
        EndpointState::Running,
    )?;
    Ok(())
}

/// An endpoint gets its ring, where the input context adds it.
#[tactic(auto, using(world_state::proofs::AddedEndpoints::adds_later))]
fn place_added<M: WordMemory>(
    header: &Header,
    memory: &M,
    kept: &mut Kept,
    slot: u8,
    context: u64,
    index: u8,
) -> Result<(), AllocError>
    requires aligned { context % 16 ≡ 0 }
    requires end { context + input_context_bytes header.now.context_size ≤ 2 ^ 64 }
    requires first { 1 ≤ index }
    requires last { index < 32 }
    ensures change { OnOk result ((h : HeaderValue) (words : ℕ → ℕ) (c : CommandValue) (w final : World) → Lists h header.now →
        changed_by_all header.now c w (places_from header.now.context_size (M.words memory.now) slot context index) ≡ Some final →
        Follows h words kept.old w →
        GoesOn (Follows h words kept.new)
        (λ v. changed_by_all header.now c v (places_from header.now.context_size (M.words memory.now) slot context (index + 1)) ≡ Some final)) }
    ensures rest { KeepsRun kept.old kept.new }
{
    if !adds(memory, header.context_size, context, index) {
        return Ok(());
    }
    place_by_context(header, memory, kept, slot, context, index)?;
    Ok(())
}

/// The endpoints that the input context adds get their rings, in order.
fn place_all<M: WordMemory>(
    header: &Header,
    memory: &M,
    kept: &mut Kept,
    slot: u8,
    context: u64,
) -> Result<(), AllocError>
    requires aligned { context % 16 ≡ 0 }
    requires end { context + input_context_bytes header.now.context_size ≤ 2 ^ 64 }
    ensures change { OnOk result ((h : HeaderValue) (words : ℕ → ℕ) (c : CommandValue) (w final : World) → Lists h header.now →
        changed_by_all header.now c w (places_from header.now.context_size (M.words memory.now) slot context 2) ≡ Some final →
        Follows h words kept.old w → Follows h words kept.new final) }
    ensures rest { KeepsRun kept.old kept.new }
{
    for index in 2..32 {
        place_added(header, memory, kept, slot, context, index)?;
    }
    Ok(())
}

/// Configure Endpoint drops endpoints, and then adds some, whose types it sets before; with DC it drops all but the default
/// control endpoint (xHCI 4.6.6).
fn configure<M: WordMemory>(
    header: &Header,
    memory: &M,
    kept: &mut Kept,
    command: &Command,
    slot: u8,
    deconfigure: bool,
    context: u64,
) -> Result<(), AllocError>
    requires aligned { context % 16 ≡ 0 }
    requires end { HasRoom header.now.context_size (ConfigureEndpoint slot deconfigure context) }
    ensures change { OnOk result ((h : HeaderValue) (words : ℕ → ℕ) (n : ℕ) (w final : World) → Lists h header.now →
        changed_by_all header.now command.now w (changes header.now.context_size (M.words memory.now) n (ConfigureEndpoint slot deconfigure context)) ≡ Some final →
        Follows h words kept.old w → Follows h words kept.new final) }
    ensures rest { KeepsRun kept.old kept.new }
{
    go_on(kept, command, slot);
    if deconfigure {
        disable(kept, slot, Named::AboveControl);
        return Ok(());
    }
    type_added(memory, header.context_size, kept, slot, context);
    let flags = block_at(memory, context).w[0];
    disable(kept, slot, Named::Dropped(flags));
    place_all(header, memory, kept, slot, context)?;
    Ok(())
}

/// What the success of a command does, where it is possible (xHCI 4.6).
pub(crate) fn apply<M: WordMemory>(
    header: &Header,
    memory: &M,
    kept: &mut Kept,
    command: &Command,
    slot: u8,
) -> Result<(), AllocError>
    requires well { IsWell command.now }
    requires end { HasRoom header.now.context_size command.now }
    ensures change { OnOk result ((h : HeaderValue) (words : ℕ → ℕ) (w final : World) → Lists h header.now →
        changed_by_all header.now command.now w (changes header.now.context_size (M.words memory.now) slot command.now) ≡ Some final →
        Follows h words kept.old w → Follows h words kept.new final) }
    ensures rest { KeepsRun kept.old kept.new }
{
    match *command {
        Command::NoOp | Command::EvaluateContext { .. } => {}
        Command::EnableSlot => go_on(kept, command, slot),
        Command::DisableSlot { slot } => {
            go_on(kept, command, slot);
            leave_device(kept, slot);
            disable(kept, slot, Named::All);
        }
        Command::AddressDevice {
            slot,
            input_context,
            ..
        } => {
            go_on(kept, command, slot);
            place_by_context(header, memory, kept, slot, input_context, 1)?;
        }
        Command::ConfigureEndpoint {
            slot,
            deconfigure,
            input_context,
        } => configure(
            header,
            memory,
            kept,
            command,
            slot,
            deconfigure,
            input_context,
        )?,
        Command::ResetDevice { slot } => {
            go_on(kept, command, slot);
            disable(kept, slot, Named::AboveControl);
        }
        Command::ResetEndpoint { slot, endpoint } => {
            set_state(kept, slot, endpoint, EndpointState::Stopped)
        }
        Command::StopEndpoint { slot, endpoint } => stop(kept, slot, endpoint),
        Command::SetTrDequeue {
            slot,
            endpoint,
            dequeue,
            cycle,
        } => place(
            header,
            kept,
            slot,
            endpoint,
            dequeue,
            cycle,
            EndpointState::Stopped,
        )?,
    }
    Ok(())
}
