ghost use Rattle.std.specs.Prelude.{◌≡◌, ℕ, ◌+◌, ◌%◌, ◌≤◌, ◌^◌, nat_lt, true, is_some, Some};
ghost use Rattle.commands.specs.Changes.{changes};
ghost use Rattle.commands.specs.Command.{named_context, named_endpoint, named_slot};
ghost use Rattle.commands.specs.States.{can_succeed, endpoint_meant, endpoint_success, is_slot_enabled, slot_meant, slot_success};
ghost use Rattle.contexts.specs.Contexts.{context_pointer, input_context_bytes};
ghost use Rattle.traces.specs.declared.header.Header.{Header as HeaderValue};
ghost use Rattle.traces.specs.declared.register.Register.TheVariants.{Config};
ghost use Rattle.traces.specs.Header.{ring_having};
ghost use Rattle.traces.specs.Register.{register_or_zero};
ghost use Rattle.world_state.specs.World.{World};
ghost use Rattle.world_state.specs.Bindings.{changed_by_all};
ghost use Rattle.world_state.specs.Finishes.{passes_end, succeeded};
ghost use Rattle.controller_model.specs.Following.{Follows, may_get};
ghost use Rattle.world_state.specs.PlacingCommands.{HasRoom, IsWell};

use crate::bindings::can_place;
use crate::endpoints::endpoint_of;
use crate::inputs::context_of;
use crate::kept::Kept;
use crate::trials::can_configure;
use commands::{Command, EndpointState, State};
use contexts::ContextSize;
use guest_memory::WordMemory;
use traces::Header;

/// How many contexts an input context has: the input control context, the slot's and those of 31 endpoints (xHCI 6.2.5).
const INPUT_CONTEXTS: u64 = 33;

/// Whether an input context at this address ends above 2^64.
fn is_past_end(size: ContextSize, context: u64) -> bool
    ensures { result ≡ nat_lt (2 ^ 64) (context + input_context_bytes size) }
{
    context > u64::MAX - INPUT_CONTEXTS * size.bytes() + 1
}

/// Whether the input context that a command reads ends above 2^64.
#[tactic(auto, unfolding(world_state::specs::Finishes::passes_end))]
fn passes_end(header: &Header, command: &Command) -> bool
    ensures { result ≡ passes_end header.now (named_context command.now) }
{
    match command.input_context() {
        None => false,
        Some(context) => is_past_end(header.context_size, context),
    }
}

/// The slot whose state success depends on: that of the completion where the command names none.
fn slot_meant(command: &Command, slot: u8) -> u8
    ensures { result ≡ slot_meant slot (named_slot command.now) }
{
    match command.slot() {
        None => slot,
        Some(named) => named,
    }
}

/// Whether the command can succeed from the state of the slot that it means (xHCI 4.5.3).
fn slot_allows(kept: &Kept, command: &Command, slot: u8) -> bool
    ensures { (h : HeaderValue) (words : ℕ → ℕ) (w : World) → Follows h words kept.now w →
        result ≡ is_some (slot_success command.now (w.slot_state (slot_meant slot (named_slot command.now)))) }
{
    let meant = slot_meant(command, slot);
    let state = kept.slots[usize::from(meant)].state;
    state.after(command, 1).is_some()
}

/// The state of the endpoint that the command names.
fn endpoint_meant(kept: &Kept, command: &Command) -> EndpointState
    requires { IsWell command.now }
    ensures { (h : HeaderValue) (words : ℕ → ℕ) (w : World) → Follows h words kept.now w →
        result ≡ endpoint_meant w.endpoint_state (named_endpoint command.now) }
{
    match command.endpoint() {
        None => EndpointState::Disabled,
        Some((slot, index)) => endpoint_of(kept, slot, index).state,
    }
}

/// Whether the command can succeed from the state of the endpoint that it names (xHCI 4.8.3).
fn endpoint_allows(kept: &Kept, command: &Command) -> bool
    requires { IsWell command.now }
    ensures { (h : HeaderValue) (words : ℕ → ℕ) (w : World) → Follows h words kept.now w →
        result ≡ is_some (endpoint_success command.now (endpoint_meant w.endpoint_state (named_endpoint command.now))) }
{
    endpoint_meant(kept, command).after(command, 1).is_some()
}

/// Enable Slot answers a slot from 1 to MaxSlotsEn (CONFIG bits 7:0, xHCI 5.4.7).
fn is_slot_enabled(config: u64, command: &Command, slot: u8) -> bool
    ensures { result ≡ is_slot_enabled config slot command.now }
{
    match *command {
        Command::EnableSlot => slot > 0 && u64::from(slot) <= config % 256,
        _ => true,
    }
}

/// Whether the command can succeed from these states, with this slot in its completion.
#[tactic(auto, unfolding(commands::specs::States::can_succeed))]
fn can_succeed(kept: &Kept, command: &Command, slot: u8) -> bool
    requires { IsWell command.now }
    ensures { (h : HeaderValue) (words : ℕ → ℕ) (w : World) → Follows h words kept.now w →
        result ≡ can_succeed w.slot_state w.endpoint_state (register_or_zero w.register Config) slot command.now }
{
    let slot_allows = slot_allows(kept, command, slot);
    let endpoint_allows = endpoint_allows(kept, command);
    let is_slot_enabled = is_slot_enabled(kept.registers.config, command, slot);
    slot_allows & endpoint_allows & is_slot_enabled
}

/// Whether the default control endpoint can get the ring that its context in the input context names (xHCI 4.6.5).
fn can_address<M: WordMemory>(
    header: &Header,
    memory: &M,
    kept: &Kept,
    slot: u8,
    context: u64,
) -> bool
    requires aligned { context % 16 ≡ 0 }
    requires end { context + input_context_bytes header.now.context_size ≤ 2 ^ 64 }
    ensures { (h : HeaderValue) (words : ℕ → ℕ) (w : World) → Follows h words kept.now w →
        result ≡ may_get w slot 1 (ring_having header.now (context_pointer header.now.context_size (M.words memory.now) context 1)) }
{
    let pointer = context_of(memory, header.context_size, context, 1).pointer;
    can_place(header, kept, slot, 1, pointer)
}

/// Whether the endpoints that a command gives rings can get them (xHCI 4.6.5, 4.6.6, 4.6.10).
#[tactic(auto, using(crate::proofs::SuccessLemmas::can_always))]
fn can_apply<M: WordMemory>(header: &Header, memory: &M, kept: &Kept, command: &Command) -> bool
    requires well { IsWell command.now }
    requires end { HasRoom header.now.context_size command.now }
    ensures { (h : HeaderValue) (words : ℕ → ℕ) (n : ℕ) (w : World) → Follows h words kept.now w →
        result ≡ is_some (changed_by_all header.now command.now w (changes header.now.context_size (M.words memory.now) n command.now)) }
{
    match *command {
        Command::AddressDevice {
            slot,
            input_context,
            ..
        } => can_address(header, memory, kept, slot, input_context),
        Command::ConfigureEndpoint {
            slot,
            deconfigure,
            input_context,
        } => can_configure(header, memory, kept, slot, deconfigure, input_context),
        Command::SetTrDequeue {
            slot,
            endpoint,
            dequeue,
            ..
        } => can_place(header, kept, slot, endpoint, dequeue),
        _ => true,
    }
}

/// Whether a command can succeed, with this slot in its completion (xHCI 4.6).
pub(crate) fn succeeds<M: WordMemory>(
    header: &Header,
    memory: &M,
    kept: &Kept,
    command: &Command,
    slot: u8,
) -> bool
    requires { IsWell command.now }
    ensures value { (h : HeaderValue) (w : World) → Follows h (M.words memory.now) kept.now w →
        result ≡ is_some (succeeded header.now w slot (Some command.now)) }
    ensures room { result ≡ true → HasRoom header.now.context_size command.now }
{
    if passes_end(header, command) {
        return false;
    }
    if !can_succeed(kept, command, slot) {
        return false;
    }
    can_apply(header, memory, kept, command)
}
