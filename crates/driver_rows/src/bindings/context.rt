ghost use Rattle.std.specs.Prelude.{◌≡◌, ◌+◌, ◌%◌, ◌^◌, ◌<◌, ◌≤◌, ℕ, Bool, true};
ghost use Rattle.commands.specs.declared.command.Command.{Command as CommandValue};
ghost use Rattle.commands.specs.declared.command.Command.TheVariants.{AddressDevice, ConfigureEndpoint};
ghost use Rattle.commands.specs.States.{is_off};
ghost use Rattle.contexts.specs.Contexts.{has_flag, input_context_bytes};
ghost use Rattle.traces.specs.declared.header.Header.{Header as HeaderValue};
ghost use Rattle.ring_knowledge.specs.Known.{Known};
ghost use Rattle.trace_record.specs.DeviceSlots.Devices.{FollowsDevices};
ghost use Rattle.trace_record.specs.Premises.{FitsMemory};
ghost use Rattle.driver_rows.specs.RingBindings.Bindings.{bindings_from};
ghost use Rattle.driver_rows.specs.RingBindings.Contexts.{HasBound, HoldsContexts, dequeue_in};

use commands::{Command, EndpointState, is_off};
use contexts::{ContextSize, add_flags, dequeue_words, next_flag};
use guest_memory::WordMemory;
use trace_record::DeviceRecord;

/// Where a controller reads the next block of an endpoint's ring, and with which cycle state (xHCI 6.2.3).
#[derive(Clone, Copy)]
pub(crate) struct Dequeue {
    pub(crate) pointer: u64,
    pub(crate) cycle: bool,
}

/// The endpoints that a command binds, by a word that has a bit for each index, and the address of the input context that says where.
#[derive(Clone, Copy)]
pub(crate) struct Bound {
    pub(crate) flags: u32,
    pub(crate) context: u64,
}

/// No endpoints.
fn none_bound() -> Bound
    ensures { result ≡ record { flags = 0; context = 0 } }
{
    Bound {
        flags: 0,
        context: 0,
    }
}

/// Address Device binds the default control endpoint, if that was Disabled (xHCI 4.6.5).
fn bound_by_address(devices: &DeviceRecord, slot: u8, context: u64) -> Bound
    ensures { (h : HeaderValue) (k : Known) (bsr : Bool) → FollowsDevices k devices.now → FitsMemory h.context_size (AddressDevice slot bsr context) →
        HasBound h k (AddressDevice slot bsr context) result }
{
    if !is_off(devices.endpoint_state(slot, 1)) {
        return none_bound();
    }
    Bound { flags: 2, context }
}

/// Configure Endpoint binds each endpoint that it adds (xHCI 4.6.6).
fn bound_by_configure<M: WordMemory>(memory: &M, deconfigure: bool, context: u64) -> Bound
    ensures { (h : HeaderValue) (k : Known) (slot : ℕ) → ((a : ℕ) → k.memory a ≡ M.words memory.now a) → FitsMemory h.context_size (ConfigureEndpoint slot deconfigure context) →
        HasBound h k (ConfigureEndpoint slot deconfigure context) result }
{
    if deconfigure {
        return none_bound();
    }
    Bound {
        flags: add_flags(memory, context) / 4 * 4,
        context,
    }
}

/// The endpoints that a command binds.
pub(crate) fn bound_by<M: WordMemory>(
    devices: &DeviceRecord,
    memory: &M,
    command: &Command,
) -> Bound
    ensures { (h : HeaderValue) (k : Known) → HoldsContexts k devices.now (M.words memory.now) → FitsMemory h.context_size command.now → HasBound h k command.now result }
{
    match *command {
        Command::AddressDevice {
            slot,
            input_context,
            ..
        } => bound_by_address(devices, slot, input_context),
        Command::ConfigureEndpoint {
            deconfigure,
            input_context,
            ..
        } => bound_by_configure(memory, deconfigure, input_context),
        _ => none_bound(),
    }
}

/// The least index from `from` on of an endpoint that is bound; one above 31 where there is none.
pub(crate) fn next_bound(bound: Bound, from: u8) -> u8
    requires { from ≤ 32 }
    ensures behind { from ≤ result }
    ensures set { result < 32 → has_flag bound.flags result ≡ true }
    ensures rest { (h : HeaderValue) (k : Known) (c : CommandValue) → HasBound h k c bound → bindings_from h k c from ≡ bindings_from h k c result }
{
    next_flag(bound.flags, from)
}

/// What the input context at an address says of an endpoint's ring (xHCI 6.2.3).
pub(crate) fn dequeue_in<M: WordMemory>(
    memory: &M,
    size: ContextSize,
    address: u64,
    index: u8,
) -> Dequeue
    requires { index < 32 }
    ensures { address % 4 ≡ 0 → address + input_context_bytes size ≤ 2 ^ 64 → result ≡ dequeue_in size (M.words memory.now) address index }
{
    let words = dequeue_words(memory, size, address, index);
    Dequeue {
        pointer: words / 16 * 16,
        cycle: words % 2 == 1,
    }
}
