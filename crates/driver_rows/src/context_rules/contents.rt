ghost use Rattle.std.specs.Prelude.{◌≡◌, ◌+◌, ◌%◌, ◌^◌, ◌<◌, ◌≤◌, ◌==◌, ◌&&◌, ◌||◌, not};
ghost use Rattle.contexts.specs.Contexts.{has_flag, input_context_bytes};
ghost use Rattle.commands.specs.States.{is_off};
ghost use Rattle.traces.specs.AllowedHeaders.{IsHeader};
ghost use Rattle.ring_knowledge.specs.Known.{Known};
ghost use Rattle.trace_record.specs.DeviceSlots.Devices.{FollowsDevices};
ghost use Rattle.trace_record.specs.RingFinder.Finding.{IsFinder};
ghost use Rattle.trace_record.specs.FollowsTrace.{FollowsTrace};
ghost use Rattle.trace_record.specs.Premises.{FitsMemory};
ghost use Rattle.driver_rows.specs.ContextRules.Contents.{adds_bad, has_bad_content_by, is_bad_added_in, lacks_control};

use crate::context_rules::devices::takes_bad_device;
use commands::{Command, EndpointState, is_off};
use contexts::{ContextSize, add_flags, drop_flags, endpoint_type, next_flag};
use guest_memory::WordMemory;
use trace_record::{DeviceRecord, Finder, TraceRecord};
use traces::Header;

/// Whether what the command's input context says breaks a rule (xHCI 4.6.5, 4.6.6).
pub(crate) fn has_bad_content<M: WordMemory>(
    header: &Header,
    finder: &Finder,
    t: &TraceRecord,
    memory: &M,
    command: &Command,
) -> bool
    requires headed { IsHeader header.now }
    requires found { IsFinder header.now.rings finder.now }
    requires fits { FitsMemory header.now.context_size command.now }
    ensures { (k : Known) → FollowsTrace header.now k t.now (M.words memory.now) → result ≡ has_bad_content_by header.now k (M.words memory.now) command.now }
{
    let size = header.context_size;
    match *command {
        Command::AddressDevice {
            slot,
            input_context,
            ..
        } => {
            lacks_control(memory, size, input_context)
                || takes_bad_device(header, finder, t, memory, slot, input_context)
        }
        Command::ConfigureEndpoint {
            slot,
            deconfigure,
            input_context,
        } => !deconfigure && adds_bad(&t.devices, memory, size, slot, input_context),
        _ => false,
    }
}

/// Whether bit `index` of a word is 1.
fn has_flag(word: u32, index: u8) -> bool
    requires { index < 32 }
    ensures { result ≡ has_flag word index }
{
    (word >> index) % 2 == 1
}

/// Whether the slot context or the default control endpoint's isn't added, or the endpoint has no type.
fn lacks_control<M: WordMemory>(memory: &M, size: ContextSize, address: u64) -> bool
    requires aligned { address % 4 ≡ 0 }
    requires inside { address + input_context_bytes size ≤ 2 ^ 64 }
    ensures { result ≡ lacks_control (M.words memory.now) size address }
{
    let flags = add_flags(memory, address);
    let ep_type = endpoint_type(memory, size, address, 1);
    lacks(flags, ep_type)
}

/// The same by the Add Context flags and the endpoint's type.
fn lacks(flags: u32, ep_type: u8) -> bool
    ensures { result ≡ (not (has_flag flags 0 && has_flag flags 1) || ep_type == 0) }
{
    !(has_flag(flags, 0) && has_flag(flags, 1)) || ep_type == 0
}

/// Whether one of the endpoints that are added may not be.
fn adds_bad<M: WordMemory>(
    devices: &DeviceRecord,
    memory: &M,
    size: ContextSize,
    slot: u8,
    address: u64,
) -> bool
    requires aligned { address % 4 ≡ 0 }
    requires inside { address + input_context_bytes size ≤ 2 ^ 64 }
    ensures { (k : Known) → FollowsDevices k devices.now → result ≡ adds_bad k.endpoint_state (M.words memory.now) size slot address }
{
    let flags = add_flags(memory, address);
    let mut index = next_flag(flags, 2);
    while index < 32 {
        if is_bad_added(devices, memory, size, slot, address, index) {
            return true;
        }
        index = next_flag(flags, index + 1);
    }
    false
}

/// Whether an endpoint that is added has no type, or is enabled and not dropped.
fn is_bad_added<M: WordMemory>(
    devices: &DeviceRecord,
    memory: &M,
    size: ContextSize,
    slot: u8,
    address: u64,
    index: u8,
) -> bool
    requires aligned { address % 4 ≡ 0 }
    requires inside { address + input_context_bytes size ≤ 2 ^ 64 }
    requires last { index < 32 }
    ensures { (k : Known) → FollowsDevices k devices.now →
        result ≡ is_bad_added_in k.endpoint_state (M.words memory.now) size slot address index }
{
    endpoint_type(memory, size, address, index) == 0
        || !(is_off(devices.endpoint_state(slot, index))
            || has_flag(drop_flags(memory, address), index))
}
