//! The types of endpoints that are added (xHCI 4.6.6, 6.2.3).
ghost use Rattle.std.specs.Prelude.{nat_le, ◌≡◌, ◌+◌, ◌<◌, ◌≤◌, ◌%◌, ◌^◌, ◌==◌, ◌&&◌};
ghost use Rattle.contexts.specs.Contexts.{has_isochronous, input_add_flag, input_context_bytes, is_isochronous};
ghost use Rattle.commands.specs.declared.command.Command.{Command};
ghost use Rattle.commands.specs.Changes.{typed_by_context};
ghost use Rattle.traces.specs.declared.header.Header.{Header};
ghost use Rattle.ring_knowledge.specs.Completions.{changed_by, typed};
ghost use Rattle.ring_knowledge.specs.Known.{Known};
ghost use Rattle.trace_record.specs.DeviceSlots.Devices.{FollowsDevices};

use crate::completions::success::NamedContext;
use contexts::{ContextSize, add_flags, endpoint_type};
use guest_memory::WordMemory;
use trace_record::DeviceRecord;

/// The endpoints that an input context adds have the types that it says.
pub(crate) fn note_types<M: WordMemory>(
    devices: &mut DeviceRecord,
    memory: &M,
    size: ContextSize,
    named: NamedContext,
)
    requires aligned { named.context % 16 ≡ 0 }
    requires room { named.context + input_context_bytes size ≤ 2 ^ 64 }
    ensures { (h : Header) (c : Command) (k : Known) → FollowsDevices k devices.old →
        FollowsDevices (changed_by h c k (typed_by_context size (M.words memory.now) named.slot named.context)) devices.new }
{
    for index in 0..32 {
        note_type(devices, memory, size, named, index);
    }
}

/// One endpoint has the type that the input context says, if that adds it.
fn note_type<M: WordMemory>(
    devices: &mut DeviceRecord,
    memory: &M,
    size: ContextSize,
    named: NamedContext,
    index: u8,
)
    requires aligned { named.context % 16 ≡ 0 }
    requires room { named.context + input_context_bytes size ≤ 2 ^ 64 }
    requires last { index < 32 }
    ensures { (h : Header) (k : Known) → FollowsDevices k devices.old →
        FollowsDevices (typed h k named.slot (λ i. input_add_flag (M.words memory.now) named.context i && i == index) (has_isochronous size (M.words memory.now) named.context)) devices.new }
{
    let flags = add_flags(memory, named.context);
    if (flags >> u32::from(index)) % 2 == 1 {
        let ep_type = endpoint_type(memory, size, named.context, index);
        devices.note_type(named.slot, index, is_isochronous(index, ep_type));
    }
}

/// EP Type 1 and 5 of an endpoint other than the default control endpoint.
fn is_isochronous(index: u8, ep_type: u8) -> bool
    ensures { result ≡ (nat_le 2 index && is_isochronous ep_type) }
{
    index >= 2 && ep_type % 4 == 1
}
