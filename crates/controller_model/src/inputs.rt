ghost use Rattle.std.specs.Prelude.{◌≡◌, ℕ, ◌+◌, ◌<◌, ◌%◌, ◌≤◌, ◌^◌};
ghost use Rattle.contexts.specs.Contexts.{context_cycle, context_pointer, has_isochronous, input_add_flag, input_context_bytes};

use contexts::{ContextSize, EndpointContext, InputContext, endpoint_type};
use guest_memory::WordMemory;

/// Whether the input context adds an endpoint (xHCI 6.2.5.1).
pub(crate) fn adds<M: WordMemory>(memory: &M, size: ContextSize, context: u64, index: u8) -> bool
    requires aligned { context % 16 ≡ 0 }
    requires end { context + input_context_bytes size ≤ 2 ^ 64 }
    requires last { index < 32 }
    ensures { result ≡ input_add_flag (M.words memory.now) context index }
{
    match InputContext::at(memory, context, size) {
        None => unreachable!(),
        Some(input) => input.adds(index),
    }
}

/// What the input context says of an endpoint (xHCI 6.2.3).
pub(crate) fn context_of<M: WordMemory>(
    memory: &M,
    size: ContextSize,
    context: u64,
    index: u8,
) -> EndpointContext
    requires aligned { context % 16 ≡ 0 }
    requires end { context + input_context_bytes size ≤ 2 ^ 64 }
    requires first { 1 ≤ index }
    requires last { index < 32 }
    ensures pointer { result.pointer ≡ context_pointer size (M.words memory.now) context index }
    ensures cycle { result.dcs ≡ context_cycle size (M.words memory.now) context index }
    ensures aligned { result.pointer % 16 ≡ 0 }
{
    match InputContext::at(memory, context, size) {
        None => unreachable!(),
        Some(input) => input.endpoint(index),
    }
}

/// Whether the input context says that an endpoint is isochronous: EP Type 1 and 5 (xHCI 6.2.3), but for the default control
/// endpoint.
pub(crate) fn has_isochronous<M: WordMemory>(
    memory: &M,
    size: ContextSize,
    context: u64,
    index: u8,
) -> bool
    requires aligned { context % 16 ≡ 0 }
    requires end { context + input_context_bytes size ≤ 2 ^ 64 }
    requires last { index < 32 }
    ensures { result ≡ has_isochronous size (M.words memory.now) context index }
{
    let ep_type = endpoint_type(memory, size, context, index);
    index >= 2 && ep_type % 4 == 1
}
