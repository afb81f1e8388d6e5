ghost use Rattle.std.specs.Prelude.{◌≡◌};
ghost use Rattle.contexts.specs.Contexts.{device_context_bytes, input_context_bytes};

use contexts::ContextSize;

/// How many contexts a device context has: the slot's and those of 31 endpoints (xHCI 6.2.1).
const CONTEXTS: u64 = 32;

/// How many bytes an input context has: an input control context comes before the others (xHCI 6.2.5).
pub(crate) fn input_context_bytes(size: ContextSize) -> u64
    ensures { result ≡ input_context_bytes size }
{
    (1 + CONTEXTS) * size.bytes()
}

/// How many bytes a device context has.
pub(crate) fn device_context_bytes(size: ContextSize) -> u64
    ensures { result ≡ device_context_bytes size }
{
    CONTEXTS * size.bytes()
}
