//! Which endpoints are isochronous, by the input context that adds them: xHCI 6.2.3, 6.2.5.1.
ghost use Rattle.std.specs.Prelude.{◌≡◌, ℕ, ◌+◌, ◌==◌, ◌&&◌, ◌<◌, ◌%◌, ◌≤◌, ◌^◌};
ghost use Rattle.contexts.specs.Contexts.{has_isochronous, input_add_flag, input_context_bytes};
ghost use Rattle.traces.specs.declared.header.Header.{Header as HeaderValue};
ghost use Rattle.world_state.specs.World.{World};
ghost use Rattle.world_state.specs.Bindings.{typed};
ghost use Rattle.controller_model.specs.Following.{Follows, KeepsRun};

use crate::endpoints::set_type;
use crate::inputs::{adds, has_isochronous};
use crate::kept::Kept;
use contexts::ContextSize;
use guest_memory::WordMemory;

/// The endpoint with this index has the type that its context says, where the input context adds it.
fn type_one<M: WordMemory>(
    memory: &M,
    size: ContextSize,
    kept: &mut Kept,
    slot: u8,
    context: u64,
    index: u8,
)
    requires aligned { context % 16 ≡ 0 }
    requires end { context + input_context_bytes size ≤ 2 ^ 64 }
    requires last { index < 32 }
    ensures change { (h : HeaderValue) (words : ℕ → ℕ) (w : World) → Follows h words kept.old w →
        Follows h words kept.new (typed w slot (λ i. input_add_flag (M.words memory.now) context i && i == index) (has_isochronous size (M.words memory.now) context)) }
    ensures rest { KeepsRun kept.old kept.new }
{
    if !adds(memory, size, context, index) {
        return;
    }
    let is_isochronous = has_isochronous(memory, size, context, index);
    set_type(kept, slot, index, is_isochronous);
}

/// The endpoints that the input context adds have the types that their contexts say.
pub(crate) fn type_added<M: WordMemory>(
    memory: &M,
    size: ContextSize,
    kept: &mut Kept,
    slot: u8,
    context: u64,
)
    requires aligned { context % 16 ≡ 0 }
    requires end { context + input_context_bytes size ≤ 2 ^ 64 }
    ensures change { (h : HeaderValue) (words : ℕ → ℕ) (w : World) → Follows h words kept.old w →
        Follows h words kept.new (typed w slot (input_add_flag (M.words memory.now) context) (has_isochronous size (M.words memory.now) context)) }
    ensures rest { KeepsRun kept.old kept.new }
{
    for index in 0..32 {
        type_one(memory, size, kept, slot, context, index);
    }
}
