//! Which commands of one slot may be unfinished side by side: xHCI 4.6.5 to 4.6.10, 4.5.3, 4.8.3.
ghost use Rattle.std.specs.Prelude.{◌≡◌, ◌+◌, ◌%◌, ◌^◌, ◌<◌, ◌≤◌, ◌||◌, ℕ, Some};
ghost use Rattle.contexts.specs.Contexts.{input_add_flag, input_context_bytes, input_drop_flag};
ghost use Rattle.commands.specs.Command.{named_context, named_endpoint, name_one_slot};
ghost use Rattle.commands.specs.SideBySide.{concerns, concerns_named, exclude};

use crate::command::Command;
use contexts::{ContextSize, InputContext};
use guest_memory::WordMemory;

impl Command {
    /// What of its slot the command is about: an endpoint, by its index (DCI), or with index 0 the slot as a whole. A command that names an
    /// endpoint is about that one; Configure Endpoint is about those that its input context drops or adds, or with DC 1 about all but the
    /// default control endpoint; Evaluate Context about those whose contexts it gives; any other about all.
    pub fn concerns<M: WordMemory>(&self, memory: &M, size: ContextSize, index: u8) -> bool
        requires { index < 32 }
        ensures { ((a : ℕ) → named_context self.now ≡ Some a → (a % 4 ≡ 0) × (a + input_context_bytes size ≤ 2 ^ 64)) →
            result ≡ concerns (M.words memory.now) self.now index }
    {
        match *self {
            Command::ConfigureEndpoint {
                deconfigure: true,
                ..
            } => index != 1,
            Command::ConfigureEndpoint { input_context, .. } => {
                index == 0 || is_flagged(memory, size, input_context, index)
            }
            Command::EvaluateContext { input_context, .. } => {
                index == 0 || is_added(memory, size, input_context, index)
            }
            Command::ResetEndpoint { endpoint, .. }
            | Command::StopEndpoint { endpoint, .. }
            | Command::SetTrDequeue { endpoint, .. } => endpoint == index,
            _ => true,
        }
    }

    /// Whether the one may not be given while the other is unfinished: both are of one slot, and none of them names an endpoint that the
    /// other leaves alone. Endpoints have indices below 32.
    pub fn excludes<M: WordMemory>(&self, memory: &M, size: ContextSize, other: &Command) -> bool
        ensures { ((a : ℕ) → named_context self.now ≡ Some a → (a % 4 ≡ 0) × (a + input_context_bytes size ≤ 2 ^ 64)) →
            ((a : ℕ) → named_context other.now ≡ Some a → (a % 4 ≡ 0) × (a + input_context_bytes size ≤ 2 ^ 64)) →
            ((e : ℕ × ℕ) → named_endpoint self.now ≡ Some e → e.1 < 32) → ((e : ℕ × ℕ) → named_endpoint other.now ≡ Some e → e.1 < 32) →
            result ≡ exclude (M.words memory.now) self.now other.now }
    {
        names_slot_of(self, other)
            && concerns_named(memory, size, self, other)
            && concerns_named(memory, size, other, self)
    }
}

/// Whether both name a slot, and the same one.
fn names_slot_of(first: &Command, second: &Command) -> bool
    ensures { result ≡ name_one_slot first.now second.now }
{
    match (first.slot(), second.slot()) {
        (Some(slot), Some(other)) => slot == other,
        _ => false,
    }
}

/// Whether a command is about the endpoint that another one names, if that names one.
fn concerns_named<M: WordMemory>(
    memory: &M,
    size: ContextSize,
    command: &Command,
    other: &Command,
) -> bool
    ensures { ((a : ℕ) → named_context command.now ≡ Some a → (a % 4 ≡ 0) × (a + input_context_bytes size ≤ 2 ^ 64)) →
        ((e : ℕ × ℕ) → named_endpoint other.now ≡ Some e → e.1 < 32) → result ≡ concerns_named (M.words memory.now) command.now (named_endpoint other.now) }
{
    match other.endpoint() {
        None => true,
        Some((_, index)) if index < 32 => command.concerns(memory, size, index),
        Some(_) => true,
    }
}

/// Whether an input context drops an endpoint or adds it (xHCI 6.2.5.1).
pub fn is_flagged<M: WordMemory>(memory: &M, size: ContextSize, address: u64, index: u8) -> bool
    requires { index < 32 }
    ensures { address % 4 ≡ 0 → address + input_context_bytes size ≤ 2 ^ 64 → result ≡ (input_drop_flag (M.words memory.now) address index || input_add_flag (M.words memory.now) address index) }
{
    if address % 4 != 0 {
        return false;
    }
    match InputContext::at(memory, address, size) {
        Some(context) => context.drops(index) || context.adds(index),
        None => false,
    }
}

/// Whether an input context adds an endpoint (xHCI 6.2.5.1).
fn is_added<M: WordMemory>(memory: &M, size: ContextSize, address: u64, index: u8) -> bool
    requires { index < 32 }
    ensures { address % 4 ≡ 0 → address + input_context_bytes size ≤ 2 ^ 64 → result ≡ input_add_flag (M.words memory.now) address index }
{
    if address % 4 != 0 {
        return false;
    }
    match InputContext::at(memory, address, size) {
        Some(context) => context.adds(index),
        None => false,
    }
}
