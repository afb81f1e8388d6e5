//! Which endpoints an unfinished command may change (xHCI 4.6).
ghost use Rattle.std.specs.Prelude.{◌≡◌, ◌<◌, ◌%◌, ◌+◌, ◌^◌, ◌≤◌, ◌&&◌, ◌||◌, nat_le, false, ℕ, IfSome};
ghost use Rattle.std.specs.List.{list_any};
ghost use Rattle.contexts.specs.Contexts.{input_add_flag, input_context_bytes, input_drop_flag};
ghost use Rattle.commands.specs.Changes.{changes, touches};
ghost use Rattle.ring_knowledge.specs.Known.{Known};
ghost use Rattle.trace_record.specs.DeviceSlots.Unfinished.{as_list};
ghost use Rattle.ownership_rules.specs.Doorbells.{is_touched, touches_endpoint};
ghost use Rattle.trace_record.specs.FollowsTrace.{FollowsTrace};
ghost use Rattle.trace_record.specs.Premises.{ContextsFit, FitsMemory};

use commands::{Command, is_flagged};
use contexts::ContextSize;
use guest_memory::WordMemory;
use trace_record::TraceRecord;
use traces::Header;

/// Whether an unfinished command may change an endpoint: the one that names its slot alone, or the one that names it.
#[inline(always)]
pub fn is_touched<M: WordMemory>(
    header: &Header,
    t: &TraceRecord,
    memory: &M,
    slot: u8,
    index: u8,
) -> bool
    requires { index < 32 }
    ensures { (k : Known) → FollowsTrace header.now k t.now (M.words memory.now) → ContextsFit header.now k →
        result ≡ is_touched header.now k slot index }
{
    let of_slot = t.commands.of_slot(slot);
    let of_endpoint = t.commands.of_endpoint(slot, index);
    is_touched_by(header, memory, of_slot, slot, index)
        || is_touched_by(header, memory, of_endpoint, slot, index)
}

/// Whether the success of a command, if there is one, may change an endpoint. Mostly there is none.
#[inline(always)]
fn is_touched_by<M: WordMemory>(
    header: &Header,
    memory: &M,
    command: Option<Command>,
    slot: u8,
    index: u8,
) -> bool
    requires { index < 32 }
    ensures { (k : Known) → ((a : ℕ) → k.memory a ≡ M.words memory.now a) → IfSome command (FitsMemory header.now.context_size) →
        result ≡ list_any (touches_endpoint header.now k slot index) (as_list command) }
{
    match command {
        Some(command) => touches(header.context_size, memory, &command, slot, index),
        None => false,
    }
}

/// Whether the success of a command may change an endpoint.
#[inline(never)]
#[tactic(auto, unfolding(commands::specs::Changes::changes))]
fn touches<M: WordMemory>(
    size: ContextSize,
    memory: &M,
    command: &Command,
    slot: u8,
    index: u8,
) -> bool
    requires { index < 32 }
    ensures { FitsMemory size command.now → result ≡ list_any (touches slot index) (changes size (M.words memory.now) 0 command.now) }
{
    match *command {
        Command::NoOp | Command::EnableSlot | Command::EvaluateContext { .. } => false,
        Command::DisableSlot { slot: named } => slot == named,
        Command::AddressDevice { slot: named, .. } => slot == named && index == 1,
        Command::ConfigureEndpoint {
            slot: named,
            deconfigure,
            input_context,
        } => slot == named && is_configured(size, memory, deconfigure, input_context, index),
        Command::ResetDevice { slot: named } => slot == named && index >= 2,
        Command::ResetEndpoint {
            slot: named,
            endpoint,
        }
        | Command::StopEndpoint {
            slot: named,
            endpoint,
        }
        | Command::SetTrDequeue {
            slot: named,
            endpoint,
            ..
        } => slot == named && index == endpoint,
    }
}

/// Whether a Configure Endpoint may change an endpoint of its slot: with DC each above the default control endpoint, else those
/// that its input context drops or adds (xHCI 4.6.6).
fn is_configured<M: WordMemory>(
    size: ContextSize,
    memory: &M,
    deconfigure: bool,
    address: u64,
    index: u8,
) -> bool
    requires { index < 32 }
    ensures { (deconfigure ≡ false → (address % 4 ≡ 0) × (address + input_context_bytes size ≤ 2 ^ 64)) →
        result ≡ (nat_le 2 index && (deconfigure || (input_drop_flag (M.words memory.now) address index || input_add_flag (M.words memory.now) address index))) }
{
    if index < 2 {
        return false;
    }
    deconfigure || is_flagged(memory, size, address, index)
}
