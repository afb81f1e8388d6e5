ghost use Rattle.std.specs.Prelude.{◌≡◌, false, ℕ};
ghost use Rattle.traces.specs.AllowedHeaders.{IsHeader};
ghost use Rattle.commands.specs.Command.{named_context, named_endpoint, named_slot};
ghost use Rattle.ring_knowledge.specs.Known.{Known};
ghost use Rattle.trace_record.specs.DeviceSlots.Devices.{FollowsDevices};
ghost use Rattle.trace_record.specs.RingFinder.Finding.{IsFinder};
ghost use Rattle.ownership_rules.specs.Commands.{has_bad_context, is_bad_command, names_disabled_endpoint, names_disabled_slot};
ghost use Rattle.trace_record.specs.FollowsTrace.{FollowsTrace};
ghost use Rattle.trace_record.specs.Premises.{FitsMemory};
ghost use Rattle.driver_rows.specs.ContextRules.Contents.{IsAligned};

use crate::context_rules::areas::{is_bad_area, is_soiled};
use crate::context_rules::contents::has_bad_content;
use crate::context_rules::input::input_context_bytes;
use commands::{Command, SlotState, is_off};
use guest_memory::WordMemory;
use trace_record::{DeviceRecord, Finder, TraceRecord};
use traces::Header;

/// Whether a command may not be given: it names a disabled slot or endpoint, or its input context, the entry of its slot or a
/// device context lies where none may lie, has a soiled word or says what it may not (xHCI 4.6, 6.1, 6.2).
pub fn is_bad_command<M: WordMemory>(
    header: &Header,
    finder: &Finder,
    t: &TraceRecord,
    memory: &M,
    command: &Command,
) -> bool
    requires headed { IsHeader header.now }
    requires found { IsFinder header.now.rings finder.now }
    requires aligned { IsAligned command.now }
    ensures rule { (k : Known) → FollowsTrace header.now k t.now (M.words memory.now) → result ≡ is_bad_command header.now k command.now }
    ensures inside { result ≡ false → FitsMemory header.now.context_size command.now }
{
    names_disabled_slot(&t.devices, command)
        || names_disabled_endpoint(&t.devices, command)
        || has_bad_context(header, finder, t, command)
        || has_bad_content(header, finder, t, memory, command)
}

#[tactic(auto, unfolding(ownership_rules::specs::Commands::names_disabled_slot))]
fn names_disabled_slot(devices: &DeviceRecord, command: &Command) -> bool
    ensures { (k : Known) → FollowsDevices k devices.now → result ≡ names_disabled_slot k (named_slot command.now) }
{
    match command.slot() {
        Some(slot) => matches!(devices.slot_state(slot), SlotState::Disabled),
        None => false,
    }
}

#[tactic(auto, unfolding(ownership_rules::specs::Commands::names_disabled_endpoint))]
fn names_disabled_endpoint(devices: &DeviceRecord, command: &Command) -> bool
    ensures { (k : Known) → FollowsDevices k devices.now → result ≡ names_disabled_endpoint k (named_endpoint command.now) }
{
    match command.endpoint() {
        Some((slot, index)) => index == 0 || is_off(devices.endpoint_state(slot, index)),
        None => false,
    }
}

/// Whether the command's input context lies where none may lie, or has a soiled word.
fn has_bad_context(header: &Header, finder: &Finder, t: &TraceRecord, command: &Command) -> bool
    requires headed { IsHeader header.now }
    requires found { IsFinder header.now.rings finder.now }
    requires aligned { IsAligned command.now }
    ensures rule { (k : Known) (memory : ℕ → ℕ) → FollowsTrace header.now k t.now memory → result ≡ has_bad_context header.now k (named_context command.now) }
    ensures inside { result ≡ false → FitsMemory header.now.context_size command.now }
{
    let Some(address) = command.input_context() else {
        return false;
    };
    let len = input_context_bytes(header.context_size);
    is_bad_area(finder, t, address, len) || is_soiled(t, address, len)
}
