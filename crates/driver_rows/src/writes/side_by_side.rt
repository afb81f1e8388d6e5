//! Whether a command may be given beside the unfinished ones of its slot: xHCI 4.6.
ghost use Rattle.std.specs.Prelude.{◌≡◌, ◌<◌, ◌&&◌, ℕ, Bool, List, not, true, IfSome};
ghost use Rattle.std.specs.List.{All, list_any};
ghost use Rattle.commands.specs.declared.command.Command.{Command as CommandValue};
ghost use Rattle.commands.specs.SideBySide.{exclude};
ghost use Rattle.ownership_rules.specs.ByVersion.{has_busy_slot};
ghost use Rattle.ownership_rules.specs.Commands.{is_busy_by_slot, shares_slot};
ghost use Rattle.ownership_rules.specs.Older.{is_busy_before};
ghost use Rattle.traces.specs.Versions.{has_runs, is_lenient};
ghost use Rattle.ring_knowledge.specs.Known.{Known};
ghost use Rattle.ring_knowledge.specs.Rings.{unfinished};
ghost use Rattle.trace_record.specs.DeviceSlots.Indices.{IsOnlyAbout, is_about};
ghost use Rattle.trace_record.specs.DeviceSlots.Unfinished.{FollowsUnfinished, as_list};
ghost use Rattle.trace_record.specs.FollowsTrace.{FollowsTrace};
ghost use Rattle.trace_record.specs.Premises.{ContextsFit, FitsMemory};
ghost use Rattle.driver_rows.specs.ContextRules.Contents.{NamesLow};

use commands::Command;
use contexts::ContextSize;
use guest_memory::WordMemory;
use trace_record::{TraceRecord, UnfinishedCommands};
use traces::Header;

/// Whether an unfinished command of its slot excludes a command, or where the trace's version refuses more any that it refuses.
pub(crate) fn has_busy_slot<M: WordMemory>(
    header: &Header,
    t: &TraceRecord,
    memory: &M,
    command: &Command,
) -> bool
    ensures { (k : Known) → FollowsTrace header.now k t.now (M.words memory.now) → ContextsFit header.now k → FitsMemory header.now.context_size command.now → NamesLow command.now →
        result ≡ has_busy_slot header.now k command.now }
{
    if !t.commands.shares_slot(command) {
        return false;
    }
    is_busy_before(header, t, command) || is_busy(header.context_size, &t.commands, memory, command)
}

/// Whether the trace's version refuses a command that a later one doesn't: beside any other of its slot, or beside any but one of another
/// endpoint.
fn is_busy_before(header: &Header, t: &TraceRecord, command: &Command) -> bool
    ensures { (k : Known) (memory : ℕ → ℕ) → FollowsTrace header.now k t.now memory → result ≡ is_busy_before header.now k command.now }
{
    shares_slot_before(header, t, command) || is_busy_by_slot_before(header, t, command)
}

/// Before version 3 a command may stand beside no other of its slot.
fn shares_slot_before(header: &Header, t: &TraceRecord, command: &Command) -> bool
    ensures { (k : Known) (memory : ℕ → ℕ) → FollowsTrace header.now k t.now memory → result ≡ (shares_slot header.now k command.now && not (is_lenient header.now.version)) }
{
    !header.version.is_lenient() && t.commands.shares_slot(command)
}

/// Before version 4 it may stand beside those of other endpoints alone, where it names one.
fn is_busy_by_slot_before(header: &Header, t: &TraceRecord, command: &Command) -> bool
    ensures { (k : Known) (memory : ℕ → ℕ) → FollowsTrace header.now k t.now memory → result ≡ (is_busy_by_slot header.now k command.now && not (has_runs header.now.version)) }
{
    !header.version.has_runs() && t.commands.is_busy_by_slot(command)
}

/// Whether an unfinished command excludes a command.
fn is_busy<M: WordMemory>(
    size: ContextSize,
    commands: &UnfinishedCommands,
    memory: &M,
    command: &Command,
) -> bool
    ensures { (all : List CommandValue) → FollowsUnfinished all commands.now → All (FitsMemory size) all → FitsMemory size command.now → NamesLow command.now →
        result ≡ list_any (exclude (M.words memory.now) command.now) all }
{
    let Some(slot) = command.slot() else {
        return false;
    };
    for index in 0..32_u8 {
        if is_excluded_at(size, commands, memory, command, slot, index) {
            return true;
        }
    }
    false
}

/// Whether the unfinished command that is about an endpoint of the slot, or with index 0 about the slot as a whole, excludes a command.
fn is_excluded_at<M: WordMemory>(
    size: ContextSize,
    commands: &UnfinishedCommands,
    memory: &M,
    command: &Command,
    slot: u8,
    index: u8,
) -> bool
    requires { index < 32 }
    ensures { (all : List CommandValue) → FollowsUnfinished all commands.now → All (FitsMemory size) all → FitsMemory size command.now → NamesLow command.now →
        result ≡ list_any (λ d. exclude (M.words memory.now) command.now d && is_about slot index d) all }
{
    match kept_at(commands, slot, index) {
        Some(other) => command.excludes(memory, size, &other),
        None => false,
    }
}

/// The unfinished command that is about an endpoint, or with index 0 about the slot as a whole.
fn kept_at(commands: &UnfinishedCommands, slot: u8, index: u8) -> Option<Command>
    ensures one { (all : List CommandValue) (p : CommandValue → Bool) → FollowsUnfinished all commands.now → IsOnlyAbout slot index p → list_any p (as_list result) ≡ list_any p all }
    ensures named { IfSome result (λ c. (all : List CommandValue) → FollowsUnfinished all commands.now → is_about slot index c ≡ true) }
{
    if index == 0 {
        commands.of_slot(slot)
    } else {
        commands.of_endpoint(slot, index)
    }
}
