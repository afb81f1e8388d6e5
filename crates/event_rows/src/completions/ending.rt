//! A command ends with a completion that was read (xHCI 4.6).
ghost use Rattle.std.specs.Prelude.{◌≡◌, ◌<◌, ℕ, List, Some, IfSome, true, false, is_some, not};
ghost use Rattle.std.specs.Bool.{OnTrue};
ghost use Rattle.std.specs.List.{cons_option};
ghost use Rattle.trb.specs.Block.{code, slot};
ghost use Rattle.segments.specs.Spots.{after};
ghost use Rattle.segments.specs.RingView.{Reaches};
ghost use Rattle.commands.specs.Changes.{changes};
ghost use Rattle.commands.specs.Command.{named_context};
ghost use Rattle.traces.specs.declared.header.Header.{Header as HeaderValue};
ghost use Rattle.traces.specs.Header.{command_id, command_ring, shape_of};
ghost use Rattle.traces.specs.AllowedHeaders.{IsHeader};
ghost use Rattle.world_state.specs.PlacingCommands.{HasRoom, IsWell};
ghost use Rattle.ring_knowledge.specs.Completions.{completed, finished, stop_ended};
ghost use Rattle.ring_knowledge.specs.Known.{Known};
ghost use Rattle.ring_knowledge.specs.Rings.{command_at, next_command, on_ring};
ghost use Rattle.trace_record.specs.RingFinder.Finding.{IsFinder};
ghost use Rattle.trace_record.specs.RingFinder.RecordsOfRings.{FollowsRings};
ghost use Rattle.trace_record.specs.DeviceSlots.Devices.{FollowsDevices};
ghost use Rattle.ownership_rules.specs.Events.{is_impossible_completion};
ghost use Rattle.trace_record.specs.RangeWords.Holding.{HoldsAreas};
ghost use Rattle.safety.specs.Keeps.{DriverKeeps};
ghost use Rattle.safety.specs.Placings.{MayChangeAll};
ghost use Rattle.trace_record.specs.FollowsTrace.{FollowsTrace, device_contexts};
ghost use Rattle.trace_record.specs.Premises.{IsSetUp};
ghost use Rattle.trace_record.specs.RowPlaces.{IsNext};
ghost use Rattle.event_rows.specs.CommandCompletions.Places.{AreSlots, FollowsPlaces, HasWords, IsNextGiven, KeepsRest, succeeded_if};

use crate::completions::impossible::is_impossible_completion;
use crate::completions::success::succeed;
use commands::{Command, SaidCommand};
use driver_rows::forget_bound;
use guest_memory::WordMemory;
use ring_knowledge::RingRecord;
use trace_record::{Areas, DeviceRecord, Finder, TraceRecord, command_said};
use traces::Header;
use trb::Block;

/// Tells whether a controller can have posted a Command Completion Event, where `next` is the command at the floor of the Command
/// Ring. Where one can, it is noted: what that command's success does, that its contexts are let go, and that the controller is behind it.
pub fn read_completion<M: WordMemory>(
    header: &Header,
    finder: &Finder,
    t: &mut TraceRecord,
    memory: &M,
    block: Block,
    next: Option<SaidCommand>,
) -> bool
    requires headed { IsHeader header.now }
    requires found { IsFinder header.now.rings finder.now }
    ensures possible { (k : Known) → FollowsTrace header.now k t.old (M.words memory.now) → IsSetUp header.now k → IsNext header.now k next →
        result ≡ not (is_impossible_completion header.now k block) }
    ensures followed { OnTrue result ((k : Known) → FollowsTrace header.now k t.old (M.words memory.now) → DriverKeeps header.now k → IsSetUp header.now k → k.started ≡ true →
        IsNext header.now k next → is_impossible_completion header.now k block ≡ false → FollowsTrace header.now (completed header.now k block) t.new (M.words memory.now)) }
    ensures events { t.new.events ≡ t.old.events }
{
    let command = command_said(next);
    if is_impossible_completion(header, finder, t, command, block) {
        return false;
    }
    finish(header, finder, t, memory, command, block);
    true
}

/// Notes the end of the next command, `command`.
fn finish<M: WordMemory>(
    header: &Header,
    finder: &Finder,
    t: &mut TraceRecord,
    memory: &M,
    command: Option<Command>,
    block: Block,
)
    requires headed { IsHeader header.now }
    requires found { IsFinder header.now.rings finder.now }
    requires well { IfSome command IsWell }
    ensures followed { (k : Known) → FollowsTrace header.now k t.old (M.words memory.now) → DriverKeeps header.now k → IsSetUp header.now k → k.started ≡ true →
        command ≡ command_at header.now k (next_command header.now k) → is_impossible_completion header.now k block ≡ false → FollowsTrace header.now (completed header.now k block) t.new (M.words memory.now) }
    ensures events { t.new.events ≡ t.old.events }
{
    let Some(command) = command else {
        return;
    };
    leave_context(&mut t.contexts, &t.devices, &command, block);
    forget_bound(header, finder, &t.devices, memory, &command, &mut t.bound);
    end_command(header, finder, t, memory, &command, block);
    leave_input(&mut t.inputs, &command);
    t.commands.finish(&command);
    pass_next(header, finder, &mut t.rings);
}

/// What the end of the command does to rings and devices: its changes, if it succeeded, and that a stop has come to its end.
fn end_command<M: WordMemory>(
    header: &Header,
    finder: &Finder,
    t: &mut TraceRecord,
    memory: &M,
    command: &Command,
    block: Block,
)
    requires headed { IsHeader header.now }
    requires found { IsFinder header.now.rings finder.now }
    requires well { IsWell command.now }
    ensures followed { (k : Known) → FollowsPlaces header.now k t.old.rings.items t.old.devices → HasWords k (M.words memory.now) →
        MayChangeAll header.now command.now k (changes header.now.context_size k.memory (slot block) command.now) → HasRoom header.now.context_size command.now →
        FollowsPlaces header.now (finished header.now k block (Some command.now)) t.new.rings.items t.new.devices }
    ensures rest { KeepsRest t.old t.new }
{
    succeed_by(header, finder, t, memory, command, block);
    end_stop(&mut t.devices, command);
}

/// The changes of the command, if it succeeded.
fn succeed_by<M: WordMemory>(
    header: &Header,
    finder: &Finder,
    t: &mut TraceRecord,
    memory: &M,
    command: &Command,
    block: Block,
)
    requires headed { IsHeader header.now }
    requires found { IsFinder header.now.rings finder.now }
    requires well { IsWell command.now }
    ensures followed { (k : Known) → FollowsPlaces header.now k t.old.rings.items t.old.devices → HasWords k (M.words memory.now) →
        MayChangeAll header.now command.now k (changes header.now.context_size k.memory (slot block) command.now) → HasRoom header.now.context_size command.now →
        FollowsPlaces header.now (succeeded_if header.now k block command.now) t.new.rings.items t.new.devices }
    ensures rest { KeepsRest t.old t.new }
{
    if block.code() == 1 {
        succeed(header, finder, t, memory, command, block.slot());
    }
}

/// A Stop Endpoint has come to its end, whatever its code (xHCI 4.6.9).
fn end_stop(devices: &mut DeviceRecord, command: &Command)
    requires { IsWell command.now }
    ensures { (h : HeaderValue) (k : Known) → FollowsDevices k devices.old → FollowsDevices (stop_ended h k command.now) devices.new }
{
    match *command {
        Command::StopEndpoint { slot, endpoint } => devices.end_stop(slot, endpoint),
        _ => {}
    }
}

/// The device context of a slot that is disabled is no longer under lease (xHCI 4.6.4).
fn leave_context(contexts: &mut Areas, devices: &DeviceRecord, command: &Command, block: Block)
    ensures { (h : HeaderValue) (k : Known) (n : ℕ) → FollowsDevices k devices.now → AreSlots k → HoldsAreas n (device_contexts k) contexts.old →
        HoldsAreas n (device_contexts (finished h k block (Some command.now))) contexts.new }
{
    if block.code() != 1 {
        return;
    }
    let Command::DisableSlot { slot } = *command else {
        return;
    };
    if let Some(address) = devices.device(slot) {
        contexts.remove(address);
    }
}

/// The input context of a command that has ended is no longer under lease (xHCI 4.6).
fn leave_input(inputs: &mut Areas, command: &Command)
    ensures { (n : ℕ) (rest : List ℕ) → HoldsAreas n (cons_option (named_context command.now) rest) inputs.old → HoldsAreas n rest inputs.new }
{
    if let Some(address) = command.input_context() {
        inputs.remove(address);
    }
}

/// The controller's dequeue pointer is behind the next command.
fn pass_next(header: &Header, finder: &Finder, rings: &mut Vec<RingRecord>)
    requires headed { IsHeader header.now }
    requires found { IsFinder header.now.rings finder.now }
    ensures { (k : Known) → FollowsRings header.now k rings.old.items → is_some (command_ring header.now) ≡ true → IsNextGiven header.now k →
        FollowsRings header.now (on_ring header.now k (command_id header.now) (Reaches (after (shape_of header.now (command_id header.now)) (next_command header.now k)))) rings.new.items }
{
    let Some(number) = finder.commands else {
        return;
    };
    let all = header.rings.as_slice();
    let ring = &all[number];
    if let Some(known) = rings.get_mut(number) {
        let next = known.floor();
        known.pass(&ring.shape, next);
    }
}
