//! Whether a controller can have finished a command with an event (xHCI 4.5.3, 4.6, 4.8.3, 5.4.7).
ghost use Rattle.std.specs.Prelude.{◌≡◌, is_some, not, Some};
ghost use Rattle.commands.specs.Command.{may_answer_slot, named_endpoint, named_slot};
ghost use Rattle.commands.specs.States.{can_succeed, endpoint_meant, endpoint_success, is_slot_enabled, slot_meant, slot_success};
ghost use Rattle.traces.specs.Register.{register_or_zero};
ghost use Rattle.ring_knowledge.specs.Known.{Known};
ghost use Rattle.ring_knowledge.specs.RegisterRecords.{FollowsRegisters};
ghost use Rattle.trace_record.specs.DeviceSlots.Devices.{FollowsDevices};
ghost use Rattle.ownership_rules.specs.Events.{can_finish, was_stop_seen};

use commands::{Command, EndpointState, State};
use ring_knowledge::RegisterRecord;
use trace_record::DeviceRecord;
use traces::Register;
use trb::Block;

/// Whether no controller can have finished the command with this event, or there is no command.
pub(crate) fn cannot_finish(
    devices: &DeviceRecord,
    registers: &RegisterRecord,
    command: Option<Command>,
    event: Block,
) -> bool
    ensures { (k : Known) → FollowsDevices k devices.now → FollowsRegisters k registers.now → result ≡ not (can_finish k event command) }
{
    match command {
        Some(command) => !can_finish(devices, registers, &command, event),
        None => true,
    }
}

/// Whether a controller can have finished the command with this event.
fn can_finish(
    devices: &DeviceRecord,
    registers: &RegisterRecord,
    command: &Command,
    event: Block,
) -> bool
    ensures { (k : Known) → FollowsDevices k devices.now → FollowsRegisters k registers.now → result ≡ can_finish k event (Some command.now) }
{
    if !may_answer(command, event.slot()) {
        return false;
    }
    if event.code() == 1 {
        can_succeed(devices, registers, command, event.slot())
    } else {
        !was_stop_seen(devices, command)
    }
}

/// Whether the slot of the command's completion may be this one.
fn may_answer(command: &Command, slot: u8) -> bool
    ensures { result ≡ may_answer_slot (Some command.now) slot }
{
    match command.slot() {
        Some(named) => named == slot,
        None => true,
    }
}

/// Whether the command is a Stop Endpoint whose Stopped event was read.
fn was_stop_seen(devices: &DeviceRecord, command: &Command) -> bool
    ensures { (k : Known) → FollowsDevices k devices.now → result ≡ was_stop_seen k command.now }
{
    match *command {
        Command::StopEndpoint { slot, endpoint } => devices.stop_seen(slot, endpoint),
        _ => false,
    }
}

/// Whether the command can succeed, with this slot in its completion.
fn can_succeed(
    devices: &DeviceRecord,
    registers: &RegisterRecord,
    command: &Command,
    slot: u8,
) -> bool
    ensures { (k : Known) → FollowsDevices k devices.now → FollowsRegisters k registers.now →
        result ≡ can_succeed k.slot_state k.endpoint_state (register_or_zero k.register Register.Config) slot command.now }
{
    slot_goes_on(devices, command, slot)
        & endpoint_goes_on(devices, command)
        & is_slot_enabled(config(registers), command, slot)
}

/// Whether the command can succeed from the state of the slot that it concerns.
fn slot_goes_on(devices: &DeviceRecord, command: &Command, slot: u8) -> bool
    ensures { (k : Known) → FollowsDevices k devices.now → result ≡ is_some (slot_success command.now (k.slot_state (slot_meant slot (named_slot command.now)))) }
{
    let meant = match command.slot() {
        Some(named) => named,
        None => slot,
    };
    devices.slot_state(meant).after(command, 1).is_some()
}

/// Whether the command can succeed from the state of the endpoint that it names, if it names one.
fn endpoint_goes_on(devices: &DeviceRecord, command: &Command) -> bool
    ensures { (k : Known) → FollowsDevices k devices.now → result ≡ is_some (endpoint_success command.now (endpoint_meant k.endpoint_state (named_endpoint command.now))) }
{
    let state = match command.endpoint() {
        Some((slot, index)) => devices.endpoint_state(slot, index),
        None => EndpointState::Disabled,
    };
    state.after(command, 1).is_some()
}

/// The value of CONFIG, 0 where it wasn't written.
fn config(registers: &RegisterRecord) -> u64
    ensures { (k : Known) → FollowsRegisters k registers.now → result ≡ register_or_zero k.register Register.Config }
{
    match registers.value(Register::Config) {
        Some(value) => value,
        None => 0,
    }
}

/// Whether a slot that Enable Slot answers is one that CONFIG enables.
fn is_slot_enabled(config: u64, command: &Command, slot: u8) -> bool
    ensures { result ≡ is_slot_enabled config slot command.now }
{
    match *command {
        Command::EnableSlot => slot > 0 && u64::from(slot) <= config % 256,
        _ => true,
    }
}
