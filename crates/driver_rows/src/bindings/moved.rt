ghost use Rattle.std.specs.Prelude.{◌≡◌, ◌<◌, ◌&&◌, ℕ, not};
ghost use Rattle.std.specs.List.{list_any};
ghost use Rattle.traces.specs.declared.header.Header.{Header};
ghost use Rattle.traces.specs.Header.{is_ring};
ghost use Rattle.commands.specs.States.{is_off};
ghost use Rattle.ring_knowledge.specs.Known.{Known};
ghost use Rattle.ring_knowledge.specs.Rings.{unfinished};
ghost use Rattle.trace_record.specs.DeviceSlots.Devices.{FollowsDevices};
ghost use Rattle.trace_record.specs.DeviceSlots.Indices.{names};
ghost use Rattle.ownership_rules.specs.Moves.{is_being_moved, moves_ring};
ghost use Rattle.trace_record.specs.FollowsTrace.{FollowsTrace};

use commands::{Command, is_off};
use trace_record::{DeviceRecord, TraceRecord};

/// Whether an unfinished Address Device moves the ring (xHCI 4.6.5).
pub fn is_being_moved(t: &TraceRecord, ring: u8) -> bool
    ensures { (h : Header) (k : Known) (memory : ℕ → ℕ) → FollowsTrace h k t.now memory → result ≡ is_being_moved h k ring }
{
    if !t.commands.has_address_device() {
        return false;
    }
    for slot in 0..256u16 {
        if is_moved_of(t, slot as u8, ring) {
            return true;
        }
    }
    false
}

/// Whether the unfinished command that names a slot alone moves the ring.
fn is_moved_of(t: &TraceRecord, slot: u8, ring: u8) -> bool
    ensures { (h : Header) (k : Known) (memory : ℕ → ℕ) → FollowsTrace h k t.now memory →
        result ≡ list_any (λ c. names slot c && moves_ring h k ring c) (unfinished h k) }
{
    match t.commands.of_slot(slot) {
        None => false,
        Some(command) => moves(&t.devices, &command, ring),
    }
}

/// Whether a command moves the ring: an Address Device for a slot whose default control endpoint has it.
fn moves(devices: &DeviceRecord, command: &Command, ring: u8) -> bool
    ensures { (h : Header) (k : Known) → FollowsDevices k devices.now → result ≡ moves_ring h k ring command.now }
{
    match *command {
        Command::AddressDevice { slot, .. } => moves_first(devices, slot, ring),
        _ => false,
    }
}

/// Whether the ring is that of the slot's default control endpoint, which isn't Disabled.
fn moves_first(devices: &DeviceRecord, slot: u8, ring: u8) -> bool
    ensures { (k : Known) → FollowsDevices k devices.now → result ≡ (not (is_off (k.endpoint_state slot 1)) && is_ring ring (k.ring_of slot 1)) }
{
    if is_off(devices.endpoint_state(slot, 1)) {
        return false;
    }
    match devices.ring_of(slot, 1) {
        None => false,
        Some(named) => named == ring,
    }
}
