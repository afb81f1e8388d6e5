ghost use Rattle.std.specs.Prelude.{◌≡◌, ◌||◌, ℕ};
ghost use Rattle.std.specs.List.{list_any, range_with_len};
ghost use Rattle.traces.specs.declared.header.Header.{Header as HeaderValue};
ghost use Rattle.traces.specs.Header.{is_ring};
ghost use Rattle.commands.specs.declared.command.Command.{Command as CommandValue};
ghost use Rattle.ring_knowledge.specs.Known.{Known};
ghost use Rattle.trace_record.specs.DeviceSlots.Devices.{FollowsDevices};
ghost use Rattle.ownership_rules.specs.Moves.{is_kept};
ghost use Rattle.safety.specs.Keeps.{DriverKeeps};
ghost use Rattle.trace_record.specs.Premises.{FitsMemory};
ghost use Rattle.driver_rows.specs.RingBindings.Contexts.{HoldsContexts};
ghost use Rattle.driver_rows.specs.RingBindings.Dropped.{HoldsDropped, is_left};
ghost use Rattle.trace_record.specs.RingSets.{has};

use commands::Command;
use contexts::{drop_flags, next_flag};
use guest_memory::WordMemory;
use trace_record::{DeviceRecord, RingSet};
use traces::Header;

/// The rings of the endpoints that a command drops (xHCI 4.6.6).
pub(crate) fn rings_dropped<M: WordMemory>(
    header: &Header,
    devices: &DeviceRecord,
    memory: &M,
    command: &Command,
) -> RingSet
    ensures { (k : Known) → HoldsContexts k devices.now (M.words memory.now) → FitsMemory header.now.context_size command.now → HoldsDropped k command.now result }
{
    let mut rings = RingSet::new();
    let Command::ConfigureEndpoint {
        slot,
        deconfigure,
        input_context,
    } = *command
    else {
        return rings;
    };
    if deconfigure {
        return rings;
    }
    note_dropped(devices, drop_flags(memory, input_context), slot, &mut rings);
    rings
}

/// Notes the rings of the endpoints of a slot that these Drop Context flags name.
fn note_dropped(devices: &DeviceRecord, flags: u32, slot: u8, rings: &mut RingSet)
    ensures { (k : Known) → FollowsDevices k devices.now → (r : ℕ) →
        has rings.new r ≡ (has rings.old r || list_any (λ i. is_left k flags slot i r) (range_with_len 2 30)) }
{
    let mut index = next_flag(flags, 2);
    while index < 32 {
        note_ring(rings, devices.ring_of(slot, index));
        index = next_flag(flags, index + 1);
    }
}

/// Notes a ring, if there is one.
pub(crate) fn note_ring(rings: &mut RingSet, ring: Option<u8>)
    ensures { (r : ℕ) → has rings.new r ≡ (is_ring r ring || has rings.old r) }
{
    match ring {
        None => {}
        Some(ring) => rings.insert(ring),
    }
}

/// Whether an endpoint has the ring and the command doesn't drop it; `dropped` has the rings of those that it drops.
pub(crate) fn is_kept(devices: &DeviceRecord, dropped: &RingSet, ring: u8) -> bool
    ensures { (h : HeaderValue) (k : Known) (c : CommandValue) → FollowsDevices k devices.now → DriverKeeps h k → HoldsDropped k c dropped.now →
        result ≡ is_kept h k c ring }
{
    devices.has_endpoint(ring) && !dropped.contains(ring)
}
