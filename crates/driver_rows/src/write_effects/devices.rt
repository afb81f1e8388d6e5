//! The device context that an Address Device takes under lease (xHCI 4.6.5, 6.1).
ghost use Rattle.std.specs.Prelude.{◌≡◌, ℕ, ◌+◌, ◌*◌, ◌%◌, ◌^◌, ◌≤◌, ◌||◌, Bool, List, OnOk, option_and_then};
ghost use Rattle.segments.specs.Places.{is_in};
ghost use Rattle.contexts.specs.Contexts.{device_context_bytes};
ghost use Rattle.guest_memory.specs.Memory.{long_at};
ghost use Rattle.traces.specs.declared.header.Header.{Header};
ghost use Rattle.ring_knowledge.specs.Known.{Known};
ghost use Rattle.ring_knowledge.specs.RegisterRecords.{FollowsRegisters};
ghost use Rattle.ring_knowledge.specs.Writes.{device_named, entry_of, no_device, taken_device, with_device};
ghost use Rattle.trace_record.specs.DeviceSlots.Devices.{FollowsDevices};
ghost use Rattle.trace_record.specs.RangeWords.Holding.{HoldsAreas, HoldsSoiled};
ghost use Rattle.driver_rows.specs.WriteEffects.Starting.{EntryFits, IsWith, LiesOnWords, address_taken};

use commands::Command;
use contexts::{ContextSize, long_at};
use guest_memory::WordMemory;
use ring_knowledge::RegisterRecord;
use std::alloc::AllocError;
use trace_record::{Areas, DeviceRecord, SoiledWords};
use traces::Register;

/// The device context that a command takes, by its slot and its address.
pub fn device_taken<M: WordMemory>(
    devices: &DeviceRecord,
    registers: &RegisterRecord,
    memory: &M,
    command: Option<Command>,
) -> Option<(u8, u64)>
    ensures { (k : Known) → FollowsDevices k devices.now → FollowsRegisters k registers.now → ((a : ℕ) → k.memory a ≡ M.words memory.now a) →
        EntryFits k command → result ≡ option_and_then (taken_device k) command }
{
    let command = command?;
    match command {
        Command::AddressDevice { slot, .. } => new_device(devices, registers, memory, slot),
        _ => None,
    }
}

/// The device context that a slot gets, where it has none under lease.
fn new_device<M: WordMemory>(
    devices: &DeviceRecord,
    registers: &RegisterRecord,
    memory: &M,
    slot: u8,
) -> Option<(u8, u64)>
    ensures { (k : Known) → FollowsDevices k devices.now → FollowsRegisters k registers.now → ((a : ℕ) → k.memory a ≡ M.words memory.now a) →
        (k.device slot ≡ None → entry_of k slot + 8 ≤ 2 ^ 64) → result ≡ no_device (k.device slot) slot (device_named k slot) }
{
    if devices.device(slot).is_some() {
        return None;
    }
    let address = device_named(registers, memory, slot)?;
    Some((slot, address))
}

/// The address in the slot's entry of the array that DCBAAP names, where the entry ends within the address space.
fn device_named<M: WordMemory>(registers: &RegisterRecord, memory: &M, slot: u8) -> Option<u64>
    ensures { (k : Known) → FollowsRegisters k registers.now → ((a : ℕ) → k.memory a ≡ M.words memory.now a) →
        entry_of k slot + 8 ≤ 2 ^ 64 → result ≡ Some (device_named k slot) }
{
    let array = registers.value(Register::Dcbaap).unwrap_or(0) / 64 * 64;
    let entry = array.checked_add(8 * u64::from(slot))?;
    Some(long_at(memory, entry))
}

/// A device context comes under lease, if one is taken: the controller may change its words from now on.
pub fn take_device(
    devices: &mut DeviceRecord,
    contexts: &mut Areas,
    soiled: &mut SoiledWords,
    size: ContextSize,
    taken: Option<(u8, u64)>,
) -> Result<(), AllocError>
    ensures devices { OnOk result ((h : Header) (k : Known) → FollowsDevices k devices.old → FollowsDevices (with_device h k taken) devices.new) }
    ensures contexts { OnOk result ((n : ℕ) (old new : List ℕ) → IsWith (address_taken taken) old new → HoldsAreas n old contexts.old → HoldsAreas n new contexts.new) }
    ensures soiled { OnOk result ((h : Header) (k : Known) → h.context_size ≡ size → LiesOnWords size taken →
        HoldsSoiled k.soiled soiled.old → HoldsSoiled ((with_device h k taken).soiled) soiled.new) }
{
    match taken {
        None => Ok(()),
        Some((slot, address)) => {
            devices.take_device(slot, address);
            add_area(contexts, Some(address))?;
            soil_context(soiled, size, address)
        }
    }
}

/// The words of a device context are soiled, where it lies on words and ends within the address space.
fn soil_context(soiled: &mut SoiledWords, size: ContextSize, address: u64) -> Result<(), AllocError>
    ensures { OnOk result ((before : ℕ → Bool) → address % 4 ≡ 0 → address + device_context_bytes size ≤ 2 ^ 64 →
        HoldsSoiled before soiled.old → HoldsSoiled (λ x. is_in x address (device_context_bytes size) || before x) soiled.new) }
{
    let words = 8 * size.bytes();
    if address % 4 == 0 && address <= u64::MAX - 4 * words + 1 {
        soiled.soil(address, words)
    } else {
        Ok(())
    }
}

/// An area comes to those that are held, if one is given.
pub fn add_area(areas: &mut Areas, start: Option<u64>) -> Result<(), AllocError>
    ensures { OnOk result ((n : ℕ) (old new : List ℕ) → IsWith start old new → HoldsAreas n old areas.old → HoldsAreas n new areas.new) }
{
    match start {
        Some(start) => areas.add(start),
        None => Ok(()),
    }
}
