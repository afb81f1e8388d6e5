ghost use Rattle.std.specs.Prelude.{◌≡◌, ◌||◌, ℕ, List, [], ◌∷◌, false, None, IfSome, OnOk};
ghost use Rattle.commands.specs.declared.command.Command.{Command as CommandValue};
ghost use Rattle.traces.specs.AllowedHeaders.{IsHeader};
ghost use Rattle.traces.specs.declared.row.Row.TheVariants.{Write};
ghost use Rattle.ring_knowledge.specs.Known.{Known};
ghost use Rattle.ring_knowledge.specs.Learned.{learned};
ghost use Rattle.ring_knowledge.specs.Writes.{command_given};
ghost use Rattle.ownership_rules.specs.LenientRules.{lenient};
ghost use Rattle.trace_record.specs.RingFinder.Finding.{IsFinder};
ghost use Rattle.safety.specs.Keeps.{DriverKeeps};
ghost use Rattle.trace_record.specs.DeviceSlots.Unfinished.{FollowsUnfinished};
ghost use Rattle.trace_record.specs.RangeWords.Holding.{HoldsAreas};
ghost use Rattle.trace_record.specs.FollowsTrace.{FollowsTrace, inputs_of};
ghost use Rattle.trace_record.specs.Premises.{FitsMemory};
ghost use Rattle.trace_record.specs.RingSets.{has};
ghost use Rattle.trace_record.specs.RowPlaces.{IsPlacedSo};
ghost use Rattle.driver_rows.specs.RingBindings.Contexts.{HoldsContexts};
ghost use Rattle.driver_rows.specs.WriteEffects.Starting.{IsWith, MayBeGiven, binds_ring_if};

use crate::bindings::note_bound;
use crate::write_effects::devices::{add_area, device_taken, take_device};
use crate::write_effects::rings::note_on_ring;
use crate::writes::WordWrite;
use commands::Command;
use guest_memory::{Addr, WordMemory};
use std::alloc::AllocError;
use trace_record::{
    Areas, DeviceRecord, Finder, RingSet, RowPlace, TraceRecord, UnfinishedCommands,
};
use traces::Header;

/// Makes a write that breaks no rule, and notes what it gives (xHCI 4.9.2): `command` is the command that it gives, if it gives
/// one, which is unfinished from now on. Its input context comes under lease, and the device context that it takes (xHCI 4.6.5).
/// `AllocError` where memory is wanting; the record is then of no more use.
pub fn note_write<M: WordMemory>(
    header: &Header,
    finder: &Finder,
    t: &mut TraceRecord,
    memory: &mut M,
    write: &WordWrite<'_>,
    command: Option<Command>,
) -> Result<(), AllocError>
    requires headed { IsHeader header.now }
    requires found { IsFinder header.now.rings finder.now }
    ensures ok { OnOk result ((k : Known) → FollowsTrace header.now k t.old (M.words memory.old) → IsPlacedSo header.now k write.now.at write.now.word write.now.place.now → command ≡ command_given header.now k write.now.at write.now.word →
        DriverKeeps header.now k → lenient header.now k (Write write.now.at write.now.word) ≡ [] → k.stopped ≡ false →
        FollowsTrace header.now (learned header.now k (Write write.now.at write.now.word)) t.new (M.words memory.new)) }
    ensures events { t.new.events ≡ t.old.events }
{
    let taken = device_taken(&t.devices, &t.registers, memory, command);
    memory.set(write.at, write.word)?;
    note_on_ring(header, &mut t.rings, write.place);
    t.soiled.clear(write.at)?;
    note_given(&mut t.commands, &mut t.inputs, command)?;
    note_rings(header, finder, &t.devices, memory, command, &mut t.bound);
    take_device(
        &mut t.devices,
        &mut t.contexts,
        &mut t.soiled,
        header.context_size,
        taken,
    )
}

/// The same of a write that gives no command.
#[inline(always)]
pub fn note_plain_write<M: WordMemory>(
    header: &Header,
    trace: &mut TraceRecord,
    memory: &mut M,
    at: Addr,
    word: u32,
    place: &RowPlace,
) -> Result<(), AllocError>
    requires headed { IsHeader header.now }
    ensures ok { OnOk result ((k : Known) → FollowsTrace header.now k trace.old (M.words memory.old) → IsPlacedSo header.now k at word place.now → command_given header.now k at word ≡ None →
        DriverKeeps header.now k → lenient header.now k (Write at word) ≡ [] →
        FollowsTrace header.now (learned header.now k (Write at word)) trace.new (M.words memory.new)) }
    ensures events { trace.new.events ≡ trace.old.events }
{
    memory.set(at, word)?;
    note_on_ring(header, &mut trace.rings, place);
    trace.soiled.clear(at)?;
    Ok(())
}

/// The rings that the command binds which is given, if one is, are bound from now on (xHCI 4.6.5, 4.6.6).
fn note_rings<M: WordMemory>(
    header: &Header,
    finder: &Finder,
    devices: &DeviceRecord,
    memory: &M,
    command: Option<Command>,
    bound: &mut RingSet,
)
    requires headed { IsHeader header.now }
    requires found { IsFinder header.now.rings finder.now }
    ensures { (k : Known) → HoldsContexts k devices.now (M.words memory.now) → IfSome command (FitsMemory header.now.context_size) →
        (r : ℕ) → has bound.new r ≡ (has bound.old r || binds_ring_if header.now k r command) }
{
    if let Some(command) = command {
        note_bound(header, finder, devices, memory, &command, bound);
    }
}

/// The command that is given, if one is, is unfinished, and its input context under lease.
fn note_given(
    commands: &mut UnfinishedCommands,
    inputs: &mut Areas,
    command: Option<Command>,
) -> Result<(), AllocError>
    ensures commands { OnOk result ((old new : List CommandValue) → IsWith command old new → MayBeGiven command old →
        FollowsUnfinished old commands.old → FollowsUnfinished new commands.new) }
    ensures inputs { OnOk result ((n : ℕ) (old new : List CommandValue) → IsWith command old new →
        HoldsAreas n (inputs_of old) inputs.old → HoldsAreas n (inputs_of new) inputs.new) }
{
    match command {
        None => Ok(()),
        Some(command) => {
            commands.give(command);
            add_area(inputs, command.input_context())
        }
    }
}
