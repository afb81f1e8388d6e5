//! Which Command Completion Events no controller can have posted (xHCI 4.6, 4.5.3, 4.8.3).
ghost use Rattle.std.specs.Prelude.{◌≡◌, ℕ};
ghost use Rattle.segments.specs.RingView.{RingView, floor_number};
ghost use Rattle.traces.specs.AllowedHeaders.{IsHeader};
ghost use Rattle.ring_knowledge.specs.Known.{Known};
ghost use Rattle.ring_knowledge.specs.RegisterRecords.{FollowsRegisters};
ghost use Rattle.ring_knowledge.specs.RingRecords.{FollowsRing};
ghost use Rattle.trace_record.specs.DeviceSlots.Devices.{FollowsDevices};
ghost use Rattle.ownership_rules.specs.Events.{is_impossible_completion};
ghost use Rattle.trace_record.specs.RingFinder.Finding.{IsFinder};
ghost use Rattle.trace_record.specs.FollowsTrace.{FollowsTrace};
ghost use Rattle.trace_record.specs.Premises.{IsSetUp};
ghost use Rattle.trace_record.specs.RingCommands.{command_in};
ghost use Rattle.trace_record.specs.RowPlaces.{IsNext};
ghost use Rattle.event_rows.specs.CommandCompletions.Commands.{is_no_completion};

use crate::completions::possible::cannot_finish;
use commands::Command;
use ring_knowledge::RingRecord;
use segments::RingShape;
use trace_record::{Finder, TraceRecord};
use traces::Header;
use trb::Block;

/// Whether no controller can have posted this completion: it can't have come to the next command, `command`, or the completion
/// names another address, or has no code, or the command can't have ended so.
pub(crate) fn is_impossible_completion(
    header: &Header,
    finder: &Finder,
    t: &TraceRecord,
    command: Option<Command>,
    block: Block,
) -> bool
    requires headed { IsHeader header.now }
    requires found { IsFinder header.now.rings finder.now }
    ensures { (k : Known) (words : ℕ → ℕ) → FollowsTrace header.now k t.now words → IsSetUp header.now k → IsNext header.now k command →
        result ≡ is_impossible_completion header.now k block }
{
    let Some(number) = finder.commands else {
        return true;
    };
    let Some(known) = t.rings.get(number) else {
        return true;
    };
    let rings = header.rings.as_slice();
    let ring = &rings[number];
    is_no_completion(&ring.shape, known, t, command, block)
}

/// The same of a command ring, from what is known of slots, endpoints and registers.
fn is_no_completion(
    shape: &RingShape,
    known: &RingRecord,
    t: &TraceRecord,
    command: Option<Command>,
    block: Block,
) -> bool
    ensures { (v : RingView) (k : Known) → FollowsRing shape.now v known.now → FollowsDevices k t.now.devices → FollowsRegisters k t.now.registers →
        command ≡ command_in v.queue (floor_number v) → result ≡ is_no_completion k shape.now v block }
{
    let next = known.floor_number();
    next >= known.ceiling()
        || block.pointer() != shape.address(next)
        || block.code() == 0
        || cannot_finish(&t.devices, &t.registers, command, block)
}
