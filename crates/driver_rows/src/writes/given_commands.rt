//! The command that a write gives, and its rules: xHCI 4.6.
ghost use Rattle.std.specs.Prelude.{◌≡◌, ◌&&◌, ℕ, not, if◌then◌else◌, None, IfNone, IfSome};
ghost use Rattle.trb.specs.declared.ring_kind.RingKind.{RingKind};
ghost use Rattle.segments.specs.RingView.{RingView};
ghost use Rattle.traces.specs.Header.{is_command_kind};
ghost use Rattle.traces.specs.AllowedHeaders.{IsHeader};
ghost use Rattle.ring_knowledge.specs.Known.{Known};
ghost use Rattle.ring_knowledge.specs.RingRecords.{positions_of};
ghost use Rattle.trace_record.specs.RingFinder.Finding.{IsFinder};
ghost use Rattle.traces.specs.Versions.{is_lenient};
ghost use Rattle.ownership_rules.specs.Moves.{binds_again};
ghost use Rattle.ownership_rules.specs.ByVersion.{places_badly};
ghost use Rattle.ownership_rules.specs.FirstBroken.{first_broken};
ghost use Rattle.safety.specs.Keeps.{DriverKeeps};
ghost use Rattle.trace_record.specs.FollowsTrace.{FollowsTrace};
ghost use Rattle.trace_record.specs.Premises.{ContextsFit, FitsMemory};
ghost use Rattle.driver_rows.specs.ContextRules.Contents.{IsAligned, NamesLow};
ghost use Rattle.trace_record.specs.RingCommands.{command_on};
ghost use Rattle.driver_rows.specs.MemoryWrites.WriteTests.{GivesOnPosition, command_tests};

use crate::bindings::{binds_again, is_bad_binding, is_bad_move};
use crate::context_rules::{has_left_out_endpoint, is_bad_command};
use crate::writes::side_by_side::has_busy_slot;
use commands::Command;
use guest_memory::WordMemory;
use ownership_rules::Refusal;
use ring_knowledge::RingGiving;
use trace_record::{Finder, RowPlace, TraceRecord, command_said};
use traces::Header;

/// The command that a write gives: by a position alone.
pub(crate) fn given_command(place: &RowPlace) -> Option<Command>
    ensures value { (v : RingView) (kind : RingKind) → place.now.command ≡ (if is_command_kind kind then command_on v (positions_of place.now.giving) else None) →
        result ≡ (if is_command_kind kind then command_on v (positions_of place.now.giving) else None) }
    ensures aligned { IfSome result IsAligned }
    ensures low { IfSome result NamesLow }
    ensures quiet { GivesOnPosition place.now.giving result }
{
    match place.giving {
        Some(RingGiving::Position(_)) => command_said(place.command),
        Some(RingGiving::Crossing(_)) => None,
        None => None,
    }
}

/// Which rule a command breaks first.
pub(crate) fn command_refusal<M: WordMemory>(
    header: &Header,
    finder: &Finder,
    t: &TraceRecord,
    memory: &M,
    command: &Command,
) -> Option<Refusal>
    requires headed { IsHeader header.now }
    requires found { IsFinder header.now.rings finder.now }
    requires aligned { IsAligned command.now }
    requires low { NamesLow command.now }
    ensures first { (k : Known) → FollowsTrace header.now k t.now (M.words memory.now) → DriverKeeps header.now k → ContextsFit header.now k →
        result ≡ first_broken (command_tests header.now k command.now) }
    ensures fits { IfNone result (FitsMemory header.now.context_size command.now) }
{
    if is_bad_command(header, finder, t, memory, command) {
        return Some(Refusal::BadCommand);
    }
    if has_busy_slot(header, t, memory, command) {
        return Some(Refusal::Busy);
    }
    if has_left_out_endpoint(header, memory, command) {
        return Some(Refusal::NotInProfile);
    }
    if places_badly(header, finder, t, memory, command) {
        return Some(Refusal::BadMove);
    }
    None
}

/// Whether the command binds or moves a ring to where it may not be, or binds one again where the trace's version refuses that.
fn places_badly<M: WordMemory>(
    header: &Header,
    finder: &Finder,
    t: &TraceRecord,
    memory: &M,
    command: &Command,
) -> bool
    requires headed { IsHeader header.now }
    requires found { IsFinder header.now.rings finder.now }
    ensures { (k : Known) → FollowsTrace header.now k t.now (M.words memory.now) → DriverKeeps header.now k → ContextsFit header.now k →
        FitsMemory header.now.context_size command.now → result ≡ places_badly header.now k command.now }
{
    if is_bound_again(header, finder, t, memory, command) {
        return true;
    }
    is_bad_binding(header, finder, t, memory, command)
        || is_bad_move(header, finder, t, memory, command)
}

/// Whether the command binds a ring that was bound before, where the trace's version refuses that.
fn is_bound_again<M: WordMemory>(
    header: &Header,
    finder: &Finder,
    t: &TraceRecord,
    memory: &M,
    command: &Command,
) -> bool
    requires headed { IsHeader header.now }
    requires found { IsFinder header.now.rings finder.now }
    ensures { (k : Known) → FollowsTrace header.now k t.now (M.words memory.now) → FitsMemory header.now.context_size command.now →
        result ≡ (binds_again header.now k command.now && not (is_lenient header.now.version)) }
{
    !header.version.is_lenient() && binds_again(header, finder, &t.devices, memory, command)
}
