//! A row of an event: xHCI 4.5.3, 4.6, 4.8.3, 4.9.4, 4.10, 6.4.2.
ghost use Rattle.std.specs.Prelude.{◌≡◌, ◌+◌, ◌&&◌, [], ℕ, false, true, not, length, IfErr, OnOk};
ghost use Rattle.std.specs.Bool.{OnTrue};
ghost use Rattle.trb.specs.Block.{kind};
ghost use Rattle.trb.specs.Kind.{is_transfer_event};
ghost use Rattle.traces.specs.AllowedHeaders.{IsHeader};
ghost use Rattle.traces.specs.Limits.{most_streamed_lines};
ghost use Rattle.traces.specs.declared.row.Row.TheVariants.{Read};
ghost use Rattle.ring_knowledge.specs.Known.{Known};
ghost use Rattle.ring_knowledge.specs.Learned.{event_read};
ghost use Rattle.ring_knowledge.specs.Completions.{completed};
ghost use Rattle.trace_record.specs.RingFinder.Finding.{IsFinder};
ghost use Rattle.ownership_rules.specs.Events.{is_impossible_by_kind, is_impossible_completion, is_in_profile};
ghost use Rattle.ownership_rules.specs.Rules.{broken};
ghost use Rattle.safety.specs.Keeps.{DriverKeeps};
ghost use Rattle.trace_record.specs.FollowsTrace.{FollowsTrace};
ghost use Rattle.trace_record.specs.Fresh.{IsWithin};
ghost use Rattle.trace_record.specs.RowPlaces.{IsNext, IsPlaced};
ghost use Rattle.trace_record.specs.Steps.{IfRefused, IsLeast, IsRowStep};

use commands::SaidCommand;
use event_rows::{count_read, is_left_out, is_no_event, read_completion, read_transfer_event};
use guest_memory::WordMemory;
use ownership_rules::Refusal;
use trace_record::{Finder, RowPlace, StepFault, TraceRecord};
use traces::Header;
use trb::{Block, BlockKind};

/// Checks an event before the stop, and notes it: rules 21 and 23, in this order. `place` has the command that ends with it.
#[inline(always)]
pub fn check_event<M: WordMemory>(
    header: &Header,
    finder: &Finder,
    kept: &mut TraceRecord,
    memory: &M,
    event: Block,
    place: &RowPlace,
) -> Result<(), StepFault>
    requires headed { IsHeader header.now }
    requires found { IsFinder header.now.rings finder.now }
    requires as_many { length kept.now.rings.items ≡ length header.now.rings }
    requires few_reads { IsWithin kept.now.events most_streamed_lines }
    ensures ok { OnOk result ((k : Known) → FollowsTrace header.now k kept.old (M.words memory.now) → DriverKeeps header.now k → k.stopped ≡ false →
        IsPlaced header.now k (Read event) place.now → IsRowStep header.now k (Read event) kept.new (M.words memory.now)) }
    ensures refused { IfErr result (λ e. IfRefused e (λ c. (k : Known) → FollowsTrace header.now k kept.old (M.words memory.now) → DriverKeeps header.now k → k.stopped ≡ false →
        IsPlaced header.now k (Read event) place.now → IsLeast header.now k (Read event) c)) }
    ensures reads { OnOk result ((n : ℕ) → IsWithin kept.old.events n → IsWithin kept.new.events (n + 1)) }
{
    if is_no_event(kept, event) {
        return Err(StepFault::Refused(Refusal::ImpossibleEvent));
    }
    // an event that the profile leaves out is impossible by its place alone
    if is_left_out(header, &kept.devices, event) {
        return Err(StepFault::Refused(Refusal::NotInProfile));
    }
    if !note_event(header, finder, kept, memory, event, place) {
        return Err(StepFault::Refused(Refusal::ImpossibleEvent));
    }
    count_read(kept, event);
    Ok(())
}

/// Notes what an event adds that a controller can have posted, but for its count, and tells whether one can, by its type.
#[inline(always)]
fn note_event<M: WordMemory>(
    header: &Header,
    finder: &Finder,
    kept: &mut TraceRecord,
    memory: &M,
    event: Block,
    place: &RowPlace,
) -> bool
    requires headed { IsHeader header.now }
    requires found { IsFinder header.now.rings finder.now }
    requires as_many { length kept.now.rings.items ≡ length header.now.rings }
    ensures possible { (k : Known) → FollowsTrace header.now k kept.old (M.words memory.now) → DriverKeeps header.now k → IsPlaced header.now k (Read event) place.now →
        (is_transfer_event (kind event) && not (is_in_profile header.now k event)) ≡ false → result ≡ not (is_impossible_by_kind header.now k (kind event) event) }
    ensures followed { OnTrue result ((k : Known) → FollowsTrace header.now k kept.old (M.words memory.now) → DriverKeeps header.now k → IsPlaced header.now k (Read event) place.now → broken header.now k (Read event) ≡ [] →
        FollowsTrace header.now (event_read header.now k (kind event) event) kept.new (M.words memory.now)) }
    ensures events { kept.new.events ≡ kept.old.events }
{
    match event.kind() {
        BlockKind::TransferEvent => read_transfer_event(header, finder, kept, event),
        BlockKind::CommandCompletion => note_completion(
            header,
            finder,
            kept,
            memory,
            event,
            place.command,
        ),
        _ => true,
    }
}

/// The same of a Command Completion Event.
fn note_completion<M: WordMemory>(
    header: &Header,
    finder: &Finder,
    kept: &mut TraceRecord,
    memory: &M,
    event: Block,
    next: Option<SaidCommand>,
) -> bool
    requires headed { IsHeader header.now }
    requires found { IsFinder header.now.rings finder.now }
    requires as_many { length kept.now.rings.items ≡ length header.now.rings }
    ensures possible { (k : Known) → FollowsTrace header.now k kept.old (M.words memory.now) → DriverKeeps header.now k → IsNext header.now k next →
        result ≡ not (is_impossible_completion header.now k event) }
    ensures followed { OnTrue result ((k : Known) → FollowsTrace header.now k kept.old (M.words memory.now) → DriverKeeps header.now k → k.started ≡ true → IsNext header.now k next → is_impossible_completion header.now k event ≡ false →
        FollowsTrace header.now (completed header.now k event) kept.new (M.words memory.now)) }
    ensures events { kept.new.events ≡ kept.old.events }
{
    read_completion(header, finder, kept, memory, event, next)
}
